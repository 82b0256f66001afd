// A pattern while its nodes come in.
ghost use Rattle.std.specs.Prelude.{◌≡◌, ◌≤◌, vec_len};
ghost use Rattle.patterns.specs.Drafts.{Drafted, Within};

use crate::node::Node;
use crate::refusal::PatternRefusal;
use crate::stack::Stack;
use std::alloc::{AllocError, Global};

// The nodes so far, and what stands after them.
#[derive(Drop)]
pub(crate) struct Draft {
    pub nodes: Vec<Node>,
    pub stack: Stack,
    ghost drafted: { Drafted nodes.items stack },
}

impl Draft {
    ghost use Rattle.std.specs.Prelude.{[], IfOk};
    ghost use Rattle.patterns.specs.Pushes.{Pushes};

    // No node yet, over so many letters.
    pub(crate) fn new(heap: Global, letters: u8) -> Result<Draft, AllocError>
        requires { letters ≤ 16 }
        ensures { IfOk result (λ d. (d.nodes.items ≡ []) × (vec_len d.stack.holders ≡ letters)) }
    {
        Ok(Draft {
            nodes: Vec::new(heap),
            stack: Stack::new(heap, letters)?,
        })
    }

    // One node more, or why it is refused. Inlined, as its caller is, or the draft is copied at each node.
    #[inline(always)]
    pub(crate) fn with(self, node: Node) -> Result<Draft, PatternRefusal>
        requires { Within (vec_len self.stack.holders) node }
        ensures { Pushes self node result }
    {
        let Draft {
            mut nodes,
            mut stack,
        } = self;
        stack.enter(node)?;
        nodes.push(node)?;
        Ok(Draft { nodes, stack })
    }
}
