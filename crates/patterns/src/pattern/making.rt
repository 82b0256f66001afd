// Patterns made: the blank one, and one from a draft.
ghost use Rattle.std.specs.Prelude.{◌≡◌, ℕ, vec_len};
ghost use Rattle.patterns.specs.Patterns.{Blank, Finished};

use crate::draft::Draft;
use crate::pattern::Pattern;
use crate::refusal::PatternRefusal;
use crate::stack::{Stack, only_if};
use bitsets::SmallSet;
use std::alloc::Global;

impl Pattern {
    /// The blank pattern.
    pub fn blank(heap: Global) -> Pattern
        ensures { Blank result }
    {
        Pattern {
            letters: 0,
            nodes: Vec::new(heap),
            successors: Vec::new(heap),
            carriers: Vec::new(heap),
            finals: SmallSet::empty(),
        }
    }
}

// The pattern of a draft in which one pattern stands.
pub(crate) fn finish(draft: Draft) -> Result<Pattern, PatternRefusal>
    ensures { Finished draft.nodes.items (vec_len draft.stack.holders) result }
{
    let Draft { nodes, stack } = draft;
    let Stack {
        parts,
        followers,
        holders,
    } = stack;
    // A test and an index: what a slice pattern rules out the proof of the refusal doesn't get to know.
    if parts.len() != 1 {
        return Err(PatternRefusal::Left);
    }
    let whole = parts[0];
    let mut successors = followers;
    successors[0] = whole.first.union(successors[0]);
    let finals = whole.last.union(only_if(whole.nullable, SmallSet::only(0)));
    Ok(Pattern {
        letters: holders.len() as u8,
        nodes,
        successors,
        carriers: holders,
        finals,
    })
}
