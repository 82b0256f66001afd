// The patterns that stand before the next node, with the tables over the places of all of them: the
// tables grow with each node, and no node is looked at twice.
ghost use Rattle.std.specs.Prelude.{◌≡◌, ℕ, ◌<◌, ◌≤◌, if◌then◌else◌, vec_len, bit_or};
ghost use Rattle.bitsets.specs.Sets.{has};
ghost use Rattle.patterns.specs.Tables.{at};

use crate::node::Node;
use crate::refusal::PatternRefusal;
use bitsets::SmallSet;
use std::alloc::{AllocError, Global};

// A pattern has at most this many leaves, so that its places, the start among them, fit a set.
const MOST_LEAVES: usize = 63;

// What the tables have to know of a pattern that stands finished before the next node.
#[derive(Clone, Copy, PartialEq, Eq, Debug)]
pub(crate) struct Part {
    pub first: SmallSet,
    pub last: SmallSet,
    pub nullable: bool,
}

// What is known of each pattern that stands, the last one last, and the tables over the places of
// all of them: the followers of each place, and for each letter the places whose leaf holds it.
#[derive(Drop)]
pub(crate) struct Stack {
    pub parts: Vec<Part>,
    pub followers: Vec<SmallSet>,
    pub holders: Vec<SmallSet>,
    ghost room: { vec_len followers ≤ 64 },
    ghost span: { vec_len holders ≤ 16 },
}

impl Stack {
    ghost use Rattle.std.specs.Prelude.{List, [], IfOk};
    ghost use Rattle.expressions.specs.Expr.{Expr};
    ghost use Rattle.patterns.specs.Drafts.{Drafted, Enters, Grows, Popped, PoppedTwo, laid};
    ghost use Rattle.patterns.specs.declared.node.Node.TheVariants.{Leaf, Seq, Alt, Star};

    // No pattern yet, over so many letters.
    pub(crate) fn new(heap: Global, letters: u8) -> Result<Stack, AllocError>
        requires { letters ≤ 16 }
        ensures { IfOk result (λ s. Drafted [] s × (vec_len s.holders ≡ letters)) }
    {
        let mut followers = Vec::new(heap);
        followers.push(SmallSet::empty())?;
        let holders = vec![in heap; SmallSet::empty(); letters as usize]?;
        Ok(Stack {
            parts: Vec::new(heap),
            followers,
            holders,
        })
    }

    // One node more; a stack that refused a node is of no use any more.
    pub(crate) fn enter(&mut self, node: Node) -> Result<(), PatternRefusal>
        ensures { Enters node self.old result self.new }
    {
        let part = self.make(node)?;
        self.parts.push(part)?;
        Ok(())
    }

    // Enters a node into the tables, and gives what is known of the pattern that it makes.
    fn make(&mut self, node: Node) -> Result<Part, PatternRefusal>
        ensures { Grows node self.old result self.new }
    {
        match node {
            Node::Never => Ok(placeless(false)),
            Node::Empty => Ok(placeless(true)),
            Node::Leaf(letters) => self.leaf(letters),
            Node::Seq => self.seq(),
            Node::Alt => self.alt(),
            Node::Star => self.star(),
        }
    }

    // One place more.
    fn leaf(&mut self, letters: SmallSet) -> Result<Part, PatternRefusal>
        ensures { Grows (Leaf letters) self.old result self.new }
    {
        let place = self.followers.len();
        if place > MOST_LEAVES {
            return Err(PatternRefusal::Leaves);
        }
        self.followers.push(SmallSet::empty())?;
        let here = SmallSet::only(place as u8);
        unite_at(&mut self.holders, letters, here);
        Ok(Part {
            first: here,
            last: here,
            nullable: false,
        })
    }

    // The lasts of the first pattern are followed by the firsts of the second.
    fn seq(&mut self) -> Result<Part, PatternRefusal>
        ensures { Grows Seq self.old result self.new }
    {
        let (a, b) = self.pop_two().ok_or(PatternRefusal::Operands)?;
        unite_at(&mut self.followers, a.last, b.first);
        Ok(Part {
            first: a.first.union(only_if(a.nullable, b.first)),
            last: only_if(b.nullable, a.last).union(b.last),
            nullable: a.nullable & b.nullable,
        })
    }

    // Either of two patterns.
    fn alt(&mut self) -> Result<Part, PatternRefusal>
        ensures { Grows Alt self.old result self.new }
    {
        let (a, b) = self.pop_two().ok_or(PatternRefusal::Operands)?;
        Ok(Part {
            first: a.first.union(b.first),
            last: a.last.union(b.last),
            nullable: a.nullable | b.nullable,
        })
    }

    // The lasts of the pattern are followed by its firsts.
    fn star(&mut self) -> Result<Part, PatternRefusal>
        ensures { Grows Star self.old result self.new }
    {
        let a = self.pop().ok_or(PatternRefusal::Operands)?;
        unite_at(&mut self.followers, a.last, a.first);
        Ok(Part {
            nullable: true,
            ..a
        })
    }

    // The last two patterns that stand, taken off.
    fn pop_two(&mut self) -> Option<(Part, Part)>
        ensures popped { (es : List Expr) → self.old.parts.items ≡ laid es → PoppedTwo es result self.new.parts.items }
        ensures followers { self.new.followers ≡ self.old.followers }
        ensures holders { self.new.holders ≡ self.old.holders }
    {
        let b = self.pop()?;
        let a = self.pop()?;
        Some((a, b))
    }

    // The last pattern that stands, taken off.
    fn pop(&mut self) -> Option<Part>
        ensures popped { (es : List Expr) → self.old.parts.items ≡ laid es → Popped es result self.new.parts.items }
        ensures followers { self.new.followers ≡ self.old.followers }
        ensures holders { self.new.holders ≡ self.old.holders }
    {
        self.parts.pop()
    }
}

// A pattern without places.
fn placeless(nullable: bool) -> Part
    ensures { result ≡ record { first = record { bits = 0 }; last = record { bits = 0 }; nullable = nullable } }
{
    Part {
        first: SmallSet::empty(),
        last: SmallSet::empty(),
        nullable,
    }
}

// The set where the test holds, else nothing.
pub(crate) fn only_if(test: bool, set: SmallSet) -> SmallSet
    ensures { result.bits ≡ (if test then set.bits else 0) }
{
    if test { set } else { SmallSet::empty() }
}

// The sets at the indices that `which` holds take in `more`.
fn unite_at(table: &mut Vec<SmallSet>, which: SmallSet, more: SmallSet)
    requires { vec_len table.old ≤ 64 }
    ensures len { vec_len table.new ≡ vec_len table.old }
    ensures unites { (k : ℕ) → k < vec_len table.old → at table.new.items k ≡ bit_or (at table.old.items k) (if has which.bits k then more.bits else 0) }
{
    for (k, set) in table.iter_mut().enumerate() {
        if which.holds(k as u8) {
            *set = set.union(more);
        }
    }
}
