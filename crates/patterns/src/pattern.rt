// A pattern with the tables of its places.
ghost use Rattle.std.specs.Prelude.{◌≡◌, ℕ, ◌≤◌, vec_len};
ghost use Rattle.expressions.specs.Tables.{followers, holders, endings};
ghost use Rattle.patterns.specs.Nodes.{expression};
ghost use Rattle.patterns.specs.Tables.{at};

use crate::node::Node;
use bitsets::SmallSet;

mod making;
mod places;

pub(crate) use making::finish;

/// A pattern of bus events over so many letters: its nodes in postfix order, and the tables of its
/// places, place 0 being the start and place k the k-th leaf. The blank pattern has no nodes and no
/// letters.
#[derive(PartialEq, Eq, Debug, Drop)]
pub struct Pattern {
    // As many as there are carriers: a field of its own, since clauses speak of it by this name.
    letters: u8,
    nodes: Vec<Node>,
    // which places follow each place
    successors: Vec<SmallSet>,
    // for each letter, the places whose leaf holds it
    carriers: Vec<SmallSet>,
    // where a session can end
    finals: SmallSet,
    ghost few: { letters ≤ 16 },
    ghost room: { vec_len successors ≤ 64 },
    ghost span: { vec_len carriers ≡ letters },
    ghost follows: { (p : ℕ) → at successors.items p ≡ followers (expression nodes.items) p },
    ghost holds: { (a : ℕ) → at carriers.items a ≡ holders 0 (expression nodes.items) a },
    ghost ends: { finals.bits ≡ endings (expression nodes.items) },
}
