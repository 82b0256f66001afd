// The nodes of a pattern, in postfix order: a node comes after the patterns that it takes.
use bitsets::SmallSet;

/// One node of a pattern.
// A type beside `notation::Kind`, whose leaf is a word alone.
#[derive(Clone, Copy, PartialEq, Eq, Debug)]
pub enum Node {
    /// No session.
    Never,
    /// Only the session without letters.
    Empty,
    /// The sessions of one letter from this set.
    Leaf(SmallSet),
    /// A session of the first of two patterns, followed by one of the second.
    Seq,
    /// The sessions of either of two patterns.
    Alt,
    /// Any number of sessions of one pattern, joined; none included.
    Star,
}
