// The rows of a block.

// Rows are numbered from 0, below this.
pub(crate) const ROW_NUMBERS: usize = 256;

/// A state of an automaton, and for each letter, from 0 on, the number of the row that comes next.
/// Entries past the automaton's letters are not looked at.
#[derive(PartialEq, Eq, Debug, Drop)]
pub struct Row<S> {
    pub state: S,
    // An array in the row itself, so that a row stands in place and nothing is allocated for each.
    pub next: [u8; 16],
}
