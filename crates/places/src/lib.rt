// The place sets of a pattern as an automaton, and their exact block from the pattern's text.
#![tactic(auto)]

mod block;
pub mod refusal;
pub mod sets;

pub use block::rows_of;
pub use refusal::RowsRefusal;
pub use sets::PlaceSets;
