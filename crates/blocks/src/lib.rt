// Blocks of rows: every state that an automaton reaches, each in a row with the rows that come next,
// found by a search or checked for exactness, once for every kind of state.
#![tactic(auto)]

pub mod automaton;
mod exactness;
mod finding;
pub mod refusal;
pub mod row;
mod searching;

pub use automaton::Automaton;
pub use exactness::is_exact;
pub use refusal::SearchRefusal;
pub use row::Row;
pub use searching::search;
