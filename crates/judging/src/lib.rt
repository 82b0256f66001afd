// Judging a recorded trace of bus events by the text of a procedure.
#![tactic(auto)]

mod following;
mod judging;
mod verdict;

pub use judging::judge;
pub use verdict::Verdict;
