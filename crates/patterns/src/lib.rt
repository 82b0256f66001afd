// Patterns of bus events: reading them from their texts, their nodes in postfix order, the places
// of their leaves, and what a place set becomes with a letter.
#![tactic(auto)]

mod draft;
pub mod node;
pub mod pattern;
mod reading;
pub mod refusal;
mod stack;

pub use node::Node;
pub use pattern::Pattern;
pub use refusal::{Fault, PatternRefusal};
