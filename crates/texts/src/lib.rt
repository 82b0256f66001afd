// Texts of bytes: lines that end with a newline byte, fields between commas, decimal numbers.
#![tactic(auto)]

mod fields;
mod find;
mod lines;
mod numbers;
#[cfg(test)]
mod tests;
mod tokens;

pub use fields::Token;
pub use lines::{Cursor, Line};
pub use numbers::write_number;
pub use tokens::token;
