ghost use Rattle.notation.specs.Notation.{GoesOnBy};

use super::kinds::Kind;
use texts::Token;

/// A node's line, as far as its fields have been read.
// The state of the loop over a line's fields that the project asks for inside the loop over the lines
// (docs/DECISIONS.md, Language forms).
#[derive(Clone, Copy, PartialEq, Eq, Debug)]
pub enum Entry {
    Start,
    Named(Kind),
    Whole(Kind, u32),
}

impl Entry {
    /// One field more, where a node's line can go on so.
    #[tactic(auto, using(crate::proofs::Steps::number_first, crate::proofs::Steps::code_large))]
    pub fn with(self, token: Token<'_>) -> Option<Entry>
        ensures { GoesOnBy self token.entry result }
    {
        match (self, token) {
            (Entry::Start, Token::Word(word)) => Kind::named(word).map(Entry::Named),
            (Entry::Named(kind), Token::Number(code)) => {
                Some(Entry::Whole(kind, u32::try_from(code).ok()?))
            }
            _ => None,
        }
    }
}
