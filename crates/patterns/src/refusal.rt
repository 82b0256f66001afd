// Why a pattern text is refused.
ghost use Rattle.patterns.specs.Refusals.{number};
ghost use Rattle.patterns.specs.declared.refusal.PatternRefusal.TheVariants.{Memory};
ghost use Rattle.std.specs.Prelude.{◌≡◌};

use std::alloc::{AllocError, AllocFailed};
use thiserror::Error;

/// Why a pattern text is refused, in the order in which the rules are tried.
#[derive(Clone, Copy, PartialEq, Eq, Debug, Error)]
pub enum PatternRefusal {
    /// The text has more than 4,096 bytes.
    #[error("the text is longer than 4096 bytes")]
    TooLong = 1,
    /// The first line is malformed or absent, or its second field is not 1.
    #[error("the first line is not pattern,1,LETTERS,NODES")]
    Header = 2,
    /// The first line's n is not the alphabet's.
    #[error("the pattern is written for another number of letters")]
    Letters = 3,
    /// The first line's m is outside 1 to 127.
    #[error("a pattern has 1 to 127 nodes")]
    Count = 4,
    /// A line is malformed or absent, or bytes follow the last.
    #[error("a line KIND,CODE is malformed or missing, or text follows the last one")]
    Line = 5,
    /// A leaf code is invalid, or another kind has a code other than 0.
    #[error("this code does not suit this kind of node")]
    Code = 6,
    /// This is the 64th leaf.
    #[error("a pattern has at most 63 leaves")]
    Leaves = 7,
    /// Too few patterns stand before a node that takes some.
    #[error("too few patterns stand before this node")]
    Operands = 8,
    /// More than one pattern is left after the last line.
    #[error("more than one pattern is left at the end")]
    Left = 9,
    /// There was no memory for the pattern: nothing is said of the text.
    #[error("there is not enough memory")]
    Memory = 99,
}

impl PatternRefusal {
    /// The refusal's number.
    // A method and no `From`: the number is what people know it by.
    pub fn number(self) -> u8
        ensures { result ≡ number self }
    {
        self as u8
    }
}

/// Why a pattern text is refused, and at which line, counted from 1; 0 where no line is meant.
#[derive(Clone, Copy, PartialEq, Eq, Debug, Error)]
#[error("refused {number} at line {line}: {why}", number = .why.number())]
pub struct Fault {
    pub why: PatternRefusal,
    // A number and no Option: the written rules give each refusal a line, and 0 to refusals 1 and 99
    // (docs/TEXTS.md).
    pub line: usize,
}

// These three by hand: they are public, and `from_gives` is a promise that no derive makes; the two errors
// of allocation share no trait.
impl From<AllocError> for PatternRefusal {
    ghost from_gives = { λ _ r. r ≡ Memory };

    fn from(_e: AllocError) -> PatternRefusal {
        PatternRefusal::Memory
    }
}

impl<T: Drop> From<AllocFailed<T>> for PatternRefusal {
    ghost from_gives = { λ _ r. r ≡ Memory };

    fn from(_e: AllocFailed<T>) -> PatternRefusal {
        PatternRefusal::Memory
    }
}

impl From<AllocError> for Fault {
    ghost from_gives = { λ _ r. r ≡ record { why = Memory; line = 0 } };

    fn from(_e: AllocError) -> Fault {
        Fault {
            why: PatternRefusal::Memory,
            line: 0,
        }
    }
}
