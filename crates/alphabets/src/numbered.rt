//! The alphabet whose letters are known by their numbers.
ghost use Rattle.std.specs.Prelude.{◌≡◌, ◌≤◌, MatchResult};
ghost use Rattle.alphabets.specs.Numbers.{numbered};
ghost use Rattle.alphabets.specs.Sounds.{numbered_sound};

use crate::{Alphabet, AlphabetRefusal};
use texts::{Token, token};

/// Letters 0 to n - 1. Code c is valid below n and holds the letter c alone; a letter's name is its decimal number.
#[derive(Clone, Copy, PartialEq, Eq, Debug)]
pub struct Numbered {
    n: u8,
    ghost some: { 1 ≤ n },
    ghost few: { n ≤ 16 },
}

impl Numbered {
    /// The numbered alphabet of `n` letters, for `n` from 1 to 16.
    pub fn new(n: u8) -> Result<Numbered, AlphabetRefusal>
        ensures { MatchResult result (λ a. (1 ≤ n) × (n ≤ 16) × (a.n ≡ n)) (λ e. ((1 ≤ n) × (n ≤ 16) → ⊥) × (e ≡ AlphabetRefusal.Letters)) }
    {
        if (1..=16).contains(&n) {
            Ok(Numbered { n })
        } else {
            Err(AlphabetRefusal::Letters)
        }
    }
}

impl Alphabet for Numbered {
    ghost meaning = { λ a. numbered a.n };

    ghost sound = { λ a. numbered_sound a.n a.some a.few };

    fn letters(&self) -> u8 {
        self.n
    }

    fn valid(&self, code: u32) -> bool {
        code < u32::from(self.n)
    }

    fn holds(&self, code: u32, letter: u8) -> bool {
        self.valid(code) && code == u32::from(letter)
    }

    fn letter(&self, name: &[u8]) -> Option<u8> {
        let Token::Number(k) = token(name) else {
            return None;
        };
        u8::try_from(k).ok().filter(|k| *k < self.n)
    }
}
