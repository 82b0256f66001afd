//! Alphabets of up to 16 letters, with the codes that stand for sets of letters and the names of the letters.
#![tactic(auto)]

ghost use Rattle.std.specs.Prelude.{◌≡◌};
ghost use Rattle.alphabets.specs.Meaning.{Meaning, Sound, held_letters};

use bitsets::SmallSet;

mod numbered;
mod refusal;
mod service;
#[cfg(test)]
mod tests;

pub use numbered::Numbered;
pub use refusal::AlphabetRefusal;
pub use service::Service;

/// An alphabet of 1 to 16 letters, 0 and up. Every question is answered, whatever is asked; an invalid code holds no letter.
pub trait Alphabet {
    ghost meaning: { Self → Meaning };

    /// How many letters there are.
    fn letters(&self) -> u8
        ensures { result ≡ (meaning self.now).n };

    /// Whether the code stands for a set of letters.
    fn valid(&self, code: u32) -> bool
        ensures { result ≡ (meaning self.now).valid code };

    /// Whether the code's set holds the letter.
    fn holds(&self, code: u32, letter: u8) -> bool
        ensures { result ≡ (meaning self.now).holds code letter };

    /// The letter with the name, if there is one.
    fn letter(&self, name: &[u8]) -> Option<u8>
        ensures { result ≡ (meaning self.now).letter name.now };

    ghost sound: { (a : Self) → Sound (meaning a) };
}

/// The set of the letters that a code holds; none, where the code is not valid.
pub fn letters_of<A: Alphabet>(alphabet: &A, code: u32) -> SmallSet
    ensures { result.bits ≡ held_letters (A.meaning alphabet.now) code }
{
    let mut set = SmallSet::empty();
    for letter in 0..alphabet.letters() {
        if alphabet.holds(code, letter) {
            set = set.union(SmallSet::only(letter));
        }
    }
    set
}
