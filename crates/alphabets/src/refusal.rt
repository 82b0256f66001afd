//! Why an alphabet is refused.
ghost use Rattle.std.specs.Prelude.{◌≡◌};
ghost use Rattle.alphabets.specs.Refusals.{number};

use thiserror::Error;

/// Why there is no alphabet of so many letters.
#[derive(Clone, Copy, PartialEq, Eq, Debug, Error)]
pub enum AlphabetRefusal {
    #[error("an alphabet has 1 to 16 letters")]
    Letters = 10,
}

impl AlphabetRefusal {
    /// The number of the refusal.
    // A method and no `From`: the number is what people know it by.
    pub fn number(&self) -> u8
        ensures { result ≡ number self.now }
    {
        *self as u8
    }
}
