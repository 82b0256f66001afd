// An automaton whose states can be the same without being equal.
ghost use Rattle.std.specs.Prelude.{◌≤◌};
ghost use Rattle.block_cases.specs.Dials.{dial_fair, dial_moves};

use blocks::Automaton;

/// A hand that goes round a dial of `hours` hours, at least 1: letter a moves it on by a + 1 strides.
/// A state counts hours; two states are the same when the hand shows the same hour.
#[derive(Clone, Copy, PartialEq, Eq, Debug)]
pub struct Dial {
    hours: u16,
    stride: u16,
    letters: u8,
    ghost some: { 1 ≤ hours },
    ghost few: { letters ≤ 16 },
}

impl Dial {
    /// A dial, of 1 hour at least and 16 letters at most, whatever is asked for.
    pub(crate) fn new(hours: u16, stride: u16, letters: u8) -> Dial {
        Dial {
            hours: hours.max(1),
            stride,
            letters: letters.min(16),
        }
    }
}

impl Automaton for Dial {
    type State = u32;

    ghost moves = { λ d. dial_moves d.hours d.stride d.letters };

    ghost fair = { λ d. dial_fair d.hours d.stride d.letters d.few };

    fn letters(&self) -> u8 {
        self.letters
    }

    fn start(&self) -> u32 {
        0
    }

    fn step(&self, state: &u32, letter: u8) -> u32 {
        *state % u32::from(self.hours) + (u32::from(letter) + 1) * u32::from(self.stride)
    }

    fn same(&self, a: &u32, b: &u32) -> bool {
        *a % u32::from(self.hours) == *b % u32::from(self.hours)
    }
}
