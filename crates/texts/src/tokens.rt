ghost use Rattle.std.specs.Prelude.{Decides};
ghost use Rattle.texts.specs.Tokens.{Grows, Reads, Spelt, WellLed};

use super::fields::Token;

/// The field as a number, where it is the number's one spelling, else as a word.
pub fn token<'a>(field: &'a [u8]) -> Token<'a>
    ensures { Spelt field.now result }
{
    match number(field) {
        Some(n) => Token::Number(n),
        None => Token::Word(field),
    }
}

// The number that the field spells, if it spells one.
#[tactic(auto, using(crate::proofs::Spellings::no_led))]
fn number(field: &[u8]) -> Option<u64>
    ensures { Reads field.now result }
{
    if !well_led(field) {
        return None;
    }
    field.iter().try_fold(0, |value, b| with_digit(value, *b))
}

// Whether the field is not empty and has no zero before other bytes.
fn well_led(field: &[u8]) -> bool
    ensures { Decides result (WellLed field.now) }
{
    match field {
        [] => false,
        [_] => true,
        [first, ..] => *first != b'0',
    }
}

// `value` with one more digit, unless the byte is no digit or the number is too large.
fn with_digit(value: u64, byte: u8) -> Option<u64>
    ensures { Grows value byte result }
{
    if !byte.is_ascii_digit() {
        return None;
    }
    value.checked_mul(10)?.checked_add(u64::from(byte - b'0'))
}
