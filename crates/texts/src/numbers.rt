ghost use Rattle.std.specs.Prelude.{◌≡◌, ◌<◌, ◌≤◌, length, decimal};
ghost use Rattle.texts.specs.Numbers.{Writes};

use itoa::write_digits;

/// Writes the number's digits to the front of the buffer, and says how many they are.
/// Where the buffer is too short nothing is written.
// A buffer that is handed in and a length, so that writing allocates nothing. Inlined, as writing one digit
// is, so that this costs a caller a test and a store.
#[inline(always)]
pub fn write_number(buffer: &mut [u8], number: u64) -> Option<usize>
    ensures { Writes number buffer.old result buffer.new }
{
    if number < 10 {
        write_digit(buffer, number as u8)
    } else {
        write_longer(buffer, number)
    }
}

// A number of one digit, which is its own spelling.
#[inline(always)]
fn write_digit(buffer: &mut [u8], digit: u8) -> Option<usize>
    requires { digit < 10 }
    ensures { Writes digit buffer.old result buffer.new }
{
    if buffer.is_empty() {
        return None;
    }
    buffer[0] = b'0' + digit;
    Some(1)
}

// A number of more digits, though any would be written right: they are counted first, to see whether they fit,
// and to write them so that they end where they do from the front of the buffer.
fn write_longer(buffer: &mut [u8], number: u64) -> Option<usize>
    ensures { Writes number buffer.old result buffer.new }
{
    let len = digits(number);
    if buffer.len() < len {
        return None;
    }
    let _ = write_digits(number, buffer, len);
    Some(len)
}

// How many digits the number has, counted by fours.
fn digits(number: u64) -> usize
    ensures { result ≡ length (decimal number) }
{
    let mut len = 0;
    let mut n = number;
    while n >= 10_000 {
        n /= 10_000;
        len += 4;
    }
    len + few_digits(n)
}

// How many of at most four.
fn few_digits(n: u64) -> usize
    requires { n < 10000 }
    ensures { result ≡ length (decimal n) }
{
    match n {
        0..=9 => 1,
        10..=99 => 2,
        100..=999 => 3,
        _ => 4,
    }
}
