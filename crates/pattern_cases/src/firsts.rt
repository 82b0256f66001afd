// The first line.
use crate::case::{Bench, Row};
use alphabets::Numbered;

// First lines that are malformed or absent.
const MALFORMED: [Row; 22] = [
    ("no text", b""),
    ("a newline alone", b"\n"),
    ("another word", b"patterns,1,2,1\nleaf,0\n"),
    ("an upper-case word", b"Pattern,1,2,1\nleaf,0\n"),
    ("no m", b"pattern,1,2\nleaf,0\n"),
    ("a field after m", b"pattern,1,2,1,0\nleaf,0\n"),
    ("a comma after m", b"pattern,1,2,1,\nleaf,0\n"),
    ("an empty n", b"pattern,1,,1\nleaf,0\n"),
    ("a second field of 2", b"pattern,2,2,1\nleaf,0\n"),
    ("a second field of 01", b"pattern,01,2,1\nleaf,0\n"),
    ("a leading zero in n", b"pattern,1,02,1\nleaf,0\n"),
    ("a leading zero in m", b"pattern,1,2,01\nleaf,0\n"),
    ("a sign before n", b"pattern,1,+2,1\nleaf,0\n"),
    ("a space before n", b"pattern,1, 2,1\nleaf,0\n"),
    (
        "an n of 2^64",
        b"pattern,1,18446744073709551616,1\nleaf,0\n",
    ),
    (
        "an m of 2^64",
        b"pattern,1,2,18446744073709551616\nleaf,0\n",
    ),
    ("a first line without newline", b"pattern,1,2,1"),
    ("a NUL byte alone", b"\0"),
    ("a NUL byte after m", b"pattern,1,2,1\0\nleaf,0\n"),
    ("a byte 255 for n", b"pattern,1,\xff,1\nleaf,0\n"),
    ("carriage returns", b"pattern,1,2,1\r\nleaf,0\r\n"),
    ("a blank first line", b"\npattern,1,2,1\nleaf,0\n"),
];

// First lines with another n than the alphabet's, or with an m that no pattern has.
const NUMBERS: [Row; 9] = [
    ("an n of 3 for 2", b"pattern,1,3,1\nleaf,0\n"),
    ("an n of 0", b"pattern,1,0,1\nleaf,0\n"),
    (
        "an n of 2^64 - 1",
        b"pattern,1,18446744073709551615,1\nleaf,0\n",
    ),
    ("another n and an m of 0", b"pattern,1,3,0\n"),
    ("another n and a malformed line", b"pattern,1,3,1\nleaf\n"),
    ("an m of 0", b"pattern,1,2,0\n"),
    ("an m of 128", b"pattern,1,2,128\nleaf,0\n"),
    (
        "an m of 2^64 - 1",
        b"pattern,1,2,18446744073709551615\nleaf,0\n",
    ),
    ("an m of 0 and a malformed line", b"pattern,1,2,0\nleaf\n"),
];

pub(crate) fn run(two: &Bench<'_, Numbered>) -> anyhow::Result<()> {
    two.run_all(&MALFORMED)?;
    two.run_all(&NUMBERS)
}
