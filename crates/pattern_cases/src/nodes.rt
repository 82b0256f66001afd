// The lines after the first.
use crate::case::{Bench, Row};
use alphabets::Numbered;

// Lines that are malformed or absent, and text after the last line.
const MALFORMED: [Row; 21] = [
    ("no line after the first", b"pattern,1,2,1\n"),
    ("one line of two", b"pattern,1,2,2\nleaf,0\n"),
    ("a line without newline", b"pattern,1,2,1\nleaf,0"),
    ("a blank line", b"pattern,1,2,1\n\nleaf,0\n"),
    ("an unknown kind", b"pattern,1,2,1\nplus,0\n"),
    ("an upper-case kind", b"pattern,1,2,1\nLEAF,0\n"),
    ("no kind", b"pattern,1,2,1\n,0\n"),
    ("no code", b"pattern,1,2,1\nleaf\n"),
    ("an empty code", b"pattern,1,2,1\nleaf,\n"),
    ("a field after the code", b"pattern,1,2,1\nleaf,0,0\n"),
    ("a code of 00", b"pattern,1,2,1\nleaf,00\n"),
    ("a code of 01", b"pattern,1,2,1\nleaf,01\n"),
    ("a word for a code", b"pattern,1,2,1\nleaf,a\n"),
    ("a code of 2^32", b"pattern,1,2,1\nleaf,4294967296\n"),
    (
        "a carriage return after the code",
        b"pattern,1,2,1\nleaf,0\r\n",
    ),
    ("a NUL byte after the code", b"pattern,1,2,1\nleaf,0\0\n"),
    ("a byte 255 for a code", b"pattern,1,2,1\nleaf,\xff\n"),
    (
        "a malformed second line of two",
        b"pattern,1,2,2\nleaf,0\nstar\n",
    ),
    ("a line after the last", b"pattern,1,2,1\nleaf,0\nleaf,0\n"),
    ("a blank line after the last", b"pattern,1,2,1\nleaf,0\n\n"),
    (
        "a NUL byte after the last line",
        b"pattern,1,2,1\nleaf,0\n\0",
    ),
];

// Codes that do not suit their kind.
const CODES: [Row; 8] = [
    ("a leaf of the letter n", b"pattern,1,2,1\nleaf,2\n"),
    ("a code of 2^32 - 1", b"pattern,1,2,1\nleaf,4294967295\n"),
    ("a never of 1", b"pattern,1,2,1\nnever,1\n"),
    ("an empty of 1", b"pattern,1,2,1\nempty,1\n"),
    ("a seq of 1", b"pattern,1,2,3\nleaf,0\nleaf,0\nseq,1\n"),
    ("an alt of 1", b"pattern,1,2,3\nleaf,0\nleaf,0\nalt,1\n"),
    ("a star of 1", b"pattern,1,2,2\nleaf,0\nstar,1\n"),
    ("a seq of 1 with none before it", b"pattern,1,2,1\nseq,1\n"),
];

// Too few patterns before a node, or too many at the end.
const STANDING: [Row; 9] = [
    ("a star with none before it", b"pattern,1,2,1\nstar,0\n"),
    ("a seq with none before it", b"pattern,1,2,1\nseq,0\n"),
    (
        "a seq with one before it",
        b"pattern,1,2,2\nleaf,0\nseq,0\n",
    ),
    (
        "an alt with one before it",
        b"pattern,1,2,2\nleaf,0\nalt,0\n",
    ),
    (
        "an alt with one, joined of two",
        b"pattern,1,2,4\nleaf,0\nleaf,1\nseq,0\nalt,0\n",
    ),
    (
        "a lone star, then a malformed line",
        b"pattern,1,2,2\nstar,0\nleaf\n",
    ),
    ("two left", b"pattern,1,2,2\nleaf,0\nleaf,1\n"),
    (
        "three left",
        b"pattern,1,2,4\nleaf,0\nempty,0\nnever,0\nstar,0\n",
    ),
    (
        "two left and a line after the last",
        b"pattern,1,2,2\nleaf,0\nleaf,1\nseq,0\n",
    ),
];

pub(crate) fn run(two: &Bench<'_, Numbered>) -> anyhow::Result<()> {
    two.run_all(&MALFORMED)?;
    two.run_all(&CODES)?;
    two.run_all(&STANDING)
}
