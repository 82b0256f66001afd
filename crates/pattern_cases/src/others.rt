// Alphabets other than that of two letters.
use crate::case::{Bench, Row};
use alphabets::{Numbered, Service};

// Codes of the services: sets of 16 letters.
const SERVICES: [Row; 6] = [
    ("services, a leaf of 0", b"pattern,1,16,1\nleaf,0\n"),
    ("services, a leaf of 1", b"pattern,1,16,1\nleaf,1\n"),
    ("services, a leaf of 65535", b"pattern,1,16,1\nleaf,65535\n"),
    ("services, a leaf of 65536", b"pattern,1,16,1\nleaf,65536\n"),
    (
        "services, a leaf of 2^32 - 1",
        b"pattern,1,16,1\nleaf,4294967295\n",
    ),
    ("services, an n of 2", b"pattern,1,2,1\nleaf,1\n"),
];

const ONE: [Row; 2] = [
    ("one letter, a leaf of 0", b"pattern,1,1,1\nleaf,0\n"),
    ("one letter, a leaf of 1", b"pattern,1,1,1\nleaf,1\n"),
];

const SIXTEEN: [Row; 2] = [
    (
        "sixteen letters, a leaf of 15",
        b"pattern,1,16,1\nleaf,15\n",
    ),
    (
        "sixteen letters, a leaf of 16",
        b"pattern,1,16,1\nleaf,16\n",
    ),
];

pub(crate) fn run(rt: &HostRuntime) -> anyhow::Result<()> {
    let services = Bench {
        rt,
        alphabet: &Service,
    };
    services.run_all(&SERVICES)?;
    numbered(rt, 1, &ONE)?;
    numbered(rt, 16, &SIXTEEN)
}

// Under the numbered alphabet of so many letters.
fn numbered(rt: &HostRuntime, n: u8, rows: &[Row]) -> anyhow::Result<()> {
    let alphabet = Numbered::new(n)?;
    Bench {
        rt,
        alphabet: &alphabet,
    }
    .run_all(rows)
}
