// Long texts: how many bytes, nodes and leaves there may be.
use crate::case::Bench;
use alphabets::Numbered;
use std::alloc::{AllocError, Global};

// These bytes, so many times.
#[derive(Clone, Copy, PartialEq, Eq, Debug)]
struct Piece(&'static [u8], u16);

// A text in pieces, with its label.
#[derive(Clone, Copy, PartialEq, Eq, Debug)]
struct Case(&'static str, &'static [Piece]);

// How many bytes: 21 + 16 * 254 + 11 and 16 * 256 are 4096.
const BYTES: [Case; 4] = [
    Case(
        "4096 bytes",
        &[
            Piece(b"pattern,1,2,1\nleaf,0\n", 1),
            Piece(b"xxxxxxxxxxxxxxxx", 254),
            Piece(b"x", 11),
        ],
    ),
    Case(
        "4097 bytes",
        &[
            Piece(b"pattern,1,2,1\nleaf,0\n", 1),
            Piece(b"xxxxxxxxxxxxxxxx", 254),
            Piece(b"x", 12),
        ],
    ),
    Case(
        "4096 bytes without a first line",
        &[Piece(b"xxxxxxxxxxxxxxxx", 256)],
    ),
    Case(
        "4097 bytes without a first line",
        &[Piece(b"xxxxxxxxxxxxxxxx", 256), Piece(b"x", 1)],
    ),
];

// How many nodes: 127 at most.
const NODES: [Case; 4] = [
    Case(
        "127 nodes, 126 of them stars",
        &[
            Piece(b"pattern,1,2,127\nleaf,0\n", 1),
            Piece(b"star,0\n", 126),
        ],
    ),
    Case(
        "127 nodes left",
        &[Piece(b"pattern,1,2,127\n", 1), Piece(b"empty,0\n", 127)],
    ),
    Case(
        "126 lines of 127",
        &[
            Piece(b"pattern,1,2,127\nleaf,0\n", 1),
            Piece(b"star,0\n", 125),
        ],
    ),
    Case(
        "128 nodes",
        &[
            Piece(b"pattern,1,2,128\nleaf,0\n", 1),
            Piece(b"star,0\n", 127),
        ],
    ),
];

// How many leaves: 63 at most.
const LEAVES: [Case; 8] = [
    Case(
        "63 leaves in 125 nodes",
        &[
            Piece(b"pattern,1,2,125\n", 1),
            Piece(b"leaf,0\n", 63),
            Piece(b"seq,0\n", 62),
        ],
    ),
    Case(
        "63 leaves in 127 nodes",
        &[
            Piece(b"pattern,1,2,127\n", 1),
            Piece(b"leaf,1\n", 63),
            Piece(b"alt,0\n", 62),
            Piece(b"star,0\n", 2),
        ],
    ),
    Case(
        "64 leaves",
        &[
            Piece(b"pattern,1,2,127\n", 1),
            Piece(b"leaf,0\n", 64),
            Piece(b"seq,0\n", 63),
        ],
    ),
    Case(
        "64 leaves, joined as they come",
        &[
            Piece(b"pattern,1,2,127\nleaf,0\n", 1),
            Piece(b"leaf,0\nseq,0\n", 63),
        ],
    ),
    Case(
        "a bad code on the 64th leaf",
        &[
            Piece(b"pattern,1,2,64\n", 1),
            Piece(b"leaf,0\n", 63),
            Piece(b"leaf,2\n", 1),
        ],
    ),
    Case(
        "a malformed 64th leaf",
        &[
            Piece(b"pattern,1,2,64\n", 1),
            Piece(b"leaf,0\n", 63),
            Piece(b"leaf,00\n", 1),
        ],
    ),
    Case(
        "a 64th leaf before a malformed line",
        &[
            Piece(b"pattern,1,2,65\n", 1),
            Piece(b"leaf,0\n", 64),
            Piece(b"leaf\n", 1),
        ],
    ),
    Case(
        "63 leaves left",
        &[Piece(b"pattern,1,2,63\n", 1), Piece(b"leaf,0\n", 63)],
    ),
];

pub(crate) fn run(two: &Bench<'_, Numbered>) -> anyhow::Result<()> {
    run_all(two, &BYTES)?;
    run_all(two, &NODES)?;
    run_all(two, &LEAVES)
}

// Prints a line for each case.
fn run_all(two: &Bench<'_, Numbered>, cases: &[Case]) -> anyhow::Result<()> {
    for Case(label, pieces) in cases {
        let text = joined(two.rt.alloc(), pieces)?;
        two.run(label, &text)?;
    }
    Ok(())
}

// The pieces, one after another.
fn joined(heap: Global, pieces: &[Piece]) -> Result<Vec<u8>, AllocError> {
    let mut text = Vec::new(heap);
    for piece in pieces {
        append(&mut text, *piece)?;
    }
    Ok(text)
}

// The text with a piece more.
fn append(text: &mut Vec<u8>, piece: Piece) -> Result<(), AllocError> {
    for _ in 0..piece.1 {
        text.extend_from_slice(piece.0)?;
    }
    Ok(())
}
