// Why no rows are printed.
use alphabets::AlphabetRefusal;
use places::RowsRefusal;
use std::io;
use thiserror::Error;

/// What the program refuses.
#[derive(Debug, Drop, Error)]
pub enum Refusal {
    /// The arguments cannot be read.
    #[error("no arguments: {0}")]
    Unasked(#[from] io::Error),
    /// No alphabet has so many letters.
    #[error("refused {}: {}", .0.number(), .0)]
    Letters(#[from] AlphabetRefusal),
    /// There is no block: the text is refused, or its place sets take too much.
    #[error(transparent)]
    Rows(RowsRefusal),
}
