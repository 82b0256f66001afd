use std::fmt::Display;
use std::io;
use thiserror::Error;

/// Why a program fails, as it is said on standard error.
#[derive(Debug, Drop, Error)]
pub enum Failure<E: Display> {
    /// The file of this name cannot be read.
    #[error("{0}: cannot be read: {1}")]
    Unread(&'static str, io::Error),
    /// What goes by this name is refused.
    #[error("{0}: {1}")]
    Refused(&'static str, E),
    /// Standard output takes no more.
    #[error("standard output: {0}")]
    Unwritten(io::Error),
}
