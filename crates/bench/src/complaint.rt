//! Why nothing was measured.
use engine::TooLong;
use std::alloc::AllocError;
use std::io;
use thiserror::Error;

/// Why nothing was measured.
#[derive(Debug, Drop, Error)]
pub enum Complaint {
    /// There is no memory for the file or the answer.
    #[error("out of memory")]
    Memory(#[from] AllocError),
    /// The words of the call are not those of the usage.
    #[error("the words are FILE TEXT [RUNS] [backward]; --help says more")]
    Words,
    /// The number of searches is none, or 0.
    #[error("RUNS is a number from 1 to 4294967295")]
    Runs,
    /// The file cannot be read.
    #[error("FILE cannot be read: {0}")]
    Unreadable(io::Error),
    /// The answer cannot be written.
    #[error("the answer cannot be written: {0}")]
    Output(io::Error),
    /// The text is longer than a pattern text may be.
    #[error(transparent)]
    TooLong(#[from] TooLong),
    /// The words of the call or the clock cannot be read.
    #[error(transparent)]
    System(#[from] io::Error),
}
