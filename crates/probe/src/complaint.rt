//! Why a line has no answer.
use engine::{Fault, TooLong};
use kinds::SpellingFault;
use std::alloc::AllocError;
use thiserror::Error;

/// Why a line has no answer.
#[derive(Debug, Drop, Error)]
pub enum Complaint {
    /// There is no memory for the answer.
    #[error("no memory")]
    Memory(#[from] AllocError),
    /// The line is not UTF-8.
    #[error("not UTF-8 text")]
    NotText,
    /// The line is empty.
    #[error("empty line")]
    EmptyLine,
    /// A word is empty: a space stands at an end of the line, or two stand together.
    #[error("words are separated by one space")]
    EmptyWord,
    /// The first word is no command.
    #[error("unknown command")]
    UnknownCommand,
    /// The kind is neither `byte` nor `mark`.
    #[error("unknown kind")]
    UnknownKind,
    /// The command takes another number of words.
    #[error("wrong number of words")]
    NumberOfWords,
    /// The elements are not spelled as pairs.
    #[error(transparent)]
    Spelling(SpellingFault),
    /// The text is longer than a pattern text may be.
    #[error(transparent)]
    TooLong(#[from] TooLong),
    /// The text is refused; that is printed as a line of its own.
    #[error(transparent)]
    Refused(#[from] Fault),
    /// The reference is none of `B`, `E` and `V`.
    #[error("unknown reference")]
    UnknownReference,
    /// An offset or a number of a fragment does not fit 16 bits, or is no number.
    #[error("not a number from 0 to 65535")]
    NotANumber,
    /// The index is not two hexadecimal digits.
    #[error("not an index of two hexadecimal digits")]
    NotAnIndex,
    /// A sequence from anywhere has offsets other than 0 and 0.
    #[error("V takes the offsets 0 0")]
    OffsetsAnywhere,
    /// The least offset is above the greatest.
    #[error("the least offset is above the greatest")]
    OffsetsCrossed,
}

// By hand, since running out of memory is no fault of spelling: it ends the program, and `#[from]`
// would print it.
impl From<SpellingFault> for Complaint {
    fn from(fault: SpellingFault) -> Complaint {
        match fault {
            SpellingFault::Memory => Complaint::Memory(AllocError),
            fault => Complaint::Spelling(fault),
        }
    }
}
