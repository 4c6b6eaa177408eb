//! The engine: it reads pattern texts, compiles them, and searches readings.
#![tactic(auto)]

mod anchor_codes;
mod find;
mod fragment;
mod lent;
mod limits;
mod mirror;
mod opening;
mod oriented;
mod pattern;
mod reach;
mod reader;
mod scan;
mod search;
mod sequence;
mod smaller;
mod starts;
mod table;
pub mod theorems;

pub use faults::{Cause, Fault, FaultLine};
pub use fragment::{Fragment, INDICES};
pub use lexer::{Gap, Lexer, Position, RunText, RunsText, Stop, Token};
pub use patterns::{MOST_CHARACTERS, PatternText, Reference, TooLong};
pub use sequence::Sequence;
pub use table::{InTable, SLOTS, Table};
