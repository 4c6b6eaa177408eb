//! Records: what they enter, what stands, and what the calls of a catalogue answer.
#![tactic(auto)]

mod format;
mod record;
mod report;
mod rest;
mod rules;
mod signature;
#[cfg(test)]
mod tests;
pub mod theorems;

pub use format::{
    Format, Label, MOST_IDS, MOST_LABEL_CHARACTERS, MOST_LABELS, MOST_NAME_CHARACTERS,
};
pub use record::{Entry, Record, read};
pub use report::{Hit, HitStatus, Status};
pub use signature::{MOST_SEQUENCES, SequenceText, Signature};
