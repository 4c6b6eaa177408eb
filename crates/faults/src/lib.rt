//! Refusals: one fault for every call, from a text to a catalogue.
#![tactic(auto)]

mod fault;

pub use fault::{Cause, Fault, FaultLine};
