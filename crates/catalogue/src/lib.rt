//! The catalogue: what stands, and the calls on it.
#![tactic(auto)]

mod catalogue;
mod formats;
mod hitting;
mod report;
mod signatures;
mod standing;

pub use catalogue::{Catalogue, LONGEST_READING};
pub use faults::{Cause, Fault, FaultLine};
pub use formats::MOST_FORMATS;
pub use records::{Hit, HitStatus, Status};
pub use signatures::MOST_SIGNATURES;
