//! Element kinds, readings, and their meaning: what the engine is generic over.
#![tactic(auto)]

mod backward;
mod byte;
mod bytes;
mod held;
mod kind;
mod mark;
mod marks;
mod reading;
mod spelling;
#[cfg(test)]
mod tests;

pub use backward::Backward;
pub use byte::Byte;
pub use bytes::Bytes;
pub use held::Held;
pub use kind::Kind;
pub use mark::{Band, Mark, NotADigit};
pub use marks::Marks;
pub use reading::{Order, Reading, copy_elements};
pub use spelling::{SpellingFault, read_elements};
