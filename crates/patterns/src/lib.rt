//! What patterns mean: their items, their texts, their fragments, and the theorems about them.
#![tactic(auto)]

mod direction;
mod pattern_text;
mod reference;
pub mod theorems;

pub use direction::Direction;
pub use pattern_text::{MOST_CHARACTERS, PatternText, TooLong};
pub use reference::Reference;
