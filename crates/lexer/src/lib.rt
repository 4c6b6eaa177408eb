//! The lexer: it takes a pattern text of any length apart into tokens, and a run into the elements of
//! its pairs.
#![tactic(auto)]

mod lexer;
pub mod theorems;
mod token;

pub use lexer::{Cursor, Lexer, Position, Stop};
pub use token::{Gap, RunText, RunsText, Token};
