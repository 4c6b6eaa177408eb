//! The text of a pattern.
ghost use Rattle.std.specs.Prelude.{◌≡◌, ◌<◌, ◌≤◌, length, MatchResult};

use thiserror::Error;

/// A pattern text has at most this many characters.
pub const MOST_CHARACTERS: usize = 200;

/// The text of a pattern: at most 200 characters.
#[derive(Clone, Copy)]
pub struct PatternText<'t> {
    /// The characters, as bytes.
    pub characters: &'t [u8],
    ghost short: { length characters.now ≤ 200 },
}

/// Why a text is no pattern text.
#[derive(Clone, Copy, PartialEq, Eq, Debug, Error)]
#[error("the text has more than 200 characters")]
pub struct TooLong;

impl<'t> TryFrom<&'t [u8]> for PatternText<'t> {
    type Error = TooLong;

    ghost try_from_gives = { λ characters r. MatchResult r
        (λ text. (text.characters.now ≡ characters.now) × (length characters.now ≤ 200))
        (λ _. 200 < length characters.now) };

    fn try_from(characters: &'t [u8]) -> Result<PatternText<'t>, TooLong> {
        if characters.len() > MOST_CHARACTERS {
            return Err(TooLong);
        }
        Ok(PatternText { characters })
    }
}

/// The text without characters.
impl Default for PatternText<'_> {
    fn default() -> Self {
        PatternText { characters: &[] }
    }
}
