//! Axle marks as elements of a reading, and as a kind: U0, S0 to S9, D0 to D9.
ghost use Rattle.std.specs.Prelude.{◌≡◌, ◌<◌, Some, codes};
ghost use Rattle.std.specs.Result.{result_ok};

use crate::byte::Byte;
use crate::kind::Kind;
use std::error::Error;
use std::fmt;

// How many bands there are.
const BANDS: u8 = 10;

// The bytes of a strip reading that stand for an axle on single tyres, S0 to S9, and for one on
// dual tyres, D0 to D9.
const SINGLE_FIRST: u8 = 0x10;

const SINGLE_LAST: u8 = 0x19;

const DUAL_FIRST: u8 = 0x20;

const DUAL_LAST: u8 = 0x29;

/// The band of the distance to the axle before: one decimal digit, 0 to 9.
///
/// `Band::try_from` makes one of a `u8`, and `u8::from` gives its digit.
#[derive(Clone, Copy, PartialEq, Eq, Debug)]
pub struct Band {
    digit: u8,
    ghost decimal: { digit < 10 },
}

/// What the strip saw of one axle, as an element of a reading (docs/KINDS_AND_READINGS.md).
#[derive(Clone, Copy, PartialEq, Eq, Debug)]
pub enum Mark {
    /// The strip could not read the axle.
    Unread,
    /// An axle on single tyres, with the band of its distance to the axle before.
    Single(Band),
    /// An axle on dual tyres, with the band of its distance to the axle before.
    Dual(Band),
}

/// The refusal of a number that is no band: it is above 9.
#[derive(Clone, Copy, PartialEq, Eq, Debug)]
pub struct NotADigit;

impl fmt::Display for NotADigit {
    ghost output = { λ _. Some (codes "a band is one decimal digit") };

    fn fmt<W: fmt::Write>(&self, f: &mut fmt::Formatter<W>) -> fmt::Result {
        write!(f, "a band is one decimal digit")
    }
}

impl Error for NotADigit {}

impl Band {
    ghost use Rattle.kinds.specs.AxleMarks.{band};

    // The band of a number that is a digit.
    fn of_digit(digit: u8) -> Band
        requires { digit < 10 }
        ensures { result ≡ band digit }
    {
        Band { digit }
    }
}

/// The band of a number, refused above 9.
impl TryFrom<u8> for Band {
    ghost use Rattle.kinds.specs.AxleMarks.{banded};

    type Error = NotADigit;

    ghost try_from_gives = { λ digit made. result_ok made ≡ banded digit };

    fn try_from(digit: u8) -> Result<Band, NotADigit> {
        if digit < BANDS {
            Ok(Band::of_digit(digit))
        } else {
            Err(NotADigit)
        }
    }
}

/// The digit of a band, 0 to 9.
impl From<Band> for u8 {
    ghost use Rattle.kinds.specs.AxleMarks.{digit_of};

    ghost from_gives = { λ band digit. digit ≡ digit_of band };

    fn from(band: Band) -> u8 {
        band.digit
    }
}

/// The mark that a byte of a strip reading stands for, by its value (hexadecimal): 10 to 19 are S0
/// to S9, 20 to 29 are D0 to D9, and every other is U0.
impl From<Byte> for Mark {
    ghost use Rattle.kinds.specs.AxleMarks.{mark_of};

    ghost from_gives = { λ byte mark. mark ≡ mark_of byte };

    fn from(byte: Byte) -> Mark {
        match u8::from(byte) {
            n @ SINGLE_FIRST..=SINGLE_LAST => Mark::Single(Band::of_digit(n - SINGLE_FIRST)),
            n @ DUAL_FIRST..=DUAL_LAST => Mark::Dual(Band::of_digit(n - DUAL_FIRST)),
            _ => Mark::Unread,
        }
    }
}

impl Mark {
    ghost use Rattle.kinds.specs.AxleMarks.{mark_alphabet, mark_pair};

    /// The letter and the digit that name the mark, as characters of ASCII.
    // It is no conversion: `pair` says what the two characters are.
    pub fn pair(self) -> (u8, u8)
        ensures written { result ≡ mark_pair self }
        ensures names_it { mark_alphabet.named result.0 result.1 ≡ Some self }
    {
        match self {
            Mark::Unread => (b'U', b'0'),
            Mark::Single(band) => (b'S', b'0' + band.digit),
            Mark::Dual(band) => (b'D', b'0' + band.digit),
        }
    }
}

/// A mark is printed as its pair, as `S4`.
impl fmt::Display for Mark {
    ghost use Rattle.kinds.specs.AxleMarks.{mark_text};

    ghost output = { λ mark. Some (mark_text mark) };

    fn fmt<W: fmt::Write>(&self, f: &mut fmt::Formatter<W>) -> fmt::Result {
        let (letter, digit) = self.pair();
        write!(f, "{}{}", char::from(letter), char::from(digit))
    }
}

impl Kind for Mark {
    ghost use Rattle.kinds.specs.AxleMarks.{mark_alphabet};
    ghost use Rattle.kinds.specs.Laws.{mark_lawful};

    ghost alphabet = { mark_alphabet };

    ghost lawful = { mark_lawful };

    fn code(self) -> u16 {
        match self {
            Mark::Unread => 0,
            Mark::Single(band) => 16 + u16::from(band.digit),
            Mark::Dual(band) => 32 + u16::from(band.digit),
        }
    }

    fn named(first: u8, second: u8) -> Option<Mark> {
        let band = Band::try_from(second.checked_sub(b'0')?).ok()?;
        match first {
            b'U' if band.digit == 0 => Some(Mark::Unread),
            b'S' => Some(Mark::Single(band)),
            b'D' => Some(Mark::Dual(band)),
            _ => None,
        }
    }

    fn signature_record() -> u16 {
        2
    }

    fn format_record() -> u16 {
        4
    }
}
