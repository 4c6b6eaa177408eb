//! A byte as an element of a reading, and bytes as a kind.
ghost use Rattle.std.specs.Prelude.{◌≡◌, ◌<◌};

use crate::kind::Kind;

/// A byte as an element of a reading. Its code is its value, and its pair is two hexadecimal digits
/// in upper case (docs/KINDS_AND_READINGS.md).
///
/// `Byte::from` makes one of a `u8`, and `u8::from` gives its value.
// The ghost field bounds the code of every byte, also of one that a specification speaks of.
#[derive(Clone, Copy, PartialEq, Eq, Debug)]
pub struct Byte {
    value: u8,
    ghost fits: { value < 256 },
}

/// The byte of a value.
impl From<u8> for Byte {
    ghost use Rattle.kinds.specs.Bytes.{byte};

    ghost from_gives = { λ value made. made ≡ byte value };

    fn from(value: u8) -> Byte {
        Byte { value }
    }
}

/// The value of a byte.
impl From<Byte> for u8 {
    ghost from_gives = { λ byte value. value ≡ byte.value };

    fn from(byte: Byte) -> u8 {
        byte.value
    }
}

impl Byte {
    ghost use Rattle.kinds.specs.Bytes.{hexadecimal};

    // The value of a hexadecimal digit, 0-9 or A-F, if a character is one.
    fn digit(c: u8) -> Option<u8>
        ensures { result ≡ hexadecimal c }
    {
        match c {
            b'0'..=b'9' => Some(c - b'0'),
            b'A'..=b'F' => Some(c - b'A' + 10),
            _ => None,
        }
    }
}

impl Kind for Byte {
    ghost use Rattle.kinds.specs.Bytes.{byte_alphabet};
    ghost use Rattle.kinds.specs.Laws.{byte_lawful};

    ghost alphabet = { byte_alphabet };

    ghost lawful = { byte_lawful };

    fn code(self) -> u16 {
        u16::from(self.value)
    }

    fn named(first: u8, second: u8) -> Option<Byte> {
        let high = Byte::digit(first)?;
        let low = Byte::digit(second)?;
        Some(Byte::from(high * 16 + low))
    }

    fn signature_record() -> u16 {
        1
    }

    fn format_record() -> u16 {
        3
    }
}
