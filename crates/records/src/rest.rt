//! The bytes of a record that are still to be read.
ghost use Rattle.std.specs.Prelude.{◌≡◌, ◌==◌, ◌+◌, ◌<◌, ◌≤◌, ◌^◌, length, IfOk};
ghost use Rattle.kinds.specs.Alphabet.{within};

use faults::{Cause, Fault};

// A body stands behind the length and the kind of its record.
const BODY_PLACE: usize = 4;

/// The bytes of a record from a place on.
#[derive(Clone, Copy)]
pub(crate) struct Rest<'r> {
    place: usize,
    bytes: &'r [u8],
    ghost fits: { place + length bytes.now < 2 ^ 64 },
}

/// Which bytes a text may have.
#[derive(Clone, Copy)]
pub(crate) enum Characters {
    Any,
    // The printable characters of ASCII.
    Printable,
    // Small letters and digits.
    LowercaseOrDigit,
}

impl Characters {
    ghost use Rattle.std.specs.List.{list_all};
    ghost use Rattle.records.specs.Taken.{characters_in};

    // Whether a byte is one of them.
    fn contain(self, c: u8) -> bool
        ensures { result ≡ characters_in self c }
    {
        match self {
            Characters::Any => true,
            Characters::Printable => (0x20..=0x7E).contains(&c),
            Characters::LowercaseOrDigit => c.is_ascii_lowercase() || c.is_ascii_digit(),
        }
    }

    // Whether each byte of a text is one of them.
    fn make_up(self, text: &[u8]) -> bool
        ensures { result ≡ list_all (characters_in self) text.now }
    {
        text.iter().all(|c| self.contain(*c))
    }
}

impl<'r> Rest<'r> {
    ghost use Rattle.records.specs.Taken.{characters_in, rest_in, Gives, GivesRest};
    ghost use Rattle.records.specs.Reading.{byte_at, bytes_at, text_at, word_at};
    ghost use Rattle.faults.specs.Faults.{outside};
    ghost use Rattle.faults.specs.declared.fault.Cause.TheVariants.{Field};

    // A whole body, which stands behind the first four bytes of its record.
    pub(crate) fn of_body(body: &'r [u8]) -> Rest<'r>
        ensures { rest_in result ≡ record { place = 4; bytes = body.now } }
    {
        Rest {
            place: BODY_PLACE,
            bytes: body,
        }
    }

    // Whether no byte is left.
    pub(crate) fn is_empty(self) -> bool
        ensures { result ≡ (length self.entry.bytes.now == 0) }
    {
        self.bytes.is_empty()
    }

    // The refusal of the field that begins here.
    pub(crate) fn fault(self) -> Fault
        ensures { result ≡ outside Field self.entry.place }
    {
        Fault::outside(Cause::Field, self.place)
    }

    // So many bytes as one field.
    #[tactic(auto, unfolding(crate::specs::Reading::bytes_at))]
    pub(crate) fn bytes(self, len: usize) -> Result<(&'r [u8], Rest<'r>), Fault>
        ensures read { GivesRest (λ bytes. bytes.now) result (bytes_at len (rest_in self.entry)) }
        ensures long { IfOk result (λ read. length read.0.now ≡ len) }
    {
        if self.bytes.len() < len {
            return Err(self.fault());
        }
        let (field, bytes) = self.bytes.split_at(len);
        let place = self.place + len;
        Ok((field, Rest { place, bytes }))
    }

    // A field of one byte.
    #[tactic(auto, unfolding(crate::specs::Reading::byte_at))]
    pub(crate) fn byte(self) -> Result<(u8, Rest<'r>), Fault>
        ensures { GivesRest (λ byte. byte) result (byte_at (rest_in self.entry)) }
    {
        match self.bytes {
            [] => Err(self.fault()),
            [byte, bytes @ ..] => {
                let place = self.place + 1;
                Ok((*byte, Rest { place, bytes }))
            }
        }
    }

    // A field of two bytes, the low one first.
    #[tactic(auto, unfolding(crate::specs::Reading::word_at, crate::specs::Reading::bytes_at))]
    pub(crate) fn word(self) -> Result<(u16, Rest<'r>), Fault>
        ensures { GivesRest (λ word. word) result (word_at (rest_in self.entry)) }
    {
        match self.bytes {
            [low, high, bytes @ ..] => {
                let place = self.place + 2;
                Ok((u16::from_le_bytes([*low, *high]), Rest { place, bytes }))
            }
            _ => Err(self.fault()),
        }
    }

    // The length of a text, which is bounded, and the text as one field of such characters.
    #[tactic(auto, unfolding(crate::specs::Reading::text_at))]
    pub(crate) fn text(
        self,
        least: u8,
        most: u8,
        characters: Characters,
    ) -> Result<(&'r [u8], Rest<'r>), Fault>
        ensures read { GivesRest (λ text. text.now) result
            (text_at (within least most) (characters_in characters) (rest_in self.entry)) }
        ensures short { IfOk result (λ read. length read.0.now ≤ most) }
    {
        let (len, behind_len) = self.byte()?;
        if !(least..=most).contains(&len) {
            return Err(self.fault());
        }
        let (text, rest) = behind_len.bytes(usize::from(len))?;
        if !characters.make_up(text) {
            return Err(behind_len.fault());
        }
        Ok((text, rest))
    }
}
