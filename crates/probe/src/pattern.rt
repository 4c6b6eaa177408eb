//! The commands on pattern texts.
use crate::complaint::Complaint;
use crate::elements::elements_of;
use engine::{MOST_CHARACTERS, PatternText, Reference, Sequence, TooLong};
use kinds::{Byte, Held, Kind};
use std::alloc::Global;
use std::str::FromStr;

/// A sequence as a line gives it: its words.
#[derive(Clone, Copy)]
pub struct Words<'l> {
    reference: &'l str,
    least: &'l str,
    most: &'l str,
    text: &'l str,
}

impl<'l> TryFrom<&[&'l str]> for Words<'l> {
    type Error = Complaint;

    fn try_from(words: &[&'l str]) -> Result<Words<'l>, Complaint> {
        let [reference, least, most, text] = words else {
            return Err(Complaint::NumberOfWords);
        };
        Ok(Words {
            reference,
            least,
            most,
            text,
        })
    }
}

// The letter of a reference.
#[derive(Clone, Copy)]
enum Letter {
    B,
    E,
    V,
}

impl FromStr for Letter {
    type Err = Complaint;

    fn from_str(word: &str) -> Result<Letter, Complaint> {
        match word {
            "B" => Ok(Letter::B),
            "E" => Ok(Letter::E),
            "V" => Ok(Letter::V),
            _ => Err(Complaint::UnknownReference),
        }
    }
}

impl Words<'_> {
    // Its reference, with offsets as a record has them.
    fn reference(self) -> Result<Reference, Complaint> {
        let letter = self.reference.parse()?;
        let least = number_of(self.least)?;
        let most = number_of(self.most)?;
        match letter {
            Letter::V if least > 0 || most > 0 => Err(Complaint::OffsetsAnywhere),
            Letter::V => Ok(Reference::Anywhere),
            Letter::B | Letter::E if least > most => Err(Complaint::OffsetsCrossed),
            Letter::B => Ok(Reference::Front { least, most }),
            Letter::E => Ok(Reference::Back { least, most }),
        }
    }
}

// A word as a pattern text. One of few enough characters may have too many bytes: then one of its
// first bytes is of no text, and it is refused there.
fn text_of(word: &str) -> Result<PatternText<'_>, TooLong> {
    let bytes = word.as_bytes();
    let first = bytes.get(..MOST_CHARACTERS);
    let first = first.filter(|_| word.chars().count() <= MOST_CHARACTERS);
    PatternText::try_from(first.unwrap_or(bytes))
}

/// The number of a text's fragments.
pub(crate) fn read<K: Kind>(alloc: Global, text: &str) -> Result<String, Complaint> {
    let count = Sequence::<K>::count_fragments(1, text_of(text)?)?;
    Ok(format!(in alloc; "ok {count}")?)
}

/// The numbers of a text's fragment.
pub(crate) fn shown<K: Kind>(
    alloc: Global,
    words: Words,
    fragment: &str,
    index: &str,
) -> Result<String, Complaint> {
    let reference = words.reference()?;
    let fragment = number_of(fragment)?;
    let index = index_of(index)?;
    let text = text_of(words.text)?;
    // Matched where it stands: a compiled sequence takes some kilobytes to copy.
    let numbers = match &Sequence::<K>::compile(1, reference, text) {
        Ok(sequence) => sequence.numbers(usize::from(fragment), index),
        Err(fault) => return Err(Complaint::Refused(*fault)),
    };
    match numbers {
        Some((gap, lead, len, shift)) => Ok(format!(in alloc; "{gap} {lead} {len} {shift}")?),
        None => Ok(String::from_str(alloc, "none")?),
    }
}

/// Whether a sequence hits the reading of the elements.
pub(crate) fn hit<K: Kind>(
    alloc: Global,
    words: Words,
    elements: &str,
) -> Result<String, Complaint> {
    let reference = words.reference()?;
    let elements: Vec<K> = elements_of(alloc, elements)?;
    let text = text_of(words.text)?;
    let hits = match &Sequence::<K>::compile(1, reference, text) {
        Ok(sequence) => sequence.hits(&Held::new(elements.as_slice())),
        Err(fault) => return Err(Complaint::Refused(*fault)),
    };
    Ok(String::from_str(alloc, if hits { "hit" } else { "miss" })?)
}

// An offset, or the number of a fragment.
fn number_of(word: &str) -> Result<u16, Complaint> {
    word.parse().map_err(|_| Complaint::NotANumber)
}

// An index: two hexadecimal digits, as a byte is written.
fn index_of(word: &str) -> Result<u8, Complaint> {
    let [first, second] = word.as_bytes() else {
        return Err(Complaint::NotAnIndex);
    };
    Byte::named(*first, *second)
        .map(u8::from)
        .ok_or(Complaint::NotAnIndex)
}
