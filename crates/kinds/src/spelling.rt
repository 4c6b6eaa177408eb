//! Elements as their pairs, run together: `4142` for two bytes.
ghost use Rattle.std.specs.Prelude.{◌≡◌, ◌≢◌, ◌+◌, ◌/◌, ◌<◌, ◌≤◌, Some, Ok, Err, OnOk, OnErr, IfErr, length, take, vec_len};
ghost use Rattle.std.specs.Vec.{vec_capacity};
ghost use Rattle.kinds.specs.Spelling.{after, fault_text, spelled};
ghost use Rattle.kinds.specs.declared.spelling.SpellingFault.TheVariants.{Memory};

use crate::kind::Kind;
use std::alloc::AllocError;
use std::error::Error;
use std::fmt;

/// Why a text is not read as elements.
#[derive(Clone, Copy, PartialEq, Eq, Debug)]
pub enum SpellingFault {
    /// The pair that begins at this place, counted in characters from 0, names no element.
    Unnamed(usize),
    /// All pairs name elements, and one character is left over.
    Odd,
    /// There is no memory for the elements.
    Memory,
}

/// What is wrong, for whoever wrote the text.
impl fmt::Display for SpellingFault {
    ghost output = { λ fault. Some (fault_text fault) };

    fn fmt<W: fmt::Write>(&self, f: &mut fmt::Formatter<W>) -> fmt::Result {
        match self {
            SpellingFault::Unnamed(place) => write!(f, "no element is named at {place}"),
            SpellingFault::Odd => write!(f, "odd number of characters"),
            SpellingFault::Memory => write!(f, "no memory"),
        }
    }
}

impl Error for SpellingFault {}

/// Running out of memory is a reason to read no elements.
impl From<AllocError> for SpellingFault {
    ghost from_gives = { λ _ r. r ≡ Memory };

    fn from(_e: AllocError) -> SpellingFault {
        SpellingFault::Memory
    }
}

/// Reads a text of pairs run together, as `4142` or `S1D4`, and puts the elements that they name at
/// the end of a list, in order (docs/KINDS_AND_READINGS.md).
///
/// A text is refused at its first fault. `Memory` is the reason only where the list has too little
/// room for as many elements as the text has pairs. Each refusal leaves the list as it was.
pub fn read_elements<K: Kind>(text: &[u8], list: &mut Vec<K>) -> Result<(), SpellingFault>
    ensures ok { OnOk result
        (after list.old.items (spelled K.alphabet text.now) ≡ Ok list.new.items) }
    ensures unchanged { OnErr result (list.new.items ≡ list.old.items) }
    ensures fault { IfErr result (λ e. e ≢ Memory → spelled K.alphabet text.now ≡ Err e) }
    ensures memory { result ≡ Err Memory →
        vec_capacity list.old < vec_len list.old + length text.now / 2 }
{
    // Where there is no room for all, the pushes tell a fault that comes before it runs out.
    let _ = list.try_reserve(text.len() / 2);
    let before = list.len();
    let read = push_elements(text, list);
    if read.is_err() {
        list.truncate(before);
    }
    read
}

// Pushes the elements that the pairs of a text name, up to the first fault, or until there is no
// memory.
fn push_elements<K: Kind>(text: &[u8], list: &mut Vec<K>) -> Result<(), SpellingFault>
    ensures ok { OnOk result
        (after list.old.items (spelled K.alphabet text.now) ≡ Ok list.new.items) }
    ensures kept { take (vec_len list.old) list.new.items ≡ list.old.items }
    ensures fault { IfErr result (λ e. e ≢ Memory → spelled K.alphabet text.now ≡ Err e) }
    ensures memory { result ≡ Err Memory →
        vec_capacity list.old < vec_len list.old + length text.now / 2 }
{
    for (number, pair) in text.chunks(2).enumerate() {
        let [first, second, ..] = pair else {
            return Err(SpellingFault::Odd);
        };
        let x = K::named(*first, *second).ok_or(SpellingFault::Unnamed(2 * number))?;
        list.push(x).map_err(AllocError::from)?;
    }
    Ok(())
}
