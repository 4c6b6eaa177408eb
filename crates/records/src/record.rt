//! Records: their kinds, their bodies and their entries.
ghost use Rattle.std.specs.Prelude.{◌≡◌, drop, IfOk};
ghost use Rattle.records.specs.Calls.{entry_read};
ghost use Rattle.records.specs.Reading.{kind_at};
ghost use Rattle.records.specs.Taken.{answer_in, kind_and_body, wanted_in, Gives, IsBody};

use crate::format::Format;
use crate::signature::Signature;
use faults::{Cause, Fault};
use kinds::Kind;

// Where the length of a body and the kind stand in a record.
const LENGTH_PLACE: usize = 0;

const KIND_PLACE: usize = 2;

/// A record taken apart.
#[derive(Clone, Copy)]
pub struct Record<'r> {
    /// Its kind.
    pub kind: u16,
    /// Its body, which stands behind the length and the kind.
    pub body: &'r [u8],
}

/// What a record enters.
#[derive(Drop)]
pub enum Entry<'r> {
    /// A signature.
    Signature(Signature<'r>),
    /// A format.
    Format(Format),
}

impl<'r> Record<'r> {
    /// Takes a record apart whose kind is one of those that are wanted. It is refused at 0 where
    /// its length is not that of its body, and at 2 where its kind is not wanted. A record of less
    /// than four bytes has no body, and is refused where it is cut off.
    #[tactic(auto, unfolding(crate::specs::Reading::kind_at, crate::specs::Reading::word_at, crate::specs::Reading::bytes_at))]
    pub fn of(bytes: &'r [u8], wanted: &[u16]) -> Result<Record<'r>, Fault>
        ensures { Gives kind_and_body result (kind_at (wanted_in wanted.now) bytes.now) }
    {
        match bytes {
            [l0, l1, k0, k1, body @ ..] => {
                if usize::from(u16::from_le_bytes([*l0, *l1])) != body.len() {
                    return Err(Fault::outside(Cause::Field, LENGTH_PLACE));
                }
                let kind = u16::from_le_bytes([*k0, *k1]);
                if !wanted.contains(&kind) {
                    return Err(Fault::outside(Cause::Field, KIND_PLACE));
                }
                Ok(Record { kind, body })
            }
            [0, 0, ..] => Err(Fault::outside(Cause::Field, KIND_PLACE)),
            _ => Err(Fault::outside(Cause::Field, LENGTH_PLACE)),
        }
    }
}

/// The entry of a record of a kind's signatures or formats, and its body; or the refusal of the first
/// field, listed id or byte that is at fault. The place is its offset in the record.
#[tactic(auto, unfolding(crate::specs::Reading::entry_at))]
pub fn read<K: Kind>(bytes: &[u8]) -> Result<(Entry<'_>, &[u8]), Fault>
    ensures entry { answer_in result ≡ entry_read K.alphabet bytes.now }
    ensures body { IfOk result (λ x. x.1.now ≡ drop 4 bytes.now) }
    ensures fits { IfOk result (λ x. IsBody x.0 x.1.now) }
{
    let signature_kind = K::signature_record();
    let found = Record::of(bytes, &[signature_kind, K::format_record()])?;
    let entry = if found.kind == signature_kind {
        Entry::Signature(Signature::of_body(found.body)?)
    } else {
        Entry::Format(Format::of_body(found.body)?)
    };
    Ok((entry, found.body))
}
