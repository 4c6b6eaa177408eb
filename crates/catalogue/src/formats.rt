//! Formats that stand.
ghost use Rattle.std.specs.Prelude.{◌≡◌, ◌≤◌, ◌<◌, Some, find, length, map, not, remove};
ghost use Rattle.std.specs.FinMap.{contains_key};
ghost use Rattle.std.specs.Option.{option_map};
ghost use Rattle.std.specs.Vec.{vec_capacity, vec_len};
ghost use Rattle.records.specs.Book as book;
ghost use Rattle.records.specs.Calls.{unless};
ghost use Rattle.records.specs.Refusals.{format_refused, missing_id};
ghost use Rattle.records.specs.Report.{among_ids};
ghost use Rattle.records.specs.Taken.{format_in};
ghost use Rattle.catalogue.specs.Entering.{with_entry};
ghost use Rattle.catalogue.specs.Standing.{bodies, book_of, format_pair, formats_in};
ghost use Rattle.catalogue.specs.Standing.{FormatsHold, Rise};

use crate::standing::{Standing, place_of, stands};
use arrayvec::ArrayVec;
use faults::{Cause, Fault};
use records::Format;

/// A catalogue holds at most this many formats.
pub const MOST_FORMATS: usize = 48;

// The body of a format has at most this many bytes.
const LONGEST_BODY: usize = 114;

/// A format that stands: what its body says, and the body.
#[derive(Drop)]
pub(crate) struct StandingFormat {
    pub(crate) format: Format,
    pub(crate) body: ArrayVec<u8, LONGEST_BODY>,
}

impl Standing for StandingFormat {
    ghost use Rattle.catalogue.specs.Standing.{format_pair};

    ghost pair = { format_pair };

    fn id(&self) -> u16 {
        self.format.id
    }

    fn body(&self) -> &[u8] {
        self.body.as_slice()
    }
}

// The first of some ids that does not stand.
fn first_missing<S: Standing>(standing: &[S], ids: &[u16]) -> Option<u16>
    requires { Rise (map S.pair standing.now) }
    ensures { result ≡ find
        (λ id. not (contains_key (bodies (map S.pair standing.now)) id)) ids.now }
{
    ids.iter().copied().find(|id| !stands(standing, *id))
}

// The first id that a format names and that does not stand: of a signature, then of a format that
// it outranks.
pub(crate) fn missing<S: Standing>(
    signatures: &[S],
    formats: &[StandingFormat],
    format: &Format,
) -> Option<u16>
    requires signatures_rise { Rise (map S.pair signatures.now) }
    requires formats_rise { Rise (map format_pair formats.now) }
    ensures { result ≡ missing_id
        (book_of (map S.pair signatures.now) (map format_pair formats.now)) (format_in format.now) }
{
    let signature = first_missing(signatures, &format.signatures);
    signature.or_else(|| first_missing(formats, &format.outranked))
}

// The smallest id of the formats that name a signature, where ids rise.
pub(crate) fn first_naming(formats: &[StandingFormat], signature: u16) -> Option<u16>
    ensures { result ≡ option_map (λ f. f.id)
        (find (λ f. among_ids signature f.signatures) (formats_in formats.now)) }
{
    formats
        .iter()
        .find(|f| f.format.names(signature))
        .map(|f| f.format.id)
}

// The smallest id of the formats that outrank a format, where ids rise.
pub(crate) fn first_outranking(formats: &[StandingFormat], format: u16) -> Option<u16>
    ensures { result ≡ option_map (λ f. f.id)
        (find (λ f. among_ids format f.outranked) (formats_in formats.now)) }
{
    formats
        .iter()
        .find(|f| f.format.outranks(format))
        .map(|f| f.format.id)
}

// Why a format is refused, if it is.
fn refusal<S: Standing>(
    signatures: &[S],
    formats: &[StandingFormat],
    format: &Format,
) -> Option<Fault>
    requires signatures_rise { Rise (map S.pair signatures.now) }
    requires formats_rise { Rise (map format_pair formats.now) }
    ensures { result ≡ format_refused
        (book_of (map S.pair signatures.now) (map format_pair formats.now)) (format_in format.now) }
{
    if stands(formats, format.id) {
        return Some(Fault::outside(Cause::Taken, usize::from(format.id)));
    }
    if let Some(id) = missing(signatures, formats, format) {
        return Some(Fault::outside(Cause::Missing, usize::from(id)));
    }
    if formats.len() >= MOST_FORMATS {
        return Some(Fault::outside(Cause::Full, 3));
    }
    None
}

// Enters a format whose body this is, or refuses it and changes nothing.
pub(crate) fn enter<S: Standing>(
    formats: &mut Vec<StandingFormat>,
    signatures: &[S],
    format: Format,
    body: &[u8],
) -> Result<u16, Fault>
    requires reads { book.format_in body.now ≡ Some (format_in format) }
    requires short { length body.now ≤ 114 }
    requires signatures_rise { Rise (map S.pair signatures.now) }
    requires holds { FormatsHold formats.old.items }
    requires room { 48 ≤ vec_capacity formats.old }
    ensures answer { result ≡ unless
        (format_refused (book_of (map S.pair signatures.now) (map format_pair formats.old.items))
        (format_in format)) format.id }
    ensures pairs { map format_pair formats.new.items ≡ with_entry
        (format_refused (book_of (map S.pair signatures.now) (map format_pair formats.old.items))
        (format_in format)) (map format_pair formats.old.items) format.id body.now }
    ensures holds { FormatsHold formats.new.items }
    ensures room { 48 ≤ vec_capacity formats.new }
{
    if let Some(fault) = refusal(signatures, formats, &format) {
        return Err(fault);
    }
    let id = format.id;
    let place = place_of(formats, id);
    let Ok(body) = ArrayVec::try_from(body) else {
        unreachable!()
    };
    match formats.insert(place, StandingFormat { format, body }) {
        Ok(()) => Ok(id),
        Err(_) => unreachable!(),
    }
}

// Takes out the format at a place.
pub(crate) fn withdraw(formats: &mut Vec<StandingFormat>, place: usize)
    requires within { place < vec_len formats.old }
    requires holds { FormatsHold formats.old.items }
    ensures items { formats.new.items ≡ remove formats.old.items place }
    ensures holds { FormatsHold formats.new.items }
    ensures capacity { vec_capacity formats.new ≡ vec_capacity formats.old }
{
    formats.remove(place);
}
