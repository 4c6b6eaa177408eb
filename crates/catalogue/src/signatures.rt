//! Signatures that stand.
ghost use Rattle.std.specs.Prelude.{◌≡◌, ◌<◌, ◌≤◌, Some, None, IfOk, IfErr, OnOk, length, map, remove, vec_len};
ghost use Rattle.std.specs.List.{flat_map};
ghost use Rattle.std.specs.Vec.{vec_capacity};
ghost use Rattle.patterns.specs.Codes.{codes_of};
ghost use Rattle.engine.specs.Tables.{cleared, free_slots};
ghost use Rattle.records.specs.Book as book;
ghost use Rattle.records.specs.Calls.{after, unless};
ghost use Rattle.records.specs.Refusals.{refused_from};
ghost use Rattle.records.specs.Taken.{signature_in};
ghost use Rattle.catalogue.specs.Entering.{fragment_count, fragment_total, inserted, signature_refused, Compiles, MovedAll, MovedIf};
ghost use Rattle.catalogue.specs.Hitting.{hits_if, offsets_if};
ghost use Rattle.catalogue.specs.Standing.{signature_pair, slots_in, SignatureHeld, SignaturesHold, StandsInIf};

use crate::standing::{Standing, find, place_of};
use arrayvec::ArrayVec;
use engine::{InTable, Sequence, Table};
use faults::{Cause, Fault};
use kinds::{Kind, Reading};
use patterns::Reference;
use records::{MOST_SEQUENCES, Signature};

/// A catalogue holds at most this many signatures.
pub const MOST_SIGNATURES: usize = 24;

// The body of a signature has at most this many bytes: 4, and for each sequence 6 and the text.
const LONGEST_BODY: usize = 828;

/// A signature that stands: its body, and its sequences with their fragments in the table.
#[derive(Drop)]
pub(crate) struct StandingSignature<K> {
    pub(crate) id: u16,
    pub(crate) specific: bool,
    pub(crate) body: ArrayVec<u8, LONGEST_BODY>,
    pub(crate) sequences: ArrayVec<Option<InTable<K>>, MOST_SEQUENCES>,
}

impl<K> Standing for StandingSignature<K> {
    ghost use Rattle.catalogue.specs.Standing.{signature_pair};

    ghost pair = { signature_pair };

    fn id(&self) -> u16 {
        self.id
    }

    fn body(&self) -> &[u8] {
        self.body.as_slice()
    }
}

// Whether a sequence, if there is one, has offsets.
fn has_offsets<K: Kind>(sequence: &Option<InTable<K>>) -> bool
    ensures { result ≡ offsets_if sequence.now }
{
    match sequence {
        Some(sequence) => !matches!(sequence.reference(), Reference::Anywhere),
        None => false,
    }
}

// Whether a sequence, if there is one, hits a reading.
fn hits_if<K: Kind, R: Reading<Element = K>>(
    sequence: &Option<InTable<K>>,
    table: &Table,
    reading: &R,
) -> bool
    requires { StandsInIf table.now sequence.now }
    ensures { result ≡ hits_if (codes_of K.alphabet (R.elements reading.now)) sequence.now }
{
    match sequence {
        Some(sequence) => sequence.hits(table, reading),
        None => false,
    }
}

impl<K: Kind> StandingSignature<K> {
    ghost use Rattle.std.specs.List.{list_all, AllByRecursion};
    ghost use Rattle.catalogue.specs.Hitting.{hits_among, numbers_in, standing_hits};

    // Whether the sequences with offsets hit a reading, or those without.
    fn part_hits<R: Reading<Element = K>>(&self, table: &Table, reading: &R, offsets: bool) -> bool
        requires { AllByRecursion (StandsInIf table.now) self.now.sequences.items }
        ensures { result ≡ list_all
            (hits_among offsets (codes_of K.alphabet (R.elements reading.now)))
            self.now.sequences.items }
    {
        for sequence in self.sequences.as_slice() {
            if has_offsets(sequence) == offsets && !hits_if(sequence, table, reading) {
                return false;
            }
        }
        true
    }

    // Whether it hits a reading: all its sequences do. Those with offsets are tried first, since
    // they are looked for in a part of the reading.
    pub(crate) fn hits<R: Reading<Element = K>>(&self, table: &Table, reading: &R) -> bool
        requires { AllByRecursion (StandsInIf table.now) self.now.sequences.items }
        ensures { result ≡ standing_hits (codes_of K.alphabet (R.elements reading.now)) self.now }
    {
        self.part_hits(table, reading, true) && self.part_hits(table, reading, false)
    }

    // The numbers of a fragment of a sequence, as `Sequence::numbers` gives them; none where there
    // is no such sequence or fragment. Both are numbered from 1.
    pub(crate) fn numbers(
        &self,
        table: &Table,
        number: usize,
        fragment: usize,
        index: u8,
    ) -> Option<(u32, u32, usize, u8)>
        requires { AllByRecursion (StandsInIf table.now) self.now.sequences.items }
        ensures { result ≡ numbers_in self.now.sequences.items number fragment index }
    {
        let place = number.checked_sub(1)?;
        let sequence = self.sequences.as_slice().get(place)?.as_ref()?;
        sequence.numbers(table, fragment, index)
    }
}

// The sequences of a signature, compiled; or the refusal of the first whose text is refused.
fn compile<K: Kind>(
    signature: &Signature<'_>,
) -> Result<ArrayVec<Option<Sequence<K>>, MOST_SEQUENCES>, Fault>
    ensures compiled { IfOk result (λ v.
        Compiles K.alphabet (signature_in signature.now).sequences v.items) }
    ensures refused { IfErr result (λ f.
        refused_from K.alphabet 1 (signature_in signature.now).sequences ≡ Some f) }
{
    let mut compiled = ArrayVec::new();
    let mut number = 0;
    for sequence in signature.sequences.as_slice() {
        number += 1;
        let sequence = Sequence::compile(number, sequence.reference, sequence.text)?;
        compiled.push(Some(sequence));
    }
    Ok(compiled)
}

// How many fragments sequences have together.
fn count_fragments<K: Kind>(sequences: &[Option<Sequence<K>>]) -> usize
    requires { length sequences.now ≤ 4 }
    ensures { result ≡ fragment_total sequences.now }
{
    let mut total = 0;
    for sequence in sequences {
        if let Some(sequence) = sequence {
            total += sequence.fragment_count();
        }
    }
    total
}

// Moves a sequence, if there is one, into a table that has room for its fragments.
fn move_one<K: Kind>(sequence: Option<Sequence<K>>, table: &mut Table) -> Option<InTable<K>>
    requires { fragment_count sequence ≤ length (free_slots table.old) }
    ensures { MovedIf sequence table.old table.new result }
{
    sequence?.into_table(table).ok()
}

// Moves sequences into a table that has room for their fragments.
fn move_into<K: Kind>(
    sequences: ArrayVec<Option<Sequence<K>>, MOST_SEQUENCES>,
    table: &mut Table,
) -> ArrayVec<Option<InTable<K>>, MOST_SEQUENCES>
    requires { fragment_total sequences.items ≤ length (free_slots table.old) }
    ensures { MovedAll sequences.items table.old table.new result.items }
{
    let mut moved = ArrayVec::new();
    for sequence in sequences {
        moved.push(move_one(sequence, table));
    }
    moved
}

// The compiled sequences of a signature that may be entered where others stand, or its refusal.
fn accept<K: Kind>(
    signatures: &[StandingSignature<K>],
    table: &Table,
    signature: &Signature<'_>,
) -> Result<ArrayVec<Option<Sequence<K>>, MOST_SEQUENCES>, Fault>
    requires { SignaturesHold K.alphabet signatures.now table.now }
    ensures accepted { OnOk result
        (signature_refused K.alphabet signatures.now (signature_in signature.now) ≡ None) }
    ensures compiled { IfOk result (λ v.
        Compiles K.alphabet (signature_in signature.now).sequences v.items) }
    ensures room { IfOk result (λ v. fragment_total v.items ≤ length (free_slots table.now)) }
    ensures refused { IfErr result (λ f.
        signature_refused K.alphabet signatures.now (signature_in signature.now) ≡ Some f) }
{
    if find(signatures, signature.id).is_some() {
        return Err(Fault::outside(Cause::Taken, usize::from(signature.id)));
    }
    let compiled = compile(signature)?;
    if signatures.len() >= MOST_SIGNATURES {
        return Err(Fault::outside(Cause::Full, 1));
    }
    if table.free_count() < count_fragments(compiled.as_slice()) {
        return Err(Fault::outside(Cause::Full, 2));
    }
    Ok(compiled)
}

// A signature with its body, and with its sequences moved into a table that has room for them.
fn stand<K: Kind>(
    signature: &Signature<'_>,
    body: &[u8],
    sequences: ArrayVec<Option<Sequence<K>>, MOST_SEQUENCES>,
    table: &mut Table,
) -> StandingSignature<K>
    requires reads { book.signature_in body.now ≡ Some (signature_in signature.now) }
    requires short { length body.now ≤ 828 }
    requires compiled { Compiles K.alphabet
        (signature_in signature.now).sequences sequences.items }
    requires room { fragment_total sequences.items ≤ length (free_slots table.old) }
    ensures pair { signature_pair result ≡ (signature.now.id, body.now) }
    ensures held { SignatureHeld K.alphabet table.new result }
    ensures moved { MovedAll sequences.items table.old table.new result.sequences.items }
{
    let Ok(body) = ArrayVec::try_from(body) else {
        unreachable!()
    };
    StandingSignature {
        id: signature.id,
        specific: signature.specific,
        body,
        sequences: move_into(sequences, table),
    }
}

// Enters a signature whose body this is, or refuses it and changes nothing.
pub(crate) fn enter<K: Kind>(
    signatures: &mut Vec<StandingSignature<K>>,
    table: &mut Table,
    signature: &Signature<'_>,
    body: &[u8],
) -> Result<u16, Fault>
    requires reads { book.signature_in body.now ≡ Some (signature_in signature.now) }
    requires short { length body.now ≤ 828 }
    requires holds { SignaturesHold K.alphabet signatures.old.items table.old }
    requires room { 24 ≤ vec_capacity signatures.old }
    ensures answer { result ≡ unless
        (signature_refused K.alphabet signatures.old.items (signature_in signature.now))
        signature.now.id }
    ensures pairs { map signature_pair signatures.new.items ≡ after
        (signature_refused K.alphabet signatures.old.items (signature_in signature.now))
        (map signature_pair signatures.old.items)
        (inserted (map signature_pair signatures.old.items) signature.now.id body.now) }
    ensures holds { SignaturesHold K.alphabet signatures.new.items table.new }
    ensures room { 24 ≤ vec_capacity signatures.new }
{
    let sequences = accept(signatures, table, signature)?;
    let place = place_of(signatures, signature.id);
    let standing = stand(signature, body, sequences, table);
    match signatures.insert(place, standing) {
        Ok(()) => Ok(signature.id),
        Err(_) => unreachable!(),
    }
}

// Frees the slots of sequences.
fn clear_all<K: Kind>(sequences: ArrayVec<Option<InTable<K>>, MOST_SEQUENCES>, table: &mut Table)
    ensures { table.new ≡ cleared table.old (flat_map slots_in sequences.items) }
{
    for sequence in sequences {
        if let Some(sequence) = sequence {
            sequence.clear(table);
        }
    }
}

// Withdraws the signature at a place: takes it out, and frees the slots of its fragments.
pub(crate) fn withdraw<K: Kind>(
    signatures: &mut Vec<StandingSignature<K>>,
    table: &mut Table,
    place: usize,
)
    requires place { place < vec_len signatures.old }
    requires holds { SignaturesHold K.alphabet signatures.old.items table.old }
    ensures pairs { map signature_pair signatures.new.items
        ≡ remove (map signature_pair signatures.old.items) place }
    ensures holds { SignaturesHold K.alphabet signatures.new.items table.new }
    ensures room { vec_capacity signatures.new ≡ vec_capacity signatures.old }
{
    let withdrawn = signatures.remove(place);
    clear_all(withdrawn.sequences, table);
}
