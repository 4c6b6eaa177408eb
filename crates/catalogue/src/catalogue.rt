//! The catalogue and the calls on it.
ghost use Rattle.std.specs.Prelude.{◌≡◌, ◌↔◌, length, IfOk, IsTrue};
ghost use Rattle.records.specs.Book.{empty};
ghost use Rattle.records.specs.Calls.{entered, entering, identified, identifying, showing};
ghost use Rattle.records.specs.Calls.{withdrawing_format, withdrawing_signature};
ghost use Rattle.records.specs.Calls.{withdrawn_format, withdrawn_signature, writing, wrote};
ghost use Rattle.records.specs.Lawful.{Lawful};

use crate::formats::{self, MOST_FORMATS, StandingFormat};
use crate::signatures::{self, MOST_SIGNATURES, StandingSignature};
use crate::standing::{self, Standing};
use crate::{hitting, report};
use engine::Table;
use faults::{Cause, Fault};
use kinds::{Kind, Reading};
use records::{Entry, Hit, Status, read};
use std::alloc::{AllocError, Global};
use std::marker::{Model, PhantomData};

/// A reading has at most this many elements.
pub const LONGEST_READING: u32 = 16_777_216;

/// A catalogue of signatures and formats over elements of a kind (docs/CATALOGUE.md).
///
/// In contracts it is its book: the bodies of the signatures and formats that stand, by their ids.
#[derive(Drop)]
pub struct Catalogue<K: Kind> {
    signatures: Vec<StandingSignature<K>>,
    formats: Vec<StandingFormat>,
    table: Table,
    kind: PhantomData<K>,
}

impl<K: Kind> Model for Catalogue<K> {
    ghost use Rattle.std.specs.Prelude.{◌≤◌};
    ghost use Rattle.std.specs.Vec.{vec_capacity};
    ghost use Rattle.records.specs.Book.{Book, book_code};

    ghost Value = { Book };

    ghost coded = { book_code };

    ghost use Rattle.catalogue.specs.Standing.{Holds, book_in};

    ghost view = { λ c. book_in c.signatures.items c.formats.items };

    ghost invariant = { λ c. Holds K.alphabet c.signatures.items c.formats.items c.table
        × (24 ≤ vec_capacity c.signatures) × (48 ≤ vec_capacity c.formats) };
}

impl<K: Kind> Catalogue<K> {
    /// An empty catalogue, or `AllocError` where there is no memory for all that it may hold, about
    /// half a megabyte. That the memory is found when there is some is not proved. No other call
    /// needs memory.
    pub fn new(alloc: Global) -> Result<Catalogue<K>, AllocError>
        ensures { IfOk result (λ c. c ≡ empty) }
    {
        Ok(Catalogue {
            signatures: Vec::with_capacity(alloc, MOST_SIGNATURES)?,
            formats: Vec::with_capacity(alloc, MOST_FORMATS)?,
            table: Table::new(alloc)?,
            kind: PhantomData,
        })
    }

    /// Enters the signature or format of a record, and answers its id. A record that is refused
    /// changes nothing.
    pub fn enter(&mut self, bytes: &[u8]) -> Result<u16, Fault>
        ensures answer { result ≡ entering K.alphabet self.old bytes.now }
        ensures stands { self.new ≡ entered K.alphabet self.old bytes.now }
    {
        let (entry, body) = read::<K>(bytes)?;
        match entry {
            Entry::Signature(signature) => {
                signatures::enter(&mut self.signatures, &mut self.table, &signature, body)
            }
            Entry::Format(format) => {
                formats::enter(&mut self.formats, &self.signatures, format, body)
            }
        }
    }

    /// Withdraws a signature that no format names, and answers its id. Its fragments are freed, and
    /// no other fragment changes.
    pub fn withdraw_signature(&mut self, id: u16) -> Result<u16, Fault>
        ensures answer { result ≡ withdrawing_signature self.old id }
        ensures stands { self.new ≡ withdrawn_signature self.old id }
    {
        let Some(place) = standing::find(&self.signatures, id) else {
            return Err(Fault::outside(Cause::Missing, usize::from(id)));
        };
        if let Some(format) = formats::first_naming(&self.formats, id) {
            return Err(Fault::outside(Cause::Named, usize::from(format)));
        }
        signatures::withdraw(&mut self.signatures, &mut self.table, place);
        Ok(id)
    }

    /// Withdraws a format that no other outranks, and answers its id.
    pub fn withdraw_format(&mut self, id: u16) -> Result<u16, Fault>
        ensures answer { result ≡ withdrawing_format self.old id }
        ensures stands { self.new ≡ withdrawn_format self.old id }
    {
        let Some(place) = standing::find(&self.formats, id) else {
            return Err(Fault::outside(Cause::Missing, usize::from(id)));
        };
        if let Some(above) = formats::first_outranking(&self.formats, id) {
            return Err(Fault::outside(Cause::Named, usize::from(above)));
        }
        formats::withdraw(&mut self.formats, place);
        Ok(id)
    }

    /// The numbers of a fragment, in elements: break, lead, length of the anchor, and the shift of an
    /// index. Sequences and fragments are numbered from 1. What does not stand is refused with the
    /// signature's id.
    pub fn show(
        &self,
        signature: u16,
        sequence: usize,
        fragment: usize,
        index: u8,
    ) -> Result<(u32, u32, usize, u8), Fault>
        ensures { result ≡ showing K.alphabet self.now signature sequence fragment index }
    {
        let missing = Fault::outside(Cause::Missing, usize::from(signature));
        let Some(place) = standing::find(&self.signatures, signature) else {
            return Err(missing);
        };
        self.signatures[place]
            .numbers(&self.table, sequence, fragment, index)
            .ok_or(missing)
    }

    /// The report on a reading under a label of any bytes: its status and how many hits it has. The
    /// hits are written to the front of the list, by rising id, and the rest of it stays. Refused, it
    /// leaves the list as it is: a reading of more than 16,777,216 elements, and a list that is
    /// shorter than the report.
    pub fn identify<R: Reading<Element = K> + Drop>(
        &self,
        reading: R,
        label: &[u8],
        hits: &mut [Hit],
    ) -> Result<(Status, usize), Fault>
        ensures answer { result ≡ identifying K.alphabet self.now (R.elements reading) label.now
            (length hits.old) }
        ensures listed { hits.new ≡ identified K.alphabet self.now (R.elements reading) label.now
            hits.old }
    {
        self.identify_lent(&reading, label, hits)
    }

    // The same of a lent reading.
    fn identify_lent<R: Reading<Element = K>>(
        &self,
        reading: &R,
        label: &[u8],
        hits: &mut [Hit],
    ) -> Result<(Status, usize), Fault>
        ensures answer { result ≡ identifying K.alphabet self.now (R.elements reading.now) label.now
            (length hits.old) }
        ensures listed { hits.new ≡ identified K.alphabet self.now (R.elements reading.now) label.now
            hits.old }
    {
        if reading.len() > LONGEST_READING {
            return Err(Fault::outside(Cause::LongReading, 0));
        }
        let hitting = hitting::hitting_signatures(&self.signatures, &self.table, reading);
        let found = report::report(&hitting, &self.formats, label);
        report::copy_hits(&found, hits)
    }

    /// Writes the records of all signatures, then of all formats, by rising id, to the front of a
    /// buffer, and answers how many bytes they are. The rest of the buffer stays. A buffer that is
    /// shorter is refused and stays as it is.
    pub fn write(&self, buffer: &mut [u8]) -> Result<usize, Fault>
        ensures answer { result ≡ writing K.alphabet self.now (length buffer.old) }
        ensures written { buffer.new ≡ wrote K.alphabet self.now buffer.old }
    {
        let len = standing::written_len(&self.signatures) + standing::written_len(&self.formats);
        if buffer.len() < len {
            return Err(Fault::outside(Cause::ShortBuffer, len));
        }
        let behind = standing::write_records(&self.signatures, K::signature_record(), buffer, 0);
        standing::write_records(&self.formats, K::format_record(), buffer, behind);
        Ok(len)
    }

    /// Whether nothing stands.
    ///
    /// Every catalogue is lawful: each body that stands can be entered again, what it names stands,
    /// and the counts are within their bounds.
    pub fn is_empty(&self) -> bool
        ensures empty { IsTrue result ↔ (self.now ≡ empty) }
        ensures lawful { Lawful K.alphabet self.now }
    {
        self.signatures.is_empty() && self.formats.is_empty()
    }
}
