//! The answers to records.
use catalogue::{Catalogue, Cause, Fault, Hit, HitStatus};
use lanes::Lane;
use records::Record;
use std::alloc::{AllocError, Global};
use std::fmt::Write;

// A catalogue has at most this many formats, and so a report at most this many hits.
const MOST_HITS: usize = 48;

// The label of a reading has at most this many bytes.
const LONGEST_LABEL: u8 = 8;

// Where the length of the label and the label stand in a record.
const LABEL_LENGTH_PLACE: usize = 4;

const LABEL_PLACE: usize = 5;

// A refused field.
fn field_fault(place: usize) -> Fault {
    Fault::outside(Cause::Field, place)
}

// A reading's label and what follows it, which are its elements.
fn label_and_elements(body: &[u8]) -> Result<(&[u8], &[u8]), Fault> {
    let [len, rest @ ..] = body else {
        return Err(field_fault(LABEL_LENGTH_PLACE));
    };
    if *len > LONGEST_LABEL {
        return Err(field_fault(LABEL_LENGTH_PLACE));
    }
    let len = usize::from(*len);
    if rest.len() < len {
        return Err(field_fault(LABEL_PLACE));
    }
    Ok(rest.split_at(len))
}

// The lines of a report on a reading.
fn report<K: Lane>(
    alloc: Global,
    catalogue: &Catalogue<K>,
    record: &[u8],
) -> Result<Result<String, Fault>, AllocError> {
    let mut hits = [Hit {
        id: 0,
        status: HitStatus::Generic,
        mismatch: false,
    }; MOST_HITS];
    let found = Record::of(record, &[K::READING_RECORD])
        .and_then(|record| label_and_elements(record.body))
        .and_then(|(label, elements)| K::identify(catalogue, elements, label, &mut hits));
    let (status, count) = match found {
        Ok(found) => found,
        Err(fault) => return Ok(Err(fault)),
    };
    let mut lines = format!(in alloc; "{status} {count}")?;
    for hit in hits.iter().take(count) {
        write!(lines, "\n{hit}")?;
    }
    Ok(Ok(lines))
}

// The line of a record that was entered.
fn entered<K: Lane>(
    alloc: Global,
    catalogue: &mut Catalogue<K>,
    kind: u16,
    record: &[u8],
) -> Result<Result<String, Fault>, AllocError> {
    let entry = if kind == K::signature_record() {
        "signature"
    } else {
        "format"
    };
    match catalogue.enter(record) {
        Ok(id) => Ok(Ok(format!(in alloc; "{entry} {id} entered")?)),
        Err(fault) => Ok(Err(fault)),
    }
}

/// The kind of a record, 0 where it ends before it.
pub(crate) fn kind_of(record: &[u8]) -> u16 {
    match record {
        [_, _, low, high, ..] => u16::from_le_bytes([*low, *high]),
        _ => 0,
    }
}

/// The lines that answer a record.
pub(crate) fn answer<K: Lane>(
    alloc: Global,
    catalogue: &mut Catalogue<K>,
    record: &[u8],
) -> Result<String, AllocError> {
    let kind = kind_of(record);
    let lines = if kind == K::READING_RECORD {
        report(alloc, catalogue, record)?
    } else {
        entered(alloc, catalogue, kind, record)?
    };
    match lines {
        Ok(lines) => Ok(lines),
        Err(fault) => fault.line().to_string(alloc),
    }
}

/// The line that answers a record whose body is too long.
pub(crate) fn too_long(alloc: Global) -> Result<String, AllocError> {
    field_fault(0).line().to_string(alloc)
}
