//! What no clause says: the bytes of records, written down by hand.
use crate::{Entry, Record, read};
use faults::{Cause, Fault};
use kinds::{Byte, Mark};
use patterns::Reference;
use std::test::Fail;

// Signature 1: specific, one sequence from anywhere, with the text "4142".
const SIGNATURE: [u8; 18] = [
    0x0E, 0x00, 0x01, 0x00, 0x01, 0x00, 0x01, 0x01, 0x56, 0x00, 0x00, 0x00, 0x00, 0x04, 0x34, 0x31,
    0x34, 0x32,
];

// Format 7: "AL", named for signature 1, with the label "log".
const FORMAT: [u8; 18] = [
    0x0E, 0x00, 0x03, 0x00, 0x07, 0x00, 0x02, 0x41, 0x4C, 0x01, 0x01, 0x00, 0x00, 0x01, 0x03, 0x6C,
    0x6F, 0x67,
];

#[test]
fn reads_a_signature(rt: HostRuntime) -> Result<(), Fail> {
    let Ok((Entry::Signature(signature), _)) = read::<Byte>(&SIGNATURE) else {
        return Err("the record enters a signature".into());
    };
    assert_eq!(rt; signature.id, 1);
    assert!(rt; signature.specific);
    assert_eq!(rt; signature.sequences.len(), 1);
    for sequence in &signature.sequences {
        assert_eq!(rt; sequence.reference, Reference::Anywhere);
        assert_eq!(rt; sequence.text.characters, b"4142".as_slice());
    }
    Ok(())
}

#[test]
fn reads_a_format(rt: HostRuntime) -> Result<(), Fail> {
    let Ok((Entry::Format(format), _)) = read::<Byte>(&FORMAT) else {
        return Err("the record enters a format".into());
    };
    assert_eq!(rt; format.id, 7);
    assert_eq!(rt; format.name.as_slice(), b"AL".as_slice());
    assert_eq!(rt; format.signatures.as_slice(), [1].as_slice());
    assert!(rt; format.outranked.is_empty());
    assert_eq!(rt; format.labels.len(), 1);
    for label in &format.labels {
        assert_eq!(rt; label.characters.as_slice(), b"log".as_slice());
    }
    Ok(())
}

// A kind reads its own records alone, and others only take them apart.
#[test]
fn kinds_of_records(rt: HostRuntime) -> Result<(), Fail> {
    let field = |place| Some(Fault::outside(Cause::Field, place));
    assert_eq!(rt; read::<Mark>(&SIGNATURE).err(), field(2));
    let format = Record::of(&FORMAT, &[1, 3])
        .ok()
        .ok_or("a kind that is wanted")?;
    assert_eq!(rt; format.kind, 3);
    assert_eq!(rt; format.body.len(), 14);
    assert_eq!(rt; Record::of(&FORMAT, &[1]).err(), field(2));
    Ok(())
}

// The place of a fault is that of its field.
#[test]
fn places_of_faults(rt: HostRuntime) {
    let field = |place| Some(Fault::outside(Cause::Field, place));
    assert_eq!(rt; read::<Byte>(&[]).err(), field(0));
    assert_eq!(rt; read::<Byte>(&[0, 0, 1]).err(), field(2));
    assert_eq!(rt; read::<Byte>(&SIGNATURE[..17]).err(), field(0));
    assert_eq!(rt; read::<Byte>(&[1, 0, 1, 0, 9]).err(), field(4));
    let mut greatest = SIGNATURE;
    greatest[11] = 1;
    assert_eq!(rt; read::<Byte>(&greatest).err(), field(11));
    let mut label = FORMAT;
    label[16] = b'O';
    assert_eq!(rt; read::<Byte>(&label).err(), field(15));
}
