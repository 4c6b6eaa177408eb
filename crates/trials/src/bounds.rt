//! A catalogue at its bounds: filled, thinned and filled again.
ghost use Rattle.std.specs.Prelude.{◌≡◌, ◌≤◌, replicate};
ghost use Rattle.trials.specs.Repeated.{FitsReading-replicate};

use crate::made::{format, signature};
use catalogue::{Catalogue, Cause, Fault, Hit, HitStatus, Status};
use kinds::{Byte, Bytes, Kind, Reading};
use std::alloc::Global;
use std::ops::Range;
use std::process::Abort;
use std::test::Fail;

// No hit, in a list that is lent to be filled.
const BLANK: Hit = Hit {
    id: 0,
    status: HitStatus::Generic,
    mismatch: false,
};

// A refusal for want of room.
fn full(place: usize) -> Result<u16, Fault> {
    Err(Fault::outside(Cause::Full, place))
}

// Enters signatures of one text, of the ids from one to before another.
fn enter_signatures(
    rt: &(impl AllocGlobal + Abort),
    catalogue: &mut Catalogue<Byte>,
    ids: Range<u16>,
    text: &[u8],
) -> Result<(), Fail> {
    for id in ids {
        let record = signature(rt.alloc(), id, b'V', 0, text)?;
        assert_eq!(rt; catalogue.enter(record.as_slice()), Ok(id));
    }
    Ok(())
}

// Twenty-four signatures fill a catalogue; one withdrawn leaves room for one.
#[test]
fn is_filled_by_signatures(rt: HostRuntime) -> Result<(), Fail> {
    let mut catalogue = Catalogue::<Byte>::new(rt.alloc())?;
    enter_signatures(&rt, &mut catalogue, 0..24, b"41")?;
    let further = signature(rt.alloc(), 24, b'V', 0, b"42")?;
    assert_eq!(rt; catalogue.enter(further.as_slice()), full(1));
    assert_eq!(rt; catalogue.withdraw_signature(7), Ok(7));
    assert_eq!(rt; catalogue.enter(further.as_slice()), Ok(24));
    let again = signature(rt.alloc(), 7, b'V', 0, b"42")?;
    assert_eq!(rt; catalogue.enter(again.as_slice()), full(1));
    let taken = signature(rt.alloc(), 24, b'V', 0, b"42")?;
    let fault = Err(Fault::outside(Cause::Taken, 24));
    assert_eq!(rt; catalogue.enter(taken.as_slice()), fault);
    Ok(())
}

// Twelve signatures of eight fragments fill the table of fragments.
#[test]
fn is_filled_by_fragments(rt: HostRuntime) -> Result<(), Fail> {
    let mut catalogue = Catalogue::<Byte>::new(rt.alloc())?;
    let eight: &[u8] = b"41*42*43*44*45*46*47*48";
    enter_signatures(&rt, &mut catalogue, 0..12, eight)?;
    let one = signature(rt.alloc(), 12, b'V', 0, b"41")?;
    assert_eq!(rt; catalogue.enter(one.as_slice()), full(2));
    assert_eq!(rt; catalogue.withdraw_signature(0), Ok(0));
    assert_eq!(rt; catalogue.enter(one.as_slice()), Ok(12));
    let again = signature(rt.alloc(), 0, b'V', 0, eight)?;
    assert_eq!(rt; catalogue.enter(again.as_slice()), full(2));
    let seven = signature(rt.alloc(), 0, b'V', 0, b"41*42*43*44*45*46*47")?;
    assert_eq!(rt; catalogue.enter(seven.as_slice()), Ok(0));
    assert_eq!(rt; catalogue.show(12, 1, 1, 0x41), Ok((0, 0, 1, 1)));
    assert_eq!(rt; catalogue.show(11, 1, 8, 0x48), Ok((0, 0, 1, 1)));
    Ok(())
}

// Forty-eight formats fill a catalogue.
#[test]
fn is_filled_by_formats(rt: HostRuntime) -> Result<(), Fail> {
    let mut catalogue = Catalogue::<Byte>::new(rt.alloc())?;
    for id in 0..48 {
        let record = format(rt.alloc(), id, &[], &[], None)?;
        assert_eq!(rt; catalogue.enter(record.as_slice()), Ok(id));
    }
    let further = format(rt.alloc(), 48, &[], &[], None)?;
    assert_eq!(rt; catalogue.enter(further.as_slice()), full(3));
    assert_eq!(rt; catalogue.withdraw_format(0), Ok(0));
    assert_eq!(rt; catalogue.enter(further.as_slice()), Ok(48));
    Ok(())
}

// A catalogue with a signature of 41 and three formats that name it: 2 and 3 with a label.
fn three_formats(alloc: Global) -> Result<Catalogue<Byte>, Fail> {
    let mut catalogue = Catalogue::<Byte>::new(alloc)?;
    let records = [
        signature(alloc, 1, b'V', 0, b"41")?,
        format(alloc, 1, &[1], &[], None)?,
        format(alloc, 2, &[1], &[], Some(b"dat"))?,
        format(alloc, 3, &[1], &[], Some(b"log"))?,
    ];
    for record in &records {
        if catalogue.enter(record.as_slice()).is_err() {
            return Err(Fail::from("a record was refused"));
        }
    }
    Ok(catalogue)
}

// What is reported of 41 under a label.
fn listed(mismatch: bool, id: u16) -> Hit {
    Hit {
        id,
        status: HitStatus::Specific,
        mismatch,
    }
}

// Lists of every length up to the report's and beyond: the first hits are written, the rest stay.
#[test]
fn fills_lists_of_every_length(rt: HostRuntime) -> Result<(), Fail> {
    let catalogue = three_formats(rt.alloc())?;
    let report = [listed(false, 1), listed(false, 2), listed(true, 3)];
    for room in 0..6 {
        let mut hits = [BLANK; 6];
        let answer = catalogue.identify(Bytes::new(b"A"), b"DAT", &mut hits[..room]);
        if room < report.len() {
            let short = Err(Fault::outside(Cause::ShortHits, 3));
            assert_eq!(rt; answer, short);
            assert_eq!(rt; hits.as_slice(), [BLANK; 6].as_slice());
        } else {
            assert_eq!(rt; answer, Ok((Status::Positive, 3)));
            assert_eq!(rt; hits.get(..3), Some(report.as_slice()));
            assert_eq!(rt; hits.get(3..), Some([BLANK; 3].as_slice()));
        }
    }
    Ok(())
}

// A buffer that is one byte short stays as it is.
#[test]
fn writes_what_stands(rt: HostRuntime) -> Result<(), Fail> {
    let alloc = rt.alloc();
    let catalogue = three_formats(alloc)?;
    let mut buffer = [0xEE; 80];
    let len = catalogue.write(&mut buffer).map_err(|_| "refused")?;
    let mut want = Vec::new(alloc);
    want.extend_from_slice(signature(alloc, 1, b'V', 0, b"41")?.as_slice())?;
    want.extend_from_slice(format(alloc, 1, &[1], &[], None)?.as_slice())?;
    want.extend_from_slice(format(alloc, 2, &[1], &[], Some(b"dat"))?.as_slice())?;
    want.extend_from_slice(format(alloc, 3, &[1], &[], Some(b"log"))?.as_slice())?;
    assert_eq!(rt; buffer.get(..len), Some(want.as_slice()));
    assert_eq!(rt; buffer.get(len), Some(&0xEE));
    let mut short = [0xEE; 80];
    let room = len.saturating_sub(1).min(80);
    let fault = Err(Fault::outside(Cause::ShortBuffer, len));
    assert_eq!(rt; catalogue.write(&mut short[..room]), fault);
    assert_eq!(rt; short.as_slice(), [0xEE; 80].as_slice());
    Ok(())
}

// A reading of one element so many times over.
#[derive(Drop)]
struct Repeated {
    element: Byte,
    len: u32,
    ghost few: { len ≤ 4294967295 },
}

impl Reading for Repeated {
    type Element = Byte;

    ghost elements = { λ r. replicate r.len r.element };

    ghost fits = { λ r. FitsReading-replicate r.len r.element r.few };

    fn len(&self) -> u32 {
        self.len
    }

    fn at(&self, place: u32) -> Option<Byte> {
        (place < self.len).then_some(self.element)
    }
}

// Readings of no element, of one, of the most and of one more.
#[test]
fn identifies_readings_up_to_the_longest(rt: HostRuntime) -> Result<(), Fail> {
    let catalogue = three_formats(rt.alloc())?;
    let mut hits = [BLANK; 3];
    let negative = Ok((Status::Negative, 0));
    for len in [0, 1, 16_777_216] {
        let element = Byte::from(0x42);
        let answer = catalogue.identify(Repeated { element, len }, b"", &mut hits);
        assert_eq!(rt; answer, negative);
    }
    let element = Byte::from(0x41);
    let len = 16_777_217;
    let fault = Err(Fault::outside(Cause::LongReading, 0));
    let answer = catalogue.identify(Repeated { element, len }, b"", &mut hits);
    assert_eq!(rt; answer, fault);
    let answer = catalogue.identify(Repeated { element, len: 1 }, b"", &mut hits);
    assert_eq!(rt; answer, Ok((Status::Positive, 3)));
    Ok(())
}
