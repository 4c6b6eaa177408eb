//! How long it takes to identify a reading.
use crate::complaint::Complaint;
use catalogue::{Catalogue, Fault, Hit, HitStatus, Status};
use kinds::{Byte, Mark};
use lanes::Lane;
use std::alloc::Global;
use std::fmt;
use std::time::{Clock, Duration, Instant};

// A report has at most this many hits.
const MOST_HITS: usize = 48;

// One run asks so many times, since once is too short for the clock.
const BATCH: u32 = 1_000;

/// What a catalogue answered, and the least time of its runs for one question.
#[derive(Clone, Copy)]
pub(crate) struct Identified {
    status: Status,
    count: usize,
    best: Duration,
}

impl fmt::Display for Identified {
    fn fmt<W: fmt::Write>(&self, f: &mut fmt::Formatter<W>) -> fmt::Result {
        let status = self.status;
        let count = self.count;
        let nanos = self.best.as_nanos() / u128::from(BATCH);
        write!(f, "{status} {count} {nanos} ns")
    }
}

// A catalogue of the records that stand one after the other in some bytes; or the refusal of the
// first that is refused.
fn catalogue_of<K: Lane>(
    alloc: Global,
    records: &[u8],
) -> Result<Result<Catalogue<K>, Fault>, Complaint> {
    let mut catalogue = Catalogue::<K>::new(alloc)?;
    let mut rest = records;
    for _ in 0..records.len() {
        let len = match rest {
            [] => break,
            [low, high, ..] => 4 + usize::from(u16::from_le_bytes([*low, *high])),
            [_] => 1,
        };
        let (record, later) = rest.split_at(len.min(rest.len()));
        if let Err(fault) = catalogue.enter(record) {
            return Ok(Err(fault));
        }
        rest = later;
    }
    Ok(Ok(catalogue))
}

// Asks a catalogue about a reading a number of times, and times each batch.
fn timed<K: Lane>(
    clock: &impl Clock,
    catalogue: &Catalogue<K>,
    reading: &[u8],
    runs: u32,
) -> Result<Result<Identified, Fault>, Complaint> {
    let mut hits = [Hit {
        id: 0,
        status: HitStatus::Generic,
        mismatch: false,
    }; MOST_HITS];
    let mut found = K::identify(catalogue, reading, b"", &mut hits);
    let mut best = Duration::MAX;
    for _ in 0..runs {
        let start = Instant::now(clock)?;
        for _ in 0..BATCH {
            found = K::identify(catalogue, reading, b"", &mut hits);
        }
        best = best.min(start.elapsed(clock)?);
    }
    Ok(found.map(|(status, count)| Identified {
        status,
        count,
        best,
    }))
}

// The same from the records on.
fn answered<K: Lane>(
    alloc: Global,
    clock: &impl Clock,
    records: &[u8],
    reading: &[u8],
    runs: u32,
) -> Result<Result<Identified, Fault>, Complaint> {
    match catalogue_of::<K>(alloc, records)? {
        Ok(catalogue) => timed(clock, &catalogue, reading, runs),
        Err(fault) => Ok(Err(fault)),
    }
}

/// Enters records, identifies a reading without a label a number of times, and answers the least
/// time of a question; or the refusal of a record or of the reading. The kind of the first record
/// decides whether the reading is of bytes or of axle marks.
pub(crate) fn measure_reports(
    alloc: Global,
    clock: &impl Clock,
    records: &[u8],
    reading: &[u8],
    runs: u32,
) -> Result<Result<Identified, Fault>, Complaint> {
    match records {
        [_, _, kind, ..] if kind % 2 == 0 => {
            answered::<Mark>(alloc, clock, records, reading, runs)
        }
        _ => answered::<Byte>(alloc, clock, records, reading, runs),
    }
}
