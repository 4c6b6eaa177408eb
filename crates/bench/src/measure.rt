//! A search, run and timed.
use engine::Sequence;
use kinds::{Kind, Reading};
use std::time::{Clock, Duration, Instant};
use std::{fmt, io};

/// What a search answered, the least time of its runs, and how many elements the reading has.
#[derive(Clone, Copy)]
pub struct Measure {
    hit: bool,
    best: Duration,
    len: u32,
}

/// Runs a search a number of times, and times each.
pub(crate) fn measured<K: Kind, R: Reading<Element = K>>(
    clock: &impl Clock,
    sequence: &Sequence<K>,
    reading: &R,
    runs: u32,
) -> io::Result<Measure> {
    let mut hit = false;
    let mut best = Duration::MAX;
    for _ in 0..runs {
        let start = Instant::now(clock)?;
        hit = sequence.hits(reading);
        best = best.min(start.elapsed(clock)?);
    }
    Ok(Measure {
        hit,
        best,
        len: reading.len(),
    })
}

// Elements by the microsecond, which for bytes are megabytes by the second.
fn speed(len: u32, time: Duration) -> u128 {
    u128::from(len) * 1000 / time.as_nanos().max(1)
}

impl fmt::Display for Measure {
    fn fmt<W: fmt::Write>(&self, f: &mut fmt::Formatter<W>) -> fmt::Result {
        let answer = if self.hit { "hit" } else { "miss" };
        let micros = self.best.as_micros();
        let speed = speed(self.len, self.best);
        write!(f, "{answer} {micros} us {speed} MB/s")
    }
}
