//! A stream of records, answered one after the other.
use crate::answers::{answer, kind_of, too_long};
use crate::input::{Input, Next};
use catalogue::Catalogue;
use command::Failure;
use kinds::{Byte, Mark};
use lanes::Lane;
use std::alloc::Global;
use std::io::{BufReader, Read};

// Prints lines that answer a record.
fn print(rt: &impl Print, lines: &str) -> Result<(), Failure> {
    rt.println(lines).map_err(Failure::Output)
}

// Answers the first record, with a new catalogue, and all that follow.
fn answer_from<K: Lane, R: Read + Drop>(
    rt: &impl Print,
    alloc: Global,
    first: &[u8],
    mut input: Input<R>,
) -> Result<(), Failure> {
    let mut catalogue = Catalogue::<K>::new(alloc)?;
    print(rt, answer(alloc, &mut catalogue, first)?.as_str())?;
    for _ in 0..u64::MAX {
        match input.next()? {
            Next::Record(record) => print(rt, answer(alloc, &mut catalogue, record)?.as_str())?,
            Next::TooLong => return print(rt, too_long(alloc)?.as_str()),
            Next::End => break,
        }
    }
    Ok(())
}

/// Answers all records of standard input. The kind of the first decides the kind of element: odd is
/// bytes, even is axle marks, and a record that ends before its kind is taken for one of bytes.
pub(crate) fn answer_all(rt: &HostRuntime) -> Result<(), Failure> {
    let alloc = rt.alloc();
    let from = BufReader::new(alloc, rt.stdin()).map_err(Failure::Input)?;
    let mut input = Input::new(from, Vec::new(alloc));
    let first = match input.next()? {
        Next::Record(record) => Vec::from_slice(alloc, record)?,
        Next::TooLong => return print(rt, too_long(alloc)?.as_str()),
        Next::End => return Ok(()),
    };
    let kind = kind_of(first.as_slice());
    if first.len() >= 4 && kind % 2 == 0 {
        answer_from::<Mark, _>(rt, alloc, first.as_slice(), input)
    } else {
        answer_from::<Byte, _>(rt, alloc, first.as_slice(), input)
    }
}
