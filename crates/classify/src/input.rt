//! Records in a stream of bytes.
use command::Failure;
use std::io::Read;

/// A body has at most this many bytes.
const LONGEST_BODY: usize = 4_096;

/// The length of a body and the kind, in front of it.
const HEADER: usize = 4;

// So many bytes are read at a time.
const CHUNK: usize = 1_024;

/// The records of a stream, one at a time.
#[derive(Drop)]
pub(crate) struct Input<R> {
    from: R,
    record: Vec<u8>,
}

/// What stands next in a stream.
#[derive(Clone, Copy)]
pub(crate) enum Next<'i> {
    /// A record, which the end of the stream may cut off.
    Record(&'i [u8]),
    /// A record whose body is too long.
    TooLong,
    /// The end of the stream.
    End,
}

impl<R: Read> Input<R> {
    /// The records of a stream, kept one at a time in a list that is lent for it.
    pub(crate) fn new(from: R, record: Vec<u8>) -> Input<R> {
        Input { from, record }
    }

    /// What stands next. Of a record that is too long the body is not read.
    pub(crate) fn next(&mut self) -> Result<Next<'_>, Failure> {
        self.record.clear();
        self.fill(HEADER)?;
        let body = match self.record.as_slice() {
            [] => return Ok(Next::End),
            [low, high, ..] => usize::from(u16::from_le_bytes([*low, *high])),
            [_] => 0,
        };
        if body > LONGEST_BODY {
            return Ok(Next::TooLong);
        }
        self.fill(HEADER + body)?;
        Ok(Next::Record(self.record.as_slice()))
    }

    // Reads on until the record has so many bytes, or the stream ends.
    fn fill(&mut self, len: usize) -> Result<(), Failure> {
        let mut chunk = [0; CHUNK];
        for _ in 0..len {
            let missing = len.saturating_sub(self.record.len()).min(CHUNK);
            if missing == 0 {
                break;
            }
            let read = self
                .from
                .read(&mut chunk[..missing])
                .map_err(Failure::Input)?;
            if read == 0 {
                break;
            }
            self.record.extend_from_slice(&chunk[..read])?;
        }
        Ok(())
    }
}
