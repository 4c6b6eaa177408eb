//! Refusals: the cause, the sequence and the place.
ghost use Rattle.std.specs.Prelude.{◌≡◌, Some, codes};
ghost use Rattle.faults.specs.Faults.{number, cause_text, fault_text, fault_line, outside};

use std::error::Error;
use std::fmt;

/// Why an input is refused. What the place of the fault is stands beside each cause.
#[derive(Clone, Copy, PartialEq, Eq, Debug)]
pub enum Cause {
    /// A field of a record is cut off or holds a value that is not allowed, or bytes follow the last
    /// field. The place is the offset in the record of the first such field, listed id or byte.
    Field,
    /// The id stands already. The place is the id.
    Taken,
    /// A text is not in the grammar. The place is the length of its longest prefix that begins some
    /// text.
    Grammar,
    /// A gap, a range, the number of fragments or a fragment's span is beyond its limit. The place
    /// is the smallest such place in the text.
    Limit,
    /// A fragment has no literal outside groups and ranges. The place is the smallest such place in
    /// the text.
    NoLiteral,
    /// What is named does not stand. The place is its id, or that of the signature whose sequence or
    /// fragment it is.
    Missing,
    /// The entry is still named by a format. The place is the smallest id of such a format.
    Named,
    /// There is no room for more. The place is 1 for signatures, 2 for fragments, 3 for formats.
    Full,
    /// The reading has too many elements. The place is 0.
    LongReading,
    /// The list of hits is shorter than the report. The place is the number of hits.
    ShortHits,
    /// The buffer is shorter than what is written. The place is the number of bytes.
    ShortBuffer,
}

/// The number by which a cause is known.
impl From<Cause> for u8 {
    ghost from_gives = { λ cause n. n ≡ number cause };

    fn from(cause: Cause) -> u8 {
        match cause {
            Cause::Field => 1,
            Cause::Taken => 2,
            Cause::Grammar => 3,
            Cause::Limit => 4,
            Cause::NoLiteral => 5,
            Cause::Missing => 6,
            Cause::Named => 7,
            Cause::Full => 8,
            Cause::LongReading => 9,
            Cause::ShortHits => 10,
            Cause::ShortBuffer => 11,
        }
    }
}

/// What is wrong, for whoever gave the input.
impl fmt::Display for Cause {
    ghost output = { λ cause. Some (cause_text cause) };

    fn fmt<W: fmt::Write>(&self, f: &mut fmt::Formatter<W>) -> fmt::Result {
        write!(
            f,
            "{}",
            match self {
                Cause::Field => "a field is cut off or not allowed, or bytes follow the last field",
                Cause::Taken => "the id stands already",
                Cause::Grammar => "the text is not in the grammar",
                Cause::Limit => {
                    "a gap, a range, the number of fragments or a fragment's span is beyond its limit"
                }
                Cause::NoLiteral => "a fragment has no literal outside groups and ranges",
                Cause::Missing => "what is named does not stand",
                Cause::Named => "the entry is still named by a format",
                Cause::Full => "there is no room for more",
                Cause::LongReading => "the reading has too many elements",
                Cause::ShortHits => "the list of hits is shorter than the report",
                Cause::ShortBuffer => "the buffer is shorter than what is written",
            }
        )
    }
}

/// A refusal of an input: its cause, the number of the sequence (from 1, or 0 outside one), and the
/// place that the cause names, counted from 0. It goes up unchanged.
#[derive(Clone, Copy, PartialEq, Eq, Debug)]
pub struct Fault {
    /// Why the input is refused.
    pub cause: Cause,
    /// The number of the sequence, 0 outside one.
    pub sequence: u8,
    /// The place that the cause names.
    pub place: usize,
}

impl Fault {
    /// A refusal outside a sequence.
    pub fn outside(cause: Cause, place: usize) -> Fault
        ensures { result ≡ outside cause place }
    {
        Fault {
            cause,
            sequence: 0,
            place,
        }
    }

    /// The refusal as the programs write it: `refused NUMBER SEQUENCE PLACE`.
    pub fn line(self) -> FaultLine
        ensures { result.fault ≡ self }
    {
        FaultLine { fault: self }
    }
}

/// The refusal as a sentence.
impl fmt::Display for Fault {
    ghost output = { λ fault. Some (fault_text fault) };

    fn fmt<W: fmt::Write>(&self, f: &mut fmt::Formatter<W>) -> fmt::Result {
        let cause = self.cause;
        let sequence = self.sequence;
        let place = self.place;
        match sequence {
            0 => write!(f, "refused at {place}: {cause}"),
            _ => write!(
                f,
                "sequence {sequence} is refused at place {place}: {cause}"
            ),
        }
    }
}

impl Error for Fault {}

/// A refusal that is printed as the line `refused NUMBER SEQUENCE PLACE`.
#[derive(Clone, Copy, Debug)]
pub struct FaultLine {
    /// The refusal.
    pub fault: Fault,
}

impl fmt::Display for FaultLine {
    ghost output = { λ line. Some (fault_line line.fault) };

    fn fmt<W: fmt::Write>(&self, f: &mut fmt::Formatter<W>) -> fmt::Result {
        let number = u8::from(self.fault.cause);
        let sequence = self.fault.sequence;
        let place = self.fault.place;
        write!(f, "refused {number} {sequence} {place}")
    }
}
