//! The two kinds of element that the programs know, as their readings lie in records and files.
#![tactic(auto)]

use catalogue::{Catalogue, Fault, Hit, Status};
use kinds::{Byte, Bytes, Kind, Mark, Marks};

/// A kind of element as the programs read it.
pub trait Lane: Kind {
    /// The kind of the records that hold readings.
    const READING_RECORD: u16;

    /// The report of a catalogue on the elements that bytes stand for, under a label: bytes as they
    /// are, axle marks as the strip codes them. The hits go to the front of the list.
    fn identify(
        catalogue: &Catalogue<Self>,
        elements: &[u8],
        label: &[u8],
        hits: &mut [Hit],
    ) -> Result<(Status, usize), Fault>;
}

impl Lane for Byte {
    const READING_RECORD: u16 = 5;

    fn identify(
        catalogue: &Catalogue<Byte>,
        elements: &[u8],
        label: &[u8],
        hits: &mut [Hit],
    ) -> Result<(Status, usize), Fault> {
        catalogue.identify(Bytes::new(elements), label, hits)
    }
}

impl Lane for Mark {
    const READING_RECORD: u16 = 6;

    fn identify(
        catalogue: &Catalogue<Mark>,
        elements: &[u8],
        label: &[u8],
        hits: &mut [Hit],
    ) -> Result<(Status, usize), Fault> {
        catalogue.identify(Marks::new(Bytes::new(elements)), label, hits)
    }
}
