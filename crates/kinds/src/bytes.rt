//! A reading of a lent slice of bytes, as a file's bytes lie in memory.
ghost use Rattle.std.specs.Prelude.{◌≡◌, map};
ghost use Rattle.kinds.specs.Readings.{FitsReading, shown};

use crate::byte::Byte;
use crate::reading::{Reading, showable};

/// A reading of a slice of bytes, such as those of a file, where they lie: no copy of them is made.
///
/// It is no `Copy` type: a reading is handed over once.
#[derive(Drop)]
pub struct Bytes<'a> {
    bytes: &'a [u8],
    ghost fits: { FitsReading bytes.now },
}

impl<'a> Bytes<'a> {
    ghost use Rattle.kinds.specs.Bytes.{byte};

    /// The reading of a slice, no further than its first 4,294,967,295 bytes.
    pub fn new(bytes: &'a [u8]) -> Bytes<'a>
        ensures { ⟦<Bytes<'a> as Reading>⟧.elements result ≡ map byte (shown bytes.now) }
    {
        Bytes {
            bytes: showable(bytes),
        }
    }
}

impl<'a> Reading for Bytes<'a> {
    ghost use Rattle.kinds.specs.Bytes.{byte};
    ghost use Rattle.kinds.specs.Readings.{FitsReading-map};

    type Element = Byte;

    ghost elements = { λ s. map byte s.bytes.now };

    ghost fits = { λ s. FitsReading-map byte s.bytes.now s.fits };

    fn len(&self) -> u32 {
        self.bytes.len() as u32
    }

    fn at(&self, place: u32) -> Option<Byte> {
        self.bytes.get(place as usize).copied().map(Byte::from)
    }
}
