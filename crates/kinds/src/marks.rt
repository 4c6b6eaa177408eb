//! Axle marks over any byte reading.
ghost use Rattle.std.specs.Prelude.{◌≡◌, map};
ghost use Rattle.kinds.specs.AxleMarks.{mark_of};
ghost use Rattle.kinds.specs.Readings.{FitsReading-map};

use crate::byte::Byte;
use crate::mark::Mark;
use crate::reading::Reading;

/// Any reading of bytes, such as those of a strip, as the axle marks that they stand for
/// (docs/KINDS_AND_READINGS.md).
///
/// It is no `Copy` type: a reading is handed over once.
#[derive(Drop)]
pub struct Marks<R> {
    bytes: R,
}

impl<R: Reading<Element = Byte>> Marks<R> {
    /// The marks over a reading, which is handed over.
    pub fn new(bytes: R) -> Marks<R>
        ensures bytes { result.bytes ≡ bytes }
        ensures shows { ⟦<Marks<R> as Reading>⟧.elements result ≡ map mark_of (R.elements bytes) }
    {
        Marks { bytes }
    }
}

impl<R: Reading<Element = Byte>> Reading for Marks<R> {
    type Element = Mark;

    ghost elements = { λ s. map mark_of (R.elements s.bytes) };

    ghost fits = { λ s. FitsReading-map mark_of (R.elements s.bytes) (R.fits s.bytes) };

    fn len(&self) -> u32 {
        self.bytes.len()
    }

    fn at(&self, place: u32) -> Option<Mark> {
        self.bytes.at(place).map(Mark::from)
    }
}
