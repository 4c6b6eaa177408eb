//! A reading of a lent list of elements, of any kind.
ghost use Rattle.std.specs.Prelude.{◌≡◌};
ghost use Rattle.kinds.specs.Readings.{FitsReading, shown};

use crate::kind::Kind;
use crate::reading::{Reading, showable};

/// A reading of a slice of elements of any kind, such as those that a caller has made.
///
/// It is no `Copy` type: a reading is handed over once.
#[derive(Drop)]
pub struct Held<'a, K> {
    items: &'a [K],
    ghost fits: { FitsReading items.now },
}

impl<'a, K: Kind> Held<'a, K> {
    /// The reading of a slice, no further than its first 4,294,967,295 elements.
    pub fn new(items: &'a [K]) -> Held<'a, K>
        ensures { ⟦<Held<'a, K> as Reading>⟧.elements result ≡ shown items.now }
    {
        Held {
            items: showable(items),
        }
    }
}

impl<'a, K: Kind> Reading for Held<'a, K> {
    type Element = K;

    ghost elements = { λ s. s.items.now };

    ghost fits = { λ s. s.fits };

    fn len(&self) -> u32 {
        self.items.len() as u32
    }

    fn at(&self, place: u32) -> Option<K> {
        self.items.get(place as usize).copied()
    }
}
