//! Any reading from its last element to its first.
ghost use Rattle.std.specs.Prelude.{◌≡◌, reverse};
ghost use Rattle.kinds.specs.Readings.{FitsReading-reverse};

use crate::reading::Reading;

/// Any reading from its last element to its first.
///
/// It is no `Copy` type: a reading is handed over once.
#[derive(Drop)]
pub struct Backward<R> {
    forward: R,
}

impl<R: Reading> Backward<R> {
    /// A reading, which is handed over, from its last element on.
    pub fn new(forward: R) -> Backward<R>
        ensures forward { result.forward ≡ forward }
        ensures shows { ⟦<Backward<R> as Reading>⟧.elements result ≡ reverse (R.elements forward) }
    {
        Backward { forward }
    }
}

impl<R: Reading> Reading for Backward<R> {
    type Element = R::Element;

    ghost elements = { λ s. reverse (R.elements s.forward) };

    ghost fits = { λ s. FitsReading-reverse (R.elements s.forward) (R.fits s.forward) };

    fn len(&self) -> u32 {
        self.forward.len()
    }

    fn at(&self, place: u32) -> Option<R::Element> {
        let last = self.forward.len().checked_sub(1)?;
        self.forward.at(last.checked_sub(place)?)
    }
}
