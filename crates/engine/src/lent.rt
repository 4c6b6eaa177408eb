//! Readings of a lent reading: all of it, and each side of a place in it.
ghost use Rattle.std.specs.Prelude.{reverse, take, drop};
ghost use Rattle.engine.specs.Lent.{FitsReading-back, FitsReading-on};

use kinds::Reading;

// A lent reading, for what takes a reading by value.
#[derive(Drop)]
pub(crate) struct Lent<'r, R> {
    pub(crate) reading: &'r R,
}

impl<'r, R: Reading> Reading for Lent<'r, R> {
    type Element = R::Element;

    ghost elements = { λ s. R.elements s.reading.now };

    ghost fits = { λ s. R.fits s.reading.now };

    fn len(&self) -> u32 {
        self.reading.len()
    }

    fn at(&self, place: u32) -> Option<R::Element> {
        self.reading.at(place)
    }
}

// A lent reading from a place back, the element before the place first. It is no Backward over a
// reading up to its place: that is one reading more, and tests each place twice.
#[derive(Drop)]
pub(crate) struct BackFrom<'r, R> {
    pub(crate) reading: &'r R,
    pub(crate) start: u32,
}

impl<'r, R: Reading> Reading for BackFrom<'r, R> {
    type Element = R::Element;

    ghost elements = { λ s. reverse (take s.start (R.elements s.reading.now)) };

    ghost fits = { λ s. FitsReading-back s.start (R.elements s.reading.now)
        (R.fits s.reading.now) };

    fn len(&self) -> u32 {
        self.reading.len().min(self.start)
    }

    fn at(&self, place: u32) -> Option<R::Element> {
        let last = self.len().checked_sub(1)?;
        self.reading.at(last.checked_sub(place)?)
    }
}

// A lent reading from a place on.
#[derive(Drop)]
pub(crate) struct OnFrom<'r, R> {
    pub(crate) reading: &'r R,
    pub(crate) start: u32,
}

impl<'r, R: Reading> Reading for OnFrom<'r, R> {
    type Element = R::Element;

    ghost elements = { λ s. drop s.start (R.elements s.reading.now) };

    ghost fits = { λ s. FitsReading-on s.start (R.elements s.reading.now) (R.fits s.reading.now) };

    fn len(&self) -> u32 {
        self.reading.len().saturating_sub(self.start)
    }

    fn at(&self, place: u32) -> Option<R::Element> {
        self.reading.at(self.start.checked_add(place)?)
    }
}
