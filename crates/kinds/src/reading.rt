//! The interface of a reading: its meaning is a list of elements of one kind.
ghost use Rattle.std.specs.Prelude.{◌≡◌, ◌+◌, ◌<◌, ◌++◌, List, length, OnOk, OnErr, vec_len};
ghost use Rattle.std.specs.Vec.{vec_capacity};
ghost use Rattle.kinds.specs.Readings.{FitsReading, shown};
ghost use Rattle.std.specs.List.{slice_get};

use crate::kind::Kind;
use std::alloc::AllocError;

// The longest list that a reading can show.
const LONGEST: usize = u32::MAX as usize;

/// Which way a reading is gone over.
#[derive(Clone, Copy, PartialEq, Eq, Debug)]
pub enum Order {
    /// From the first element to the last.
    Forward,
    /// From the last element to the first.
    Backward,
}

/// A list of elements of one kind that answers for one place at a time, so that it need not be held
/// as a list. It has at most 4,294,967,295 elements (docs/KINDS_AND_READINGS.md).
pub trait Reading {
    /// The kind of its elements.
    type Element: Kind;

    ghost elements: { Self → List Self.Element };

    ghost fits: { (r : Self) → FitsReading (elements r) };

    /// How many elements it has.
    fn len(&self) -> u32
        ensures { result ≡ length (elements self.now) };

    /// The element at a place, counted from 0, or none where no element stands.
    fn at(&self, place: u32) -> Option<Self::Element>
        ensures { result ≡ slice_get (elements self.now) place };
}

// As much of a slice as a reading can show.
pub(crate) fn showable<T>(items: &[T]) -> &[T]
    ensures front { result.now ≡ shown items.now }
    ensures fits { FitsReading result.now }
{
    &items[..LONGEST.min(items.len())]
}

/// Copies all elements of a reading to the end of a list, in order.
///
/// It is refused only where the list has too little room for them and there is no memory for more.
/// The list then holds what it held.
pub fn copy_elements<R: Reading>(reading: &R, list: &mut Vec<R::Element>) -> Result<(), AllocError>
    ensures ok { OnOk result (list.new.items ≡ list.old.items ++ R.elements reading.now) }
    ensures err { OnErr result (list.new.items ≡ list.old.items) }
    ensures full { OnErr result
        (vec_capacity list.old < vec_len list.old + length (R.elements reading.now)) }
{
    let len = reading.len();
    list.try_reserve(len as usize)?;
    for place in 0..len {
        if let Some(x) = reading.at(place) {
            list.push(x)?;
        }
    }
    Ok(())
}
