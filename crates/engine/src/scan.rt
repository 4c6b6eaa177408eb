//! Looks for the places of a reading where an anchor stands.
ghost use Rattle.std.specs.Prelude.{◌≡◌, ◌+◌, ◌≤◌, length, IfSome};
ghost use Rattle.patterns.specs.Codes.{codes_of};
ghost use Rattle.engine.specs.Codes.{not_past, ShiftsOf};
ghost use Rattle.patterns.specs.Search.{stands_at, first_fit};

use crate::fragment::INDICES;
use kinds::{Kind, Reading};

// Whether an anchor stands at a place of a reading that has as many elements from there on.
fn fits<R: Reading>(reading: &R, anchor: &[u16], place: u32) -> bool
    requires { place + length anchor.now ≤ length (R.elements reading.now) }
    ensures { result ≡ stands_at anchor.now
        (codes_of R.Element.alphabet (R.elements reading.now)) place }
{
    anchor.iter().enumerate().all(|(k, code)| {
        reading
            .at(place + k as u32)
            .is_some_and(|element| element.code() == *code)
    })
}

// The first place, from one on and not past another, where an anchor stands, or none. A window of
// the anchor's length moves on by the shift of the element beyond it, and by 1 where the table has
// a shift of 0, which no anchor's table has.
pub(crate) fn next_fit_up_to<R: Reading>(
    reading: &R,
    anchor: &[u16],
    shifts: &[u8; INDICES],
    from: u32,
    to: u32,
) -> Option<u32>
    ensures on { IfSome result (λ place. from ≤ place) }
    ensures first { ShiftsOf shifts.now anchor.now → result ≡ not_past to (first_fit anchor.now
        (codes_of R.Element.alphabet (R.elements reading.now)) from) }
{
    let width = anchor.len();
    let last = (reading.len() as usize)
        .checked_sub(width)?
        .min(to as usize);
    let mut end = from as usize + width;
    // No `for`: the shift tells where the next window ends only once this one has been looked at.
    while end <= last + width {
        let place = (end - width) as u32;
        if fits(reading, anchor, place) {
            return Some(place);
        }
        let beyond = reading.at(end as u32)?;
        let shift = shifts[usize::from(beyond.code()) % INDICES];
        // `max(1)` of a byte would be widened a second time.
        end += usize::from(shift) + usize::from(shift == 0);
    }
    None
}
