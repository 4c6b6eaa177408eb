//! Finds the least end of a fragment's placements, from one place where its anchor stands to the
//! next.
ghost use Rattle.std.specs.Prelude.{◌≡◌, ◌↔◌, IsTrue, true, length};
ghost use Rattle.patterns.specs.Codes.{codes_of};
ghost use Rattle.engine.specs.Finding.{last_useful_of, Bounds, LeastThrough, Sides};
ghost use Rattle.engine.specs.Reading.{held};
ghost use Rattle.engine.specs.Said.{Searches};
ghost use Rattle.patterns.specs.Fragments as spec;
ghost use Rattle.patterns.specs.Fragments.{bodies, Anchor};
ghost use Rattle.patterns.specs.Search.{least_end, stands_at};

use crate::fragment::Fragment;
use crate::lent::{BackFrom, OnFrom};
use crate::opening::Opening;
use crate::oriented::Oriented;
use crate::pattern::Pattern;
use crate::reach::reach;
use crate::scan::next_fit_up_to;
use crate::smaller::smaller;
use crate::starts::{Starts, place_behind};
use kinds::Reading;

// Whether a fragment's bounds are in order and lie in a pattern.
fn is_bounded(pattern: &Pattern, fragment: &Fragment) -> bool
    ensures { IsTrue result ↔ Bounds (length pattern.now.parts.items) fragment.now }
{
    fragment.first <= fragment.anchor
        && fragment.anchor <= fragment.end
        && fragment.codes.len() <= usize::from(fragment.end - fragment.anchor)
        && usize::from(fragment.end) <= pattern.parts.len()
}

// No struct holds a sequence, a reading and starts together: the starts are others for each
// fragment.

// The least end of a placement whose anchor stands at a place and that starts where it may, or
// none.
fn end_through<R: Reading>(
    sequence: &Oriented,
    fragment: &Fragment,
    reading: &R,
    place: u32,
    starts: Starts,
) -> Option<u64>
    requires { Bounds (length sequence.now.pattern.parts.items) fragment.now }
    ensures { (a : Anchor) →
        Sides (held sequence.now.pattern) (held sequence.now.mirror) fragment.now a →
        stands_at a.codes (codes_of R.Element.alphabet (R.elements reading.now)) place ≡ true →
        LeastThrough a starts (codes_of R.Element.alphabet (R.elements reading.now)) place result }
{
    let count = sequence.mirror.parts.len();
    let first = count.saturating_sub(usize::from(fragment.first));
    let back = BackFrom {
        reading,
        start: place,
    };
    let before = reach(
        &sequence.mirror,
        count.saturating_sub(usize::from(fragment.anchor)),
        first,
        &back,
    );
    if !starts.reached(&before, u64::from(place)) {
        return None;
    }
    let len = fragment.codes.len();
    let base = place_behind(u64::from(place), len as u64)?;
    let on = OnFrom {
        reading,
        start: base,
    };
    let from = usize::from(fragment.anchor) + len;
    let behind = reach(&sequence.pattern, from, usize::from(fragment.end), &on);
    behind.first_from(0).map(|far| u64::from(base) + far as u64)
}

// The last of the places up to one where an anchor of this length can give a smaller end than the
// best one.
fn last_useful(last: u32, best: Option<u64>, len: usize) -> u32
    ensures { result ≡ last_useful_of last best len }
{
    best.map_or(last, |end| {
        u64::from(last).min(end.saturating_sub(len as u64)) as u32
    })
}

// The least end of a fragment's placement that starts where it may, or none. At each place where
// the anchor stands, unless the literal that the fragment begins with does not stand near enough
// before it, the least end through it is taken, up to the last place that can give a smaller one.
pub(crate) fn least_end<R: Reading>(
    sequence: &Oriented,
    fragment: &Fragment,
    reading: &R,
    starts: Starts,
) -> Option<u64>
    ensures { (g : spec.Fragment) → Searches sequence.now fragment.now g → result ≡
        least_end (bodies g.body) starts.from starts.until
        (codes_of R.Element.alphabet (R.elements reading.now)) }
{
    if !is_bounded(&sequence.pattern, fragment) {
        return None;
    }
    let codes = fragment.codes.as_slice();
    let mut place = starts.first_place(fragment.lead)?;
    let mut opening = Opening::of(&sequence.pattern, fragment);
    let mut last = starts.last_place(opening.far);
    let mut best = None;
    // No `for`: where the anchor is looked for next is known only once the best end so far is.
    while let Some(fit) = next_fit_up_to(reading, codes, &fragment.shifts, place, last) {
        if !opening.excludes(reading, fit) {
            best = smaller(best, end_through(sequence, fragment, reading, fit, starts));
            last = last_useful(last, best, codes.len());
        }
        place = fit.checked_add(1)?;
    }
    best
}
