//! The literal that a fragment begins with: where it does not stand near enough before an anchor,
//! no placement goes through that anchor, and nothing else need be looked at there.
ghost use Rattle.std.specs.Prelude.{◌≡◌, ◌≤◌, min, ◌↔◌, IsTrue, length};
ghost use Rattle.patterns.specs.Codes.{codes_of};
ghost use Rattle.engine.specs.Finding.{Bounds};
ghost use Rattle.engine.specs.Openings.{opening_code, Excluded, Known, LastOrNone, OpeningFor};
ghost use Rattle.engine.specs.Parts.{items_in, HasParts};
ghost use Rattle.patterns.specs.Spans.{sum_span};
ghost use Rattle.engine.specs.declared.pattern.Pattern.{Pattern};

use crate::fragment::Fragment;
use crate::limits::LONGEST_SPAN;
use crate::pattern::{Part, Pattern, PlacedPart};
use crate::reach::code_at;
use kinds::Reading;

// The most elements of a fragment that can stand before its anchor.
const FARTHEST: usize = LONGEST_SPAN as usize - 1;

// How many elements parts span, up to the most that can stand before an anchor.
fn far_of(pattern: &Pattern, parts: &[PlacedPart]) -> usize
    requires { HasParts pattern.now parts.now }
    ensures { result ≡ min 1023 (sum_span (items_in pattern.now parts.now)) }
{
    let mut far: usize = 0;
    for placed in parts {
        far = far
            .saturating_add(usize::from(pattern.extent(placed.part).span))
            .min(FARTHEST);
    }
    far
}

// The code of the literal that parts begin with, if they do.
fn first_code(parts: &[PlacedPart]) -> Option<u16>
    ensures { (pattern : Pattern) → result ≡ opening_code (items_in pattern parts.now) }
{
    match parts.first()?.part {
        Part::Literal(code) => Some(code),
        _ => None,
    }
}

// The last place before one, and not before another, where a code stands.
fn last_place_of<R: Reading>(code: u16, reading: &R, from: u32, to: u32) -> Option<u32>
    ensures { LastOrNone code
        (codes_of R.Element.alphabet (R.elements reading.now)) from to result }
{
    // No `find`: of a range from its end, what it says is said of a list turned round.
    for place in (from..to).rev() {
        if code_at(reading, place) == Some(code) {
            return Some(place);
        }
    }
    None
}

// The literal that a fragment begins with, and how far a reading has been looked through for it: a
// place is asked for at most once, and not again for each anchor behind it.
#[derive(Clone, Copy)]
pub(crate) struct Opening {
    code: Option<u16>,
    // How far before its anchor the fragment can begin.
    pub(crate) far: u32,
    // The literal stands right before `after`, if that is not 0, and at none of the places from
    // there to before `next` that are at most `far` before `next`.
    after: u32,
    next: u32,
}

impl Opening {
    // That of a fragment, before the first look.
    pub(crate) fn of(pattern: &Pattern, fragment: &Fragment) -> Opening
        requires { Bounds (length pattern.now.parts.items) fragment.now }
        ensures opening { OpeningFor pattern.now fragment.now result }
        ensures after { result.after ≡ 0 }
        ensures next { result.next ≡ 0 }
    {
        let front = &pattern.parts[usize::from(fragment.first)..usize::from(fragment.anchor)];
        Opening {
            code: first_code(front),
            far: far_of(pattern, front) as u32,
            after: 0,
            next: 0,
        }
    }

    // Looks through a reading up to an anchor's place, and tells whether the literal stands at none
    // of the `far` places before it: then no placement goes through the anchor.
    pub(crate) fn excludes<R: Reading>(&mut self, reading: &R, place: u32) -> bool
        requires known { Known self.old (codes_of R.Element.alphabet (R.elements reading.now)) }
        requires on { self.old.next ≤ place }
        ensures code { self.new.code ≡ self.old.code }
        ensures far { self.new.far ≡ self.old.far }
        ensures next { self.new.next ≡ place }
        ensures known { Known self.new (codes_of R.Element.alphabet (R.elements reading.now)) }
        ensures excluded { IsTrue result ↔ Excluded self.old
            (codes_of R.Element.alphabet (R.elements reading.now)) place }
    {
        let first = place.saturating_sub(self.far);
        let from = self.next.max(first);
        self.next = place;
        let Some(code) = self.code else {
            return false;
        };
        if let Some(last) = last_place_of(code, reading, from, place) {
            self.after = last + 1;
        }
        self.after <= first
    }
}
