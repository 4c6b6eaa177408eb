//! Compiles a pattern: its fragments, their anchors, and the numbers of their search.
ghost use Rattle.std.specs.Prelude.{◌≡◌, ◌+◌, ◌-◌, ◌≤◌, None, [], length, take, drop, if◌then◌else◌, slice_index};
ghost use Rattle.engine.specs.Compiled.{literal_codes as literals_of, Holds, Hold};
ghost use Rattle.engine.specs.Compiling.{part_codes, replaces, AnchorsParts, CutsParts};
ghost use Rattle.engine.specs.Codes.{ShiftsOf};
ghost use Rattle.engine.specs.Reading.{held};
ghost use Rattle.engine.specs.Parts.{items_in, HasParts};
ghost use Rattle.patterns.specs.Fragments.{bodies, limit_place, sum_least, fragments as fragments_from};

use crate::anchor_codes::AnchorCodes;
use crate::limits::MOST_FRAGMENTS;
use crate::pattern::{MOST_CODES, MOST_PARTS, Part, Pattern, PlacedPart};
use arrayvec::ArrayVec;
use patterns::Reference;

/// How many indices an element's code can have: its code modulo 256.
pub const INDICES: usize = 256;

/// A compiled fragment: where its items stand in its pattern, its anchor, and the numbers of its
/// search.
#[derive(Clone, Copy, Default)]
pub struct Fragment {
    // The items from `first` to before `end`.
    pub(crate) first: u8,
    pub(crate) end: u8,
    // The anchor: the literals from `anchor` on, and their codes.
    pub(crate) anchor: u8,
    pub(crate) codes: AnchorCodes,
    // The least number of elements before the fragment: from the one before it on, or from where
    // the search begins.
    pub(crate) break_before: u32,
    // The least number of elements from the fragment's start to its anchor's.
    pub(crate) lead: u32,
    // The shift of each index.
    pub(crate) shifts: [u8; INDICES],
}

impl Fragment {
    /// The least number of elements before the fragment: behind the fragment before it, or from
    /// where the search begins.
    pub fn break_before(&self) -> u32
        ensures { result ≡ self.now.break_before }
    {
        self.break_before
    }

    /// The least number of elements from the fragment's start to its anchor's.
    pub fn lead(&self) -> u32
        ensures { result ≡ self.now.lead }
    {
        self.lead
    }

    /// How many literals the anchor has.
    pub fn anchor_len(&self) -> usize
        ensures { result ≡ length self.now.codes.items }
    {
        self.codes.len()
    }

    /// How far the search for the anchor moves on where the element behind it has this index.
    pub fn shift(&self, index: u8) -> u8
        ensures { result ≡ slice_index self.now.shifts index }
    {
        self.shifts[usize::from(index)]
    }
}

// The shift of each index: how far from behind the codes the last of them stands that has the
// index.
fn shifts(codes: &[u16]) -> [u8; INDICES]
    requires { length codes.now ≤ MOST_CODES }
    ensures { ShiftsOf result codes.now }
{
    let longest = codes.len() as u8 + 1;
    let mut table = [longest; INDICES];
    for (code, distance) in codes.iter().zip((1..longest).rev()) {
        table[usize::from(*code) % INDICES] = distance;
    }
    table
}

// A run of neighbouring literals among parts.
#[derive(Clone, Copy)]
struct Literals {
    start: usize,
    len: usize,
}

// The one of two runs, of which the second stands later, that is the better anchor: the longer one.
// Of equals it is the one that is the last in the text, which is the first of a mirrored pattern.
fn better(reference: Reference, old: Literals, new: Literals) -> Literals
    ensures { result ≡ (if replaces reference old.len new.len then new else old) }
{
    let replaces = match reference {
        Reference::Back { .. } => old.len < new.len,
        Reference::Front { .. } | Reference::Anywhere => old.len <= new.len,
    };
    if new.len > 0 && replaces { new } else { old }
}

// The anchor of a fragment's parts: its best run of literals, or an empty one behind them where
// there is no literal.
fn anchor(parts: &[PlacedPart], reference: Reference) -> Literals
    ensures inside { result.start + result.len ≤ length parts.now }
    ensures anchored { AnchorsParts reference parts.now result.start result.len }
{
    let mut best = Literals {
        start: parts.len(),
        len: 0,
    };
    // `split` would give the runs of literals without their places.
    let mut start = 0;
    for (i, placed) in parts.iter().enumerate() {
        if !matches!(placed.part, Part::Literal(_)) {
            let len = i - start;
            best = better(reference, best, Literals { start, len });
            start = i + 1;
        }
    }
    let len = parts.len() - start;
    better(reference, best, Literals { start, len })
}

// Where a fragment's body ends, and where the fragment behind it starts, if there is one, with the
// least number of elements between them.
#[derive(Clone, Copy)]
struct FirstCut {
    end: usize,
    next: Option<(usize, u32)>,
}

// Cuts the first fragment off the parts that it begins: behind its body, and at the thing behind
// the first spacing that has a gap without upper end.
fn cut_first(parts: &[PlacedPart]) -> FirstCut
    requires { length parts.now ≤ MOST_PARTS }
    ensures { CutsParts parts.now result.end result.next }
{
    let mut end = 0;
    let mut endless = false;
    let mut between: u32 = 0;
    for (i, placed) in parts.iter().enumerate() {
        match placed.part {
            Part::Gap { least, most } => {
                endless |= most.is_none();
                between += u32::from(least);
            }
            _ if endless => {
                let next = Some((i, between));
                return FirstCut { end, next };
            }
            _ => {
                end = i + 1;
                between = 0;
            }
        }
    }
    FirstCut { end, next: None }
}

// The codes of the literals among parts.
fn literal_codes(parts: &[PlacedPart]) -> AnchorCodes
    requires { length (part_codes parts.now) ≤ MOST_CODES }
    ensures { result.items ≡ part_codes parts.now }
{
    let mut codes = AnchorCodes::new();
    for placed in parts {
        if let Part::Literal(code) = placed.part {
            codes.push(code);
        }
    }
    codes
}

impl Pattern {
    // The least number of elements that parts take.
    fn least_of(&self, parts: &[PlacedPart]) -> u32
        requires few { length parts.now ≤ MOST_PARTS }
        requires inside { HasParts self.now parts.now }
        ensures { result ≡ sum_least (items_in self.now parts.now) }
    {
        let mut total = 0;
        for placed in parts {
            total += u32::from(self.extent(placed.part).least);
        }
        total
    }

    // The fragment whose body stands between two bounds, with the least number of elements before
    // it.
    fn fragment_at(
        &self,
        reference: Reference,
        first: usize,
        end: usize,
        break_before: u32,
    ) -> Fragment
        requires ordered { first ≤ end }
        requires inside { end ≤ length self.now.parts.items }
        requires few { length (literals_of (bodies (held self.now))) ≤ MOST_CODES }
        ensures { Holds reference (held self.now) result
            (record {
              break = break_before;
              body = take (end - first) (drop first (held self.now));
            }) }
    {
        let body = &self.parts[first..end];
        let Literals { start, len } = anchor(body, reference);
        let codes = literal_codes(&body[start..start + len]);
        let shifts = shifts(codes.as_slice());
        Fragment {
            first: first as u8,
            end: end as u8,
            anchor: (first + start) as u8,
            codes,
            break_before,
            lead: self.least_of(&body[..start]),
            shifts,
        }
    }

    /// Puts the fragments of a pattern that stands in the order of its search (mirrored for a
    /// sequence from the back), compiled, into an empty list.
    pub(crate) fn fragments(
        &self,
        reference: Reference,
        lo: u16,
        fragments: &mut ArrayVec<Fragment, MOST_FRAGMENTS>,
    )
        requires within { limit_place (held self.now) ≡ None }
        requires few { length (literals_of (bodies (held self.now))) ≤ MOST_CODES }
        requires empty { fragments.old.items ≡ [] }
        ensures { Hold reference (held self.now) fragments.new.items
            (fragments_from lo (held self.now)) }
    {
        let parts = self.parts.as_slice();
        let mut first = 0;
        let mut break_before = u32::from(lo);
        // From one cut to the next: how many parts that passes is known only when it is made.
        loop {
            let cut = cut_first(&parts[first..]);
            fragments.push(self.fragment_at(reference, first, first + cut.end, break_before));
            let Some((start, between)) = cut.next else {
                return;
            };
            first += start;
            break_before = between;
        }
    }
}
