//! Refuses patterns that are beyond the limits or have a fragment without a literal.
ghost use Rattle.std.specs.Prelude.{◌≡◌, ◌<◌, length};
ghost use Rattle.patterns.specs.Limits.{refusal};
ghost use Rattle.engine.specs.Reading.{held};
ghost use Rattle.engine.specs.Parts.{item_in, placed_in, HasPart};
ghost use Rattle.engine.specs.Tallies.{single, joined, initial, closed, with_gap, with_thing, with_item, tallied};
ghost use Rattle.patterns.specs.Fragments.{before, fragments, wrong};

use crate::pattern::{Part, Pattern, PlacedPart};
use crate::smaller::smaller;
use faults::Cause;
use patterns::Direction;

// A pattern has at most this many fragments.
pub(crate) const MOST_FRAGMENTS: usize = 8;

// A fragment spans at most this many elements.
pub(crate) const LONGEST_SPAN: u32 = 1024;

// What is kept of items that follow each other: where they begin, how many elements they span,
// whether a literal is among them, and whether a gap without upper end is.
#[derive(Clone, Copy)]
struct Section {
    start: Option<u16>,
    span: u32,
    literal: bool,
    endless: bool,
}

// What is kept of the items up to a place: how many fragments have ended, the items of the one that
// has not and the spacing behind them, the smallest place beyond a limit, and where the first
// fragment without a literal begins.
#[derive(Clone, Copy)]
struct Tally {
    ended: u8,
    body: Section,
    spacing: Section,
    limit: Option<u16>,
    bare: Option<u16>,
}

// Whether one run comes before another of its length, compared from the first element on or from
// the last.
fn comes_before(direction: Direction, low: &[u16], high: &[u16]) -> bool
    ensures { result ≡ before direction low.now high.now }
{
    let order = match direction {
        Direction::FirstOn => low.iter().cmp(high.iter()),
        Direction::LastOn => low.iter().rev().cmp(high.iter().rev()),
    };
    low.len() == high.len() && order.is_lt()
}

impl Pattern {
    // Whether an item is beyond a limit by itself.
    fn is_wrong(&self, part: Part) -> bool
        requires { HasPart self.now part }
        ensures { result ≡ wrong (item_in self.now part) }
    {
        match part {
            Part::Range {
                direction,
                low,
                high,
                ..
            } => !comes_before(direction, self.run_codes(low), self.run_codes(high)),
            Part::Gap {
                least,
                most: Some(most),
            } => most < least,
            _ => false,
        }
    }

    /// How many fragments it has.
    pub(crate) fn fragment_count(&self) -> usize
        ensures { result ≡ length (fragments 0 (held self.now)) }
    {
        usize::from(self.tally().ended)
    }

    // What is kept of all items, the last fragment ended.
    fn tally(&self) -> Tally
        ensures { result ≡ closed (tallied initial (held self.now)) }
    {
        let mut tally = Tally::INITIAL;
        for part in self.parts.as_slice() {
            tally = tally.with_item(self, *part);
        }
        tally.close()
    }
}

impl Section {
    // No items.
    const EMPTY: Section = Section {
        start: None,
        span: 0,
        literal: false,
        endless: false,
    };

    // One item.
    fn of(pattern: &Pattern, part: PlacedPart) -> Section
        requires { HasPart pattern.now part.part }
        ensures { result ≡ single (placed_in pattern.now part) }
    {
        Section {
            start: Some(part.place),
            span: u32::from(pattern.extent(part.part).span),
            literal: matches!(part.part, Part::Literal(_)),
            endless: matches!(part.part, Part::Gap { most: None, .. }),
        }
    }

    // These items and those that follow them.
    fn followed_by(self, next: Section) -> Section
        ensures { result ≡ joined self next }
    {
        Section {
            start: self.start.or(next.start),
            span: self.span.saturating_add(next.span),
            literal: self.literal || next.literal,
            endless: self.endless || next.endless,
        }
    }
}

// Each function that may end a fragment requires room for one fragment more: the count behind it
// need not have it, so that is no fact of the type.
impl Tally {
    // Before the first item.
    const INITIAL: Tally = Tally {
        ended: 0,
        body: Section::EMPTY,
        spacing: Section::EMPTY,
        limit: None,
        bare: None,
    };

    // The fragment has ended.
    fn close(self) -> Tally
        requires { self.ended < 255 }
        ensures { result ≡ closed self }
    {
        let start = self.body.start.unwrap_or(0);
        let beyond = usize::from(self.ended) >= MOST_FRAGMENTS || self.body.span > LONGEST_SPAN;
        Tally {
            ended: self.ended + 1,
            body: Section::EMPTY,
            spacing: Section::EMPTY,
            limit: smaller(self.limit, beyond.then_some(start)),
            bare: self.bare.or((!self.body.literal).then_some(start)),
        }
    }

    // One more gap.
    fn with_gap(self, gap: Section) -> Tally
        ensures { result ≡ with_gap self gap }
    {
        Tally {
            spacing: self.spacing.followed_by(gap),
            ..self
        }
    }

    // One more thing. It begins a fragment where the spacing before it has no upper end.
    fn with_thing(self, thing: Section) -> Tally
        requires { self.ended < 255 }
        ensures { result ≡ with_thing self thing }
    {
        if self.spacing.endless {
            Tally {
                body: thing,
                ..self.close()
            }
        } else {
            Tally {
                body: self.body.followed_by(self.spacing).followed_by(thing),
                spacing: Section::EMPTY,
                ..self
            }
        }
    }

    // One more item.
    fn with_item(self, pattern: &Pattern, part: PlacedPart) -> Tally
        requires ended { self.ended < 255 }
        requires inside { HasPart pattern.now part.part }
        ensures { result ≡ with_item self (placed_in pattern.now part) }
    {
        let judged = Tally {
            limit: smaller(
                self.limit,
                pattern.is_wrong(part.part).then_some(part.place),
            ),
            ..self
        };
        let item = Section::of(pattern, part);
        match part.part {
            Part::Gap { .. } => judged.with_gap(item),
            _ => judged.with_thing(item),
        }
    }
}

impl Pattern {
    /// Why and where a pattern of the grammar is refused: at the smallest place beyond a limit,
    /// else at the first fragment without a literal. None where it is not refused.
    pub(crate) fn refusal(&self) -> Option<(Cause, u16)>
        ensures { result ≡ refusal (held self.now) }
    {
        let tally = self.tally();
        let bare = tally.bare.map(|place| (Cause::NoLiteral, place));
        tally.limit.map(|place| (Cause::Limit, place)).or(bare)
    }
}
