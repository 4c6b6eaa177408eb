//! Patterns in the order of a search from the back.
ghost use Rattle.std.specs.Prelude.{◌≡◌, ℕ, [], map, reverse};
ghost use Rattle.engine.specs.Reading.{held};
ghost use Rattle.engine.specs.Turned.{turned_part, turned_placed, turned_run};
ghost use Rattle.patterns.specs.Fragments.{mirrored_placed};
ghost use Rattle.patterns.specs.Patterns.{turned};

use crate::pattern::{Part, Pattern, PlacedPart, Run};
use arrayvec::ArrayVec;
use patterns::Direction;

// What follows where the codes of a pattern are reversed.
trait Turn: Copy {
    ghost turned_in: { ℕ → Self → Self };

    // What it becomes once the codes, `total` of them, are reversed.
    fn turned(self, total: u8) -> Self
        ensures { result ≡ turned_in total self };
}

// A run stands as far from the other end.
impl Turn for Run {
    ghost turned_in = { turned_run };

    fn turned(self, total: u8) -> Run {
        Run {
            start: total.saturating_sub(self.start).saturating_sub(self.len),
            len: self.len,
        }
    }
}

// The other end to compare from.
fn turned_direction(direction: Direction) -> Direction
    ensures { result ≡ turned direction }
{
    match direction {
        Direction::FirstOn => Direction::LastOn,
        Direction::LastOn => Direction::FirstOn,
    }
}

// A part's runs are reversed, and compared from the other end.
impl Turn for Part {
    ghost turned_in = { turned_part };

    fn turned(self, total: u8) -> Part {
        match self {
            Part::Range {
                direction,
                inside,
                low,
                high,
            } => Part::Range {
                direction: turned_direction(direction),
                inside,
                low: low.turned(total),
                high: high.turned(total),
            },
            Part::Other(run) => Part::Other(run.turned(total)),
            Part::Literal(_) | Part::Any | Part::Group { .. } | Part::Gap { .. } => self,
        }
    }
}

impl Turn for PlacedPart {
    ghost turned_in = { turned_placed };

    fn turned(self, total: u8) -> PlacedPart {
        PlacedPart {
            part: self.part.turned(total),
            ..self
        }
    }
}

// Turns each of a list into an empty one.
fn turn_all<T: Turn + Drop, const N: usize>(
    list: &ArrayVec<T, N>,
    total: u8,
    turned: &mut ArrayVec<T, N>,
)
    requires { turned.old.items ≡ [] }
    ensures { turned.new.items ≡ map (T.turned_in total) list.now.items }
{
    for x in list.as_slice() {
        turned.push(x.turned(total));
    }
}

// Copies a list into an empty one, from its last element to its first.
fn reverse_all<T: Copy + Drop, const N: usize>(list: &ArrayVec<T, N>, reversed: &mut ArrayVec<T, N>)
    requires { reversed.old.items ≡ [] }
    ensures { reversed.new.items ≡ reverse list.now.items }
{
    for x in list.as_slice() {
        reversed.push(*x);
    }
    reversed.reverse();
}

impl Pattern {
    ghost use Rattle.engine.specs.Parts.{IsEmpty};

    /// Puts the items of a pattern into an empty one, mirrored: in reverse order, the runs of each
    /// reversed and compared from the other end.
    pub(crate) fn mirror(&mut self, of: &Pattern)
        requires { IsEmpty self.old }
        ensures { held self.new ≡ mirrored_placed (held of.now) }
    {
        let total = of.codes.len() as u8;
        reverse_all(&of.codes, &mut self.codes);
        turn_all(&of.runs, total, &mut self.runs);
        turn_all(&of.parts, total, &mut self.parts);
        self.parts.reverse();
    }
}
