//! Patterns as they were read: their items, with the codes and the runs that the items are made of.
ghost use Rattle.std.specs.Prelude.{◌≡◌, ℕ, ◌+◌, ◌<◌, ◌≤◌, true, List, [], map, length, take, drop};
ghost use Rattle.engine.specs.Extents.{extent};
ghost use Rattle.engine.specs.Stored.{run_codes, all_parts_within, all_runs_within};
ghost use Rattle.patterns.specs.Patterns.{group};

use arrayvec::ArrayVec;
use patterns::Direction;

// A pattern text has at most 200 characters. A literal takes two of them, a run three, as it has a
// literal and a bar, a bracket or a colon beside it, and each item one, but the first takes two.
pub(crate) const MOST_CODES: usize = 100;

pub(crate) const MOST_RUNS: usize = 66;

pub(crate) const MOST_PARTS: usize = 199;

/// A run of literals, as a part of a list of codes.
#[derive(Clone, Copy, PartialEq, Eq, Debug, Default)]
pub(crate) struct Run {
    pub(crate) start: u8,
    pub(crate) len: u8,
}

/// An item of a pattern. Its runs stand in the pattern's list of codes; a group has the runs from
/// `first` on, `count` of them.
#[derive(Clone, Copy)]
pub(crate) enum Part {
    Literal(u16),
    Any,
    Group {
        first: u8,
        count: u8,
    },
    Range {
        direction: Direction,
        inside: bool,
        low: Run,
        high: Run,
    },
    Other(Run),
    // Its least length, and its greatest where it has one.
    Gap {
        least: u16,
        most: Option<u16>,
    },
}

// What an unused place of a list holds. Its bytes are all 0, so that a list is made by one fill.
impl Default for Part {
    fn default() -> Part {
        Part::Literal(0)
    }
}

/// An item with the place in the text where it begins.
#[derive(Clone, Copy, Default)]
pub(crate) struct PlacedPart {
    // Of 16 bits, though 8 hold it: no byte is left unused before the part, which one fill needs.
    pub(crate) place: u16,
    pub(crate) part: Part,
}

/// How many elements a part takes: the least number, and the one that it spans, which is the
/// greatest, or 0 for a gap without upper end, as the rules count a span.
#[derive(Clone, Copy)]
pub(crate) struct Extent {
    pub(crate) least: u16,
    pub(crate) span: u16,
}

// The extent of one of some runs, 0 where there is none.
fn extent_of(runs: &[Run]) -> Extent
    ensures { (codes : List ℕ) → all_runs_within codes runs.now ≡ true
        → result ≡ extent (group (map (run_codes codes) runs.now)) }
{
    let least = runs.iter().map(|run| run.len).min().unwrap_or(0);
    let span = runs.iter().map(|run| run.len).max().unwrap_or(0);
    Extent {
        least: u16::from(least),
        span: u16::from(span),
    }
}

/// The items of a pattern text, in order. The runs of groups are parts of one list of codes, and so
/// are those of ranges: lists in lists would each need room for the most that one can have.
#[derive(Drop)]
pub(crate) struct Pattern {
    pub(crate) codes: ArrayVec<u16, MOST_CODES>,
    pub(crate) runs: ArrayVec<Run, MOST_RUNS>,
    pub(crate) parts: ArrayVec<PlacedPart, MOST_PARTS>,
    ghost runs_within: { all_runs_within codes.items runs.items ≡ true },
    ghost parts_within: { all_parts_within codes.items runs.items parts.items ≡ true },
}

// Runs and parts are copied out of a pattern, so that it has them is required here: a type that
// says so would have to lend the pattern with each.
impl Pattern {
    ghost use Rattle.engine.specs.Parts.{run_in, item_in, CodePushed, HasRun, HasRuns, HasPart, IsEmpty, PartPushed, RunPushed};
    ghost use Rattle.engine.specs.Reading.{held};

    /// A pattern with no items.
    pub(crate) fn new() -> Pattern
        ensures { IsEmpty result }
    {
        Pattern {
            codes: ArrayVec::new(),
            runs: ArrayVec::new(),
            parts: ArrayVec::new(),
        }
    }

    // One for each list, since each needs and says another fact.

    /// Puts one code behind the others.
    pub(crate) fn push_code(&mut self, code: u16)
        requires { length self.old.codes.items < MOST_CODES }
        ensures { CodePushed self.old code self.new }
    {
        self.codes.push(code);
    }

    /// Puts one run behind the others.
    pub(crate) fn push_run(&mut self, run: Run)
        requires room { length self.old.runs.items < MOST_RUNS }
        requires within { HasRun self.old run }
        ensures { RunPushed self.old run self.new }
    {
        self.runs.push(run);
    }

    /// Puts one item behind the others.
    pub(crate) fn push_part(&mut self, part: PlacedPart)
        requires room { length self.old.parts.items < MOST_PARTS }
        requires within { HasPart self.old part.part }
        ensures { PartPushed self.old part self.new }
    {
        self.parts.push(part);
    }

    /// The run of all codes from a place on.
    pub(crate) fn run_from(&self, start: u8) -> Run
        requires { start ≤ length self.now.codes.items }
        ensures codes { run_codes self.now.codes.items result ≡ drop start self.now.codes.items }
        ensures len { result.len ≡ length (drop start self.now.codes.items) }
        ensures within { HasRun self.now result }
    {
        Run {
            start,
            len: self.codes.len() as u8 - start,
        }
    }

    /// The codes of a run.
    pub(crate) fn run_codes(&self, run: Run) -> &[u16]
        requires { HasRun self.now run }
        ensures { result.now ≡ run_in self.now run }
    {
        let start = usize::from(run.start);
        &self.codes[start..start + usize::from(run.len)]
    }

    /// The runs from `first` on, `count` of them.
    pub(crate) fn runs_of(&self, first: u8, count: u8) -> &[Run]
        requires { first + count ≤ length self.now.runs.items }
        ensures runs { result.now ≡ take count (drop first self.now.runs.items) }
        ensures within { HasRuns self.now result.now }
    {
        let start = usize::from(first);
        &self.runs[start..start + usize::from(count)]
    }

    /// How many elements a part takes.
    pub(crate) fn extent(&self, part: Part) -> Extent
        requires { HasPart self.now part }
        ensures { result ≡ extent (item_in self.now part) }
    {
        match part {
            Part::Literal(_) | Part::Any => Extent { least: 1, span: 1 },
            Part::Group { first, count } => extent_of(self.runs_of(first, count)),
            Part::Range { low: run, .. } | Part::Other(run) => Extent {
                least: u16::from(run.len),
                span: u16::from(run.len),
            },
            Part::Gap { least, most } => Extent {
                least,
                span: most.unwrap_or(0),
            },
        }
    }
}
