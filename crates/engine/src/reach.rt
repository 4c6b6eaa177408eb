//! How far items reach over a reading, as rows of offsets.
ghost use Rattle.std.specs.Prelude.{◌≡◌, ◌+◌, ◌≤◌, map, length};
ghost use Rattle.std.specs.Cmp.Lexicographic.{slice_cmp};
ghost use Rattle.std.specs.List.{slice_get};
ghost use Rattle.std.specs.Ordering.{nat_cmp};
ghost use Rattle.patterns.specs.Codes.{codes_of};
ghost use Rattle.engine.specs.Finding.{Reached, part_of};
ghost use Rattle.engine.specs.Reading.{held};
ghost use Rattle.engine.specs.Parts.{item_in, run_in, HasPart, HasRuns};
ghost use Rattle.engine.specs.Reaching.{matches_at, range_item, Stepped};
ghost use Rattle.patterns.specs.Patterns.{any, compared, gap as spaced, group, literal, matches, range};
ghost use Rattle.patterns.specs.Search.{stretch};
ghost use Rattle.patterns.specs.declared.direction.Direction.TheVariants.{FirstOn};

use crate::pattern::{Part, Pattern, Run};
use kinds::{Kind, Reading};
use patterns::Direction;
use rows::{Question, Row};
use std::cmp::Ordering;

// The largest offset.
const LAST: usize = 1023;

// The row and the reading stay apart: of a struct of both, each step would have to say too that the
// reading stays as it is.

// Moves a row on behind a gap.
fn pass_gap<R: Reading>(least: u16, most: Option<u16>, row: &mut Row, reading: &R)
    ensures { Stepped (spaced least most) row.old
        (codes_of R.Element.alphabet (R.elements reading.now)) row.new }
{
    let most = most.map_or(LAST, usize::from);
    row.widen(usize::from(least), most);
    row.cut(reading.len() as usize);
}

// Moves a row on behind any one element.
fn pass_any<R: Reading>(row: &mut Row, reading: &R)
    ensures { Stepped any row.old (codes_of R.Element.alphabet (R.elements reading.now)) row.new }
{
    row.shift(1);
    row.cut(reading.len() as usize);
}

// The code of the element at a place.
pub(crate) fn code_at<R: Reading>(reading: &R, place: u32) -> Option<u16>
    ensures { result ≡ slice_get (codes_of R.Element.alphabet (R.elements reading.now)) place }
{
    reading.at(place).map(|element| element.code())
}

// The question whether a code stands at an offset.
#[derive(Drop)]
struct Standing<'r, R> {
    code: u16,
    reading: &'r R,
}

impl<'r, R: Reading> Question for Standing<'r, R> {
    ghost asked = { λ s. matches_at (literal s.code) 1
        (codes_of R.Element.alphabet (R.elements s.reading.now)) };

    fn ask(&self, offset: usize) -> bool {
        offset < self.reading.len() as usize
            && code_at(self.reading, offset as u32) == Some(self.code)
    }
}

// Moves a row on behind a literal.
fn pass_literal<R: Reading>(code: u16, row: &mut Row, reading: &R)
    ensures { Stepped (literal code) row.old
        (codes_of R.Element.alphabet (R.elements reading.now)) row.new }
{
    row.retain(&Standing { code, reading });
    row.shift(1);
}

// How the `len` codes at an offset compare with a run, from the first code on or from the last.
fn compare<R: Reading>(
    direction: Direction,
    reading: &R,
    at: u32,
    len: u32,
    run: &[u16],
) -> Ordering
    requires { at + len ≤ length (R.elements reading.now) }
    ensures { result ≡ slice_cmp nat_cmp (compared direction (stretch
        (codes_of R.Element.alphabet (R.elements reading.now)) at (at + len)))
        (compared direction run.now) }
{
    let places = at..at + len;
    let code = |place| code_at(reading, place);
    match direction {
        Direction::FirstOn => places.filter_map(code).cmp(run.iter().copied()),
        Direction::LastOn => places.rev().filter_map(code).cmp(run.iter().rev().copied()),
    }
}

// The runs of one length that lie from one to another, compared in a direction, or (false) those
// that do not.
#[derive(Clone, Copy)]
struct RunRange<'c> {
    direction: Direction,
    inside: bool,
    low: &'c [u16],
    high: &'c [u16],
}

impl<'c> RunRange<'c> {
    // One run alone, or (false) all others of its length.
    fn of_one(inside: bool, run: &'c [u16]) -> RunRange<'c>
        ensures { range_item result ≡ range FirstOn inside run.now run.now }
    {
        RunRange {
            direction: Direction::FirstOn,
            inside,
            low: run,
            high: run,
        }
    }

    // Whether the codes at an offset, as many as the runs have, are one of the runs.
    fn stands_at<R: Reading>(&self, reading: &R, at: u32) -> bool
        requires { at + length self.now.low.now ≤ length (R.elements reading.now) }
        ensures { result ≡ matches (range_item self.now) (stretch
            (codes_of R.Element.alphabet (R.elements reading.now)) at
            (at + length self.now.low.now)) }
    {
        let len = self.low.len() as u32;
        let between = compare(self.direction, reading, at, len, self.low).is_ge()
            && compare(self.direction, reading, at, len, self.high).is_le();
        between == self.inside
    }

    // Moves a row on behind the runs.
    fn pass<R: Reading>(&self, row: &mut Row, reading: &R)
        ensures { Stepped (range_item self.now) row.old
            (codes_of R.Element.alphabet (R.elements reading.now)) row.new }
    {
        let question = Ranging {
            range: *self,
            reading,
        };
        row.retain(&question);
        row.shift(self.low.len());
    }
}

// The question whether one of some runs stands at an offset.
#[derive(Drop)]
struct Ranging<'c, 'r, R> {
    range: RunRange<'c>,
    reading: &'r R,
}

impl<'c, 'r, R: Reading> Question for Ranging<'c, 'r, R> {
    ghost asked = { λ s. matches_at (range_item s.range) (length s.range.low.now)
        (codes_of R.Element.alphabet (R.elements s.reading.now)) };

    fn ask(&self, offset: usize) -> bool {
        let end = offset.saturating_add(self.range.low.len());
        end <= self.reading.len() as usize && self.range.stands_at(self.reading, offset as u32)
    }
}

// Moves a row on behind one of some runs.
fn pass_group<R: Reading>(pattern: &Pattern, runs: &[Run], row: &mut Row, reading: &R)
    requires { HasRuns pattern.now runs.now }
    ensures { Stepped (group (map (run_in pattern.now) runs.now)) row.old
        (codes_of R.Element.alphabet (R.elements reading.now)) row.new }
{
    let mut all = Row::new();
    for run in runs {
        let mut on = *row;
        RunRange::of_one(true, pattern.run_codes(*run)).pass(&mut on, reading);
        all.union(&on);
    }
    *row = all;
}

// One step: the row behind a part, from the row before it.
fn pass_part<R: Reading>(pattern: &Pattern, part: Part, mut row: Row, reading: &R) -> Row
    requires { HasPart pattern.now part }
    ensures { Stepped (item_in pattern.now part) row
        (codes_of R.Element.alphabet (R.elements reading.now)) result }
{
    match part {
        Part::Literal(code) => pass_literal(code, &mut row, reading),
        Part::Any => pass_any(&mut row, reading),
        Part::Group { first, count } => {
            pass_group(pattern, pattern.runs_of(first, count), &mut row, reading);
        }
        Part::Range {
            direction,
            inside,
            low,
            high,
        } => {
            let range = RunRange {
                direction,
                inside,
                low: pattern.run_codes(low),
                high: pattern.run_codes(high),
            };
            range.pass(&mut row, reading);
        }
        Part::Other(run) => RunRange::of_one(false, pattern.run_codes(run)).pass(&mut row, reading),
        Part::Gap { least, most } => pass_gap(least, most, &mut row, reading),
    }
    row
}

// The offsets that the parts from `from` to before `to` reach. It is not inlined: `end_through`
// calls it within the search for anchors, which is faster without it.
#[inline(never)]
pub(crate) fn reach<R: Reading>(pattern: &Pattern, from: usize, to: usize, reading: &R) -> Row
    requires ordered { from ≤ to }
    requires inside { to ≤ length pattern.now.parts.items }
    ensures { Reached (part_of (held pattern.now) from to)
        (codes_of R.Element.alphabet (R.elements reading.now)) result }
{
    let mut row = Row::new();
    row.insert(0);
    for placed in &pattern.parts.as_slice()[from..to] {
        if row.is_empty() {
            break;
        }
        row = pass_part(pattern, placed.part, row, reading);
    }
    row
}
