//! Reads a pattern text into its items.
ghost use Rattle.std.specs.Prelude.{◌≡◌, ◌+◌, ◌*◌, ◌<◌, ◌≤◌, ◌++◌, length, MatchResult};
ghost use Rattle.lexer.specs.Meanings.{items_at, literals_at, runs_in, run_count};
ghost use Rattle.engine.specs.Parts.{run_in, item_in, HasPart, HasRun, IsEmpty, PartPushed};
ghost use Rattle.engine.specs.Reading.{held, Read};
ghost use Rattle.lexer.specs.Tokens.{between_bars, codes_in, lexeme_in, pairs, written};
ghost use Rattle.patterns.specs.Patterns as item;

use crate::pattern::{Part, Pattern, PlacedPart, Run};
use faults::{Cause, Fault};
use kinds::Kind;
use lexer::{Cursor, Gap, Lexer, RunsText, Stop, Token};
use patterns::{Direction, PatternText};

// Puts the items of tokens behind those of a pattern. A text has at most 200 characters, two for
// each code.
impl Pattern {
    // Puts the codes of a run behind the others.
    fn push_codes<K: Kind>(&mut self, run: &[u8]) -> Run
        requires { 2 * length self.old.codes.items + length run.now ≤ 200 }
        ensures codes { self.new.codes.items ≡ self.old.codes.items ++ codes_in K.alphabet run.now }
        ensures runs { self.new.runs.items ≡ self.old.runs.items }
        ensures items { held self.new ≡ held self.old }
        ensures run { run_in self.new result ≡ codes_in K.alphabet run.now }
        ensures within { HasRun self.new result }
    {
        let start = self.codes.len() as u8;
        let mut next = Cursor::new(run);
        while let Some((element, later)) = next.pair::<K>() {
            self.push_code(element.code());
            next = later;
        }
        self.run_from(start)
    }

    // Puts the runs of a group behind the others.
    fn push_group<K: Kind>(&mut self, group: RunsText) -> Part
        requires codes { 2 * length self.old.codes.items + length group.text.now ≤ 200 }
        requires runs { length self.old.runs.items + length (between_bars group.text.now) ≤ 66 }
        ensures codes { 2 * length self.new.codes.items
            ≤ 2 * length self.old.codes.items + length group.entry.text.now }
        ensures runs { length self.new.runs.items
            ≡ length self.old.runs.items + length (between_bars group.entry.text.now) }
        ensures items { held self.new ≡ held self.old }
        ensures part { item_in self.new result
            ≡ item.group (runs_in K.alphabet group.entry.text.now) }
        ensures within { HasPart self.new result }
    {
        let first = self.runs.len() as u8;
        let mut rest = Some(group);
        while let Some(runs) = rest {
            let (run, later) = runs.first_and_rest();
            let run = self.push_codes::<K>(run.text);
            self.push_run(run);
            rest = later;
        }
        let count = self.runs.len() as u8 - first;
        Part::Group { first, count }
    }

    // Puts neighbouring literals, which begin at a place, behind the other items.
    fn push_literals<K: Kind>(&mut self, place: usize, run: &[u8])
        requires parts { length (held self.old) + pairs K.alphabet run.now ≤ 199 }
        requires place { place + length run.now ≤ 200 }
        ensures codes { self.new.codes.items ≡ self.old.codes.items }
        ensures runs { self.new.runs.items ≡ self.old.runs.items }
        ensures items { held self.new
            ≡ held self.old ++ literals_at place (codes_in K.alphabet run.now) }
    {
        let mut next = Cursor::new(run);
        while let Some((element, later)) = next.pair::<K>() {
            let part = Part::Literal(element.code());
            self.push_at(place + next.place(), part);
            next = later;
        }
    }

    // Puts an item behind the others.
    fn push_at(&mut self, place: usize, part: Part)
        requires parts { length (held self.old) < 199 }
        requires place { place ≤ 200 }
        requires within { HasPart self.old part }
        ensures { PartPushed self.old (record { place = place; part = part }) self.new }
    {
        let place = place as u16;
        self.push_part(PlacedPart { place, part });
    }

    // Puts the items of a token that begins at a place behind the others.
    fn push_token<K: Kind>(&mut self, place: usize, token: Token)
        requires parts { length (held self.old)
            + length (items_at K.alphabet place (lexeme_in token)) ≤ 199 }
        requires codes { 2 * length self.old.codes.items
            + length (written (lexeme_in token)) ≤ 200 }
        requires runs { length self.old.runs.items + run_count (lexeme_in token) ≤ 66 }
        requires place { place + length (written (lexeme_in token)) ≤ 200 }
        ensures codes { 2 * length self.new.codes.items
            ≤ 2 * length self.old.codes.items + length (written (lexeme_in token.entry)) }
        ensures runs { length self.new.runs.items
            ≡ length self.old.runs.items + run_count (lexeme_in token.entry) }
        ensures items { held self.new
            ≡ held self.old ++ items_at K.alphabet place (lexeme_in token.entry) }
    {
        match token {
            Token::Literals(run) => self.push_literals::<K>(place, run.text),
            Token::Any => self.push_at(place, Part::Any),
            Token::Group(runs) => {
                let part = self.push_group::<K>(runs);
                self.push_at(place, part);
            }
            Token::Range { inside, low, high } => {
                let direction = Direction::FirstOn;
                let low = self.push_codes::<K>(low.text);
                let high = self.push_codes::<K>(high.text);
                self.push_at(
                    place,
                    Part::Range {
                        direction,
                        inside,
                        low,
                        high,
                    },
                );
            }
            Token::Other(run) => {
                let run = self.push_codes::<K>(run.text);
                self.push_at(place, Part::Other(run));
            }
            Token::Gap { gap, .. } => {
                let Gap { least, most } = gap;
                self.push_at(place, Part::Gap { least, most });
            }
        }
    }
}

// The refusal of a text where it cannot be read on.
fn stopped(sequence: u8, stop: Stop) -> Fault
    ensures { result ≡ record { cause = Cause.Grammar; sequence = sequence; place = stop.place } }
{
    Fault {
        cause: Cause::Grammar,
        sequence,
        place: stop.place,
    }
}

/// Reads the items of a pattern text into a pattern. The number of its sequence is for a refusal
/// alone.
pub(crate) fn read<K: Kind>(
    sequence: u8,
    text: PatternText,
    pattern: &mut Pattern,
) -> Result<(), Fault>
    requires { IsEmpty pattern.old }
    ensures { let t = text.entry.characters.now in
        MatchResult result (λ _. Read K.alphabet t sequence (Ok pattern.new))
        (λ f. Read K.alphabet t sequence (Err f)) }
{
    let mut lexer = Lexer::new(text.characters);
    loop {
        let place = lexer.place();
        match lexer.next::<K>() {
            Ok(Some(token)) => pattern.push_token::<K>(place, token),
            Ok(None) => return Ok(()),
            Err(stop) => return Err(stopped(sequence, stop)),
        }
    }
}
