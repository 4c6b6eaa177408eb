//! Hands out the tokens of a pattern text.
ghost use Rattle.std.specs.Prelude.{◌≡◌, ◌+◌, ◌-◌, ◌≤◌, ◌++◌, ◌==◌, IsTrue, ◌↔◌, ◌⊎◌, [], true};
ghost use Rattle.std.specs.Prelude.{length, take, drop, MatchOption, MatchResult};
ghost use Rattle.std.specs.List.{prefix_len};
ghost use Rattle.lexer.specs.Tokens.{pairs, pair_stop, lexed};
ghost use Rattle.lexer.specs.Tokens.{answer_in, passed, position_in, position_behind, behind_token};
ghost use Rattle.kinds.specs.Alphabet.{within};
ghost use Rattle.patterns.specs.Grammar.{gap_allowed as allows_gap, may_end as may_end_at};
ghost use Rattle.patterns.specs.Reader.{alternatives, between as between_items, bracket, digits, leads};
ghost use Rattle.patterns.specs.Reader.{least as lower, low as low_run, most as upper};

use crate::token::{Gap, RunText, RunsText, Token};
use kinds::Kind;
use thiserror::Error;

/// The text cannot be read past a place.
#[derive(Clone, Copy, PartialEq, Eq, Debug, Error)]
#[error("the text cannot be read on at place {place}")]
pub struct Stop {
    /// The place of the first character that cannot stand, or the text's length where more was to
    /// come.
    pub place: usize,
}

/// Where a text is between its items: whether a gap may stand and whether the text may end.
#[derive(Clone, Copy, PartialEq, Eq, Debug)]
pub enum Position {
    /// At the start of the text.
    Start,
    /// Behind a thing.
    AfterThing,
    /// Behind a gap.
    AfterGap,
}

impl Position {
    // Whether a gap may stand here.
    fn gap_allowed(self) -> bool
        ensures { result ≡ allows_gap (position_in self) }
    {
        !matches!(self, Position::Start)
    }

    // Whether the text may end here.
    fn may_end(self) -> bool
        ensures { result ≡ may_end_at (position_in self) }
    {
        matches!(self, Position::AfterThing)
    }

    // The position behind a token.
    fn behind(token: Token) -> Position
        ensures { position_in result ≡ behind_token token.entry }
    {
        match token {
            Token::Gap { .. } => Position::AfterGap,
            _ => Position::AfterThing,
        }
    }
}

/// Hands out the tokens of a lent text of any length, from its start to its end.
#[derive(Drop)]
pub struct Lexer<'t> {
    at: Cursor<'t>,
    position: Position,
}

impl<'t> Lexer<'t> {
    ghost use Rattle.lexer.specs.Scanning.{ahead};

    /// The lexer at the start of a text.
    pub fn new(text: &'t [u8]) -> Lexer<'t>
        ensures text { result.at.text.now ≡ text.now }
        ensures place { result.at.place ≡ 0 }
        ensures position { result.position ≡ Position.Start }
    {
        Lexer {
            at: Cursor::new(text),
            position: Position::Start,
        }
    }

    /// The place behind the last token, in characters.
    pub fn place(&self) -> usize
        ensures { result ≡ self.now.at.place }
    {
        self.at.place
    }

    /// The next token; none where the text may end and has ended. Refused at the first character
    /// that cannot stand, and at the end of a text that may not end. Only a token moves it on.
    pub fn next<K: Kind>(&mut self) -> Result<Option<Token<'t>>, Stop>
        ensures same_text { self.new.at.text.now ≡ self.old.at.text.now }
        ensures answer { answer_in result
            ≡ lexed K.alphabet self.old.at.text.now (position_in self.old.position)
            self.old.at.place }
        ensures moves { self.new.at.place ≡ self.old.at.place + length (passed result) }
        ensures position { position_in self.new.position
            ≡ position_behind result (position_in self.old.position) }
        ensures written { ahead self.old.at
            ≡ passed result ++ drop self.new.at.place self.old.at.text.now }
    {
        if self.at.is_at_end() {
            return if self.position.may_end() {
                Ok(None)
            } else {
                Err(self.at.stop())
            };
        }
        let (token, later) = self.at.token::<K>(self.position)?;
        self.at = later;
        self.position = Position::behind(token);
        Ok(Some(token))
    }
}

// Whether some pair that begins with this character names an element.
fn begins_pair<K: Kind>(first: u8) -> bool
    ensures { result ≡ leads K.alphabet first }
{
    (0..=u8::MAX).any(|second| K::named(first, second).is_some())
}

// How many digits a text begins with, up to four.
fn digit_count(text: &[u8]) -> usize
    ensures { result ≡ prefix_len (within 48 57) (take 4 text.now) }
{
    text.iter()
        .take(4)
        .take_while(|c| c.is_ascii_digit())
        .count()
}

/// A lent text at a place of it, which may be its end. It walks over the pairs of a run.
#[derive(Clone, Copy)]
pub struct Cursor<'t> {
    text: &'t [u8],
    place: usize,
    ghost inside: { place ≤ length text.now },
}

impl<'t> Cursor<'t> {
    ghost use Rattle.lexer.specs.Scanning.{ahead, opening, standing, Behind, FirstBehind, Passes, Misses};
    ghost use Rattle.lexer.specs.Scanning.{MissesAt, NoDigit, LongestNumber, PairBehind, RunBehind};
    ghost use Rattle.lexer.specs.Scanning.{NoPair, NoEnd, GapBehind, GroupBehind, RangeBehind};
    ghost use Rattle.lexer.specs.Scanning.{TokenBehind, Refuses};

    /// The cursor at the start of a text.
    pub fn new(text: &'t [u8]) -> Cursor<'t>
        ensures text { result.text.now ≡ text.now }
        ensures place { result.place ≡ 0 }
    {
        Cursor { text, place: 0 }
    }

    /// The place where it stands, in characters from the start of its text.
    pub fn place(self) -> usize
        ensures { result ≡ self.entry.place }
    {
        self.place
    }

    /// The element that the pair here names, if it names one, with the cursor behind the pair.
    pub fn pair<K: Kind>(self) -> Option<(K, Cursor<'t>)>
        ensures { MatchOption result (pairs K.alphabet (ahead self.entry) ≡ 0)
            (PairBehind K.alphabet self.entry) }
    {
        let (first, behind) = self.split_first()?;
        let (second, later) = behind.split_first()?;
        let element = K::named(first, second)?;
        Some((element, later))
    }

    // Whether the text has ended.
    fn is_at_end(self) -> bool
        ensures { IsTrue result ↔ (length self.entry.text.now ≤ self.entry.place) }
    {
        self.place == self.text.len()
    }

    // The next character, with the cursor behind it; nothing at the end of the text.
    fn split_first(self) -> Option<(u8, Cursor<'t>)>
        ensures { MatchOption result (self.entry.place ≡ length self.entry.text.now)
            (FirstBehind self.entry) }
    {
        let Cursor { text, place } = self;
        let first = *text.get(place)?;
        let place = place + 1;
        Some((first, Cursor { text, place }))
    }

    // The text from here to before a later place.
    fn text_to(self, end: usize) -> &'t [u8]
        requires order { self.place ≤ end }
        requires inside { end ≤ length self.text.now }
        ensures { result.now ≡ take (end - self.entry.place) (ahead self.entry) }
    {
        &self.text[self.place..end]
    }

    // The cursor behind a character, if that stands next.
    fn past(self, c: u8) -> Option<Cursor<'t>>
        ensures { MatchOption result (Misses self.entry c) (Passes self.entry c) }
    {
        let (first, later) = self.split_first()?;
        (first == c).then_some(later)
    }

    // The cursor behind a character that has to stand next.
    fn require(self, c: u8) -> Result<Cursor<'t>, Stop>
        ensures { MatchResult result (Passes self.entry c) (MissesAt self.entry c) }
    {
        self.past(c).ok_or(self.stop())
    }

    // That the text cannot be read on from here.
    fn stop(self) -> Stop
        ensures { result.place ≡ self.entry.place }
    {
        Stop { place: self.place }
    }

    // That no pair can be read from here: at its second character, if the first begins one.
    fn pair_stop<K: Kind>(self) -> Stop
        ensures { result.place ≡ pair_stop K.alphabet self.entry.place (ahead self.entry) }
    {
        match self.split_first() {
            Some((first, behind)) if begins_pair::<K>(first) => behind.stop(),
            _ => self.stop(),
        }
    }

    // The longest run from here on, of one literal or more, with the cursor behind it.
    fn run<K: Kind>(self) -> Result<(RunText<'t>, Cursor<'t>), Stop>
        ensures { MatchResult result (RunBehind K.alphabet self.entry)
            (NoPair K.alphabet self.entry) }
    {
        let mut end = self;
        while let Some((_, later)) = end.pair::<K>() {
            end = later;
        }
        if end.place == self.place {
            return Err(self.pair_stop::<K>());
        }
        let text = self.text_to(end.place);
        let place = self.place;
        Ok((RunText { text, place }, end))
    }

    // The cursor behind a character that has to stand behind a run, unless the run goes on.
    fn end_run<K: Kind>(self, c: u8) -> Result<Cursor<'t>, Stop>
        ensures { MatchResult result (Passes self.entry c) (NoEnd K.alphabet self.entry c) }
    {
        match self.past(c) {
            Some(later) => Ok(later),
            None => Err(self.pair_stop::<K>()),
        }
    }

    // A group of two runs or more behind its opening parenthesis, with the cursor behind it.
    fn group<K: Kind>(self) -> Result<(RunsText<'t>, Cursor<'t>), Stop>
        ensures { MatchResult result (GroupBehind K.alphabet self.entry)
            (Refuses K.alphabet self.entry (alternatives [] [])) }
    {
        let (_, first_end) = self.run::<K>()?;
        let mut next = first_end.end_run::<K>(b'|')?;
        loop {
            let (_, end) = next.run::<K>()?;
            match end.past(b'|') {
                Some(later) => next = later,
                None => {
                    let later = end.end_run::<K>(b')')?;
                    let text = self.text_to(end.place);
                    let place = self.place;
                    return Ok((RunsText { text, place }, later));
                }
            }
        }
    }

    // A range, or what one run leaves out, behind its opening bracket, with the cursor behind it.
    fn range<K: Kind>(self) -> Result<(Token<'t>, Cursor<'t>), Stop>
        ensures { MatchResult result (RangeBehind K.alphabet self.entry bracket 1)
            (Refuses K.alphabet self.entry bracket) }
    {
        match self.past(b'!') {
            Some(later) => later.bounds::<K>(false),
            None => self.bounds::<K>(true),
        }
    }

    // The runs of a range, inside or not, behind what opens it, with the cursor behind the range.
    fn bounds<K: Kind>(self, inside: bool) -> Result<(Token<'t>, Cursor<'t>), Stop>
        ensures { MatchResult result
            (RangeBehind K.alphabet self.entry (low_run inside []) (opening inside))
            (Refuses K.alphabet self.entry (low_run inside [])) }
    {
        let (low, low_end) = self.run::<K>()?;
        if !inside {
            if let Some(later) = low_end.past(b']') {
                return Ok((Token::Other(low), later));
            }
        }
        let colon_end = low_end.end_run::<K>(b':')?;
        let (high, high_end) = colon_end.run::<K>()?;
        let later = high_end.end_run::<K>(b']')?;
        Ok((Token::Range { inside, low, high }, later))
    }

    // A number of one to four digits, with the cursor behind it.
    fn number(self) -> Result<(u16, Cursor<'t>), Stop>
        ensures { MatchResult result
            (Behind self.entry (LongestNumber self.entry.text.now self.entry.place))
            (λ stop. NoDigit self.entry.text.now self.entry.place
            × (stop.place ≡ self.entry.place)) }
    {
        let Cursor { text, place } = self;
        let rest = &text[place..];
        let digits = &rest[..digit_count(rest)];
        if digits.is_empty() {
            return Err(self.stop());
        }
        let mut value = 0;
        for digit in digits {
            value = value * 10 + u16::from(*digit - b'0');
        }
        let place = place + digits.len();
        Ok((value, Cursor { text, place }))
    }

    // A gap behind its opening brace, with the cursor behind it.
    fn braces<K: Kind>(self) -> Result<(Gap, Cursor<'t>), Stop>
        ensures { MatchResult result (GapBehind K.alphabet self.entry (digits lower 0 0))
            (Refuses K.alphabet self.entry (digits lower 0 0)) }
    {
        let (least, end) = self.number()?;
        if let Some(upper) = end.past(b'-') {
            return upper.upper_end::<K>(least);
        }
        let later = end.require(b'}')?;
        let most = Some(least);
        Ok((Gap { least, most }, later))
    }

    // A gap behind the dash after its least length, with the cursor behind it.
    fn upper_end<K: Kind>(self, least: u16) -> Result<(Gap, Cursor<'t>), Stop>
        ensures { MatchResult result (GapBehind K.alphabet self.entry (digits (upper least) 0 0))
            (Refuses K.alphabet self.entry (digits (upper least) 0 0)) }
    {
        let (most, end) = if let Some(end) = self.past(b'*') {
            (None, end)
        } else {
            let (most, end) = self.number()?;
            (Some(most), end)
        };
        let later = end.require(b'}')?;
        Ok((Gap { least, most }, later))
    }

    // A gap where one may stand, with the cursor behind it.
    fn gap<K: Kind>(self, position: Position) -> Result<(Token<'t>, Cursor<'t>), Stop>
        requires { (standing self.text.now self.place 42 ≡ true)
            ⊎ (standing self.text.now self.place 123 ≡ true) }
        ensures { MatchResult result (TokenBehind K.alphabet self.entry (position_in position))
            (Refuses K.alphabet self.entry (between_items (position_in position))) }
    {
        if !position.gap_allowed() {
            return Err(self.stop());
        }
        let found = if let Some(later) = self.past(b'*') {
            let most = None;
            (Gap { least: 0, most }, later)
        } else {
            self.require(b'{')?.braces::<K>()?
        };
        let (gap, later) = found;
        let spelling = self.text_to(later.place);
        let place = self.place;
        let token = Token::Gap {
            spelling,
            place,
            gap,
        };
        Ok((token, later))
    }

    // The next token in a position, with the cursor behind it.
    fn token<K: Kind>(self, position: Position) -> Result<(Token<'t>, Cursor<'t>), Stop>
        ensures { MatchResult result (TokenBehind K.alphabet self.entry (position_in position))
            (Refuses K.alphabet self.entry (between_items (position_in position))) }
    {
        let Some((first, behind)) = self.split_first() else {
            return Err(self.stop());
        };
        match first {
            b'?' => {
                let later = behind.require(b'?')?;
                Ok((Token::Any, later))
            }
            b'(' => {
                let (runs, later) = behind.group::<K>()?;
                Ok((Token::Group(runs), later))
            }
            b'[' => behind.range::<K>(),
            b'*' | b'{' => self.gap::<K>(position),
            _ => {
                let (run, later) = self.run::<K>()?;
                Ok((Token::Literals(run), later))
            }
        }
    }
}
