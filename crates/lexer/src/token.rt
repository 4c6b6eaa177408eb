//! The tokens of a pattern text.
ghost use Rattle.std.specs.Prelude.{◌≡◌, ◌+◌, ◌^◌, ◌==◌, ◌<◌, length};
ghost use Rattle.std.specs.List.{position};

/// A gap between two things.
#[derive(Clone, Copy, PartialEq, Eq, Debug)]
pub struct Gap {
    /// At least so many elements.
    pub least: u16,
    /// At most so many elements, if there is an upper end.
    pub most: Option<u16>,
}

/// A run of literals, as it stands in the text.
#[derive(Clone, Copy, Debug)]
pub struct RunText<'t> {
    /// The pairs, run together.
    pub text: &'t [u8],
    /// The place in the text where they begin.
    pub place: usize,
}

/// The runs of a group, as they stand between its parentheses, with bars between them.
#[derive(Clone, Copy, Debug)]
pub struct RunsText<'t> {
    /// The runs and the bars.
    pub text: &'t [u8],
    /// The place in the text where they begin.
    pub place: usize,
    ghost fits: { place + length text.now < 2 ^ 64 },
}

// Where the first bar of a text stands, if it has one.
fn first_bar(text: &[u8]) -> Option<usize>
    ensures { result ≡ position (λ c. c == 124) text.now }
{
    text.iter().position(|c| *c == b'|')
}

impl<'t> RunsText<'t> {
    ghost use Rattle.std.specs.Option.{option_map};
    ghost use Rattle.lexer.specs.Tokens.{first_run, run_slice, runs_slice};

    /// The first run, and those behind its bar, if it has one.
    pub fn first_and_rest(self) -> (RunText<'t>, Option<RunsText<'t>>)
        ensures { (run_slice result.0, option_map runs_slice result.1)
            ≡ first_run (runs_slice self.entry) }
    {
        let RunsText { text, place } = self;
        match first_bar(text) {
            Some(bar) => {
                let first = RunText {
                    text: &text[..bar],
                    place,
                };
                let rest = RunsText {
                    text: &text[bar + 1..],
                    place: place + bar + 1,
                };
                (first, Some(rest))
            }
            None => (RunText { text, place }, None),
        }
    }
}

/// A token: neighbouring literals, or one other thing or gap, with its parts of the text
/// (docs/PATTERNS.md, "Tokens").
#[derive(Clone, Copy)]
pub enum Token<'t> {
    /// Neighbouring literals, as many as follow each other.
    Literals(RunText<'t>),
    /// `??`: any one element.
    Any,
    /// `(run|run)`: any of the runs.
    Group(RunsText<'t>),
    /// `[low:high]` where `inside` holds, else `[!low:high]`.
    Range {
        /// Whether the range itself is meant, and not what it leaves out.
        inside: bool,
        /// The first run.
        low: RunText<'t>,
        /// The second run.
        high: RunText<'t>,
    },
    /// `[!run]`: what one run leaves out.
    Other(RunText<'t>),
    /// `*`, `{n}`, `{m-n}` or `{m-*}`.
    Gap {
        /// The gap as it is written.
        spelling: &'t [u8],
        /// The place in the text where it begins.
        place: usize,
        /// What it says.
        gap: Gap,
    },
}
