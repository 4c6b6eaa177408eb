//! A pattern in the order of its search.
ghost use Rattle.std.specs.Prelude.{MatchResult};
ghost use Rattle.engine.specs.Parts.{IsEmpty};
ghost use Rattle.engine.specs.Reading.{held};
ghost use Rattle.engine.specs.Searched.{Accepted};

use crate::pattern::Pattern;
use crate::reader::read;
use faults::Fault;
use kinds::Kind;
use patterns::{PatternText, Reference};

/// A pattern in the order of its search: mirrored for a sequence from the back.
#[derive(Drop)]
pub(crate) struct Oriented {
    pub(crate) pattern: Pattern,
    // The pattern mirrored, to look back from an anchor.
    pub(crate) mirror: Pattern,
    pub(crate) reference: Reference,
    ghost accepted: { ∥ Accepted reference (held pattern) (held mirror) ∥₁ },
}

impl Pattern {
    ghost use Rattle.engine.specs.Sequences.{Checked, Refused, Orients};

    /// Puts a text's items into an empty pattern, or refuses the text.
    pub(crate) fn read_text<K: Kind>(
        &mut self,
        sequence: u8,
        text: PatternText,
    ) -> Result<(), Fault>
        requires { IsEmpty self.old }
        ensures { let t = text.entry.characters.now in
            MatchResult result (λ _. Checked K.alphabet t sequence (Ok self.new))
            (λ f. Checked K.alphabet t sequence (Err f)) }
    {
        read::<K>(sequence, text, self)?;
        match self.refusal() {
            None => Ok(()),
            Some((cause, place)) => Err(Fault {
                cause,
                sequence,
                place: usize::from(place),
            }),
        }
    }

    /// Puts a text's items into an empty pattern, in the order of their search, and into another
    /// one mirrored, or refuses the text.
    pub(crate) fn read_oriented<K: Kind>(
        &mut self,
        mirror: &mut Pattern,
        sequence: u8,
        reference: Reference,
        text: PatternText,
    ) -> Result<(), Fault>
        requires pattern { IsEmpty self.old }
        requires mirror { IsEmpty mirror.old }
        ensures { let t = text.entry.characters.now in
            MatchResult result
            (λ _. Orients K.alphabet t reference (held self.new) (held mirror.new))
            (λ f. Refused K.alphabet t sequence f) }
    {
        match reference {
            Reference::Front { .. } | Reference::Anywhere => {
                self.read_text::<K>(sequence, text)?;
                mirror.mirror(self);
            }
            Reference::Back { .. } => {
                mirror.read_text::<K>(sequence, text)?;
                self.mirror(mirror);
            }
        }
        Ok(())
    }
}
