//! Searches readings for compiled sequences, and shows the numbers of their fragments.
ghost use Rattle.std.specs.Prelude.{◌≡◌, ℕ, List, Option, Some, None};
ghost use Rattle.std.specs.Option.{is_some, option_copied};
ghost use Rattle.patterns.specs.Codes.{codes_of};
ghost use Rattle.patterns.specs.Sequences.{hits_in, Said, shown};
ghost use Rattle.engine.specs.Said.{end_in, said, HoldsAt};
ghost use Rattle.engine.specs.Sequences.{HoldsSaid};
ghost use Rattle.engine.specs.declared.fragment.Fragment.{Fragment as Compiled};

use crate::find::least_end;
use crate::fragment::Fragment;
use crate::lent::Lent;
use crate::limits::MOST_FRAGMENTS;
use crate::oriented::Oriented;
use crate::starts::Starts;
use kinds::{Backward, Reading};
use patterns::Reference;

/// The compiled fragments of a sequence by their numbers, which count from 0, wherever they stand.
pub(crate) trait Fragments {
    ghost at: { Self → ℕ → Option Compiled };

    /// The fragment with a number, if there is one.
    fn get(&self, number: usize) -> Option<&Fragment>
        ensures { option_copied result ≡ at self.now number };
}

// The least end of a placement of a sequence's items that starts where it may: the fragments are
// looked for one behind the other, the first starting where it may, whatever its break, and each
// other behind its break.
fn last_end<F: Fragments, R: Reading>(
    sequence: &Oriented,
    fragments: &F,
    reading: &R,
    starts: Starts,
) -> Option<u64>
    ensures { HoldsAt sequence.now (F.at fragments.now) →
        result ≡ end_in sequence.now starts (codes_of R.Element.alphabet (R.elements reading.now)) }
{
    let mut end = least_end(sequence, fragments.get(0)?, reading, starts)?;
    for number in 1..MOST_FRAGMENTS {
        let Some(fragment) = fragments.get(number) else {
            return Some(end);
        };
        let from = end.checked_add(u64::from(fragment.break_before))?;
        let starts = Starts { from, until: None };
        end = least_end(sequence, fragment, reading, starts)?;
    }
    Some(end)
}

// Whether a sequence hits a reading: the decision of the rule.
pub(crate) fn found<F: Fragments, R: Reading>(
    sequence: &Oriented,
    fragments: &F,
    reading: &R,
) -> bool
    ensures { HoldsAt sequence.now (F.at fragments.now) →
        result ≡ hits_in (said sequence.now)
        (codes_of R.Element.alphabet (R.elements reading.now)) }
{
    let starts = Starts::of(sequence.reference);
    let end = match sequence.reference {
        Reference::Front { .. } | Reference::Anywhere => {
            last_end(sequence, fragments, reading, starts)
        }
        Reference::Back { .. } => {
            let backward = Backward::new(Lent { reading });
            last_end(sequence, fragments, &backward, starts)
        }
    };
    end.is_some()
}

// The numbers of a fragment: break, lead, length of the anchor, and the shift of an index; none
// where there is no such fragment. Fragments are numbered from 1 here.
pub(crate) fn numbers<F: Fragments>(
    fragments: &F,
    fragment: usize,
    index: u8,
) -> Option<(u32, u32, usize, u8)>
    ensures { (s : Said) → HoldsSaid s (F.at fragments.now) → result ≡ shown s fragment index }
{
    let fragment = fragments.get(fragment.checked_sub(1)?)?;
    Some((
        fragment.break_before(),
        fragment.lead(),
        fragment.anchor_len(),
        fragment.shift(index),
    ))
}
