//! The signatures that hit a reading.
ghost use Rattle.std.specs.Prelude.{◌≡◌, ◌≤◌, length, map, filter};
ghost use Rattle.patterns.specs.Codes.{codes_of};
ghost use Rattle.catalogue.specs.Hitting.{hitting_of, standing_hits};
ghost use Rattle.catalogue.specs.Standing.{SignaturesHold};

use crate::signatures::{MOST_SIGNATURES, StandingSignature};
use arrayvec::ArrayVec;
use engine::Table;
use kinds::{Kind, Reading};

/// A signature that hits.
#[derive(Clone, Copy, Default)]
pub(crate) struct Hitting {
    /// Its id.
    pub(crate) id: u16,
    /// Whether it is specific.
    pub(crate) specific: bool,
}

// The signatures that hit a reading, in their order.
pub(crate) fn hitting_signatures<K: Kind, R: Reading<Element = K>>(
    signatures: &[StandingSignature<K>],
    table: &Table,
    reading: &R,
) -> ArrayVec<Hitting, MOST_SIGNATURES>
    requires few { length signatures.now ≤ 24 }
    requires holds { SignaturesHold K.alphabet signatures.now table.now }
    ensures { result.items ≡ map hitting_of
        (filter (standing_hits (codes_of K.alphabet (R.elements reading.now))) signatures.now) }
{
    let mut hitting = ArrayVec::new();
    for signature in signatures {
        if signature.hits(table, reading) {
            hitting.push(Hitting {
                id: signature.id,
                specific: signature.specific,
            });
        }
    }
    hitting
}
