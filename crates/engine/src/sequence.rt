//! Sequences: pattern texts, compiled for their search.
ghost use Rattle.std.specs.Prelude.{◌≡◌, ◌≤◌, ◌↔◌, IsTrue, length};
ghost use Rattle.patterns.specs.Codes.{codes_of};

use crate::fragment::Fragment;
use crate::limits::MOST_FRAGMENTS;
use crate::oriented::Oriented;
use crate::pattern::Pattern;
use crate::search::{Fragments, found, numbers};
use arrayvec::ArrayVec;
use faults::Fault;
use kinds::{Kind, Reading};
use patterns::{PatternText, Reference};
use std::marker::{Model, PhantomData};

/// A compiled sequence over elements of a kind: a pattern text that is not refused, and where it is
/// looked for.
///
/// In contracts it is that: the reference, and the items of the text.
#[derive(Drop)]
pub struct Sequence<K> {
    pub(crate) oriented: Oriented,
    pub(crate) fragments: ArrayVec<Fragment, MOST_FRAGMENTS>,
    pub(crate) kind: PhantomData<K>,
}

impl<K> Model for Sequence<K> {
    ghost use Rattle.patterns.specs.Sequences.{Said};
    ghost use Rattle.engine.specs.Said.{said, HoldsOwn};

    ghost Value = { Said };

    ghost view = { λ s. said s.oriented };

    ghost invariant = { λ s. HoldsOwn s.oriented s.fragments.items };
}

// The fragments of a sequence on its own.
#[derive(Drop)]
struct Own<'f> {
    fragments: &'f [Fragment],
}

impl Fragments for Own<'_> {
    ghost use Rattle.std.specs.List.{slice_get};

    ghost at = { λ s k. slice_get s.fragments.now k };

    fn get(&self, number: usize) -> Option<&Fragment> {
        self.fragments.get(number)
    }
}

impl<K: Kind> Sequence<K> {
    ghost use Rattle.patterns.specs.Sequences.{hits_in, PlacementIn, compiled, counted, parts_said, shown};

    /// Compiles a pattern text for its search, or refuses it (docs/PATTERNS.md, "Refusals"). The
    /// number of the sequence, from 1, goes into the refusal alone.
    pub fn compile(
        number: u8,
        reference: Reference,
        text: PatternText,
    ) -> Result<Sequence<K>, Fault>
        ensures { result ≡ compiled K.alphabet number reference text.entry.characters.now }
    {
        let mut pattern = Pattern::new();
        let mut mirror = Pattern::new();
        let mut fragments = ArrayVec::new();
        pattern.read_oriented::<K>(&mut mirror, number, reference, text)?;
        pattern.fragments(reference, reference.least_offset(), &mut fragments);
        Ok(Sequence {
            oriented: Oriented {
                reference,
                pattern,
                mirror,
            },
            fragments,
            kind: PhantomData,
        })
    }

    /// How many fragments a pattern text has, or its refusal: what a sequence compiled of it has,
    /// or why there is none. It is less work than to compile one.
    pub fn count_fragments(number: u8, text: PatternText) -> Result<usize, Fault>
        ensures { result ≡ counted K.alphabet number text.entry.characters.now }
    {
        let mut pattern = Pattern::new();
        pattern.read_text::<K>(number, text)?;
        Ok(pattern.fragment_count())
    }

    /// How many fragments the sequence has, at most eight.
    pub fn fragment_count(&self) -> usize
        ensures value { result ≡ length (parts_said self.now) }
        ensures few { result ≤ 8 }
    {
        self.fragments.len()
    }

    /// The numbers of a fragment, in elements: break, lead, length of the anchor, and the shift of
    /// an index; none where there is no such fragment. Fragments are numbered from 1, from the
    /// front, or from the back for a sequence from the back (docs/PATTERNS.md, "Fragments and their
    /// numbers").
    pub fn numbers(&self, fragment: usize, index: u8) -> Option<(u32, u32, usize, u8)>
        ensures { result ≡ shown self.now fragment index }
    {
        let fragments = Own {
            fragments: self.fragments.as_slice(),
        };
        numbers(&fragments, fragment, index)
    }

    /// Whether the sequence hits a reading: the decision of the rule, which is true exactly when a
    /// placement exists (docs/PATTERNS.md, "Placements").
    pub fn hits<R: Reading<Element = K>>(&self, reading: &R) -> bool
        ensures decision { result ≡ hits_in self.now
            (codes_of K.alphabet (R.elements reading.now)) }
        ensures placement { IsTrue result ↔
            PlacementIn self.now (codes_of K.alphabet (R.elements reading.now)) }
    {
        let fragments = Own {
            fragments: self.fragments.as_slice(),
        };
        found(&self.oriented, &fragments, reading)
    }
}
