//! A table of compiled fragments, and the sequences whose fragments stand in it.
ghost use Rattle.std.specs.Prelude.{◌≡◌, ◌<◌, ◌≤◌, ◌↔◌, IfOk, IsTrue, Some, None, length, replicate, slice_set};
ghost use Rattle.std.specs.List.{slice_get};
ghost use Rattle.std.specs.Option.{option_copied};
ghost use Rattle.patterns.specs.Codes.{codes_of};
ghost use Rattle.engine.specs.Tables.{at_slot, free_slots};

use crate::fragment::Fragment;
use crate::limits::MOST_FRAGMENTS;
use crate::oriented::Oriented;
use crate::search::{Fragments, found, numbers};
use crate::sequence::Sequence;
use arrayvec::ArrayVec;
use kinds::{Kind, Reading};
use patterns::Reference;
use std::alloc::{AllocError, Global};
use std::marker::{Model, PhantomData};

/// How many slots a table has.
pub const SLOTS: usize = 96;

/// A table of compiled fragments: 96 slots, each free or with a fragment.
#[derive(Drop)]
pub struct Table {
    slots: Vec<Option<Fragment>>,
}

impl Model for Table {
    ghost use Rattle.std.specs.Prelude.{◌≡◌, List, Option, length};
    ghost use Rattle.engine.specs.declared.fragment.Fragment.{Fragment as Compiled};

    ghost Value = { List (Option Compiled) };

    ghost view = { λ t. t.slots.items };

    ghost invariant = { λ t. length t.slots.items ≡ 96 };
}

impl Table {
    /// A table of free slots, or `AllocError` where there is no memory for it. It needs memory for
    /// all slots at once, 96 times the size of a fragment, which is about half a kilobyte. That the
    /// memory is found when there is some is not proved. No other call needs memory.
    pub fn new(alloc: Global) -> Result<Table, AllocError>
        ensures { IfOk result (λ t. t ≡ replicate 96 None) }
    {
        let mut slots = Vec::new(alloc);
        slots.resize_with(SLOTS, || None)?;
        Ok(Table { slots })
    }

    /// The fragment that stands in a slot, if it is one of the table and not free.
    pub fn get(&self, slot: usize) -> Option<&Fragment>
        ensures { option_copied result ≡ at_slot self.now slot }
    {
        self.slots.get(slot)?.as_ref()
    }

    /// Puts a fragment into a slot, in place of what stands there. A slot past the last is none,
    /// and nothing changes.
    pub fn set(&mut self, slot: usize, fragment: Fragment)
        ensures { self.new ≡ slice_set self.old slot (Some fragment) }
    {
        if let Some(filled) = self.slots.get_mut(slot) {
            *filled = Some(fragment);
        }
    }

    /// Frees a slot. A slot past the last is none, and nothing changes.
    pub fn clear(&mut self, slot: usize)
        ensures { self.new ≡ slice_set self.old slot None }
    {
        if let Some(freed) = self.slots.get_mut(slot) {
            *freed = None;
        }
    }

    /// The first free slot, if there is one.
    pub fn first_free(&self) -> Option<usize>
        ensures { result ≡ slice_get (free_slots self.now) 0 }
    {
        self.slots.iter().position(|slot| slot.is_none())
    }

    /// How many slots are free.
    pub fn free_count(&self) -> usize
        ensures { result ≡ length (free_slots self.now) }
    {
        self.slots.iter().filter(|slot| slot.is_none()).count()
    }

    // Puts a fragment into the first free slot, and gives the slot.
    fn fill(&mut self, fragment: Fragment) -> u8
        requires { 0 < length (free_slots self.old) }
        ensures first { slice_get (free_slots self.old) 0 ≡ Some result }
        ensures filled { self.new ≡ slice_set self.old result (Some fragment) }
    {
        let Some(slot) = self.first_free() else {
            unreachable!()
        };
        self.slots[slot] = Some(fragment);
        slot as u8
    }
}

/// A compiled sequence over elements of a kind whose fragments stand in a table. It answers as the
/// sequence on its own does, as long as it is given that table, and its slots there have not been
/// set or freed since.
#[derive(Drop)]
pub struct InTable<K> {
    oriented: Oriented,
    slots: ArrayVec<u8, MOST_FRAGMENTS>,
    kind: PhantomData<K>,
}

impl<K> Model for InTable<K> {
    ghost use Rattle.std.specs.Prelude.{◌≡◌, length};
    ghost use Rattle.engine.specs.Said.{said};
    ghost use Rattle.patterns.specs.Sequences.{parts_said};
    ghost use Rattle.engine.specs.Tables.{Slotted};

    ghost Value = { Slotted };

    ghost view = { λ s. record { said = said s.oriented; slots = s.slots.items } };

    ghost invariant = { λ s. length s.slots.items ≡ length (parts_said (said s.oriented)) };
}

// The fragments of a sequence in a table.
#[derive(Drop)]
struct InSlots<'t> {
    table: &'t Table,
    slots: &'t [u8],
}

impl Fragments for InSlots<'_> {
    ghost use Rattle.engine.specs.Tables.{at_slots};

    ghost at = { λ s k. at_slots s.table.now s.slots.now k };

    fn get(&self, number: usize) -> Option<&Fragment> {
        let slot = self.slots.get(number)?;
        self.table.get(usize::from(*slot))
    }
}

impl<K: Kind> Sequence<K> {
    ghost use Rattle.engine.specs.Tables.{MovedOrNot};

    /// Moves the fragments into the first free slots of a table. Where there are too few, gives the
    /// sequence back and leaves the table as it is.
    pub fn into_table(self, table: &mut Table) -> Result<InTable<K>, Sequence<K>>
        ensures { MovedOrNot self table.old table.new result }
    {
        if table.free_count() < self.fragments.len() {
            return Err(self);
        }
        let Sequence {
            oriented,
            fragments,
            ..
        } = self;
        let mut slots = ArrayVec::new();
        for fragment in fragments {
            slots.push(table.fill(fragment));
        }
        Ok(InTable {
            oriented,
            slots,
            kind: PhantomData,
        })
    }
}

impl<K: Kind> InTable<K> {
    ghost use Rattle.patterns.specs.Sequences.{hits_in, PlacementIn, parts_said, shown};
    ghost use Rattle.engine.specs.Tables.{StandsIn, cleared};

    /// Where the sequence is looked for.
    pub fn reference(&self) -> Reference
        ensures { result ≡ self.now.said.reference }
    {
        self.oriented.reference
    }

    /// How many fragments the sequence has, at most eight.
    pub fn fragment_count(&self) -> usize
        ensures value { result ≡ length (parts_said self.now.said) }
        ensures few { result ≤ 8 }
    {
        self.slots.len()
    }

    /// The numbers of a fragment, as `Sequence::numbers` gives them.
    pub fn numbers(
        &self,
        table: &Table,
        fragment: usize,
        index: u8,
    ) -> Option<(u32, u32, usize, u8)>
        ensures { StandsIn table.now self.now → result ≡ shown self.now.said fragment index }
    {
        let fragments = InSlots {
            table,
            slots: self.slots.as_slice(),
        };
        numbers(&fragments, fragment, index)
    }

    /// Whether the sequence hits a reading: the decision of the rule, which is true exactly when a
    /// placement exists (docs/PATTERNS.md, "Placements").
    pub fn hits<R: Reading<Element = K>>(&self, table: &Table, reading: &R) -> bool
        ensures decision { StandsIn table.now self.now →
            result ≡ hits_in self.now.said (codes_of K.alphabet (R.elements reading.now)) }
        ensures placement { StandsIn table.now self.now → IsTrue result ↔
            PlacementIn self.now.said (codes_of K.alphabet (R.elements reading.now)) }
    {
        let fragments = InSlots {
            table,
            slots: self.slots.as_slice(),
        };
        found(&self.oriented, &fragments, reading)
    }

    /// Frees the slots of the sequence's fragments, whatever stands there. No other slot changes.
    pub fn clear(self, table: &mut Table)
        ensures { table.new ≡ cleared table.old self.slots }
    {
        for slot in &self.slots {
            table.clear(usize::from(*slot));
        }
    }
}
