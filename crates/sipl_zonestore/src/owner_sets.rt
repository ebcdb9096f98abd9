//! The record sets of one owner.
ghost use Rattle.std.specs.Prelude.{◌≡◌, IfOk, OnOk, OnErr};
ghost use Rattle.std.specs.List.{list_all, position};
ghost use Rattle.sipl_zonestore.specs.Numbers.{is_empty};
ghost use Rattle.sipl_zonestore.specs.Content.{data_without, pushed, with_number};
ghost use Rattle.sipl_records.specs.Sets.{same_kind};
ghost use Rattle.sipl_zonestore.specs.SetTable.{has_no_data, held, no_sets, set_at, with_set};

use crate::numbered_set::NumberedSet;
use sipl_records::{Data, Kind};
use std::alloc::{AllocError, Global};
use std::marker::Model;

// The set of one kind.
#[derive(Drop)]
pub(crate) struct KindSet {
    kind: Kind,
    set: NumberedSet,
}

// The sets of an owner, at most one of each kind, in the order in which they were first used. Most owners
// have one or two. A set that was emptied keeps its place.
#[derive(Drop)]
pub(crate) struct OwnerSets {
    sets: Vec<KindSet>,
}

impl Model for OwnerSets {
    ghost use Rattle.std.specs.Prelude.{◌≡◌, true};
    ghost use Rattle.sipl_zonestore.specs.SetTable.{OwnerSets as Sets, has_kinds_once};

    ghost Value = { Sets };

    ghost view = { λ s. s.sets.items };

    ghost invariant = { λ s. has_kinds_once s.sets.items ≡ true };
}

impl OwnerSets {
    // No sets. Does not allocate.
    pub(crate) fn new(alloc: Global) -> Self
        ensures { result ≡ no_sets }
    {
        OwnerSets {
            sets: Vec::new(alloc),
        }
    }

    // One datum of this kind, whose set has this number.
    pub(crate) fn with(
        alloc: Global,
        kind: Kind,
        number: u64,
        value: Data,
    ) -> Result<OwnerSets, AllocError>
        ensures { IfOk result
            (λ sets. sets ≡ with_set kind (pushed number value (set_at kind no_sets)) no_sets) }
    {
        let mut sets = OwnerSets::new(alloc);
        sets.push(alloc, kind, number, value)?;
        Ok(sets)
    }

    // The place of the set of this kind.
    fn place(&self, kind: Kind) -> Option<usize>
        ensures { result ≡ position (λ own. same_kind own.kind kind) self.now }
    {
        self.sets.iter().position(|own| own.kind == kind)
    }

    // The number of the set of this kind and its data, 0 and none where it is empty.
    pub(crate) fn get(&self, kind: Kind) -> (u64, &[Data])
        ensures number { result.0 ≡ (held kind self.now).number }
        ensures values { result.1.now ≡ (held kind self.now).values }
    {
        match self.place(kind) {
            Some(place) => self.sets[place].set.get(),
            None => (0, &[]),
        }
    }

    // Appends a datum to the set of this kind, which gets this number.
    pub(crate) fn push(
        &mut self,
        alloc: Global,
        kind: Kind,
        number: u64,
        value: Data,
    ) -> Result<(), AllocError>
        ensures pushed { OnOk result
            (self.new ≡ with_set kind (pushed number value (set_at kind self.old)) self.old) }
        ensures unchanged { OnErr result (self.new ≡ self.old) }
    {
        if let Some(place) = self.place(kind) {
            return self.sets[place].set.push(number, value);
        }
        let mut set = NumberedSet::new(alloc);
        set.push(number, value)?;
        self.sets.reserve_exact(1)?;
        self.sets.push_reserved(KindSet { kind, set });
        Ok(())
    }

    // Removes a datum from the set of this kind.
    pub(crate) fn remove(&mut self, kind: Kind, value: &Data)
        ensures { self.new ≡ with_set kind (data_without value.now (set_at kind self.old)) self.old }
    {
        if let Some(place) = self.place(kind) {
            self.sets[place].set.remove(value);
        }
    }

    // Numbers the set of this kind.
    pub(crate) fn set_number(&mut self, kind: Kind, number: u64)
        ensures { self.new ≡ with_set kind (with_number number (set_at kind self.old)) self.old }
    {
        if let Some(place) = self.place(kind) {
            self.sets[place].set.set_number(number);
        }
    }

    // Whether all sets are empty.
    pub(crate) fn is_empty(&self) -> bool
        ensures { result ≡ has_no_data self.now }
    {
        all_empty(&self.sets)
    }
}

// Whether these sets are empty.
fn all_empty(sets: &[KindSet]) -> bool
    ensures { result ≡ list_all (λ own. is_empty own.set.values) sets.now }
{
    sets.iter().all(|own| own.set.is_empty())
}
