//! The record sets of a store (RFC 2181, 5) by their owners and kinds, with their numbers.
ghost use Rattle.std.specs.Prelude.{◌≡◌, ◌≤◌, [], false, None, OnOk, OnErr, if◌then◌else◌};
ghost use Rattle.std.specs.Map.{lookup};
ghost use Rattle.indexmap.specs.IndexMap.{spare};
ghost use Rattle.indexmap.specs.IndexSet.{contains};
ghost use Rattle.sipl_names.specs.Labels.{Labels, is_within, same_name};
ghost use Rattle.sipl_records.specs.declared.record.Key.{Key};
ghost use Rattle.sipl_records.specs.Sets.{same_key, same_kind};
ghost use Rattle.sipl_zonestore.specs.Content.{no_content, pushed, without, renumbered};
ghost use Rattle.sipl_zonestore.specs.SetTable.{content_of, has_data, has_set};

use crate::owner_places::place_near;
use crate::owner_sets::OwnerSets;
use indexmap::{IndexMap, IndexSet};
use sipl_names::Name;
use sipl_records::{Data, Kind};
use std::alloc::{AllocError, Global};
use std::marker::Model;

// Record sets with their numbers, by their owners and kinds: so a look-up needs no copy of a name.
// Each owner has data. Contracts see a list of the owners with their sets, and of a call that
// changes the table what it has for each key: the order of the owners is not kept.
#[derive(Drop)]
pub(crate) struct SetTable {
    owners: IndexMap<Name, OwnerSets>,
}

impl Model for SetTable {
    ghost use Rattle.sipl_zonestore.specs.SetTable.{OwnerTable, HaveData};

    ghost Value = { OwnerTable };

    ghost view = { λ t. t.owners.entries };

    ghost invariant = { λ t. HaveData t.owners.entries };
}

impl SetTable {
    // A table without sets.
    pub(crate) fn new(alloc: Global) -> Self
        ensures { result ≡ [] }
    {
        SetTable {
            owners: IndexMap::new(alloc),
        }
    }

    // The number of a set and its data, 0 and none where it is empty. Constant time but for hashing.
    // Does not allocate.
    pub(crate) fn get(&self, owner: &Name, kind: Kind) -> (u64, &[Data])
        ensures number { result.0
            ≡ (content_of self.now (record { name = owner.now; kind = kind })).number }
        ensures values { result.1.now
            ≡ (content_of self.now (record { name = owner.now; kind = kind })).values }
    {
        match self.owners.get(owner) {
            Some(sets) => sets.get(kind),
            None => (0, &[]),
        }
    }

    // As `get`, where the owner's place is searched near the last one, and becomes the last one.
    pub(crate) fn get_near(&self, owner: &Name, kind: Kind, near: &mut usize) -> (u64, &[Data])
        ensures number { result.0
            ≡ (content_of self.now (record { name = owner.now; kind = kind })).number }
        ensures values { result.1.now
            ≡ (content_of self.now (record { name = owner.now; kind = kind })).values }
    {
        let Some(place) = place_near(&self.owners, owner, *near) else {
            return (0, &[]);
        };
        *near = place;
        let sets = &self.owners[place];
        sets.get(kind)
    }

    // The data of a set.
    pub(crate) fn values(&self, owner: &Name, kind: Kind) -> &[Data]
        ensures { result.now
            ≡ (content_of self.now (record { name = owner.now; kind = kind })).values }
    {
        self.get(owner, kind).1
    }

    // The number of a set, 0 where it is empty.
    pub(crate) fn number(&self, owner: &Name, kind: Kind) -> u64
        ensures { result
            ≡ (content_of self.now (record { name = owner.now; kind = kind })).number }
    {
        self.get(owner, kind).0
    }

    // Whether the owner has data of some kind. Constant time but for hashing. Does not allocate.
    pub(crate) fn has_data(&self, owner: &Name) -> bool
        ensures { result ≡ has_data self.now owner.now }
    {
        match self.owners.get(owner) {
            Some(sets) => !sets.is_empty(),
            None => false,
        }
    }

    // Appends a datum to a set, which gets this number. Constant time but for hashing; an owner that is
    // last is not hashed.
    pub(crate) fn push(
        &mut self,
        alloc: Global,
        owner: &Name,
        kind: Kind,
        number: u64,
        value: Data,
    ) -> Result<(), AllocError>
        requires { same_kind kind Kind.Exists ≡ false }
        ensures pushed { OnOk result ((key : Key) → content_of self.new key
            ≡ (if same_key (record { name = owner.now; kind = kind }) key
            then pushed number value (content_of self.old key)
            else content_of self.old key)) }
        ensures unchanged { OnErr result (self.new ≡ self.old) }
    {
        let last = self.owners.len().saturating_sub(1);
        if let Some(place) = place_near(&self.owners, owner, last) {
            let (_, sets) = self.owners.pair_mut(place);
            return sets.push(alloc, kind, number, value);
        }
        let name = owner.dup(alloc)?;
        let sets = OwnerSets::with(alloc, kind, number, value)?;
        self.owners.insert(name, sets)?;
        Ok(())
    }

    // Removes a datum from a set. Constant time but for hashing and the data of the set. Does not
    // allocate.
    pub(crate) fn remove(&mut self, owner: &Name, kind: Kind, value: &Data)
        requires { same_kind kind Kind.Exists ≡ false }
        ensures { (key : Key) → content_of self.new key
            ≡ (if same_key (record { name = owner.now; kind = kind }) key
            then without value.now (content_of self.old key)
            else content_of self.old key) }
    {
        let Some(sets) = self.owners.get_mut(owner) else {
            return;
        };
        sets.remove(kind, value);
        if sets.is_empty() {
            let removed = self.owners.swap_remove(owner);
            drop(removed);
        }
    }

    // Numbers a set, unless it is empty, and returns whether it is not. The owner's place is searched
    // near the last one, and becomes the last one. Constant time but for hashing. Does not allocate.
    pub(crate) fn set_number(
        &mut self,
        owner: &Name,
        kind: Kind,
        number: u64,
        near: &mut usize,
    ) -> bool
        requires { same_kind kind Kind.Exists ≡ false }
        ensures found { result
            ≡ has_set self.old (record { name = owner.now; kind = kind }) }
        ensures numbered { (key : Key) → content_of self.new key
            ≡ (if same_key (record { name = owner.now; kind = kind }) key
            then renumbered number (content_of self.old key)
            else content_of self.old key) }
    {
        let Some(place) = place_near(&self.owners, owner, *near) else {
            return false;
        };
        *near = place;
        let (_, sets) = self.owners.pair_mut(place);
        sets.set_number(kind, number);
        !sets.get(kind).1.is_empty()
    }

    // Replaces the sets whose owners are within the apex by these, whose owners are within it too, and
    // which are moved here. Linear in the number of owners.
    pub(crate) fn replace_within(
        &mut self,
        apex: &Name,
        text: &mut SetTable,
    ) -> Result<(), AllocError>
        requires { (key : Key) → is_within key.name apex.now ≡ false
            → content_of text.old key ≡ no_content }
        ensures replaced { OnOk result ((key : Key) → content_of self.new key
            ≡ (if is_within key.name apex.now then content_of text.old key
            else content_of self.old key)) }
        ensures unchanged { OnErr result (self.new ≡ self.old) }
    {
        if self.owners.is_empty() {
            std::mem::swap(&mut self.owners, &mut text.owners);
            return Ok(());
        }
        self.owners.reserve(text.owners.len())?;
        self.owners.retain(|owner, _| !owner.is_within(apex));
        self.owners.append(&mut text.owners).unwrap();
        Ok(())
    }

    // Replaces the sets of these owners by others, which are theirs, and which are moved here. Constant
    // time for each owner but for hashing.
    pub(crate) fn replace_owners(
        &mut self,
        names: &IndexSet<Name>,
        text: &mut SetTable,
    ) -> Result<(), AllocError>
        requires { (key : Key) → contains same_name names.now key.name ≡ false
            → content_of text.old key ≡ no_content }
        ensures replaced { OnOk result ((key : Key) → content_of self.new key
            ≡ (if contains same_name names.now key.name then content_of text.old key
            else content_of self.old key)) }
        ensures unchanged { OnErr result (self.new ≡ self.old) }
    {
        self.owners.reserve(text.owners.len())?;
        remove_owners(&mut self.owners, names);
        self.owners.append(&mut text.owners).unwrap();
        Ok(())
    }
}

// Removes the owners of these names, with their sets. Does not allocate.
fn remove_owners(owners: &mut IndexMap<Name, OwnerSets>, names: &IndexSet<Name>)
    ensures left { (name : Labels) → lookup (same_name name) owners.new.entries
        ≡ (if contains same_name names.now name then None
        else lookup (same_name name) owners.old.entries) }
    ensures space { spare owners.old ≤ spare owners.new }
{
    for name in names.as_slice() {
        let removed = owners.swap_remove(name);
        drop(removed);
    }
}
