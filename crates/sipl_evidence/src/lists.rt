// Lists of spots in other lists, one list for each number, all in one table, so that no list
// allocates for itself. A list without a length is empty. Only `reserve` allocates.
ghost use Rattle.std.specs.Prelude.{true, [], ◌∷◌, ◌++◌, ◌≡◌, ℕ, ◌+◌, ◌-◌, ◌^◌, ◌<◌, ◌≤◌, None, Some, nat_eq, ◌==◌, is_some, if◌then◌else◌, length, OnOk, IsTrue};
ghost use Rattle.indexmap.specs.IndexMap.{IsUnchanged, spare};
ghost use Rattle.sipl_evidence.specs.declared.spot.Spot.{Spot};
ghost use Rattle.sipl_evidence.specs.Spots.{spot, same_spot};
ghost use Rattle.sipl_evidence.specs.Lists.{at, count_of, len_of, AreDense, HasSpace, KeepsSpace};

use crate::spot::Spot;
use indexmap::IndexMap;
use std::alloc::{AllocError, Global};

#[derive(Drop)]
pub(crate) struct Lists {
    pub(crate) spots: IndexMap<Spot, Spot>,
    pub(crate) lens: IndexMap<u64, usize>,
}

impl Lists {
    pub(crate) fn new(alloc: Global) -> Self
        ensures empty { result.spots.entries ≡ [] }
        ensures dense { AreDense result }
    {
        Lists {
            spots: IndexMap::new(alloc),
            lens: IndexMap::new(alloc),
        }
    }

    // Makes space for so many spots more. An allocation failure leaves the lists as they were. A
    // table that grows at least doubles, and one that is at most half full is rehashed instead.
    pub(crate) fn reserve(&mut self, room: usize) -> Result<(), AllocError>
        ensures spots { IsUnchanged self.old.spots self.new.spots }
        ensures lens { IsUnchanged self.old.lens self.new.lens }
        ensures keeps { KeepsSpace self.old self.new }
        ensures ok { OnOk result (HasSpace self.new room) }
    {
        self.spots.reserve(room)?;
        self.lens.reserve(room)
    }

    // The length of a list.
    pub(crate) fn len(&self, list: u64) -> usize
        ensures { result ≡ len_of self.now list }
    {
        self.lens.get(&list).copied().unwrap_or(0)
    }

    // What the place has.
    pub(crate) fn get(&self, place: Spot) -> Option<Spot>
        ensures { result ≡ at self.now place }
    {
        self.spots.get(&place).copied()
    }

    // The last spot of a list.
    pub(crate) fn last(&self, list: u64) -> Option<Spot>
        requires dense { AreDense self.now }
        ensures { result ≡ at self.now (spot list (len_of self.now list - 1)) }
    {
        let index = self.len(list).checked_sub(1)?;
        self.get(Spot { list, index })
    }

    // Appends a spot to a list.
    pub(crate) fn push(&mut self, list: u64, value: Spot)
        requires dense { AreDense self.old }
        requires space { HasSpace self.old 1 }
        ensures dense { AreDense self.new }
        ensures at { (place : Spot) → at self.new place
            ≡ (if same_spot (spot list (len_of self.old list)) place then Some value
            else at self.old place) }
        ensures entries { self.new.spots.entries
            ≡ self.old.spots.entries ++ (spot list (len_of self.old list), value) ∷ [] }
        ensures len { (other : ℕ) → len_of self.new other
            ≡ (if list == other then len_of self.old list + 1 else len_of self.old other) }
        ensures space { (room : ℕ) → HasSpace self.old (room + 1) → HasSpace self.new room }
    {
        // No list is longer than the table, so its new length fits.
        prove!(self.spots.len() < usize::MAX);
        let index = self.len(list);
        let _none = self.spots.insert(Spot { list, index }, value).unwrap();
        add_one(&mut self.lens, list);
    }

    // Removes the last spot of a list and returns it; `None` where the list is empty.
    pub(crate) fn pop(&mut self, list: u64) -> Option<Spot>
        requires dense { AreDense self.old }
        ensures last { result ≡ at self.old (spot list (len_of self.old list - 1)) }
        ensures dense { AreDense self.new }
        ensures at { (place : Spot) → at self.new place
            ≡ (if same_spot (spot list (len_of self.old list - 1)) place then None
            else at self.old place) }
        ensures len { (other : ℕ) → len_of self.new other
            ≡ (if list == other then len_of self.old list - 1 else len_of self.old other) }
        ensures keeps { KeepsSpace self.old self.new }
    {
        let index = self.len(list).checked_sub(1)?;
        take_one(&mut self.lens, list);
        self.spots.swap_remove(&Spot { list, index })
    }

    // Replaces what a place has.
    pub(crate) fn set(&mut self, place: Spot, value: Spot)
        requires dense { AreDense self.old }
        requires there { is_some (at self.old place) ≡ true }
        ensures dense { AreDense self.new }
        ensures at { (other : Spot) → at self.new other
            ≡ (if same_spot place other then Some value else at self.old other) }
        ensures len { self.new.lens ≡ self.old.lens }
        ensures keeps { KeepsSpace self.old self.new }
    {
        if let Some(last) = self.spots.get_mut(&place) {
            *last = value;
        }
    }
}

// Counts one more in a list.
fn add_one(lens: &mut IndexMap<u64, usize>, list: u64)
    requires spare { 0 < spare lens.old }
    requires fits { count_of lens.old list + 1 < 2 ^ 64 }
    ensures counts { (other : ℕ) → count_of lens.new other
        ≡ (if list == other then count_of lens.old list + 1 else count_of lens.old other) }
    ensures spare { spare lens.old ≤ spare lens.new + 1 }
{
    if let Some(len) = lens.get_mut(&list) {
        *len += 1;
        return;
    }
    let _none = lens.insert(list, 1).unwrap();
}

// Counts one less in a list. An empty list has no count.
fn take_one(lens: &mut IndexMap<u64, usize>, list: u64)
    ensures counts { (other : ℕ) → count_of lens.new other
        ≡ (if list == other then count_of lens.old list - 1 else count_of lens.old other) }
    ensures spare { spare lens.old ≤ spare lens.new }
{
    match lens.get_mut(&list) {
        Some(len) if *len > 1 => *len -= 1,
        _ => {
            let _count = lens.swap_remove(&list);
        }
    }
}
