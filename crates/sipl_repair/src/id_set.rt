ghost use Rattle.std.specs.Prelude.{◌≡◌, ℕ, ◌+◌, ◌-◌, ◌*◌, ◌^◌, ◌<◌, ◌≤◌, ◌||◌, [], ◌∷◌, ◌++◌, nat_lt, nat_eq, not, min, take, false, slice_get, IsTrue, OnOk, OnErr};
ghost use Rattle.std.specs.List.{list_any};
ghost use Rattle.std.specs.FinSet as set;
ghost use Rattle.indexmap.specs.IndexSet.{index_set_len, spare, IsUnique};

use indexmap::IndexSet;
use std::alloc::{AllocError, Global};
use std::marker::Model;

// A set of ids with reserved capacity, so that neither an insert nor a removal allocates.
//
// The members are the first `present` ids of the table. Those after them were removed, and stay
// there until they are inserted again or truncated: a removal from the table itself could lose
// capacity.
#[derive(Drop)]
pub(crate) struct IdSet {
    ids: IndexSet<u64>,
    present: usize,
    capacity: usize,
}

impl Model for IdSet {
    ghost use Rattle.sipl_repair.specs.Ids.{Ids};

    ghost Value = { Ids };

    ghost use Rattle.sipl_repair.specs.Codes.{ids_code};

    ghost coded = { ids_code };

    ghost use Rattle.sipl_repair.specs.IdSet.{ids_of, IsValidIdSet};

    ghost view = { ids_of };

    ghost invariant = { IsValidIdSet };
}

impl IdSet {
    ghost use Rattle.sipl_repair.specs.Ids.{no_ids, with_capacity, with_id, without_id};

    pub(crate) fn new(alloc: Global) -> Self
        ensures { result ≡ no_ids }
    {
        IdSet {
            ids: IndexSet::new(alloc),
            present: 0,
            capacity: 0,
        }
    }

    // Reserves space for `capacity` ids in all. The table gets twice that, so that it is seldom
    // truncated.
    pub(crate) fn reserve(&mut self, capacity: usize) -> Result<(), AllocError>
        ensures ok { OnOk result (self.new ≡ with_capacity self.old capacity) }
        ensures err { OnErr result (self.new ≡ self.old) }
    {
        if self.capacity < capacity {
            self.ids.reserve(capacity.saturating_mul(2))?;
            self.capacity = capacity;
        }
        Ok(())
    }

    pub(crate) fn len(&self) -> usize
        ensures { result ≡ set.len self.now.members }
    {
        self.present
    }

    pub(crate) fn contains(&self, id: u64) -> bool
        ensures { result ≡ set.contains self.now.members id }
    {
        match self.ids.get_index_of(&id) {
            Some(index) => index < self.present,
            None => false,
        }
    }

    // Inserts an id, and returns whether it is new.
    pub(crate) fn insert(&mut self, id: u64) -> bool
        requires { IsTrue (set.contains self.old.members id
            || nat_lt (set.len self.old.members) self.old.capacity) }
        ensures added { result ≡ not (set.contains self.old.members id) }
        ensures after { self.new ≡ with_id self.old id }
    {
        let index = find_or_push(&mut self.ids, self.present, id);
        if index < self.present {
            return false;
        }
        self.ids.swap_indices(index, self.present);
        self.present += 1;
        true
    }

    // Removes an id, and returns whether it was a member.
    pub(crate) fn remove(&mut self, id: u64) -> bool
        ensures removed { result ≡ set.contains self.old.members id }
        ensures after { self.new ≡ without_id self.old id }
    {
        match self.ids.get_index_of(&id) {
            Some(index) if index < self.present => {
                self.present -= 1;
                self.ids.swap_indices(index, self.present);
                true
            }
            _ => false,
        }
    }
}

// The index of an id, which is appended if it is new. The first `keep` ids keep their places.
fn find_or_push(ids: &mut IndexSet<u64>, keep: usize, id: u64) -> usize
    requires unique { IsUnique nat_eq ids.old }
    requires within { keep ≤ index_set_len ids.old }
    requires places { list_any (nat_eq id) (take keep ids.old.keys) ≡ false
        → min (keep * 2 + 2) (2 ^ 64 - 1) ≤ index_set_len ids.old + spare ids.old }
    ensures kept { take keep ids.new.keys ≡ take keep ids.old.keys }
    ensures index { slice_get ids.new.keys result ≡ Some id }
    ensures within { result < index_set_len ids.new }
    ensures unique { IsUnique nat_eq ids.new }
    ensures among_kept { nat_lt result keep ≡ list_any (nat_eq id) (take keep ids.old.keys) }
    ensures places { index_set_len ids.old + spare ids.old ≤ index_set_len ids.new + spare ids.new }
{
    if let Some(index) = ids.get_index_of(&id) {
        return index;
    }
    truncate_if_full(ids, keep);
    push(ids, id)
}

// Leaves space for one more id: a full table is truncated to its first `keep` ids.
fn truncate_if_full(ids: &mut IndexSet<u64>, keep: usize)
    requires within { keep ≤ index_set_len ids.old }
    requires places { min (keep * 2 + 2) (2 ^ 64 - 1) ≤ index_set_len ids.old + spare ids.old }
    ensures kept { take keep ids.new.keys ≡ take keep ids.old.keys }
    ensures within { keep ≤ index_set_len ids.new }
    ensures none_new { (id : ℕ) → list_any (nat_eq id) ids.old.keys ≡ false
        → list_any (nat_eq id) ids.new.keys ≡ false }
    ensures spare { 0 < spare ids.new }
    ensures places { index_set_len ids.old + spare ids.old ≤ index_set_len ids.new + spare ids.new }
{
    if ids.len() == ids.capacity() {
        ids.truncate(keep);
    }
}

// Appends a new id, and returns its index.
fn push(ids: &mut IndexSet<u64>, id: u64) -> usize
    requires new { list_any (nat_eq id) ids.old.keys ≡ false }
    requires spare { 0 < spare ids.old }
    ensures keys { ids.new.keys ≡ ids.old.keys ++ id ∷ [] }
    ensures index { result ≡ index_set_len ids.old }
    ensures unique { IsUnique nat_eq ids.new }
    ensures spare { spare ids.old ≤ spare ids.new + 1 }
{
    let index = ids.len();
    let _is_new = ids.insert(id).unwrap();
    index
}
