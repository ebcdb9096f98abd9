ghost use Rattle.std.specs.Prelude.{◌≡◌, ℕ, ◌+◌, ◌≤◌, ◌&&◌, ◌||◌, ◌++◌, [], false, not, nat_eq, ◌==◌, max, List, length, IsOk, OnOk, OnErr, vec_capacity};
ghost use Rattle.std.specs.List.{IsDistinct};
ghost use Rattle.sipl_evidence.specs.Dependents.{code_of_key, depends, has_code, ids_of, AreIdsOf};

use crate::code::code_of_key;
use crate::evidence::Evidence;
use crate::linked::{append_list, link_all, unlink_all};
use crate::lists::Lists;
use sipl_records::Key;
use std::alloc::{AllocError, Global};
use std::marker::Model;

/// Which entries depend on which record sets. Contracts see the pairs of a key's code and an entry's
/// id, and for how many more there is space.
///
/// A code is a hash of a key. Two keys may share one, so an entry that depends on a set of a key's
/// code need not depend on that key's set: its evidence says which do. Only `reserve` allocates.
#[derive(Drop)]
pub struct Dependents {
    by_code: Lists,
    by_id: Lists,
    room: usize,
}

impl Model for Dependents {
    ghost use Rattle.sipl_evidence.specs.Dependents.{DependentsState};

    ghost Value = { DependentsState };

    ghost use Rattle.sipl_evidence.specs.Linked.{state_of, IsLinked};

    ghost view = { state_of };

    ghost invariant = { IsLinked };
}

impl Dependents {
    /// No pairs, and no space. Does not allocate.
    pub fn new(alloc: Global) -> Self
        ensures pairs { result.pairs ≡ [] }
        ensures room { result.room ≡ 0 }
    {
        Dependents {
            by_code: Lists::new(alloc),
            by_id: Lists::new(alloc),
            room: 0,
        }
    }

    /// For how many more pairs there is space. No entry is twice among those of a code.
    pub fn room(&self) -> usize
        ensures room { result ≡ self.now.room }
        ensures distinct { (code : ℕ) → IsDistinct nat_eq (ids_of self.now.pairs code) }
    {
        self.room
    }

    /// Reserves space for so many more pairs. The only error is an allocation failure; then nothing
    /// changes.
    pub fn reserve(&mut self, room: usize) -> Result<(), AllocError>
        ensures ok { OnOk result (self.new ≡ record self.old { room = max self.old.room room }) }
        ensures err { OnErr result (self.new ≡ self.old) }
        ensures succeeds { room ≤ self.old.room → IsOk result }
    {
        if self.room < room {
            self.by_code.reserve(room)?;
            self.by_id.reserve(room)?;
            self.room = room;
        }
        Ok(())
    }

    /// Adds an entry with the sets of its evidence; it has no pairs yet. Does not allocate. Linear in
    /// the evidence.
    pub fn add(&mut self, id: u64, evidence: &Evidence)
        requires room { length evidence.now ≤ self.old.room }
        requires new { (code : ℕ) → depends self.old.pairs code id ≡ false }
        ensures pairs { (code other : ℕ) → depends self.new.pairs code other
            ≡ (id == other && has_code evidence.now code || depends self.old.pairs code other) }
        ensures room { self.new.room + length evidence.now ≡ self.old.room }
    {
        let items = evidence.items();
        self.room -= items.len();
        link_all(&mut self.by_code, &mut self.by_id, id, items);
    }

    /// Removes an entry with all its pairs. Does not allocate. Linear in their number.
    pub fn remove(&mut self, id: u64)
        ensures pairs { (code other : ℕ) → depends self.new.pairs code other
            ≡ (not (id == other) && depends self.old.pairs code other) }
        ensures room { self.new.room ≡ self.old.room }
    {
        unlink_all(&mut self.by_code, &mut self.by_id, id);
    }

    /// How many entries depend on a set of the key's code. Constant time but for hashing.
    pub fn count(&self, key: &Key) -> usize
        ensures count { result ≡ length (ids_of self.now.pairs (code_of_key key.now)) }
        ensures distinct { (code : ℕ) → IsDistinct nat_eq (ids_of self.now.pairs code) }
    {
        self.by_code.len(code_of_key(key))
    }

    /// Appends the ids of the entries that depend on a set of the key's code, each once. Does not
    /// allocate. Linear in their number.
    pub fn append_ids(&self, key: &Key, ids: &mut Vec<u64>)
        requires space { length ids.old.items
            + length (ids_of self.now.pairs (code_of_key key.now)) ≤ vec_capacity ids.old }
        ensures appended { (appended : List ℕ) × (ids.new.items ≡ ids.old.items ++ appended)
            × AreIdsOf self.now.pairs (code_of_key key.now) appended }
        ensures capacity { vec_capacity ids.new ≡ vec_capacity ids.old }
    {
        append_list(&self.by_code, code_of_key(key), ids);
    }
}
