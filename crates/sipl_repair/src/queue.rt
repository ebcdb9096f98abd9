ghost use Rattle.std.specs.Prelude.{◌≡◌, ◌≤◌, ◌↔◌, [], length, IsOk, IsTrue, OnOk, OnErr};
ghost use Rattle.std.specs.FinSet as set;

use crate::fault::QueueFault;
use crate::id_set::IdSet;
use crate::lease::Lease;
use crate::stale_places::{add_one, compact_if_full, pop_live};
use indexmap::IndexMap;
use std::alloc::{AllocError, Global};
use std::collections::VecDeque;
use std::marker::Model;

/// Ids of entries that are to be looked up again, first in first out, and the leased ids.
///
/// An id is idle, queued once, or leased. The queued and leased ids are within the capacity that
/// `reserve` makes. No other call allocates, and each takes constant time, amortised.
#[derive(Drop)]
pub struct Queue {
    places: VecDeque<u64>,
    stale: IndexMap<u64, usize>,
    queued: IdSet,
    leased: IdSet,
    capacity: usize,
}

impl Model for Queue {
    ghost use Rattle.sipl_repair.specs.QueueState.{QueueState};

    ghost Value = { QueueState };

    ghost use Rattle.sipl_repair.specs.Codes.{queue_state_code};

    ghost coded = { queue_state_code };

    ghost use Rattle.sipl_repair.specs.Queue.{state_of, IsValidQueue};

    ghost view = { state_of };

    ghost invariant = { IsValidQueue };
}

impl Queue {
    ghost use Rattle.sipl_repair.specs.QueueState.{is_queued, is_leased, empty_queue, first_of, has_capacity_for, IsConsistent, after_reserve, after_mark, after_lease, after_settle, after_requeue, after_give_back, after_forget};

    /// An empty queue with no capacity.
    pub fn new(alloc: Global) -> Self
        ensures { result ≡ empty_queue }
    {
        Queue {
            places: VecDeque::new(alloc),
            stale: IndexMap::new(alloc),
            queued: IdSet::new(alloc),
            leased: IdSet::new(alloc),
            capacity: 0,
        }
    }

    /// Reserves space for `capacity` ids in all, queued and leased ones together. The capacity
    /// never shrinks. An allocation failure leaves the queue as it was.
    pub fn reserve(&mut self, capacity: usize) -> Result<(), AllocError>
        ensures ok { OnOk result (self.new ≡ after_reserve self.old capacity) }
        ensures err { OnErr result (self.new ≡ self.old) }
        ensures succeeds { capacity ≤ self.old.capacity → IsOk result }
    {
        if self.capacity < capacity {
            // Twice the capacity, so that the stale places are seldom all dropped.
            self.places.reserve(capacity.saturating_mul(2))?;
            self.stale.reserve(capacity)?;
            self.queued.reserve(capacity)?;
            self.leased.reserve(capacity)?;
            self.capacity = capacity;
        }
        Ok(())
    }

    /// How many ids, queued and leased ones together, the queue can hold without an allocation.
    pub fn capacity(&self) -> usize
        ensures capacity { result ≡ self.now.capacity }
        ensures consistent { IsConsistent self.now }
    {
        self.capacity
    }

    /// How many ids are queued. Leased ones are not counted.
    pub fn len(&self) -> usize
        ensures len { result ≡ length self.now.queued }
        ensures consistent { IsConsistent self.now }
    {
        self.queued.len()
    }

    /// How many ids are leased.
    pub fn leased_len(&self) -> usize
        ensures len { result ≡ set.len self.now.leased }
        ensures consistent { IsConsistent self.now }
    {
        self.leased.len()
    }

    /// Whether no id is queued.
    pub fn is_empty(&self) -> bool
        ensures empty { IsTrue result ↔ (self.now.queued ≡ []) }
        ensures consistent { IsConsistent self.now }
    {
        self.len() == 0
    }

    /// Whether an id is queued.
    pub fn is_queued(&self, id: u64) -> bool
        ensures queued { result ≡ is_queued self.now id }
        ensures consistent { IsConsistent self.now }
    {
        self.queued.contains(id)
    }

    /// Whether an id is leased.
    pub fn is_leased(&self, id: u64) -> bool
        ensures leased { result ≡ is_leased self.now id }
        ensures consistent { IsConsistent self.now }
    {
        self.leased.contains(id)
    }

    /// Whether `mark` has capacity for an id: it is queued or leased already, or there is capacity for one
    /// more.
    pub fn has_capacity_for(&self, id: u64) -> bool
        ensures capacity { result ≡ has_capacity_for self.now id }
        ensures consistent { IsConsistent self.now }
    {
        self.is_queued(id) || self.is_leased(id) || self.len() + self.leased.len() < self.capacity
    }

    /// Appends an idle id to the queued ones. A queued or leased id stays as it is.
    pub fn mark(&mut self, id: u64)
        requires { IsTrue (has_capacity_for self.old id) }
        ensures { self.new ≡ after_mark self.old id }
    {
        if self.is_leased(id) {
            return;
        }
        if self.queued.insert(id) {
            self.places.push_back_reserved(id);
        }
    }

    /// Leases the first queued id. Q1 where none is queued.
    pub fn lease(&mut self) -> Result<Lease, QueueFault>
        ensures first { result ≡ first_of self.old.queued }
        ensures after { self.new ≡ after_lease self.old }
    {
        let Some(id) = pop_live(&mut self.places, &mut self.stale) else {
            return Err(QueueFault::Empty);
        };
        self.queued.remove(id);
        self.leased.insert(id);
        Ok(Lease::new(id))
    }

    /// Spends a lease whose entry was looked up again: its id is idle. An id that is not leased in
    /// this queue stays as it is.
    pub fn settle(&mut self, lease: Lease)
        ensures { self.new ≡ after_settle self.old lease }
    {
        self.leased.remove(lease.into_id());
    }

    /// Spends a lease and appends its id to the queued ones. An id that is not leased in this queue
    /// stays as it is.
    pub fn requeue(&mut self, lease: Lease)
        ensures { self.new ≡ after_requeue self.old lease }
    {
        let last = lease.into_id();
        if self.leased.remove(last) {
            self.queued.insert(last);
            self.places.push_back_reserved(last);
        }
    }

    /// Spends a lease and prepends its id to the queued ones. An id that is not leased in this
    /// queue stays as it is.
    pub fn give_back(&mut self, lease: Lease)
        ensures { self.new ≡ after_give_back self.old lease }
    {
        let next = lease.into_id();
        if self.leased.remove(next) {
            self.queued.insert(next);
            self.places.push_front_reserved(next);
        }
    }

    /// Makes an id idle, whether it is queued or leased. A lease on it then no longer queues it.
    pub fn forget(&mut self, id: u64)
        ensures { self.new ≡ after_forget self.old id }
    {
        self.leased.remove(id);
        if self.queued.remove(id) {
            add_one(&mut self.stale, id);
            let not_queued = self.capacity - self.queued.len();
            compact_if_full(&mut self.places, &mut self.stale, not_queued);
        }
    }
}
