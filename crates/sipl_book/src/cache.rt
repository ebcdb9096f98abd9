//! The entries of a book, and the queue of those that are to be looked up again.
ghost use Rattle.std.specs.Prelude.{◌≡◌, ◌≢◌, ◌≤◌, ◌<◌, ◌==◌, false, true, [], length, map, filter, not, is_some, option_map, None, Some, Ok, IfOk, IfErr, IsTrue, OnOk, OnErr, vec_capacity};
ghost use Rattle.std.specs.List.{All, AllPairs, count_by};
ghost use Rattle.std.specs.Option.{option_copied};
ghost use Rattle.sipl_repair.specs.QueueState.{after_lease, after_settle, first_of, is_leased};
ghost use Rattle.sipl_book.specs.Cache.{InOrder, new_cache};
ghost use Rattle.sipl_book.specs.Entries.{after_change, committed, entry_of, renewed};
ghost use Rattle.sipl_book.specs.Indexed.{needs};
ghost use Rattle.sipl_book.specs.Kept.{IsDrawnOf};
ghost use Rattle.sipl_book.specs.Repairs.{IsQueueOf, after_failure, after_marks, after_removal, after_renewal, dependents, entry_with, is_leased_for, is_outdated, queue_after_give_back, without};

use crate::entry::Entry;
use crate::fault::BookFault;
use crate::indexed::Indexed;
use crate::outdating::{mark_all, outdate_dependents};
use sipl_outages::{Board, Held};
use sipl_plans::{Answer, Finding, MAX_SETS};
use sipl_records::Key;
use sipl_repair::{Lease, Queue, QueueFault};
use sipl_srv::Draws;
use sipl_uri::Question;
use std::alloc::{AllocError, Global};
use std::marker::Model;

/// Entries, up to a maximum, and the queue of the outdated ones. Contracts see the queue with space
/// for the ids of as many entries as there may be.
///
/// The queued and the leased ids are those of entries, and each outdated entry is queued or leased.
/// For each lease the index of the entries has space for the pairs of a finding, so a settlement does
/// not allocate; nor does an edit, whose ids find space in two vectors.
#[derive(Drop)]
pub(crate) struct Cache {
    alloc: Global,
    entries: Indexed,
    queue: Queue,
    max_entries: usize,
    // Scratch for an edit: the ids of one key, and those of the entries that became outdated.
    candidates: Vec<u64>,
    ids: Vec<u64>,
}

impl Model for Cache {
    ghost use Rattle.std.specs.Prelude.{vec_capacity};
    ghost use Rattle.sipl_book.specs.Cache.{CacheState, IsIndexedCache};

    ghost Value = { CacheState };

    ghost use Rattle.sipl_book.specs.Codes.{cache_code};

    ghost coded = { cache_code };

    ghost view = { λ c. record {
      entries = c.entries.entries;
      queue = record c.queue { capacity = c.max_entries };
      max_entries = c.max_entries;
    } };

    ghost invariant = { λ c. IsIndexedCache c.entries.entries c.queue c.entries.room
        (vec_capacity c.candidates) (vec_capacity c.ids) };
}

impl Cache {
    /// No entries, of at most `max_entries`. Does not allocate.
    pub(crate) fn new(alloc: Global, max_entries: usize) -> Self
        ensures { result ≡ new_cache max_entries }
    {
        Cache {
            alloc,
            entries: Indexed::new(alloc),
            queue: Queue::new(alloc),
            max_entries,
            candidates: Vec::new(alloc),
            ids: Vec::new(alloc),
        }
    }

    /// The entry of a question. Constant time but for hashing. Does not allocate.
    pub(crate) fn get(&self, question: &Question) -> Option<&Entry>
        ensures entry { option_copied result ≡ entry_of self.now.entries question.now }
        ensures questions { AllPairs (λ a b. a.found.question ≢ b.found.question) self.now.entries }
    {
        self.entries.entries().get(question)
    }

    /// How many entries there are.
    pub(crate) fn len(&self) -> usize
        ensures { result ≡ length self.now.entries }
    {
        self.entries.entries().len()
    }

    /// How many entries are current. Linear in their number.
    pub(crate) fn current(&self) -> usize
        ensures { result ≡ count_by (λ e. e.is_current) self.now.entries }
    {
        self.entries.entries().current()
    }

    /// How many entries are queued.
    pub(crate) fn queued(&self) -> usize
        ensures count { result ≡ length self.now.queue.queued }
        ensures queue { IsQueueOf self.now.entries self.now.queue }
    {
        self.queue.len()
    }

    /// How many current entries have the key in their evidence. Does not allocate.
    pub(crate) fn dependents(&self, key: &Key) -> usize
        requires order { InOrder self.now.entries }
        ensures { result ≡ count_by (needs key.now) self.now.entries }
    {
        self.entries.dependents(key)
    }

    /// Whether an id is that of the question's entry, and is leased.
    pub(crate) fn is_leased_for(&self, id: u64, question: &Question) -> bool
        ensures { result ≡ is_leased_for self.now.entries self.now.queue id question.now }
    {
        match self.entries.entries().get(question) {
            Some(entry) => entry.id() == id && self.queue.is_leased(id),
            None => false,
        }
    }

    /// Makes the entries whose evidence has one of these keys, whose sets changed, outdated, and
    /// marks those that are not leased in their order. The cost is a search for each entry that depends on
    /// one of the keys, and a sort of their ids. Does not allocate.
    pub(crate) fn outdate(&mut self, changed: &[Key])
        requires order { InOrder self.old.entries }
        ensures { self.new ≡ record self.old {
          entries = map (after_change changed.now) self.old.entries;
          queue = after_marks self.old.queue (dependents changed.now self.old.entries);
        } }
    {
        self.ids.clear();
        outdate_dependents(
            &mut self.entries,
            changed,
            &mut self.candidates,
            &mut self.ids,
        );
        self.ids.sort_unstable();
        mark_all(&mut self.queue, self.ids.as_slice());
    }

    /// Makes a finding the current one of its question, whose entry is not queued then: of the
    /// question's entry, or else of a new entry with this number, which is after those of all
    /// entries, unless there are as many as the maximum. Returns the finding that no entry has then: the
    /// one that it replaces, or itself. Linear in the evidence. The only error is an allocation
    /// failure: the finding is returned, and nothing changes.
    pub(crate) fn commit(
        &mut self,
        finding: Finding,
        number: u64,
    ) -> Result<Option<Finding>, Finding>
        requires order { InOrder self.old.entries }
        requires last { All (λ e. e.id < number) self.old.entries }
        ensures ok { OnOk result (self.new ≡ record self.old {
          entries = committed finding number self.old.max_entries self.old.entries;
          queue = after_renewal self.old.queue (entry_of self.old.entries finding.question);
        }) }
        ensures err { OnErr result (self.new ≡ self.old) }
        ensures finding { IfErr result (λ returned. returned ≡ finding) }
    {
        let id = match self.entries.entries().get(finding.question()) {
            Some(entry) => entry.id(),
            None => return self.add(finding, number),
        };
        let pairs = finding.evidence().len();
        let Ok(()) = self.entries.reserve(self.queue.leased_len(), pairs) else {
            return Err(finding);
        };
        let replaced = self.entries.renew(finding, id);
        unqueue(&mut self.queue, id);
        Ok(replaced)
    }

    // Adds a current entry for a question that has none, unless there are as many as the maximum: then the
    // finding is returned. The only error is an allocation failure: the finding is returned, and nothing
    // changes.
    fn add(&mut self, finding: Finding, number: u64) -> Result<Option<Finding>, Finding>
        requires order { InOrder self.old.entries }
        requires last { All (λ e. e.id < number) self.old.entries }
        requires new { entry_of self.old.entries finding.question ≡ None }
        ensures ok { OnOk result (self.new ≡ record self.old {
          entries = committed finding number self.old.max_entries self.old.entries;
        }) }
        ensures err { OnErr result (self.new ≡ self.old) }
        ensures finding { IfErr result (λ returned. returned ≡ finding) }
    {
        let len = self.entries.entries().len();
        if len >= self.max_entries {
            return Ok(Some(finding));
        }
        let Ok(()) = self.queue.reserve(len + 1) else {
            return Err(finding);
        };
        let Ok(()) = reserve_ids(&mut self.candidates, &mut self.ids, len + 1) else {
            return Err(finding);
        };
        let pairs = finding.evidence().len();
        let Ok(()) = self.entries.reserve(self.queue.leased_len(), pairs) else {
            return Err(finding);
        };
        match self.entries.add(finding, number) {
            Ok(()) => Ok(None),
            Err(finding) => Err(finding),
        }
    }

    /// Has the entry of a question keep a copy of its answer, as [`Entry::keep_answer`] says. Constant
    /// time but for hashing.
    pub(crate) fn keep_answer(
        &mut self,
        question: &Question,
        draws: &Draws,
        board: &Board,
        held: Held,
        answer: &Answer,
    )
        requires { IsDrawnOf self.old.entries question.now draws.now board.now.holds held answer.now }
        ensures { self.new ≡ self.old }
    {
        self.entries
            .keep_answer(question, draws, board, held, answer);
    }

    /// Leases the first queued entry, reserves space in the index for its settlement, and copies its
    /// question. Logarithmic in the number of entries. Q1 where none is queued, or else an allocation
    /// failure; then nothing changes.
    pub(crate) fn lease(&mut self) -> Result<(Lease, Question), BookFault>
        requires order { InOrder self.old.entries }
        ensures id { IfOk result (λ leased. first_of self.old.queue.queued ≡ Ok leased.0) }
        ensures question { IfOk result (λ leased.
            option_map (λ e. e.found.question) (entry_with self.old.entries leased.0) ≡ Some leased.1) }
        ensures idle { IfOk result (λ leased. is_leased self.old.queue leased.0 ≡ false) }
        ensures outdated { IfOk result
            (λ leased. is_outdated self.old.entries leased.0 ≡ true) }
        ensures ok { OnOk result
            (self.new ≡ record self.old { queue = after_lease self.old.queue }) }
        ensures empty { IfErr result (λ fault. fault ≢ BookFault.Memory
            → (fault ≡ BookFault.Queue QueueFault.Empty) × (self.old.queue.queued ≡ [])) }
        ensures memory { IfErr result
            (λ fault. fault ≡ BookFault.Memory → self.old.queue.queued ≢ []) }
        ensures err { OnErr result (self.new ≡ self.old) }
    {
        if self.queue.is_empty() {
            return Err(BookFault::Queue(QueueFault::Empty));
        }
        self.entries.reserve(self.queue.leased_len(), MAX_SETS)?;
        let lease = self.queue.lease()?;
        let question = match self.entries.entries().get_by_id(lease.id()) {
            Some(entry) => entry.question().dup(self.alloc),
            None => unreachable!(),
        };
        match question {
            Ok(question) => Ok((lease, question)),
            Err(_) => {
                self.queue.give_back(lease);
                Err(BookFault::Memory)
            }
        }
    }

    /// Spends a lease: its entry is the next one, unless it is current or gone.
    pub(crate) fn give_back(&mut self, lease: Lease)
        requires order { InOrder self.old.entries }
        ensures { self.new ≡ record self.old {
          queue = queue_after_give_back self.old.entries self.old.queue lease;
        } }
    {
        if self.entries.entries().is_outdated(lease.id()) {
            self.queue.give_back(lease);
        } else {
            self.queue.settle(lease);
        }
    }

    /// Spends a lease: its entry is the last one, unless it is current or gone.
    pub(crate) fn requeue(&mut self, lease: Lease)
        requires order { InOrder self.old.entries }
        ensures { self.new ≡ record self.old {
          queue = after_failure self.old.entries self.old.queue lease;
        } }
    {
        if self.entries.entries().is_outdated(lease.id()) {
            self.queue.requeue(lease);
        } else {
            self.queue.settle(lease);
        }
    }

    /// Spends the lease of the question's entry, which gets the finding and is current. Linear in
    /// the evidence. Does not allocate.
    pub(crate) fn settle(&mut self, lease: Lease, finding: Finding)
        requires order { InOrder self.old.entries }
        requires leased { IsTrue (is_leased_for self.old.entries self.old.queue lease finding.question) }
        requires few { length finding.items ≤ 80648 }
        ensures { self.new ≡ record self.old {
          entries = map (renewed finding) self.old.entries;
          queue = after_settle self.old.queue lease;
        } }
    {
        drop(self.entries.renew(finding, lease.id()));
        self.queue.settle(lease);
    }

    /// Removes the entry of a question, and returns whether there was one. Linear in the number of
    /// entries. Does not allocate.
    pub(crate) fn forget(&mut self, question: &Question) -> bool
        requires order { InOrder self.old.entries }
        ensures known { result ≡ is_some (entry_of self.old.entries question.now) }
        ensures after { self.new ≡ record self.old {
          entries = without question.now self.old.entries;
          queue = after_removal self.old.queue (entry_of self.old.entries question.now);
        } }
    {
        match self.entries.remove(question) {
            Some(id) => {
                self.queue.forget(id);
                true
            }
            None => false,
        }
    }
}

// Reserves space for `len` ids in each of two vectors. The capacities never shrink.
fn reserve_ids(candidates: &mut Vec<u64>, ids: &mut Vec<u64>, len: usize) -> Result<(), AllocError>
    ensures candidates { vec_capacity candidates.old ≤ vec_capacity candidates.new }
    ensures ids { vec_capacity ids.old ≤ vec_capacity ids.new }
    ensures candidates_ok { OnOk result (len ≤ vec_capacity candidates.new) }
    ensures ids_ok { OnOk result (len ≤ vec_capacity ids.new) }
{
    candidates.clear();
    ids.clear();
    candidates.reserve(len)?;
    ids.reserve(len)
}

// Takes an id out of the queued ones. A leased id stays so.
fn unqueue(queue: &mut Queue, id: u64)
    ensures { queue.new ≡ record queue.old {
      queued = filter (λ k. not (k == id)) queue.old.queued;
    } }
{
    if queue.is_queued(id) {
        queue.forget(id);
    }
}
