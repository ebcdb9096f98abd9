//! The entries of a book, with the index of the current ones by the record sets that they depend on.
ghost use Rattle.std.specs.Prelude.{◌≡◌, ◌≢◌, ℕ, ◌+◌, ◌*◌, ◌≤◌, ◌<◌, ◌&&◌, not, if◌then◌else◌, [], ◌∷◌, ◌++◌, length, map, nat_eq, option_map, None, Some, true, IfErr, OnOk, OnErr, vec_capacity};
ghost use Rattle.std.specs.List.{All, AllPairs, count_by, list_any};
ghost use Rattle.sipl_evidence.specs.Dependents.{depends};
ghost use Rattle.sipl_book.specs.Cache.{InOrder};
ghost use Rattle.sipl_book.specs.Entries.{entry_of, renewed};
ghost use Rattle.sipl_book.specs.Indexed.{has, is_kept, needs, touched};
ghost use Rattle.sipl_book.specs.Kept.{IsDrawnOf};
ghost use Rattle.sipl_book.specs.Repairs.{without};

use crate::entries::Entries;
use sipl_evidence::Dependents;
use sipl_outages::{Board, Held};
use sipl_plans::{Answer, Finding, MAX_SETS};
use sipl_records::Key;
use sipl_srv::Draws;
use sipl_uri::Question;
use std::alloc::{AllocError, Global};
use std::marker::Model;

/// Entries, and which of the current ones depend on which record sets. The entry that became outdated
/// last may stay in the index. Contracts see the entries, and for how many more pairs there is space in
/// the index.
#[derive(Drop)]
pub(crate) struct Indexed {
    entries: Entries,
    dependents: Dependents,
    // The entry that became outdated last, until it is renewed: its pairs stay in the index, since it is
    // mostly looked up next, and has the same keys then.
    kept: Option<u64>,
}

impl Model for Indexed {
    ghost use Rattle.sipl_book.specs.Indexed.{IndexedState, IsIndexOf};

    ghost Value = { IndexedState };

    ghost view = { λ i. record { entries = i.entries; room = i.dependents.room } };

    ghost invariant = { λ i. IsIndexOf i.entries i.kept i.dependents.pairs };
}

impl Indexed {
    /// No entries, and no space. Does not allocate.
    pub(crate) fn new(alloc: Global) -> Self
        ensures { result ≡ record { entries = []; room = 0 } }
    {
        Indexed {
            entries: Entries::new(alloc),
            dependents: Dependents::new(alloc),
            kept: None,
        }
    }

    /// The entries.
    pub(crate) fn entries(&self) -> &Entries
        ensures { result.now ≡ self.now.entries }
    {
        &self.entries
    }

    /// Reserves space for the pairs of `leases` leases, and for `pairs` more. The only error is an allocation
    /// failure.
    pub(crate) fn reserve(&mut self, leases: usize, pairs: usize) -> Result<(), AllocError>
        ensures entries { self.new.entries ≡ self.old.entries }
        ensures room { self.old.room ≤ self.new.room }
        ensures ok { OnOk result (leases * 80648 + pairs ≤ self.new.room) }
    {
        let room = leases
            .checked_mul(MAX_SETS)
            .and_then(|room| room.checked_add(pairs));
        match room {
            Some(room) => self.dependents.reserve(room),
            None => Err(AllocError),
        }
    }

    /// Adds a current entry with this id, which is after those of all entries, for a question that
    /// has none. Linear in the evidence. The only error is an allocation failure: the finding is
    /// returned, and the entries are unchanged.
    pub(crate) fn add(&mut self, finding: Finding, id: u64) -> Result<(), Finding>
        requires new { entry_of self.old.entries finding.question ≡ None }
        requires last { All (λ e. e.id < id) self.old.entries }
        requires room { length finding.items ≤ self.old.room }
        ensures ok { OnOk result (self.new.entries
            ≡ self.old.entries ++ record { id = id; is_current = true; found = finding } ∷ []) }
        ensures err { OnErr result (self.new.entries ≡ self.old.entries) }
        ensures finding { IfErr result (λ returned. returned ≡ finding) }
        ensures room { self.new.room + length finding.items ≡ self.old.room }
    {
        self.dependents.add(id, finding.evidence());
        let added = self.entries.add(finding, id);
        if added.is_err() {
            self.dependents.remove(id);
        }
        added
    }

    /// Puts a finding into the entry of its question, which has this id and is current then, and returns
    /// the finding that it replaces. Linear in the evidence. Does not allocate.
    pub(crate) fn renew(&mut self, finding: Finding, own_id: u64) -> Option<Finding>
        requires order { InOrder self.old.entries }
        requires own { option_map (λ e. e.id) (entry_of self.old.entries finding.question)
            ≡ Some own_id }
        requires room { length finding.items ≤ self.old.room }
        ensures questions { AllPairs (λ a b. a.found.question ≢ b.found.question) self.old.entries }
        ensures after { self.new.entries ≡ map (renewed finding) self.old.entries }
        ensures room { self.old.room ≤ self.new.room + length finding.items }
    {
        if self.kept == Some(own_id) && self.entries.has_keys_of(&finding) {
            self.kept = None;
            return self.entries.renew(finding);
        }
        self.kept = without_id(self.kept, own_id);
        self.dependents.remove(own_id);
        self.dependents.add(own_id, finding.evidence());
        self.entries.renew(finding)
    }

    /// Has the entry of a question keep a copy of its answer, as [`Entry::keep_answer`] says. Constant
    /// time but for hashing.
    pub(crate) fn keep_answer(
        &mut self,
        question: &Question,
        draws: &Draws,
        board: &Board,
        held: Held,
        answer: &Answer,
    )
        requires { IsDrawnOf self.old.entries question.now draws.now board.now.holds held answer.now }
        ensures { self.new ≡ self.old }
    {
        self.entries
            .keep_answer(question, draws, board, held, answer);
    }

    /// Removes the entry of a question, and returns its id. Linear in the number of entries. Does not
    /// allocate.
    pub(crate) fn remove(&mut self, question: &Question) -> Option<u64>
        requires order { InOrder self.old.entries }
        ensures questions { AllPairs (λ a b. a.found.question ≢ b.found.question) self.old.entries }
        ensures id { result ≡ option_map (λ e. e.id) (entry_of self.old.entries question.now) }
        ensures after { self.new.entries ≡ without question.now self.old.entries }
        ensures room { self.new.room ≡ self.old.room }
    {
        let id = self.entries.remove(question)?;
        self.dependents.remove(id);
        self.kept = without_id(self.kept, id);
        Some(id)
    }

    /// Makes the entry with an id outdated where it is current and has the key, whose set changed, in
    /// its evidence. Returns whether it did so. It stays in the index then, in place of the one before
    /// it. Does not allocate.
    pub(crate) fn outdate(&mut self, id: u64, key: &Key) -> bool
        requires order { InOrder self.old.entries }
        ensures needs { result ≡ has (needs key.now) self.old.entries id }
        ensures after { self.new
            ≡ record self.old { entries = map (touched id key.now) self.old.entries } }
    {
        if !self.entries.outdate(id, key) {
            return false;
        }
        release(&mut self.dependents, self.kept);
        self.kept = Some(id);
        true
    }

    /// How many current entries have the key in their evidence. Constant time but for hashing where
    /// the index has none with a key of its code, or else linear in the number of entries. Does not
    /// allocate.
    pub(crate) fn dependents(&self, key: &Key) -> usize
        requires order { InOrder self.now.entries }
        ensures { result ≡ count_by (needs key.now) self.now.entries }
    {
        if self.dependents.count(key) == 0 {
            return 0;
        }
        self.entries.dependents(key)
    }

    /// Sets `ids` to ids of entries, among them those of all current ones that have the key in their
    /// evidence. Linear in their number. Does not allocate.
    pub(crate) fn write_candidates(&self, key: &Key, ids: &mut Vec<u64>)
        requires space { length self.now.entries ≤ vec_capacity ids.old }
        ensures all { (id : ℕ) → has (needs key.now) self.now.entries id ≡ true
            → list_any (nat_eq id) ids.new.items ≡ true }
        ensures capacity { vec_capacity ids.new ≡ vec_capacity ids.old }
    {
        ids.clear();
        if self.dependents.count(key) > 0 {
            self.dependents.append_ids(key, ids);
        }
    }
}

// Removes the pairs of the outdated entry that kept them, if there is one.
fn release(dependents: &mut Dependents, kept: Option<u64>)
    ensures pairs { (code id : ℕ) → depends dependents.new.pairs code id
        ≡ (not (is_kept kept id) && depends dependents.old.pairs code id) }
    ensures room { dependents.new.room ≡ dependents.old.room }
{
    if let Some(id) = kept {
        dependents.remove(id);
    }
}

// The id of the outdated entry that keeps its pairs, unless it is this one.
fn without_id(kept: Option<u64>, id: u64) -> Option<u64>
    ensures { result ≡ (if is_kept kept id then None else kept) }
{
    match kept {
        Some(own) if own == id => None,
        _ => kept,
    }
}
