//! The entries of a book, by their questions.
ghost use Rattle.std.specs.Prelude.{◌≡◌, ◌≢◌, [], ◌∷◌, ◌++◌, length, map, option_map, None, Some, true, IfErr, OnOk, OnErr};
ghost use Rattle.std.specs.List.{AllPairs, count_by};
ghost use Rattle.std.specs.Option.{option_copied};
ghost use Rattle.sipl_book.specs.Cache.{InOrder};
ghost use Rattle.sipl_book.specs.Entries.{EntryState, entry_of, renewed};
ghost use Rattle.sipl_book.specs.Indexed.{HasKeysOf, has, needs, touched};
ghost use Rattle.sipl_book.specs.Kept.{IsDrawnOf};
ghost use Rattle.sipl_book.specs.Repairs.{entry_with, is_outdated, without};

use crate::entry::Entry;
use indexmap::IndexMap;
use sipl_outages::{Board, Held};
use sipl_plans::{Answer, Finding};
use sipl_records::Key;
use sipl_srv::Draws;
use sipl_uri::Question;
use std::alloc::Global;
use std::marker::Model;

/// Entries in the order in which they were made, each of another question. Contracts see them as a
/// list.
#[derive(Drop)]
pub(crate) struct Entries {
    alloc: Global,
    table: IndexMap<Question, Entry>,
}

impl Model for Entries {
    ghost use Rattle.std.specs.Prelude.{List};
    ghost use Rattle.std.specs.Map.{values_of};
    ghost use Rattle.sipl_book.specs.Entries.{EntryState};
    ghost use Rattle.sipl_book.specs.EntryTable.{IsTable};

    ghost Value = { List EntryState };

    ghost view = { λ e. values_of e.table.entries };

    ghost invariant = { λ e. IsTable e.table.entries };
}

impl Entries {
    /// No entries. Does not allocate.
    pub(crate) fn new(alloc: Global) -> Self
        ensures { result ≡ [] }
    {
        Entries {
            alloc,
            table: IndexMap::new(alloc),
        }
    }

    /// The entry of a question. Constant time but for hashing. Does not allocate.
    pub(crate) fn get(&self, question: &Question) -> Option<&Entry>
        ensures entry { option_copied result ≡ entry_of self.now question.now }
        ensures questions { AllPairs (λ a b. a.found.question ≢ b.found.question) self.now }
    {
        if self.table.is_empty() {
            return None;
        }
        self.table.get(question)
    }

    /// Adds a current entry with this id for a question that has none. Constant time but for hashing.
    /// The only error is an allocation failure: the finding is returned, and the entries are
    /// unchanged.
    pub(crate) fn add(&mut self, finding: Finding, id: u64) -> Result<(), Finding>
        requires new { entry_of self.old finding.question ≡ None }
        ensures ok { OnOk result (self.new
            ≡ self.old ++ record { id = id; is_current = true; found = finding } ∷ []) }
        ensures err { OnErr result (self.new ≡ self.old) }
        ensures finding { IfErr result (λ returned. returned ≡ finding) }
    {
        let Ok(question) = finding.question().dup(self.alloc) else {
            return Err(finding);
        };
        match self.table.insert(question, Entry::new(id, finding)) {
            Ok(_) => Ok(()),
            Err(failed) => {
                let (question, entry) = failed.value;
                drop(question);
                Err(entry.into_finding())
            }
        }
    }

    /// How many entries there are.
    pub(crate) fn len(&self) -> usize
        ensures { result ≡ length self.now }
    {
        self.table.len()
    }

    /// How many current entries there are. Linear in the number of entries. Does not allocate.
    pub(crate) fn current(&self) -> usize
        ensures { result ≡ count_by (λ e. e.is_current) self.now }
    {
        count_current(self.table.values().as_slice())
    }

    /// How many current entries have the key in their evidence. Linear in the number of entries. Does
    /// not allocate.
    pub(crate) fn dependents(&self, key: &Key) -> usize
        ensures { result ≡ count_by (needs key.now) self.now }
    {
        let entries = self.table.values().as_slice();
        entries.iter().filter(|entry| entry.needs(key)).count()
    }

    /// The entry with an id. Logarithmic in the number of entries.
    pub(crate) fn get_by_id(&self, id: u64) -> Option<&Entry>
        requires order { InOrder self.now }
        ensures { option_copied result ≡ entry_with self.now id }
    {
        let entries = self.table.values().as_slice();
        match entries.binary_search_by_key(&id, |entry| entry.id()) {
            Ok(index) => Some(&entries[index]),
            Err(_) => None,
        }
    }

    /// Whether an id is that of an outdated entry. Logarithmic in the number of entries.
    pub(crate) fn is_outdated(&self, id: u64) -> bool
        requires order { InOrder self.now }
        ensures { result ≡ is_outdated self.now id }
    {
        match self.get_by_id(id) {
            Some(entry) => !entry.is_current(),
            None => false,
        }
    }

    /// Makes the entry with an id outdated where it is current and has the key, whose set changed, in
    /// its evidence. Returns whether it did so. Logarithmic in the number of entries. Does not
    /// allocate.
    pub(crate) fn outdate(&mut self, id: u64, key: &Key) -> bool
        requires order { InOrder self.old }
        ensures needs { result ≡ has (needs key.now) self.old id }
        ensures after { self.new ≡ map (touched id key.now) self.old }
    {
        let entries = self.table.values().as_slice();
        let Ok(index) = entries.binary_search_by_key(&id, |entry| entry.id()) else {
            return false;
        };
        match self.table.get_index_mut(index) {
            Some(entry) => entry.outdate(key),
            None => false,
        }
    }

    /// Whether the entry of a finding's question has the finding's keys in its evidence, in the same
    /// order. Linear in their number. Does not allocate.
    pub(crate) fn has_keys_of(&self, finding: &Finding) -> bool
        ensures { result ≡ true → (entry : EntryState)
            → entry_of self.now finding.now.question ≡ Some entry → HasKeysOf finding.now.items entry }
    {
        match self.get(finding.question()) {
            Some(entry) => entry.has_keys_of(finding.evidence().items()),
            None => false,
        }
    }

    /// Puts a finding into the entry of its question, which is current then, and returns the finding
    /// that it replaces. Without such an entry nothing changes. Constant time but for hashing. Does not
    /// allocate.
    pub(crate) fn renew(&mut self, finding: Finding) -> Option<Finding>
        ensures questions { AllPairs (λ a b. a.found.question ≢ b.found.question) self.old }
        ensures after { self.new ≡ map (renewed finding) self.old }
    {
        match self.table.get_mut(finding.question()) {
            Some(entry) => Some(entry.renew(finding)),
            None => {
                drop(finding);
                None
            }
        }
    }

    /// Has the entry of a question keep a copy of its answer, as [`Entry::keep_answer`] says. Constant
    /// time but for hashing.
    pub(crate) fn keep_answer(
        &mut self,
        question: &Question,
        draws: &Draws,
        board: &Board,
        held: Held,
        answer: &Answer,
    )
        requires { IsDrawnOf self.old question.now draws.now board.now.holds held answer.now }
        ensures { self.new ≡ self.old }
    {
        if let Some(entry) = self.table.get_mut(question) {
            entry.keep_answer(self.alloc, draws, board, held, answer);
        }
    }

    /// Removes the entry of a question, and returns its id. Linear in the number of entries.
    pub(crate) fn remove(&mut self, question: &Question) -> Option<u64>
        ensures questions { AllPairs (λ a b. a.found.question ≢ b.found.question) self.old }
        ensures id { result ≡ option_map (λ e. e.id) (entry_of self.old question.now) }
        ensures after { self.new ≡ without question.now self.old }
    {
        let entry = self.table.shift_remove(question)?;
        let id = entry.id();
        drop(entry);
        Some(id)
    }
}

// How many of the entries are current.
fn count_current(entries: &[Entry]) -> usize
    ensures { result ≡ count_by (λ e. e.is_current) entries.now }
{
    entries.iter().filter(|entry| entry.is_current()).count()
}
