//! The zones as they are: what an operator asks for.

use indexmap::IndexMap;
use sipl_book::Edit;
use sipl_names::Name;
use std::alloc::{AllocError, Global};

/// The zones, each with how many records it has, in the order of addition. The edits are made under its
/// lock, so it follows them in the order of their events.
#[derive(Drop)]
pub struct Tally {
    zones: IndexMap<Name, u64>,
    records: u64,
}

/// What an edit does to a tally, once it is made.
#[derive(Drop)]
pub(crate) enum Step {
    Load(Name, u64),
    Unload(Name),
    Add(Name),
    Remove(Name),
}

impl Step {
    /// That of an edit. The only error is an allocation failure.
    pub(crate) fn of(alloc: Global, edit: &Edit) -> Result<Step, AllocError> {
        Ok(match edit {
            Edit::Load(zone) => Step::Load(zone.apex().dup(alloc)?, zone.records().len() as u64),
            Edit::Unload(apex) => Step::Unload(apex.dup(alloc)?),
            Edit::Add(record) => Step::Add(record.owner.dup(alloc)?),
            Edit::Remove(record) => Step::Remove(record.owner.dup(alloc)?),
        })
    }
}

impl Tally {
    /// Nothing is loaded.
    pub(crate) fn new(alloc: Global) -> Tally {
        Tally {
            zones: IndexMap::new(alloc),
            records: 0,
        }
    }

    /// What an edit does once it is made, with space for it. The only error is an allocation failure.
    pub(crate) fn step_of(&mut self, alloc: Global, edit: &Edit) -> Result<Step, AllocError> {
        self.zones.reserve(1)?;
        Step::of(alloc, edit)
    }

    /// An edit was made.
    pub(crate) fn follow(&mut self, step: Step) {
        let (before, after) = match step {
            Step::Load(apex, count) => self.load(apex, count),
            Step::Unload(apex) => (self.zones.shift_remove(&apex).unwrap_or(0), 0),
            Step::Add(owner) => self.count(owner, 1, 0),
            Step::Remove(owner) => self.count(owner, 0, 1),
        };
        self.records = self.records.saturating_add(after).saturating_sub(before);
    }

    // A zone has so many records now. Returns how many it had, and these.
    fn load(&mut self, apex: Name, count: u64) -> (u64, u64) {
        match self.zones.insert(apex, count) {
            Ok(before) => (before.unwrap_or(0), count),
            Err(_) => (0, 0),
        }
    }

    // The zone of an owner has so many records more, and so many less. Returns what it had, and has.
    fn count(&mut self, owner: Name, more: u64, less: u64) -> (u64, u64) {
        let mut name = owner;
        for _ in 0..=name.wire_len() {
            if let Some(count) = self.zones.get_mut(&name) {
                let before = *count;
                *count = before.saturating_add(more).saturating_sub(less);
                return (before, *count);
            }
            if !name.pop_label() {
                break;
            }
        }
        (0, 0)
    }

    /// The zones, and how many records each has.
    pub fn zones(&self) -> &IndexMap<Name, u64> {
        &self.zones
    }

    /// How many records there are in all.
    pub fn records(&self) -> u64 {
        self.records
    }
}
