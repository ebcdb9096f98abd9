ghost use Rattle.std.specs.Prelude.{◌≡◌, IfOk, option_map};
ghost use Rattle.sipl_zonestore.specs.Edited.{IsEdited, early_refusal};
ghost use Rattle.sipl_book.specs.Machine.{zone_edit};

use crate::event::Event;
use crate::fault::BookFault;
use sipl_masterfile::ZoneText;
use sipl_names::Name;
use sipl_records::Record;
use sipl_zonestore::{Changed, StoreFault, ZoneStore};
use std::alloc::{AllocError, Global};

/// A change of the loaded zones.
#[derive(PartialEq, Eq, Drop)]
pub enum Edit {
    /// Loads a zone: the records of its text replace those within its apex.
    Load(ZoneText),
    /// Unloads the zone of this apex, with all records within it.
    Unload(Name),
    /// Adds a record, which is last.
    Add(Record),
    /// Removes the record that is equal to this one.
    Remove(Record),
}

impl Edit {
    /// A copy. The only error is an allocation failure. Linear in the records of a zone.
    pub fn dup(&self, alloc: Global) -> Result<Self, AllocError>
        ensures { IfOk result (λ copy. copy ≡ self.now) }
    {
        Ok(match self {
            Edit::Load(zone) => Edit::Load(zone.dup(alloc)?),
            Edit::Unload(apex) => Edit::Unload(apex.dup(alloc)?),
            Edit::Add(record) => Edit::Add(record.dup(alloc)?),
            Edit::Remove(record) => Edit::Remove(record.dup(alloc)?),
        })
    }

    // The fault of the edit that is found before anything is allocated, if there is one.
    pub(crate) fn early_fault(&self, store: &mut ZoneStore) -> Option<BookFault>
        ensures found { result
            ≡ option_map BookFault.Store (early_refusal (zone_edit self.now) store.old) }
        ensures unchanged { store.new ≡ store.old }
    {
        let found = match self {
            Edit::Load(zone) => store.check_load(zone),
            Edit::Unload(apex) => store.check_unload(apex),
            Edit::Add(record) => store.check_add(record),
            Edit::Remove(record) => store.check_remove(record),
        };
        match found {
            Ok(()) => None,
            Err(fault) => Some(BookFault::Store(fault)),
        }
    }

    /// Makes the edit at a store. Returns the keys of the sets that changed, and how many are those of record
    /// sets. The fault is that of the store's call, which leaves the store as it was.
    pub fn apply(&self, store: &mut ZoneStore) -> Result<Changed, StoreFault>
        ensures { IsEdited (zone_edit self.now) store.old store.new result }
    {
        match self {
            Edit::Load(zone) => store.load(zone),
            Edit::Unload(apex) => store.unload(apex),
            Edit::Add(record) => store.add(record),
            Edit::Remove(record) => store.remove(record),
        }
    }
}

// The event of an edit. A zone shares the records of an earlier load where they are equal. Linear in the
// records. Does not allocate.
pub(crate) fn change_event(mut edit: Edit, earlier: Option<&Event>) -> Event
    ensures { result ≡ Event.Change edit }
{
    if let Edit::Load(zone) = &mut edit {
        if let Some(Event::Change(Edit::Load(loaded))) = earlier {
            zone.share_records(loaded);
        }
    }
    Event::Change(edit)
}
