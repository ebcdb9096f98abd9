ghost use Rattle.std.specs.Prelude.{◌≡◌, ◌≢◌, ◌^◌, ◌≤◌, [], Err, IfOk};
ghost use Rattle.std.specs.Arc.{arc_value};
ghost use Rattle.std.specs.Borrow.{sem};
ghost use Rattle.std.specs.Io.BufRead.{Rests};
ghost use Rattle.sipl_records.specs.Sets.{set_of};
ghost use Rattle.sipl_zonestore.specs.Store.{Store, number_in, no_zones};
ghost use Rattle.sipl_zonestore.specs.Edits.{load, unload, add, remove};
ghost use Rattle.sipl_zonestore.specs.Edited.{FindsEarly, IsEdited};
ghost use Rattle.sipl_zonestore.specs.Looks.{looked};
ghost use Rattle.sipl_zonestore.specs.Consistent.{IsConsistent};

use crate::MAX_RECORDS;
use crate::apexes::{new_apex, push_apex};
use crate::changed::Changed;
use crate::checks::{check_add, check_load, check_remove, check_unload};
use crate::fault::StoreFault;
use crate::indexed_records::IndexedRecords;
use crate::zones::Zones;
use sipl_masterfile::ZoneText;
use sipl_names::Name;
use sipl_records::{Data, Key, Record};
use std::alloc::{AllocError, Global};
use std::marker::Model;
use std::sync::Arc;

/// The loaded zones and their records, seen as the list of their apexes, the list of all records,
/// each in the order of addition, and a number for each record set (RFC 2181, 5). No zone is
/// strictly within another (RFC 1034, 4.2), no apex is a wildcard (RFC 4592, 2.1.1), each owner is
/// within a loaded zone, no record is there twice, no set has more than 32 records, and no alias has
/// other data beside it (RFC 1034, 3.6.2).
///
/// A set takes a new number whenever it changes, so a set whose number stayed has not changed; the
/// number is 0 exactly where the set is empty. The set of a name's existence, which is that of a key
/// of kind `Exists`, takes no number: where the name exists (RFC 4592, 2.2.3) it has one `Data::Bare`
/// and the number 1, else no data and the number 0.
#[derive(Drop)]
pub struct ZoneStore {
    alloc: Global,
    max_records: usize,
    apexes: Vec<Name>,
    records: IndexedRecords,
    looks: u64,
    // The zones as they are, where they were shared since the last edit.
    shared: Option<Arc<Zones>>,
}

impl Model for ZoneStore {
    ghost use Rattle.sipl_zonestore.specs.Store.{Store};
    ghost use Rattle.sipl_zonestore.specs.ZoneStore.{state_of, IsValidStore};

    ghost Value = { Store };

    ghost view = { state_of };

    ghost invariant = { IsValidStore };
}

impl ZoneStore {
    ghost use Rattle.sipl_zonestore.specs.contracts.store.ZoneStore.{the_row};

    /// A store without zones, of at most 1,048,576 records (`MAX_RECORDS`), whose first number is
    /// 1. Does not allocate.
    pub fn new(alloc: Global) -> Self
        ensures { result ≡ record {
          zones = no_zones;
          max_records = 1048576;
          numbers = [];
          next = 1;
          looks = 0;
        } }
    {
        ZoneStore::with(alloc, 1, MAX_RECORDS as u64)
    }

    /// A store without zones, of at most this many records, whose first number is `next`. Does not
    /// allocate.
    pub fn with(alloc: Global, next: u64, max_records: u64) -> Self
        requires first { 1 ≤ next }
        requires last { next ≤ 2 ^ 52 }
        requires limit { max_records ≤ 1048576 }
        ensures { result ≡ record {
          zones = no_zones;
          max_records = max_records;
          numbers = [];
          next = next;
          looks = 0;
        } }
    {
        ZoneStore {
            alloc,
            max_records: max_records as usize,
            apexes: Vec::new(alloc),
            records: IndexedRecords::new(alloc, next),
            looks: 0,
            shared: None,
        }
    }

    /// Loads a zone: the records of its text replace those within its apex, and are last, and its
    /// apex is last where it is new. Returns the keys of the record sets that changed, in the order of
    /// their first places in the old records followed by the new ones; in this order those that
    /// are not empty take the next numbers. Then come the keys of the names that exist now and did
    /// not, or did and do not now: of each owner in this order its own, its parent's, and so on up to
    /// the root's. Linear in the number of all records, with look-ups of its set and its names for each
    /// record that the zone had and for each that it has; a look-up takes constant time but for
    /// hashing. Where the text differs in the records of few owners from what is loaded, which are at most
    /// a quarter of its records, only these are looked up.
    ///
    /// The fault is the first one: an apex whose first label is `*` (S9), a loaded zone strictly above
    /// or below the apex (S1), more records than the store's maximum (S7), too few numbers (S8).
    /// Memory is reported only where none of S9, S1 and S7 is the fault.
    pub fn load(&mut self, zone: &ZoneText) -> Result<Changed, StoreFault>
        ensures { IsEdited (load zone.now) self.old self.new result }
    {
        let records = self.records.as_slice();
        check_load(self.max_records, zone, &self.apexes, records)?;
        let apex = new_apex(self.alloc, zone.apex(), &self.apexes)?;
        self.apexes.reserve(1)?;
        let changed = self.records.replace_within(zone.apex(), zone.records())?;
        push_apex(&mut self.apexes, apex);
        self.shared = None;
        Ok(changed)
    }

    /// Unloads the zone of this apex: the apex and all records within it are gone. Returns the keys
    /// of the sets that changed and of the names that no longer exist, as `load` does. The cost is
    /// that of `load`.
    ///
    /// The fault is that the apex is not loaded (S2). No set takes a number, so none is spent. Memory is
    /// reported only where the apex is loaded.
    pub fn unload(&mut self, apex: &Name) -> Result<Changed, StoreFault>
        ensures edited { IsEdited (unload apex.now) self.old self.new result }
        ensures numbers { result ≢ Err StoreFault.NumberSpent }
    {
        check_unload(apex, &self.apexes)?;
        let changed = self.records.replace_within(apex, &[])?;
        self.apexes.retain(|other| *apex != *other);
        self.shared = None;
        Ok(changed)
    }

    /// Adds a record, which is last. Returns the key of its set, if it is in one, which takes the
    /// next number, and then those of the names that exist now and did not: its owner, the parent of
    /// that, and so on. But for hashing, linear in the number of loaded zones, of the labels of its
    /// owner, and of the data of its set, which are at most 32.
    ///
    /// The fault is the first one: an owner in no loaded zone (S2), a record that is in the store
    /// already (S3), an alias beside other data (S5), a set of 32 records (S6), as many records as
    /// the store's maximum (S7), no number (S8). Memory is reported only where none of them is the
    /// fault.
    pub fn add(&mut self, new: &Record) -> Result<Changed, StoreFault>
        ensures { IsEdited (add new.now) self.old self.new result }
    {
        check_add(self.max_records, new, &self.apexes, &self.records)?;
        let changed = self.records.push(new)?;
        self.shared = None;
        Ok(changed)
    }

    /// Removes the record that is equal to this one. Returns the key of its set, if it is in one,
    /// which takes the next number unless it is now empty, and then those of the names that no longer
    /// exist: its owner, the parent of that, and so on. Linear in the number of all records, of which no
    /// more is looked at than 32 bits, in the number of loaded zones and in the labels of its owner.
    ///
    /// The fault is the first one: an owner in no loaded zone (S2), a record that is not in the
    /// store (S4), no number (S8). Memory is reported only where none of them is the fault.
    pub fn remove(&mut self, old: &Record) -> Result<Changed, StoreFault>
        ensures { IsEdited (remove old.now) self.old self.new result }
    {
        check_remove(old, &self.apexes, &self.records)?;
        let changed = self.records.remove(old)?;
        self.shared = None;
        Ok(changed)
    }

    /// The fault that `load` would find before it allocates, if there is one: each but too few numbers
    /// (S8). Changes nothing, and does not allocate. Linear in the number of loaded zones, or of records
    /// where one was removed or the text has more than fit in beside all of them.
    pub fn check_load(&mut self, zone: &ZoneText) -> Result<(), StoreFault>
        ensures found { FindsEarly (load zone.now) self.old result }
        ensures unchanged { self.new ≡ self.old }
    {
        check_load(
            self.max_records,
            zone,
            &self.apexes,
            self.records.as_slice(),
        )
    }

    /// The fault that `unload` would find, if there is one. Does not allocate.
    pub fn check_unload(&self, apex: &Name) -> Result<(), StoreFault>
        ensures { FindsEarly (unload apex.now) self.now result }
    {
        check_unload(apex, &self.apexes)
    }

    /// The fault that `add` would find, if there is one. Does not allocate. The cost is that of `add`.
    pub fn check_add(&self, new: &Record) -> Result<(), StoreFault>
        ensures { FindsEarly (add new.now) self.now result }
    {
        check_add(self.max_records, new, &self.apexes, &self.records)?;
        self.records.check_push(new)
    }

    /// The fault that `remove` would find, if there is one. Does not allocate. Constant time but for
    /// hashing, the loaded zones and the data of its set.
    pub fn check_remove(&self, old: &Record) -> Result<(), StoreFault>
        ensures { FindsEarly (remove old.now) self.now result }
    {
        check_remove(old, &self.apexes, &self.records)?;
        self.records.check_remove(old)
    }

    /// The number of the key's set and its data, in the order of addition; 0 and no data where it
    /// is empty. Of existence it is 1 and one `Data::Bare`, or 0 and no data. Counts one look.
    /// Constant time but for hashing. Does not allocate.
    pub fn set(&mut self, key: &Key) -> (u64, &[Data])
        ensures number { result.0 ≡ number_in self.old key.now }
        ensures value { result.1.now ≡ set_of self.old.zones.records key.now }
        ensures consistent { IsConsistent self.old }
        ensures* looks { sem 𝓛 (Rests the_row self.entry (λ new. new ≡ looked self.old)) }
    {
        self.looks = self.looks.saturating_add(1);
        self.records.set(key)
    }

    /// The number of the key's set, 0 where it is empty. Counts no look. Constant time but for
    /// hashing. Does not allocate.
    pub fn number(&self, key: &Key) -> u64
        ensures number { result ≡ number_in self.now key.now }
        ensures consistent { IsConsistent self.now }
    {
        self.records.number(key)
    }

    /// All records, in the order of addition. Counts one look. Linear in their number where one was
    /// removed since the last call. Does not allocate.
    pub fn records(&mut self) -> &[Record]
        ensures value { result.now ≡ self.old.zones.records }
        ensures consistent { IsConsistent self.old }
        ensures* looks { sem 𝓛 (Rests the_row self.entry (λ new. new ≡ looked self.old)) }
    {
        self.looks = self.looks.saturating_add(1);
        self.records.as_slice()
    }

    /// How many looks at the data of the store were counted; at most 2^64 - 1.
    pub fn looks(&self) -> u64
        ensures { result ≡ self.now.looks }
    {
        self.looks
    }

    /// The apexes of the loaded zones, in the order of addition.
    pub fn apexes(&self) -> &[Name]
        ensures value { result.now ≡ self.now.zones.apexes }
        ensures consistent { IsConsistent self.now }
    {
        &self.apexes
    }

    /// The zones as they are, as a value that is shared until the next edit: constant time where there
    /// was no edit since the last call, else linear in the records, which are copied. Counts no look.
    /// The first accepted edit after it drops the store's share, which is linear in the records where no
    /// one else has the value.
    ///
    /// The only error is an allocation failure (or 2^63 that share the value); then nothing changes.
    pub fn share_zones(&mut self) -> Result<Arc<Zones>, AllocError>
        ensures zones { IfOk result (λ zones. arc_value zones ≡ self.old.zones) }
        ensures unchanged { self.new ≡ self.old }
        ensures consistent { IsConsistent self.old }
    {
        if let Some(zones) = &self.shared {
            return Arc::try_clone(zones);
        }
        let zones = Zones::copied(self.alloc, &self.apexes, self.records.as_slice())?;
        let zones = Arc::new(self.alloc, zones)?;
        let shared = Arc::try_clone(&zones)?;
        self.shared = Some(zones);
        Ok(shared)
    }

    /// The zones as they are, as the only thing that is left of the store. Linear in the records where
    /// one was removed. Does not allocate.
    pub fn into_zones(self) -> Zones
        ensures { result ≡ self.zones }
    {
        Zones::of(self.apexes, self.records.into_records())
    }
}
