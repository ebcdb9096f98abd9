//! Records with an index of their sets.
ghost use Rattle.std.specs.Prelude.{◌≡◌, ◌≤◌, ◌<◌, ◌^◌, ◌+◌, ◌&&◌, ◌||◌, not, [], ◌∷◌, ◌++◌, length, true, false, None, Some, Ok, if◌then◌else◌, IfOk, IfErr, OnOk, OnErr, MatchResult};
ghost use Rattle.std.specs.Borrow.{sem};
ghost use Rattle.std.specs.Io.BufRead.{Rests};
ghost use Rattle.std.specs.List.{count_by, list_all, list_any};
ghost use Rattle.indexmap.specs.IndexMap.{spare};
ghost use Rattle.indexmap.specs.IndexSet.{IsUnchanged, contains, spare as spare_owners};
ghost use Rattle.sipl_zonestore.specs.Numbers.{number_by, number_refusal};
ghost use Rattle.sipl_names.specs.Labels.{Labels, is_within, same_name};
ghost use Rattle.sipl_records.specs.declared.record.Key.{Key};
ghost use Rattle.sipl_records.specs.Sets.{conflicts, same_record, set_of, shares_set};
ghost use Rattle.sipl_masterfile.specs.Zones.{has_repeats};
ghost use Rattle.sipl_zonestore.specs.BareOwners.{is_bare_at};
ghost use Rattle.sipl_zonestore.specs.Content.{no_content};
ghost use Rattle.sipl_zonestore.specs.Differences.{DifferAt};
ghost use Rattle.sipl_zonestore.specs.Patches.{IsPatch};
ghost use Rattle.sipl_zonestore.specs.SetTable.{content_of};
ghost use Rattle.sipl_zonestore.specs.Store.{records_outside};
ghost use Rattle.sipl_zonestore.specs.Edits.{records_without};
ghost use Rattle.sipl_zonestore.specs.IndexedRecords.{IsReplaced, nothing};

use crate::addition::Addition;
use crate::ancestors::with_count;
use crate::bare_owners::{insert_owner, remove_owner, replace_among, replace_owners};
use crate::changed::Changed;
use crate::comparison::{Comparison, has_conflict, has_value};
use crate::differences::owners_of_patch;
use crate::existence::{changed_by, is_existence, put_names};
use crate::fault::StoreFault;
use crate::loaded_owners::loaded_owners;
use crate::loaded_tables::{LoadedTables, loaded_tables};
use crate::name_table::{count_of, count_out, count_owner};
use crate::patches::{Patch, patch_of};
use crate::record_list::RecordList;
use crate::set_numbers::{added_count, check_numbers, push_to_set, remove_from_set, removed_count};
use crate::sets::SetTable;
use crate::unchanged::no_change;
use indexmap::{IndexMap, IndexSet};
use sipl_names::Name;
use sipl_records::{Data, Key, Record};
use std::alloc::{AllocError, Global};
use std::marker::Model;

// Records in the order of addition, a table of their sets by their keys, each set with its number,
// a table of the owners of those of which nothing is kept, which are in no set, and a table of the
// names that exist, each with how many records are within it. A set takes the next number whenever it
// changes.
#[derive(Drop)]
pub(crate) struct IndexedRecords {
    alloc: Global,
    records: RecordList,
    sets: SetTable,
    bare: IndexSet<Name>,
    names: IndexMap<Name, usize>,
    // The set of a name's existence, which is lent.
    existence: [Data; 1],
    next: u64,
}

impl Model for IndexedRecords {
    ghost use Rattle.indexmap.specs.IndexSet.{contains};
    ghost use Rattle.sipl_names.specs.Labels.{same_name};
    ghost use Rattle.sipl_zonestore.specs.SetTable.{numbers_of};
    ghost use Rattle.sipl_zonestore.specs.IndexedRecords.{IndexedState, IsIndexed};

    ghost Value = { IndexedState };

    ghost view = { λ r. record {
      records = r.records.records;
      numbers = numbers_of r.sets;
      next = r.next;
    } };

    ghost invariant = { λ r. IsIndexed r.records.records r.sets (contains same_name r.bare)
        r.names.entries r.existence r.next };
}

impl IndexedRecords {
    ghost use Rattle.sipl_zonestore.specs.contracts.indexed_records.IndexedRecords.{the_row};

    // No records, where this is the next number.
    pub(crate) fn new(alloc: Global, next: u64) -> Self
        requires { next ≤ 2 ^ 52 + 1 }
        ensures { result ≡ record { records = []; numbers = []; next = next } }
    {
        IndexedRecords {
            alloc,
            records: RecordList::new(alloc),
            sets: SetTable::new(alloc),
            bare: IndexSet::new(alloc),
            names: IndexMap::new(alloc),
            existence: [Data::Bare],
            next,
        }
    }

    // How many records there are.
    pub(crate) fn len(&self) -> usize
        ensures { result ≡ length self.now.records }
    {
        self.records.len()
    }

    // All records. Linear where one was removed since the last call. Does not allocate.
    pub(crate) fn as_slice(&mut self) -> &[Record]
        ensures value { result.now ≡ self.old.records }
        ensures* kept { sem 𝓛 (Rests the_row self.entry (λ new. new ≡ self.old)) }
    {
        self.records.as_slice()
    }

    // All records, as the only thing that is left. Linear where one was removed since the last call. Does
    // not allocate.
    pub(crate) fn into_records(self) -> Vec<Record>
        ensures { result.items ≡ self.records }
    {
        self.records.into_vec()
    }

    // The number of the key's set, and its data.
    pub(crate) fn set(&self, key: &Key) -> (u64, &[Data])
        ensures number { result.0 ≡ number_by self.now.records self.now.numbers key.now }
        ensures values { result.1.now ≡ set_of self.now.records key.now }
    {
        if !is_existence(key) {
            return self.sets.get(&key.name, key.kind);
        }
        if count_of(&self.names, &key.name) == 0 {
            return (0, &[]);
        }
        (1, &self.existence)
    }

    // The number of the key's set.
    pub(crate) fn number(&self, key: &Key) -> u64
        ensures { result ≡ number_by self.now.records self.now.numbers key.now }
    {
        if !is_existence(key) {
            return self.sets.number(&key.name, key.kind);
        }
        u64::from(count_of(&self.names, &key.name) != 0)
    }

    // Whether the record that is sought is among these. Constant time but for hashing and the data of
    // its set. Does not allocate.
    pub(crate) fn contains(&self, sought: &Record) -> bool
        ensures { result ≡ list_any (same_record sought.now) self.now.records }
    {
        let Some(kind) = sought.value.kind() else {
            return self.bare.contains(&sought.owner);
        };
        has_value(self.sets.values(&sought.owner, kind), &sought.value)
    }

    // Compares a new record with these. Constant time but for hashing and the data of its set. Does
    // not allocate.
    pub(crate) fn compare(&self, new: &Record) -> Comparison
        ensures repeated { result.is_repeated ≡ list_any (same_record new.now) self.now.records }
        ensures conflicts { result.conflicts ≡ list_any (conflicts new.now) self.now.records }
        ensures set_len { result.set_len ≡ count_by (shares_set new.now) self.now.records }
    {
        let Some(kind) = new.value.kind() else {
            return Comparison {
                is_repeated: self.bare.contains(&new.owner),
                conflicts: false,
                set_len: 0,
            };
        };
        let values = self.sets.values(&new.owner, kind);
        Comparison {
            is_repeated: has_value(values, &new.value),
            set_len: values.len(),
            conflicts: has_conflict(&self.sets, &new.owner, kind),
        }
    }

    // Replaces the records within the apex by those of a text, which are last. Returns what they
    // changed. Does not allocate where they are loaded, and last, already.
    pub(crate) fn replace_within(
        &mut self,
        apex: &Name,
        text: &[Record],
    ) -> Result<Changed, StoreFault>
        requires distinct { has_repeats self.old.records ≡ false }
        requires text_distinct { has_repeats text.now ≡ false }
        requires within { list_all (λ r. is_within r.owner apex.now) text.now ≡ true }
        ensures { IsReplaced (records_outside apex.now self.old.records ++ text.now)
            self.old self.new result }
    {
        let records = self.records.as_slice();
        let patch = patch_of(records, apex, text);
        if patch.is_empty() {
            return Ok(no_change(self.alloc));
        }
        match owners_of_patch(self.alloc, apex, records, text, patch)? {
            Some(owners) => self.replace_owners(apex, text, patch, &owners),
            None => self.replace(apex, text),
        }
    }

    // Replaces the records within the apex by those of a text, which are last. Returns what they
    // changed.
    fn replace(&mut self, apex: &Name, text: &[Record]) -> Result<Changed, StoreFault>
        requires distinct { has_repeats self.old.records ≡ false }
        requires text_distinct { has_repeats text.now ≡ false }
        requires within { list_all (λ r. is_within r.owner apex.now) text.now ≡ true }
        ensures { IsReplaced (records_outside apex.now self.old.records ++ text.now)
            self.old self.new result }
    {
        let mut tables = loaded_tables(
            self.alloc,
            apex,
            self.records.as_slice(),
            text,
            &self.sets,
            &self.names,
            self.next,
        )?;
        reserve(
            &mut self.records,
            &mut self.bare,
            &mut self.names,
            text.len(),
            tables.bare.len(),
            tables.names.new.len(),
        )?;
        let copies = copy_records(self.alloc, text)?;
        self.sets.replace_within(apex, &mut tables.sets)?;
        let LoadedTables {
            sets,
            count,
            bare,
            names,
        } = Box::into_inner(tables);
        drop(sets);
        replace_owners(&mut self.bare, apex, bare);
        let changed = put_names(&mut self.names, names);
        self.records.replace_within(apex, copies);
        self.next += count as u64;
        Ok(changed)
    }

    // Replaces the records within the apex by those of a text, which are last, where they differ in the
    // records of these owners only. Returns what they changed. Of other owners nothing is looked up.
    fn replace_owners(
        &mut self,
        apex: &Name,
        text: &[Record],
        patch: Patch,
        owners: &IndexSet<Name>,
    ) -> Result<Changed, StoreFault>
        requires distinct { has_repeats self.old.records ≡ false }
        requires text_distinct { has_repeats text.now ≡ false }
        requires within { list_all (λ r. is_within r.owner apex.now) text.now ≡ true }
        requires patch { IsPatch apex.now self.old.records text.now patch }
        requires differ { DifferAt apex.now (contains same_name owners.now) self.old.records text.now }
        ensures { IsReplaced (records_outside apex.now self.old.records ++ text.now)
            self.old self.new result }
    {
        let mut tables = loaded_owners(
            self.alloc,
            apex,
            self.records.as_slice(),
            text,
            owners,
            &self.sets,
            &self.names,
            self.next,
        )?;
        let part = &text[patch.first..patch.last];
        reserve(
            &mut self.records,
            &mut self.bare,
            &mut self.names,
            part.len(),
            tables.bare.len(),
            tables.names.new.len(),
        )?;
        let copies = copy_records(self.alloc, part)?;
        self.sets.replace_owners(owners, &mut tables.sets)?;
        let LoadedTables {
            sets,
            count,
            bare,
            names,
        } = Box::into_inner(tables);
        drop(sets);
        replace_among(&mut self.bare, owners, bare);
        let changed = put_names(&mut self.names, names);
        self.records.apply(apex, patch, copies);
        self.next += count as u64;
        Ok(changed)
    }

    // The fault of appending a record, which is that too few numbers are left. Does not allocate.
    pub(crate) fn check_push(&self, new: &Record) -> Result<(), StoreFault>
        ensures { MatchResult result
            (λ _. number_refusal self.now.records (self.now.records ++ new.now ∷ []) self.now.next
            ≡ None)
            (λ fault. number_refusal self.now.records (self.now.records ++ new.now ∷ []) self.now.next
            ≡ Some fault) }
    {
        check_numbers(self.next, added_count(new))
    }

    // The fault of removing a record, which is that too few numbers are left. Does not allocate.
    pub(crate) fn check_remove(&self, old: &Record) -> Result<(), StoreFault>
        requires present { list_any (same_record old.now) self.now.records ≡ true }
        ensures { MatchResult result
            (λ _. number_refusal self.now.records (records_without old.now self.now.records)
            self.now.next ≡ None)
            (λ fault. number_refusal self.now.records (records_without old.now self.now.records)
            self.now.next ≡ Some fault) }
    {
        check_numbers(self.next, removed_count(&self.sets, old))
    }

    // Appends a record. Returns what it changed. Nothing is allocated where too few
    // numbers are left.
    pub(crate) fn push(&mut self, new: &Record) -> Result<Changed, StoreFault>
        requires { list_any (same_record new.now) self.old.records ≡ false }
        ensures replaced { IsReplaced (self.old.records ++ new.now ∷ []) self.old self.new result }
        ensures memory { IfErr result (λ fault. fault ≡ StoreFault.Memory
            → number_refusal self.old.records (self.old.records ++ new.now ∷ []) self.old.next
            ≡ None) }
    {
        let count = added_count(new);
        check_numbers(self.next, count)?;
        let addition = Addition::new(self.alloc, new, &self.names)?;
        reserve(
            &mut self.records,
            &mut self.bare,
            &mut self.names,
            1,
            usize::from(addition.bare.is_some()),
            addition.owners.counted.len(),
        )?;
        push_to_set(self.alloc, &mut self.sets, self.next, new)?;
        let Addition {
            record,
            bare,
            owners,
            changed,
        } = Box::into_inner(addition);
        insert_owner(&mut self.bare, bare);
        count_owner(&mut self.names, owners);
        self.records.push_reserved(record);
        self.next += count as u64;
        Ok(changed)
    }

    // Removes a record. Returns what it changed. Nothing is allocated where too few
    // numbers are left.
    pub(crate) fn remove(&mut self, old: &Record) -> Result<Changed, StoreFault>
        requires distinct { has_repeats self.old.records ≡ false }
        requires present { list_any (same_record old.now) self.old.records ≡ true }
        ensures replaced { IsReplaced (records_without old.now self.old.records) self.old self.new result }
        ensures memory { IfErr result (λ fault. fault ≡ StoreFault.Memory
            → number_refusal self.old.records (records_without old.now self.old.records)
            self.old.next ≡ None) }
    {
        let count = removed_count(&self.sets, old);
        check_numbers(self.next, count)?;
        let owner = old.owner.dup(self.alloc)?;
        let owners = with_count(self.alloc, &self.names, &owner, 1)?;
        let changed = changed_by(self.alloc, old, &owners.counted)?;
        remove_from_set(&mut self.sets, self.next, old);
        remove_owner(&mut self.bare, old);
        count_out(&mut self.names, owner);
        self.records.remove(old);
        self.next += count as u64;
        Ok(changed)
    }
}

// Reserves space for more records, owners of which nothing is kept, and names.
fn reserve(
    records: &mut RecordList,
    bare: &mut IndexSet<Name>,
    names: &mut IndexMap<Name, usize>,
    record_count: usize,
    bare_count: usize,
    name_count: usize,
) -> Result<(), AllocError>
    ensures records { records.new.records ≡ records.old.records }
    ensures bare { IsUnchanged bare.old bare.new }
    ensures names { names.new.entries ≡ names.old.entries }
    ensures room { OnOk result (record_count ≤ records.new.room) }
    ensures limit { OnOk result (length records.new.records + record_count < 2 ^ 63) }
    ensures bare_space { OnOk result (bare_count ≤ spare_owners bare.new) }
    ensures space { OnOk result (name_count ≤ spare names.new) }
{
    records.reserve(record_count)?;
    bare.reserve(bare_count)?;
    names.reserve(name_count)?;
    Ok(())
}

// Copies of the records.
pub(crate) fn copy_records(alloc: Global, records: &[Record]) -> Result<Vec<Record>, AllocError>
    ensures { IfOk result (λ copies. copies.items ≡ records.now) }
{
    let mut copies = Vec::with_capacity(alloc, records.len())?;
    for record in records {
        copies.push(record.dup(alloc)?)?;
    }
    Ok(copies)
}
