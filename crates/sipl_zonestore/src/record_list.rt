//! Records in the order of addition, of which one is removed without moving those after it.
ghost use Rattle.std.specs.Prelude.{◌≡◌, ◌≤◌, ◌<◌, ◌+◌, ◌^◌, ◌++◌, ◌∷◌, [], List, length, take, drop, true, false, OnOk, vec_len, vec_capacity};
ghost use Rattle.std.specs.Borrow.{sem};
ghost use Rattle.std.specs.Io.BufRead.{Rests};
ghost use Rattle.std.specs.List.{list_any};
ghost use Rattle.sipl_records.specs.Sets.{same_record};
ghost use Rattle.sipl_masterfile.specs.Zones.{has_repeats};
ghost use Rattle.sipl_zonestore.specs.Store.{records_outside};
ghost use Rattle.sipl_zonestore.specs.Patches.{patched};
ghost use Rattle.sipl_zonestore.specs.Edits.{records_without};

use crate::owner_codes::{other_code, push_codes, write_codes};
use crate::patches::Patch;
use crate::places::{compact, find_place};
use sipl_names::Name;
use sipl_records::{Record, name_code};
use std::alloc::{AllocError, Global};
use std::marker::Model;

// Records, each beside a code. Where this is the code of its owner, the record is there; else it was
// removed, and is dropped when the others are moved together.
#[derive(Drop)]
pub(crate) struct RecordList {
    records: Vec<Record>,
    codes: Vec<u32>,
    len: usize,
}

impl Model for RecordList {
    ghost use Rattle.std.specs.Prelude.{◌-◌, min, vec_len, vec_capacity};
    ghost use Rattle.sipl_zonestore.specs.RecordList.{ListState, IsRecordList, live};

    ghost Value = { ListState };

    ghost view = { λ l. record {
      records = live l.records.items l.codes.items;
      room = min (vec_capacity l.records - vec_len l.records) (vec_capacity l.codes - vec_len l.codes);
    } };

    ghost invariant = { λ l. IsRecordList l.records.items l.codes.items l.len };
}

impl RecordList {
    ghost use Rattle.sipl_zonestore.specs.contracts.record_list.RecordList.{the_row};

    // No records. Does not allocate.
    pub(crate) fn new(alloc: Global) -> Self
        ensures { result.records ≡ [] }
    {
        RecordList {
            records: Vec::new(alloc),
            codes: Vec::new(alloc),
            len: 0,
        }
    }

    // How many records there are.
    pub(crate) fn len(&self) -> usize
        ensures { result ≡ length self.now.records }
    {
        self.len
    }

    // All records. Linear where one was removed since the last call. Does not allocate.
    pub(crate) fn as_slice(&mut self) -> &[Record]
        ensures value { result.now ≡ self.old.records }
        ensures* kept { sem 𝓛 (Rests the_row self.entry (λ new. new.records ≡ self.old.records)) }
    {
        compact(&mut self.records, &mut self.codes, self.len);
        &self.records
    }

    // The records as a `Vec`. Linear where one was removed since the last call. Does not allocate.
    pub(crate) fn into_vec(self) -> Vec<Record>
        ensures { result.items ≡ self.records }
    {
        let RecordList {
            mut records,
            mut codes,
            len,
        } = self;
        compact(&mut records, &mut codes, len);
        records
    }

    // Reserves space for more records. Moves the records together where more were removed than
    // are left, so that this takes constant time for each removal.
    pub(crate) fn reserve(&mut self, additional: usize) -> Result<(), AllocError>
        ensures records { self.new.records ≡ self.old.records }
        ensures room { OnOk result (additional ≤ self.new.room) }
        ensures limit { OnOk result (length self.new.records + additional < 2 ^ 63) }
    {
        if self.records.len() - self.len > self.len {
            compact(&mut self.records, &mut self.codes, self.len);
        }
        self.records.reserve(additional)?;
        self.codes.reserve(additional)
    }

    // Appends a record. Does not allocate.
    pub(crate) fn push_reserved(&mut self, new: Record)
        requires { 1 ≤ self.old.room }
        ensures { self.new.records ≡ self.old.records ++ new ∷ [] }
    {
        self.codes.push_reserved(name_code(&new.owner));
        self.records.push_reserved(new);
        self.len += 1;
    }

    // Removes a record: its code becomes another. Linear in the number of codes, which are compared
    // one by one. Does not allocate.
    pub(crate) fn remove(&mut self, old: &Record)
        requires distinct { has_repeats self.old.records ≡ false }
        requires present { list_any (same_record old.now) self.old.records ≡ true }
        ensures { self.new.records ≡ records_without old.now self.old.records }
    {
        let place = find_place(&self.records, &self.codes, old);
        self.codes[place] = other_code(self.codes[place]);
        self.len -= 1;
    }

    // Replaces the records within the apex by those of a text, which are last. Does not allocate.
    pub(crate) fn replace_within(&mut self, apex: &Name, text: Vec<Record>)
        requires { vec_len text ≤ self.old.room }
        ensures { self.new.records ≡ records_outside apex.now self.old.records ++ text.items }
    {
        compact(&mut self.records, &mut self.codes, self.len);
        self.records.retain(|record| !record.owner.is_within(apex));
        append_records(&mut self.records, text);
        write_codes(&mut self.codes, &self.records);
        self.len = self.records.len();
    }

    // Replaces the part of the list that a patch names by new records. Does not allocate.
    pub(crate) fn apply(&mut self, apex: &Name, patch: Patch, new: Vec<Record>)
        requires order { patch.start ≤ patch.end }
        requires limit { patch.end ≤ length self.old.records }
        requires space { vec_len new ≤ self.old.room }
        ensures { self.new.records ≡ patched apex.now self.old.records patch new.items }
    {
        if patch.is_last {
            self.replace_part(patch.start, patch.end, new);
        } else {
            self.replace_within(apex, new);
        }
    }

    // Replaces the records from a start to an end by others. Does not allocate.
    fn replace_part(&mut self, start: usize, end: usize, mut new: Vec<Record>)
        requires space { vec_len new ≤ self.old.room }
        requires order { start ≤ end }
        requires limit { end ≤ length self.old.records }
        ensures { self.new.records
            ≡ take start self.old.records ++ (new.items ++ drop end self.old.records) }
    {
        compact(&mut self.records, &mut self.codes, self.len);
        let added = new.len();
        push_codes(&mut self.codes, &new);
        self.records.append(&mut new).unwrap();
        move_last(&mut self.codes, start, end, added);
        move_last(&mut self.records, start, end, added);
        self.len = self.records.len();
    }
}

// Moves `count` items from a start on after all others.
fn rotate_from<T>(items: &mut [T], start: usize, count: usize)
    requires { start + count ≤ length items.old }
    ensures { items.new ≡ take start items.old
        ++ (drop count (drop start items.old) ++ take count (drop start items.old)) }
{
    items[start..].rotate_left(count);
}

// Puts the last `added` items in the place of those from a start to an end. Does not
// allocate.
fn move_last<T: Drop>(items: &mut Vec<T>, start: usize, end: usize, added: usize)
    requires order { start ≤ end }
    requires limit { end + added ≤ vec_len items.old }
    ensures items { (kept last : List T) → items.old.items ≡ kept ++ last → length last ≡ added
        → items.new.items ≡ take start kept ++ (last ++ drop end kept) }
    ensures capacity { vec_capacity items.new ≡ vec_capacity items.old }
{
    let removed = end - start;
    let rest = items.len() - end - added;
    rotate_from(items, end, rest);
    rotate_from(items, start, removed);
    items.truncate(items.len() - removed);
}

// Appends the records of a text, which stay where they are if there are no others. Does not allocate.
fn append_records(records: &mut Vec<Record>, mut text: Vec<Record>)
    requires { vec_len records.old + vec_len text ≤ vec_capacity records.old }
    ensures { records.new.items ≡ records.old.items ++ text.items }
{
    if records.is_empty() {
        *records = text;
        return;
    }
    records.append(&mut text).unwrap();
}
