//! The numbers that sets take in an edit.
ghost use Rattle.std.specs.Prelude.{◌≡◌, ◌≤◌, ◌<◌, ◌+◌, ◌^◌, false, not, length, filter, if◌then◌else◌, IfOk, OnOk, OnErr, MatchResult};
ghost use Rattle.std.specs.List.{IsDistinct, list_any};
ghost use Rattle.std.specs.Option.{option_to_list};
ghost use Rattle.sipl_records.specs.declared.record.Key.{Key};
ghost use Rattle.sipl_records.specs.Sets.{data_of, has_key, is_existence, key_of, same_data, same_key};
ghost use Rattle.sipl_zonestore.specs.Content.{carried, pushed, renumbered, without};
ghost use Rattle.sipl_zonestore.specs.SetTable.{content_of, has_set, keys_left, numbered_content};

use crate::MAX_NUMBER;
use crate::fault::StoreFault;
use crate::sets::SetTable;
use sipl_records::{Data, Key, Record};
use std::alloc::{AllocError, Global};

// The fault where fewer numbers than this are left.
pub(crate) fn check_numbers(next: u64, count: usize) -> Result<(), StoreFault>
    requires { next ≤ 2 ^ 52 + 1 }
    ensures { MatchResult result (λ _. next + count ≤ 2 ^ 52 + 1)
        (λ fault. (2 ^ 52 + 1 < next + count) × (fault ≡ StoreFault.NumberSpent)) }
{
    if count as u64 > MAX_NUMBER + 1 - next {
        return Err(StoreFault::NumberSpent);
    }
    Ok(())
}

// The sets of the records, with the numbers that their keys have in another table.
pub(crate) fn sets_of(
    alloc: Global,
    records: &[Record],
    old: &SetTable,
) -> Result<SetTable, AllocError>
    ensures { IfOk result (λ sets. (key : Key) → content_of sets key
        ≡ carried (content_of old.now key).number (data_of records.now key)) }
{
    let mut sets = SetTable::new(alloc);
    let mut near = 0;
    for record in records {
        if let Some(kind) = record.value.kind() {
            let number = old.get_near(&record.owner, kind, &mut near).0;
            push_to_set(alloc, &mut sets, number, record)?;
        }
    }
    Ok(sets)
}

// How many of the keys have a set in the table.
pub(crate) fn count_numbered(keys: &[Key], sets: &SetTable) -> usize
    ensures { result ≡ length (filter (has_set sets.now) keys.now) }
{
    let mut near = 0;
    let mut count = 0;
    for key in keys {
        if !sets.get_near(&key.name, key.kind, &mut near).1.is_empty() {
            count += 1;
        }
    }
    count
}

// Numbers the sets of the keys in their order, from this number on.
pub(crate) fn number_sets(sets: &mut SetTable, keys: &[Key], mut next: u64)
    requires distinct { IsDistinct same_key keys.now }
    requires of_records { list_any is_existence keys.now ≡ false }
    requires last { next + length (filter (has_set sets.old) keys.now) ≤ 2 ^ 52 + 1 }
    ensures { (key : Key) → content_of sets.new key
        ≡ numbered_content sets.old keys.now next key }
{
    let mut near = 0;
    for key in keys {
        if sets.set_number(&key.name, key.kind, next, &mut near) {
            next += 1;
        }
    }
}

// How many sets take a number where this record is added. Does not allocate.
pub(crate) fn added_count(new: &Record) -> usize
    ensures { result ≡ length (option_to_list (key_of new.now)) }
{
    usize::from(new.value.kind().is_some())
}

// How many sets take a number where this record is removed. Does not allocate.
pub(crate) fn removed_count(sets: &SetTable, old: &Record) -> usize
    ensures { result ≡ length (keys_left sets.now old.now) }
{
    let Some(kind) = old.value.kind() else {
        return 0;
    };
    usize::from(has_other(sets.values(&old.owner, kind), &old.value))
}

// Appends the record's datum to its set, if it is in one, which gets this number.
pub(crate) fn push_to_set(
    alloc: Global,
    sets: &mut SetTable,
    number: u64,
    new: &Record,
) -> Result<(), AllocError>
    ensures content { OnOk result ((key : Key) → content_of sets.new key
        ≡ (if has_key key new.now then pushed number new.now.value (content_of sets.old key)
        else content_of sets.old key)) }
    ensures unchanged { OnErr result (sets.new ≡ sets.old) }
{
    let Some(kind) = new.value.kind() else {
        return Ok(());
    };
    let value = new.value.dup(alloc)?;
    sets.push(alloc, &new.owner, kind, number, value)
}

// Removes the record's datum from its set, if it is in one, which gets this number where it has other
// data. Does not allocate.
pub(crate) fn remove_from_set(sets: &mut SetTable, number: u64, old: &Record)
    ensures { (key : Key) → content_of sets.new key
        ≡ (if has_key key old.now
        then renumbered number (without old.now.value (content_of sets.old key))
        else content_of sets.old key) }
{
    let Some(kind) = old.value.kind() else {
        return;
    };
    sets.remove(&old.owner, kind, &old.value);
    sets.set_number(&old.owner, kind, number, &mut 0);
}

// Whether the set has a datum that is not this one.
fn has_other(values: &[Data], value: &Data) -> bool
    ensures { result ≡ list_any (λ other. not (same_data value.now other)) values.now }
{
    values.iter().any(|other| *value != *other)
}
