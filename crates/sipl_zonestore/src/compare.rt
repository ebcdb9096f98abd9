//! The keys of the record sets that an edit changes.
ghost use Rattle.std.specs.Prelude.{◌≡◌, [], ◌∷◌, ◌++◌, List, true, false, not, IfOk, OnOk};
ghost use Rattle.std.specs.List.{list_all};
ghost use Rattle.std.specs.Option.{option_to_list};
ghost use Rattle.sipl_names.specs.Labels.{Labels, is_within};
ghost use Rattle.sipl_records.specs.declared.record.Record.{Record};
ghost use Rattle.sipl_records.specs.Sets.{key_of, same_data};
ghost use lib.Pointwise.{pointwise};
ghost use Rattle.sipl_masterfile.specs.Zones.{has_repeats};
ghost use Rattle.sipl_zonestore.specs.Store.{records_outside, records_within};
ghost use Rattle.sipl_zonestore.specs.Changes.{changed_among, changed_sets};
ghost use Rattle.sipl_zonestore.specs.SetTable.{HasSets, is_first, changed_in, added_in};

use crate::sets::SetTable;
use sipl_names::Name;
use sipl_records::{Data, Key, Kind, Record};
use std::alloc::{AllocError, Global};

// The places in two tables of the owner that was looked up last.
#[derive(Clone, Copy)]
struct Near {
    old: usize,
    new: usize,
}

// The key of the set that the record is in, if it is in one.
pub(crate) fn own_key(alloc: Global, changed: &Record) -> Result<Vec<Key>, AllocError>
    ensures { IfOk result (λ keys. keys.items ≡ option_to_list (key_of changed.now)) }
{
    let mut keys = Vec::new(alloc);
    if let Some(key) = changed.key(alloc)? {
        keys.push(key)?;
    }
    Ok(keys)
}

// The keys of the record sets that change where the records within the apex are replaced by a text, whose
// sets are `new`.
pub(crate) fn changed_within(
    alloc: Global,
    apex: &Name,
    records: &[Record],
    text: &[Record],
    old: &SetTable,
    new: &SetTable,
) -> Result<Vec<Key>, AllocError>
    requires distinct { has_repeats records.now ≡ false }
    requires text_distinct { has_repeats text.now ≡ false }
    requires within { list_all (λ r. is_within r.owner apex.now) text.now ≡ true }
    requires sets { HasSets old.now records.now }
    requires text_sets { HasSets new.now text.now }
    ensures { IfOk result (λ keys. keys.items
        ≡ changed_sets records.now (records_outside apex.now records.now ++ text.now)) }
{
    let mut keys = Vec::new(alloc);
    push_changed(alloc, &mut keys, apex, records, old, new)?;
    push_added(alloc, &mut keys, text, old, new)?;
    Ok(keys)
}

// Appends the keys of the old records within the apex whose sets differ.
fn push_changed(
    alloc: Global,
    keys: &mut Vec<Key>,
    apex: &Name,
    records: &[Record],
    old: &SetTable,
    new: &SetTable,
) -> Result<(), AllocError>
    requires distinct { has_repeats records.now ≡ false }
    requires sets { HasSets old.now records.now }
    ensures { OnOk result ((text : List Record) → HasSets new.now text
        → keys.old.items ≡ changed_among records.now text []
        → keys.new.items ≡ changed_among records.now text (records_within apex.now records.now)) }
{
    let mut near = Near { old: 0, new: 0 };
    for record in records {
        if record.owner.is_within(apex) {
            push_if_changed(alloc, keys, record, old, new, &mut near)?;
        }
    }
    Ok(())
}

// Appends the keys of the text's records that had no set.
fn push_added(
    alloc: Global,
    keys: &mut Vec<Key>,
    text: &[Record],
    old: &SetTable,
    new: &SetTable,
) -> Result<(), AllocError>
    requires distinct { has_repeats text.now ≡ false }
    requires sets { HasSets new.now text.now }
    ensures { OnOk result ((apex : Labels) (records : List Record) → HasSets old.now records
        → list_all (λ r. is_within r.owner apex) text.now ≡ true
        → keys.old.items ≡ changed_among records text.now (records_within apex records)
        → keys.new.items ≡ changed_among records text.now
        (records_within apex records ++ text.now)) }
{
    let mut near = Near { old: 0, new: 0 };
    for record in text {
        push_if_added(alloc, keys, record, old, new, &mut near)?;
    }
    Ok(())
}

// Appends the record's key, where the record is the first of its set and the set differs.
fn push_if_changed(
    alloc: Global,
    keys: &mut Vec<Key>,
    next: &Record,
    old: &SetTable,
    new: &SetTable,
    near: &mut Near,
) -> Result<(), AllocError>
    ensures { OnOk result
        (keys.new.items ≡ keys.old.items ++ changed_in old.now new.now next.now) }
{
    let Some(kind) = next.value.kind() else {
        return Ok(());
    };
    let values = old.get_near(&next.owner, kind, &mut near.old).1;
    if is_first(&next.value, values)
        && is_other_set(values, new.get_near(&next.owner, kind, &mut near.new).1)
    {
        push_key(alloc, keys, &next.owner, kind)?;
    }
    Ok(())
}

// Appends the record's key, where the record is the first of its set and the key had no set.
fn push_if_added(
    alloc: Global,
    keys: &mut Vec<Key>,
    next: &Record,
    old: &SetTable,
    new: &SetTable,
    near: &mut Near,
) -> Result<(), AllocError>
    ensures { OnOk result
        (keys.new.items ≡ keys.old.items ++ added_in old.now new.now next.now) }
{
    let Some(kind) = next.value.kind() else {
        return Ok(());
    };
    let values = new.get_near(&next.owner, kind, &mut near.new).1;
    let old_values = old.get_near(&next.owner, kind, &mut near.old).1;
    if old_values.is_empty() && is_first(&next.value, values) {
        push_key(alloc, keys, &next.owner, kind)?;
    }
    Ok(())
}

// Appends a key.
fn push_key(alloc: Global, keys: &mut Vec<Key>, owner: &Name, kind: Kind) -> Result<(), AllocError>
    ensures { OnOk result (keys.new.items
        ≡ keys.old.items ++ record { name = owner.now; kind = kind } ∷ []) }
{
    let name = owner.dup(alloc)?;
    keys.push(Key { name, kind })?;
    Ok(())
}

// Whether the datum is the first of the set. No record is there twice, so one record of the set is.
fn is_first(value: &Data, values: &[Data]) -> bool
    ensures { result ≡ is_first value.now values.now }
{
    values.first().is_some_and(|first| *value == *first)
}

// Whether the sets differ.
fn is_other_set(a: &[Data], b: &[Data]) -> bool
    ensures { result ≡ not (pointwise same_data a.now b.now) }
{
    *a != *b
}
