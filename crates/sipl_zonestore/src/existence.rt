//! The keys of the names that an edit makes exist, or no longer exist.
ghost use Rattle.std.specs.Prelude.{◌≡◌, ◌≤◌, ◌<◌, ◌+◌, ◌-◌, ◌^◌, ◌&&◌, ◌++◌, [], ◌∷◌, true, length, map, filter, nat_eq, IfOk, OnOk};
ghost use Rattle.std.specs.List.{list_all};
ghost use Rattle.std.specs.Map.{keys_of};
ghost use Rattle.std.specs.Option.{option_to_list};
ghost use Rattle.sipl_records.specs.Sets.{is_existence, key_of};
ghost use Rattle.indexmap.specs.IndexMap.{index_map_len, spare};
ghost use Rattle.sipl_names.specs.Labels.{Labels, is_within};
ghost use Rattle.sipl_zonestore.specs.Changes.{existence_key, existing_names};
ghost use Rattle.sipl_zonestore.specs.Loading.{existence_changed};
ghost use Rattle.sipl_zonestore.specs.NameTable.{HasNames, count_at};
ghost use Rattle.sipl_zonestore.specs.Store.{records_within};

use crate::changed::Changed;
use crate::compare::own_key;
use crate::name_table::{count_of, names_within, replace_names};
use indexmap::IndexMap;
use sipl_names::Name;
use sipl_records::{Key, Kind, Record, Sequence};
use std::alloc::{AllocError, Global};

// What an edit of one record changes: the key of its set, if it is in one, and the existence of these
// names.
pub(crate) fn changed_by(
    alloc: Global,
    edited: &Record,
    names: &[Name],
) -> Result<Changed, AllocError>
    ensures keys { IfOk result (λ changed. changed.keys
        ≡ option_to_list (key_of edited.now) ++ map existence_key names.now) }
    ensures sets { IfOk result (λ changed. changed.sets ≡ length (option_to_list (key_of edited.now))) }
{
    let mut keys = own_key(alloc, edited)?;
    let sets = keys.len();
    for name in names {
        push_existence(alloc, &mut keys, name)?;
    }
    let keys = Sequence::from_vec(keys);
    Ok(Changed { keys, sets })
}

// The names of the records that a load replaces, and those of its text.
#[derive(Drop)]
pub(crate) struct LoadedNames {
    // What the load changes.
    pub(crate) changed: Changed,
    // The counts of the records that are replaced.
    pub(crate) old: IndexMap<Name, usize>,
    // The counts of the text.
    pub(crate) new: IndexMap<Name, usize>,
}

// What the load of a zone changes: the sets of these keys, and the existence of the names of its old
// records that no other record is within, and of the names of its text that no record was within. The
// names are those of all records, and these may be a part of them.
pub(crate) fn changed_by_load(
    alloc: Global,
    mut keys: Vec<Key>,
    names: &IndexMap<Name, usize>,
    apex: &Name,
    records: &[Record],
    text: &[Record],
) -> Result<LoadedNames, AllocError>
    requires within { list_all (λ r. is_within r.owner apex.now) text.now ≡ true }
    ensures keys { IfOk result (λ loaded. loaded.changed.keys ≡ keys.items
        ++ existence_changed names.now.entries loaded.old.entries loaded.new.entries
        (existing_names (records_within apex.now records.now)) (existing_names text.now)) }
    ensures sets { IfOk result (λ loaded. loaded.changed.sets ≡ length keys.items) }
    ensures old { IfOk result
        (λ loaded. HasNames loaded.old.entries (records_within apex.now records.now)) }
    ensures new { IfOk result (λ loaded. HasNames loaded.new.entries text.now) }
{
    let old = names_within(alloc, apex, records)?;
    let new = names_within(alloc, apex, text)?;
    let sets = keys.len();
    push_replaced(alloc, &mut keys, names, &old, &new)?;
    let keys = Sequence::from_vec(keys);
    Ok(LoadedNames {
        changed: Changed { keys, sets },
        old,
        new,
    })
}

// Appends the keys of the names of a load's old records that no other record is within, and then those
// of the names of its text that no record was within.
fn push_replaced(
    alloc: Global,
    keys: &mut Vec<Key>,
    names: &IndexMap<Name, usize>,
    old: &IndexMap<Name, usize>,
    new: &IndexMap<Name, usize>,
) -> Result<(), AllocError>
    ensures { OnOk result (keys.new.items ≡ keys.old.items
        ++ existence_changed names.now.entries old.now.entries new.now.entries
        (keys_of old.now.entries) (keys_of new.now.entries)) }
{
    push_left(alloc, keys, names, old, new)?;
    push_counted(alloc, keys, new.keys().as_slice(), names, 0)
}

// Replaces the old counts of a load by the new ones, and returns what the load changes. Does not
// allocate.
pub(crate) fn put_names(names: &mut IndexMap<Name, usize>, loaded: LoadedNames) -> Changed
    requires space { index_map_len loaded.new ≤ spare names.old }
    requires fits { (name : Labels)
        → count_at names.old.entries name + count_at loaded.new.entries name < 2 ^ 64 }
    ensures counts { (name : Labels) → count_at names.new.entries name
        ≡ count_at names.old.entries name + count_at loaded.new.entries name
        - count_at loaded.old.entries name }
    ensures changed { result ≡ loaded.changed }
{
    let LoadedNames { changed, old, new } = loaded;
    replace_names(names, &old, new);
    drop(old);
    changed
}

// Appends the keys of those of the names that have this count.
fn push_counted(
    alloc: Global,
    keys: &mut Vec<Key>,
    among: &[Name],
    names: &IndexMap<Name, usize>,
    count: usize,
) -> Result<(), AllocError>
    ensures { OnOk result (keys.new.items ≡ keys.old.items ++ map existence_key
        (filter (λ name. nat_eq (count_at names.now.entries name) count) among.now)) }
{
    for name in among {
        if count_of(names, name) == count {
            push_existence(alloc, keys, name)?;
        }
    }
    Ok(())
}

// Appends the keys of the old names with which no other record was counted, and that no new record is
// within.
fn push_left(
    alloc: Global,
    keys: &mut Vec<Key>,
    names: &IndexMap<Name, usize>,
    old: &IndexMap<Name, usize>,
    new: &IndexMap<Name, usize>,
) -> Result<(), AllocError>
    ensures { OnOk result (keys.new.items ≡ keys.old.items ++ map existence_key
        (filter (λ name. nat_eq (count_at names.now.entries name) (count_at old.now.entries name)
        && nat_eq (count_at new.now.entries name) 0) (keys_of old.now.entries))) }
{
    for name in old.keys().as_slice() {
        if is_left(names, old, new, name) {
            push_existence(alloc, keys, name)?;
        }
    }
    Ok(())
}

// Whether all records that are within the name are among the old ones, and no new one is within it.
fn is_left(
    names: &IndexMap<Name, usize>,
    old: &IndexMap<Name, usize>,
    new: &IndexMap<Name, usize>,
    name: &Name,
) -> bool
    ensures { result ≡ (nat_eq (count_at names.now.entries name.now) (count_at old.now.entries name.now)
        && nat_eq (count_at new.now.entries name.now) 0) }
{
    count_of(names, name) == count_of(old, name) && count_of(new, name) == 0
}

// Whether the key is that of a name's existence (RFC 4592, 2.2.3).
pub(crate) fn is_existence(key: &Key) -> bool
    ensures { result ≡ is_existence key.now }
{
    matches!(key.kind, Kind::Exists)
}

// Appends the key of a name's existence.
fn push_existence(alloc: Global, keys: &mut Vec<Key>, name: &Name) -> Result<(), AllocError>
    ensures { OnOk result (keys.new.items ≡ keys.old.items ++ existence_key name.now ∷ []) }
{
    let name = name.dup(alloc)?;
    keys.push(Key {
        name,
        kind: Kind::Exists,
    })?;
    Ok(())
}
