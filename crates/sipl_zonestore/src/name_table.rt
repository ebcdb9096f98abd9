//! The names that exist (RFC 4592, 2.2.3): of each, how many records are within it.
ghost use Rattle.std.specs.Prelude.{◌≡◌, ◌≤◌, ◌<◌, ◌+◌, ◌-◌, ◌^◌, ◌++◌, true, length, if◌then◌else◌, IfOk, IfSome, OnOk};
ghost use Rattle.std.specs.List.{count_by};
ghost use Rattle.std.specs.Map.{keys_of};
ghost use Rattle.indexmap.specs.IndexMap.{index_map_len, spare};
ghost use Rattle.indexmap.specs.IndexSet.{insert_all, insert_key};
ghost use Rattle.sipl_names.specs.Labels.{Labels, is_within, same_name};
ghost use Rattle.sipl_zonestore.specs.Changes.{existing_names, with_ancestors};
ghost use Rattle.sipl_zonestore.specs.NameTable.{HasNames, ancestors_from, count_at};
ghost use Rattle.sipl_zonestore.specs.Store.{records_within};

use crate::ancestors::Ancestors;
use indexmap::IndexMap;
use sipl_names::Name;
use sipl_records::Record;
use std::alloc::{AllocError, Global};

// The count of a name, 0 where it has none. Constant time but for hashing.
pub(crate) fn count_of(names: &IndexMap<Name, usize>, name: &Name) -> usize
    ensures { result ≡ count_at names.now.entries name.now }
{
    if names.is_empty() {
        return 0;
    }
    match names.get(name) {
        Some(count) => *count,
        None => 0,
    }
}

// Adds `count` to the count of a name. Does not allocate.
fn add_count(names: &mut IndexMap<Name, usize>, name: Name, count: usize)
    requires space { 0 < spare names.old }
    requires fits { count_at names.old.entries name + count < 2 ^ 64 }
    ensures counts { (other : Labels) → count_at names.new.entries other
        ≡ count_at names.old.entries other + (if same_name name other then count else 0) }
    ensures keys { keys_of names.new.entries ≡ insert_key same_name (keys_of names.old.entries) name }
    ensures space { spare names.old ≤ spare names.new + 1 }
{
    if let Some(own) = names.get_mut(&name) {
        *own += count;
        return;
    }
    names.insert(name, count).unwrap();
}

// Counts each of these names once more. Does not allocate.
pub(crate) fn count_in(names: &mut IndexMap<Name, usize>, more: Vec<Name>)
    requires space { length more.items ≤ spare names.old }
    requires fits { (name : Labels) → count_at names.old.entries name
        + count_by (λ other. same_name other name) more.items < 2 ^ 64 }
    ensures counts { (name : Labels) → count_at names.new.entries name
        ≡ count_at names.old.entries name + count_by (λ other. same_name other name) more.items }
    ensures keys { keys_of names.new.entries ≡ insert_all same_name (keys_of names.old.entries) more.items }
{
    for name in more {
        add_count(names, name, 1);
    }
}

// Subtracts `count` from the count of a name, and drops the name where none is left. Does not allocate.
fn take_count(names: &mut IndexMap<Name, usize>, name: &Name, count: usize)
    ensures { (other : Labels) → count_at names.new.entries other
        ≡ count_at names.old.entries other - (if same_name name.now other then count else 0) }
{
    let Some(own) = names.get_mut(name) else {
        return;
    };
    if *own > count {
        *own -= count;
        return;
    }
    names.swap_remove(name);
}

// Counts an owner and its ancestors once less. Does not allocate.
pub(crate) fn count_out(names: &mut IndexMap<Name, usize>, owner: Name)
    ensures { (name : Labels) → count_at names.new.entries name ≡ count_at names.old.entries name
        - count_by (λ other. same_name other name) (with_ancestors owner) }
{
    let mut rest = owner;
    loop {
        take_count(names, &rest, 1);
        if !rest.pop_label() {
            return;
        }
    }
}

// Counts a name that exists once more. Does not allocate.
fn raise_count(names: &mut IndexMap<Name, usize>, name: &Name)
    requires exists { 0 < count_at names.old.entries name.now }
    requires fits { count_at names.old.entries name.now + 1 < 2 ^ 64 }
    ensures { (other : Labels) → count_at names.new.entries other
        ≡ count_at names.old.entries other + (if same_name name.now other then 1 else 0) }
{
    if let Some(own) = names.get_mut(name) {
        *own += 1;
    }
}

// Counts an owner and its ancestors, which all exist, once more. Does not allocate.
fn raise_counts(names: &mut IndexMap<Name, usize>, owner: Name)
    requires exist { (name : Labels) → is_within owner name ≡ true
        → 0 < count_at names.old.entries name }
    requires fits { (name : Labels) → count_at names.old.entries name
        + count_by (λ other. same_name other name) (with_ancestors owner) < 2 ^ 64 }
    ensures { (name : Labels) → count_at names.new.entries name ≡ count_at names.old.entries name
        + count_by (λ other. same_name other name) (with_ancestors owner) }
{
    let mut rest = owner;
    loop {
        raise_count(names, &rest);
        if !rest.pop_label() {
            return;
        }
    }
}

// Counts an owner and its ancestors once more, of which the first ones don't exist. Does not allocate.
pub(crate) fn count_owner(names: &mut IndexMap<Name, usize>, owners: Ancestors)
    requires space { length owners.counted.items ≤ spare names.old }
    requires exist { (name : Labels) → IfSome owners.rest
        (λ rest. is_within rest name ≡ true → 0 < count_at names.old.entries name) }
    requires fits { (name : Labels) → count_at names.old.entries name
        + count_by (λ other. same_name other name)
        (owners.counted.items ++ ancestors_from owners.rest) < 2 ^ 64 }
    ensures { (name : Labels) → count_at names.new.entries name ≡ count_at names.old.entries name
        + count_by (λ other. same_name other name)
        (owners.counted.items ++ ancestors_from owners.rest) }
{
    let Ancestors { counted, rest } = owners;
    count_in(names, counted);
    if let Some(rest) = rest {
        raise_counts(names, rest);
    }
}

// The names that exist by those of the records that are within the apex, in the order of their first
// places.
pub(crate) fn names_within(
    alloc: Global,
    apex: &Name,
    records: &[Record],
) -> Result<IndexMap<Name, usize>, AllocError>
    ensures counts { IfOk result
        (λ names. HasNames names.entries (records_within apex.now records.now)) }
    ensures keys { IfOk result
        (λ names. keys_of names.entries ≡ existing_names (records_within apex.now records.now)) }
{
    let mut names = IndexMap::new(alloc);
    for record in records {
        if record.owner.is_within(apex) {
            insert_owner(alloc, &mut names, &record.owner)?;
        }
    }
    Ok(names)
}

// Counts an owner and its ancestors once more. The only error is an allocation failure.
fn insert_owner(
    alloc: Global,
    names: &mut IndexMap<Name, usize>,
    owner: &Name,
) -> Result<(), AllocError>
    requires fits { (name : Labels) → count_at names.old.entries name
        + count_by (λ other. same_name other name) (with_ancestors owner.now) < 2 ^ 64 }
    ensures counts { OnOk result ((name : Labels) → count_at names.new.entries name
        ≡ count_at names.old.entries name
        + count_by (λ other. same_name other name) (with_ancestors owner.now)) }
    ensures keys { OnOk result (keys_of names.new.entries
        ≡ insert_all same_name (keys_of names.old.entries) (with_ancestors owner.now)) }
{
    let mut rest = owner.dup(alloc)?;
    loop {
        insert_name(alloc, names, &rest)?;
        if !rest.pop_label() {
            return Ok(());
        }
    }
}

// Counts a name once more. The only error is an allocation failure.
fn insert_name(
    alloc: Global,
    names: &mut IndexMap<Name, usize>,
    name: &Name,
) -> Result<(), AllocError>
    requires fits { count_at names.old.entries name.now + 1 < 2 ^ 64 }
    ensures counts { OnOk result ((other : Labels) → count_at names.new.entries other
        ≡ count_at names.old.entries other + (if same_name name.now other then 1 else 0)) }
    ensures keys { OnOk result (keys_of names.new.entries
        ≡ insert_key same_name (keys_of names.old.entries) name.now) }
{
    if let Some(own) = names.get_mut(name) {
        *own += 1;
        return Ok(());
    }
    names.insert(name.dup(alloc)?, 1)?;
    Ok(())
}

// Adds the counts of other names. Does not allocate.
fn add_counts(names: &mut IndexMap<Name, usize>, more: IndexMap<Name, usize>)
    requires space { index_map_len more ≤ spare names.old }
    requires fits { (name : Labels)
        → count_at names.old.entries name + count_at more.entries name < 2 ^ 64 }
    ensures { (name : Labels) → count_at names.new.entries name
        ≡ count_at names.old.entries name + count_at more.entries name }
{
    if names.is_empty() {
        *names = more;
        return;
    }
    for (name, count) in more {
        add_count(names, name, count);
    }
}

// Takes the counts of other names away. Does not allocate.
fn take_counts(names: &mut IndexMap<Name, usize>, less: &IndexMap<Name, usize>)
    ensures { (name : Labels) → count_at names.new.entries name
        ≡ count_at names.old.entries name - count_at less.now.entries name }
{
    for (name, count) in less {
        take_count(names, name, *count);
    }
}

// Takes the counts of the old names away, and adds those of the new ones, so that a name which has
// both stays where it is. Does not allocate.
pub(crate) fn replace_names(
    names: &mut IndexMap<Name, usize>,
    old: &IndexMap<Name, usize>,
    new: IndexMap<Name, usize>,
)
    requires space { index_map_len new ≤ spare names.old }
    requires fits { (name : Labels)
        → count_at names.old.entries name + count_at new.entries name < 2 ^ 64 }
    ensures { (name : Labels) → count_at names.new.entries name
        ≡ count_at names.old.entries name + count_at new.entries name - count_at old.now.entries name }
{
    add_counts(names, new);
    take_counts(names, old);
}
