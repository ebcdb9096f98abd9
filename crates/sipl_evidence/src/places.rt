ghost use Rattle.std.specs.Prelude.{◌≡◌, [], ◌∷◌, ◌++◌, None, Some, if◌then◌else◌, IfOk, OnOk, OnErr};
ghost use Rattle.indexmap.specs.IndexMap.{get, IsUnchanged};
ghost use Rattle.sipl_names.specs.Labels.{Labels, same_name};
ghost use Rattle.sipl_records.specs.declared.kind.Kind.{Kind};
ghost use Rattle.sipl_records.specs.declared.record.Key.{Key};
ghost use Rattle.sipl_records.specs.Sets.{same_key, same_kind};
ghost use Rattle.sipl_evidence.specs.Items.{HasDistinctKeys, Item};
ghost use Rattle.sipl_evidence.specs.Looks.{key};
ghost use Rattle.sipl_evidence.specs.Places.{IsIndexed, place_at, place_in, place_of, table_of};

use crate::item::Item;
use indexmap::IndexMap;
use sipl_names::Name;
use sipl_records::{Key, Kind};
use std::alloc::{AllocError, Global};

// The places of the items of one name, by the index of their kind.
#[derive(Clone, Copy)]
pub(crate) struct Places {
    by_kind: [Option<usize>; Kind::COUNT],
}

impl Places {
    // No place of any kind.
    pub(crate) fn empty() -> Self
        ensures { (kind : Kind) → place_at result kind ≡ None }
    {
        Places {
            by_kind: [None; Kind::COUNT],
        }
    }

    // The place of the item of this kind.
    pub(crate) fn get(&self, kind: Kind) -> Option<usize>
        ensures { result ≡ place_at self.now kind }
    {
        self.by_kind[kind.index()]
    }

    // Sets the place of the item of this kind, or that there is none.
    pub(crate) fn set(&mut self, kind: Kind, place: Option<usize>)
        ensures { (other : Kind) → place_at self.new other
            ≡ (if same_kind kind other then place else place_at self.old other) }
    {
        self.by_kind[kind.index()] = place;
    }
}

// The place of the item of a name and a kind, by a search from the first item on.
pub(crate) fn place_among_few(items: &[Item], name: &Name, kind: Kind) -> Option<usize>
    ensures { result ≡ place_of items.now (key name.now kind) }
{
    items
        .iter()
        .position(|item| item.key().kind == kind && item.key().name == *name)
}

// A table by names with the places of these items, and of the next one, which has this key.
pub(crate) fn table_with(
    alloc: Global,
    items: &[Item],
    key: &Key,
) -> Result<IndexMap<Name, Places>, AllocError>
    requires distinct { HasDistinctKeys items.now }
    requires new { place_of items.now key.now ≡ None }
    ensures { IfOk result (λ table. (item : Item) → item.key ≡ key.now
        → IsIndexed (items.now ++ item ∷ []) (get same_name table)) }
{
    let mut table = IndexMap::new(alloc);
    for (place, item) in items.iter().enumerate() {
        insert_place(&mut table, alloc, item.key(), place)?;
    }
    let next = items.len();
    insert_place(&mut table, alloc, key, next)?;
    Ok(table)
}

// Sets the place of a key's item in a table by names.
pub(crate) fn insert_place(
    table: &mut IndexMap<Name, Places>,
    alloc: Global,
    key: &Key,
    place: usize,
) -> Result<(), AllocError>
    ensures ok { OnOk result ((other : Key) → place_in (get same_name table.new) other
        ≡ (if same_key key.now other then Some place
        else place_in (get same_name table.old) other)) }
    ensures err { OnErr result (IsUnchanged table.old table.new) }
{
    let mut places = table.get(&key.name).copied().unwrap_or(Places::empty());
    places.set(key.kind, Some(place));
    replace_places(table, alloc, &key.name, places)
}

// Removes the place of a key's item from a table by names, if there is one.
pub(crate) fn remove_place(table: &mut Option<Box<IndexMap<Name, Places>>>, key: &Key)
    ensures { (other : Key) → place_in (table_of table.new) other
        ≡ (if same_key key.now other then None else place_in (table_of table.old) other) }
{
    if let Some(table) = table {
        remove_from(table, key);
    }
}

// Removes the place of a key's item from a table by names.
fn remove_from(table: &mut IndexMap<Name, Places>, key: &Key)
    ensures { (other : Key) → place_in (get same_name table.new) other
        ≡ (if same_key key.now other then None else place_in (get same_name table.old) other) }
{
    if let Some(places) = table.get_mut(&key.name) {
        places.set(key.kind, None);
    }
}

// Sets the places of a name.
fn replace_places(
    table: &mut IndexMap<Name, Places>,
    alloc: Global,
    owner: &Name,
    places: Places,
) -> Result<(), AllocError>
    ensures ok { OnOk result ((name : Labels) → get same_name table.new name
        ≡ (if same_name owner.now name then Some places else get same_name table.old name)) }
    ensures err { OnErr result (IsUnchanged table.old table.new) }
{
    match table.get_mut(owner) {
        Some(last) => *last = places,
        None => {
            table.insert(owner.dup(alloc)?, places)?;
        }
    }
    Ok(())
}
