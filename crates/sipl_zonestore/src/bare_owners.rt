//! The owners of records of types that are not read, of which nothing is kept.
ghost use Rattle.std.specs.Prelude.{◌≡◌, ◌≤◌, ◌&&◌, ◌||◌, not, length, IfOk};
ghost use Rattle.std.specs.Option.{option_to_list};
ghost use Rattle.indexmap.specs.IndexSet.{contains, index_set_len, spare};
ghost use Rattle.sipl_names.specs.Labels.{Labels, is_within, same_name};
ghost use Rattle.sipl_zonestore.specs.BareOwners.{HasBare, is_bare_at, is_name};

use indexmap::IndexSet;
use sipl_names::Name;
use sipl_records::Record;
use std::alloc::{AllocError, Global};

// A copy of the record's owner, where nothing of its datum is kept.
pub(crate) fn bare_owner(alloc: Global, new: &Record) -> Result<Option<Name>, AllocError>
    ensures { IfOk result
        (λ owner. (name : Labels) → is_name name owner ≡ is_bare_at name new.now) }
{
    if new.value.kind().is_some() {
        return Ok(None);
    }
    let owner = new.owner.dup(alloc)?;
    Ok(Some(owner))
}

// Adds the owner, if there is one. Does not allocate.
pub(crate) fn insert_owner(owners: &mut IndexSet<Name>, owner: Option<Name>)
    requires { length (option_to_list owner) ≤ spare owners.old }
    ensures { (name : Labels) → contains same_name owners.new name
        ≡ (is_name name owner || contains same_name owners.old name) }
{
    if let Some(owner) = owner {
        owners.insert(owner).unwrap();
    }
}

// The owners of those of the records of which nothing is kept.
pub(crate) fn bare_owners(alloc: Global, records: &[Record]) -> Result<IndexSet<Name>, AllocError>
    ensures { IfOk result (λ owners. HasBare (contains same_name owners) records.now) }
{
    let mut owners = IndexSet::new(alloc);
    for record in records {
        if let Some(owner) = bare_owner(alloc, record)? {
            owners.insert(owner)?;
        }
    }
    Ok(owners)
}

// Removes the record's owner, where nothing of its datum is kept. Does not allocate.
pub(crate) fn remove_owner(owners: &mut IndexSet<Name>, old: &Record)
    ensures { (name : Labels) → contains same_name owners.new name
        ≡ (not (is_bare_at name old.now) && contains same_name owners.old name) }
{
    if old.value.kind().is_none() {
        owners.swap_remove(&old.owner);
    }
}

// Replaces the owners within the apex by those of a text. Does not allocate.
pub(crate) fn replace_owners(owners: &mut IndexSet<Name>, apex: &Name, mut text: IndexSet<Name>)
    requires { index_set_len text ≤ spare owners.old }
    ensures { (name : Labels) → contains same_name owners.new name
        ≡ (not (is_within name apex.now) && contains same_name owners.old name
        || contains same_name text name) }
{
    owners.retain(|name| !name.is_within(apex));
    owners.append(&mut text).unwrap();
}

// Replaces the owners that are among these names by others. Does not allocate.
pub(crate) fn replace_among(
    owners: &mut IndexSet<Name>,
    names: &IndexSet<Name>,
    mut new: IndexSet<Name>,
)
    requires { index_set_len new ≤ spare owners.old }
    ensures { (name : Labels) → contains same_name owners.new name
        ≡ (not (contains same_name names.now name) && contains same_name owners.old name
        || contains same_name new name) }
{
    remove_owners(owners, names);
    owners.append(&mut new).unwrap();
}

// Removes the owners that are among these. Does not allocate.
fn remove_owners(owners: &mut IndexSet<Name>, names: &IndexSet<Name>)
    ensures left { (name : Labels) → contains same_name owners.new name
        ≡ (not (contains same_name names.now name) && contains same_name owners.old name) }
    ensures space { spare owners.old ≤ spare owners.new }
{
    for name in names.as_slice() {
        owners.swap_remove(name);
    }
}
