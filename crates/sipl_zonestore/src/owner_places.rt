//! The places of owners in a table of record sets.
ghost use Rattle.std.specs.Prelude.{◌≡◌, None, IfSome, IfNone};
ghost use Rattle.std.specs.Bool.{OnTrue};
ghost use Rattle.std.specs.Map.{lookup};
ghost use Rattle.sipl_names.specs.Labels.{same_name};
ghost use Rattle.sipl_zonestore.specs.SetTable.{IsPlace};

use crate::owner_sets::OwnerSets;
use indexmap::IndexMap;
use sipl_names::Name;

// The place of an owner. It is hashed only where there are owners, and it is neither at the place that is
// given nor at the next one. Does not allocate.
pub(crate) fn place_near(
    owners: &IndexMap<Name, OwnerSets>,
    owner: &Name,
    near: usize,
) -> Option<usize>
    ensures found { IfSome result (IsPlace owners.now.entries owner.now) }
    ensures none { IfNone result (lookup (same_name owner.now) owners.now.entries ≡ None) }
{
    if owners.is_empty() {
        return None;
    }
    if is_at(owners, owner, near) {
        return Some(near);
    }
    let next = near.saturating_add(1);
    if is_at(owners, owner, next) {
        return Some(next);
    }
    owners.get_index_of(owner)
}

// Whether the owner has this place.
fn is_at(owners: &IndexMap<Name, OwnerSets>, owner: &Name, place: usize) -> bool
    ensures { OnTrue result (IsPlace owners.now.entries owner.now place) }
{
    match owners.get_index(place) {
        Some((name, _)) => *name == *owner,
        None => false,
    }
}
