//! The apexes of the loaded zones.
ghost use Rattle.std.specs.Prelude.{◌≡◌, ◌+◌, ◌≤◌, ◌++◌, IfOk, option_to_list, vec_len, vec_capacity};
ghost use Rattle.std.specs.List.{list_any};
ghost use Rattle.sipl_names.specs.Labels.{same_name};
ghost use Rattle.sipl_zonestore.specs.Store.{apexes_after_load};

use sipl_names::Name;
use std::alloc::{AllocError, Global};

// A copy of the apex, where it is not among the apexes.
pub(crate) fn new_apex(
    alloc: Global,
    apex: &Name,
    apexes: &[Name],
) -> Result<Option<Name>, AllocError>
    ensures { IfOk result
        (λ new. apexes.now ++ option_to_list new ≡ apexes_after_load apex.now apexes.now) }
{
    if has_apex(apexes, apex) {
        return Ok(None);
    }
    let copy = apex.dup(alloc)?;
    Ok(Some(copy))
}

// Appends the apex, if there is one. Does not allocate.
pub(crate) fn push_apex(apexes: &mut Vec<Name>, apex: Option<Name>)
    requires { vec_len apexes.old + 1 ≤ vec_capacity apexes.old }
    ensures { apexes.new.items ≡ apexes.old.items ++ option_to_list apex }
{
    if let Some(apex) = apex {
        apexes.push_reserved(apex);
    }
}

// Whether the apex is among these.
pub(crate) fn has_apex(apexes: &[Name], apex: &Name) -> bool
    ensures { result ≡ list_any (same_name apex.now) apexes.now }
{
    apexes.iter().any(|other| *apex == *other)
}
