//! A name and those above it.
ghost use Rattle.std.specs.Prelude.{◌≡◌, ◌≢◌, ◌++◌, true, nat_eq, IfOk, IfSome};
ghost use Rattle.std.specs.List.{list_all};
ghost use Rattle.sipl_zonestore.specs.Changes.{with_ancestors};
ghost use Rattle.sipl_zonestore.specs.NameTable.{ancestors_from, count_at};

use crate::name_table::count_of;
use indexmap::IndexMap;
use sipl_names::Name;
use std::alloc::{AllocError, Global};

// A name and its ancestors up to the root (RFC 1034, 3.1), in two parts.
#[derive(Drop)]
pub(crate) struct Ancestors {
    // The first ones, which have one count.
    pub(crate) counted: Vec<Name>,
    // The first that has another, and its ancestors are the rest.
    pub(crate) rest: Option<Name>,
}

// The name and its ancestors, of which the first ones have this count.
pub(crate) fn with_count(
    alloc: Global,
    names: &IndexMap<Name, usize>,
    name: &Name,
    count: usize,
) -> Result<Ancestors, AllocError>
    ensures whole { IfOk result
        (λ owners. owners.counted.items ++ ancestors_from owners.rest ≡ with_ancestors name.now) }
    ensures counted { IfOk result
        (λ owners. list_all (λ other. nat_eq (count_at names.now.entries other) count)
        owners.counted.items ≡ true) }
    ensures rest { IfOk result
        (λ owners. IfSome owners.rest (λ other. count_at names.now.entries other ≢ count)) }
{
    let mut counted = Vec::new(alloc);
    let mut rest = name.dup(alloc)?;
    while count_of(names, &rest) == count {
        counted.push(rest.dup(alloc)?)?;
        if !rest.pop_label() {
            return Ok(Ancestors {
                counted,
                rest: None,
            });
        }
    }
    Ok(Ancestors {
        counted,
        rest: Some(rest),
    })
}

// The name, its parent, the parent of that, and so on up to the root (RFC 1034, 3.1).
pub(crate) fn with_ancestors(alloc: Global, name: &Name) -> Result<Vec<Name>, AllocError>
    ensures { IfOk result (λ names. names.items ≡ with_ancestors name.now) }
{
    let mut names = Vec::new(alloc);
    let mut rest = name.dup(alloc)?;
    while !rest.is_root() {
        names.push(rest.dup(alloc)?)?;
        rest.pop_label();
    }
    names.push(rest)?;
    Ok(names)
}
