//! What the addition of a record puts into the store.
ghost use Rattle.std.specs.Prelude.{◌≡◌, ◌≢◌, ◌++◌, true, length, map, nat_eq, IfOk, IfSome};
ghost use Rattle.std.specs.List.{list_all};
ghost use Rattle.std.specs.Option.{option_to_list};
ghost use Rattle.sipl_names.specs.Labels.{Labels};
ghost use Rattle.sipl_records.specs.Sets.{key_of};
ghost use Rattle.sipl_zonestore.specs.BareOwners.{is_bare_at, is_name};
ghost use Rattle.sipl_zonestore.specs.Changes.{existence_key, with_ancestors};
ghost use Rattle.sipl_zonestore.specs.NameTable.{ancestors_from, count_at};

use crate::ancestors::{Ancestors, with_count};
use crate::bare_owners::bare_owner;
use crate::changed::Changed;
use crate::existence::changed_by;
use indexmap::IndexMap;
use sipl_names::Name;
use sipl_records::Record;
use std::alloc::{AllocError, Global};

// A copy of a record that is added, and what else has to be allocated for it.
#[derive(Drop)]
pub(crate) struct Addition {
    pub(crate) record: Record,
    // The owner, where nothing of the datum is kept.
    pub(crate) bare: Option<Name>,
    // The owner and its ancestors, of which the first ones don't exist.
    pub(crate) owners: Ancestors,
    // What the addition changes.
    pub(crate) changed: Changed,
}

impl Addition {
    // The addition of a record to those that have these names. It is boxed, so that one that fails later
    // drops one value.
    pub(crate) fn new(
        alloc: Global,
        new: &Record,
        names: &IndexMap<Name, usize>,
    ) -> Result<Box<Addition>, AllocError>
        ensures record { IfOk result (λ addition. addition.value.record ≡ new.now) }
        ensures bare { IfOk result (λ addition. (name : Labels)
            → is_name name addition.value.bare ≡ is_bare_at name new.now) }
        ensures owners { IfOk result (λ addition. addition.value.owners.counted.items
            ++ ancestors_from addition.value.owners.rest ≡ with_ancestors new.now.owner) }
        ensures counted { IfOk result
            (λ addition. list_all (λ other. nat_eq (count_at names.now.entries other) 0)
            addition.value.owners.counted.items ≡ true) }
        ensures rest { IfOk result (λ addition. IfSome addition.value.owners.rest
            (λ other. count_at names.now.entries other ≢ 0)) }
        ensures keys { IfOk result (λ addition. addition.value.changed.keys
            ≡ option_to_list (key_of new.now)
            ++ map existence_key addition.value.owners.counted.items) }
        ensures sets { IfOk result
            (λ addition. addition.value.changed.sets ≡ length (option_to_list (key_of new.now))) }
    {
        let owners = with_count(alloc, names, &new.owner, 0)?;
        let changed = changed_by(alloc, new, &owners.counted)?;
        let bare = bare_owner(alloc, new)?;
        let record = new.dup(alloc)?;
        let addition = Addition {
            record,
            bare,
            owners,
            changed,
        };
        Ok(Box::new(alloc, addition)?)
    }
}
