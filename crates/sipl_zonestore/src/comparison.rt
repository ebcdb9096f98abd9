//! A record compared with those of its owner, by the tables of sets and owners.
ghost use Rattle.std.specs.Prelude.{◌≡◌};
ghost use Rattle.std.specs.List.{list_any};
ghost use Rattle.sipl_records.specs.Sets.{same_data};
ghost use Rattle.sipl_zonestore.specs.SetTable.{conflicts_in, has_kind_set};

use crate::sets::SetTable;
use sipl_names::Name;
use sipl_records::{Data, Kind};

// What records are to a new one.
#[derive(Clone, Copy)]
pub(crate) struct Comparison {
    // Whether one of them is equal to the new one.
    pub(crate) is_repeated: bool,
    // Whether one of them conflicts with it.
    pub(crate) conflicts: bool,
    // How many of them are in its set.
    pub(crate) set_len: usize,
}

// Whether the datum is in the set.
pub(crate) fn has_value(values: &[Data], value: &Data) -> bool
    ensures { result ≡ list_any (same_data value.now) values.now }
{
    values.iter().any(|other| *value == *other)
}

// Whether a record of this owner and kind conflicts with one of the sets of its owner. One look-up. Does
// not allocate.
pub(crate) fn has_conflict(sets: &SetTable, owner: &Name, kind: Kind) -> bool
    ensures { result ≡ conflicts_in sets.now (record { name = owner.now; kind = kind }) }
{
    if kind == Kind::Alias {
        return sets.has_data(owner);
    }
    has_kind(sets, owner, Kind::Alias)
}

// Whether the owner has a set of this kind.
fn has_kind(sets: &SetTable, owner: &Name, kind: Kind) -> bool
    ensures { result ≡ has_kind_set sets.now owner.now kind }
{
    !sets.values(owner, kind).is_empty()
}
