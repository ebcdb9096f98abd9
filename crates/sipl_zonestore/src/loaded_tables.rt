//! What a load makes of the tables.
ghost use Rattle.std.specs.Prelude.{◌≡◌, ◌≢◌, ◌≤◌, ◌+◌, ◌^◌, ◌++◌, length, false, true, Some, IfOk, IfErr};
ghost use Rattle.std.specs.List.{list_all};
ghost use Rattle.indexmap.specs.IndexSet.{contains};
ghost use Rattle.sipl_names.specs.Labels.{is_within, same_name};
ghost use Rattle.sipl_records.specs.declared.record.Key.{Key};
ghost use Rattle.sipl_masterfile.specs.Zones.{has_repeats};
ghost use Rattle.sipl_zonestore.specs.BareOwners.{HasBare};
ghost use Rattle.sipl_zonestore.specs.Changes.{changed_count, changed_sets, existing_names};
ghost use Rattle.sipl_zonestore.specs.Loading.{content_loaded, existence_changed};
ghost use Rattle.sipl_zonestore.specs.NameTable.{HasNames};
ghost use Rattle.sipl_zonestore.specs.Numbers.{number_refusal, numbered_keys};
ghost use Rattle.sipl_zonestore.specs.SetTable.{HasSets, content_of};
ghost use Rattle.sipl_zonestore.specs.Store.{records_outside, records_within};

use crate::bare_owners::bare_owners;
use crate::compare::changed_within;
use crate::existence::{LoadedNames, changed_by_load};
use crate::fault::StoreFault;
use crate::set_numbers::{check_numbers, count_numbered, number_sets, sets_of};
use crate::sets::SetTable;
use indexmap::{IndexMap, IndexSet};
use sipl_names::Name;
use sipl_records::{Key, Record};
use std::alloc::Global;

// The sets of a text, how many of them take a number, the owners of those of its records of which nothing
// is kept, and the names.
#[derive(Drop)]
pub(crate) struct LoadedTables {
    pub(crate) sets: SetTable,
    pub(crate) count: usize,
    pub(crate) bare: IndexSet<Name>,
    pub(crate) names: LoadedNames,
}

// What a text makes of the tables, where it replaces the records within the apex. The old sets are
// those of the records. It is boxed, so that a load that fails later drops one value.
pub(crate) fn loaded_tables(
    alloc: Global,
    apex: &Name,
    records: &[Record],
    text: &[Record],
    old: &SetTable,
    names: &IndexMap<Name, usize>,
    next: u64,
) -> Result<Box<LoadedTables>, StoreFault>
    requires distinct { has_repeats records.now ≡ false }
    requires text_distinct { has_repeats text.now ≡ false }
    requires within { list_all (λ r. is_within r.owner apex.now) text.now ≡ true }
    requires sets { HasSets old.now records.now }
    requires last { next ≤ 2 ^ 52 + 1 }
    ensures sets { IfOk result (λ loaded. (key : Key) → content_of loaded.value.sets key
        ≡ content_loaded old.now records.now (records_outside apex.now records.now ++ text.now)
        text.now next key) }
    ensures count { IfOk result (λ loaded. loaded.value.count
        ≡ length (numbered_keys records.now (records_outside apex.now records.now ++ text.now))) }
    ensures last { IfOk result (λ loaded. next + loaded.value.count ≤ 2 ^ 52 + 1) }
    ensures keys { IfOk result (λ loaded. loaded.value.names.changed.keys
        ≡ changed_sets records.now (records_outside apex.now records.now ++ text.now)
        ++ existence_changed names.now.entries loaded.value.names.old.entries loaded.value.names.new.entries
        (existing_names (records_within apex.now records.now)) (existing_names text.now)) }
    ensures counted { IfOk result (λ loaded. loaded.value.names.changed.sets
        ≡ changed_count records.now (records_outside apex.now records.now ++ text.now)) }
    ensures old { IfOk result
        (λ loaded. HasNames loaded.value.names.old.entries (records_within apex.now records.now)) }
    ensures new { IfOk result (λ loaded. HasNames loaded.value.names.new.entries text.now) }
    ensures bare { IfOk result (λ loaded. HasBare (contains same_name loaded.value.bare) text.now) }
    ensures refused { IfErr result (λ fault. fault ≢ StoreFault.Memory → number_refusal records.now
        (records_outside apex.now records.now ++ text.now) next ≡ Some fault) }
{
    let bare = bare_owners(alloc, text)?;
    let LoadedSets { sets, keys, count } = loaded_sets(alloc, apex, records, text, old, next)?;
    let names = changed_by_load(alloc, keys, names, apex, records, text)?;
    let tables = LoadedTables {
        sets,
        count,
        bare,
        names,
    };
    Ok(Box::new(alloc, tables)?)
}

// The sets of a text with their numbers, the keys of those that differ, and how many take a number.
struct LoadedSets {
    sets: SetTable,
    keys: Vec<Key>,
    count: usize,
}

// The sets of a text that replaces the records within the apex, with the numbers that they take from the
// next one on. The old sets are those of the records.
fn loaded_sets(
    alloc: Global,
    apex: &Name,
    records: &[Record],
    text: &[Record],
    old: &SetTable,
    next: u64,
) -> Result<LoadedSets, StoreFault>
    requires distinct { has_repeats records.now ≡ false }
    requires text_distinct { has_repeats text.now ≡ false }
    requires within { list_all (λ r. is_within r.owner apex.now) text.now ≡ true }
    requires sets { HasSets old.now records.now }
    requires last { next ≤ 2 ^ 52 + 1 }
    ensures sets { IfOk result (λ loaded. (key : Key) → content_of loaded.sets key
        ≡ content_loaded old.now records.now (records_outside apex.now records.now ++ text.now)
        text.now next key) }
    ensures count { IfOk result (λ loaded. loaded.count
        ≡ length (numbered_keys records.now (records_outside apex.now records.now ++ text.now))) }
    ensures last { IfOk result (λ loaded. next + loaded.count ≤ 2 ^ 52 + 1) }
    ensures keys { IfOk result (λ loaded. loaded.keys.items
        ≡ changed_sets records.now (records_outside apex.now records.now ++ text.now)) }
    ensures refused { IfErr result (λ fault. fault ≢ StoreFault.Memory → number_refusal records.now
        (records_outside apex.now records.now ++ text.now) next ≡ Some fault) }
{
    let mut sets = sets_of(alloc, text, old)?;
    let keys = changed_within(alloc, apex, records, text, old, &sets)?;
    let count = count_numbered(&keys, &sets);
    check_numbers(next, count)?;
    number_sets(&mut sets, &keys, next);
    Ok(LoadedSets { sets, keys, count })
}
