//! What a load makes of the tables that changes the records of some owners only.
ghost use Rattle.std.specs.Prelude.{◌≡◌, ◌≢◌, ◌≤◌, ◌<◌, ◌+◌, ◌^◌, ◌++◌, length, false, true, Some, IfOk, IfErr};
ghost use Rattle.std.specs.List.{list_all};
ghost use Rattle.indexmap.specs.IndexSet.{contains};
ghost use Rattle.sipl_names.specs.Labels.{Labels, is_within, same_name};
ghost use Rattle.sipl_records.specs.declared.record.Key.{Key};
ghost use Rattle.sipl_masterfile.specs.Zones.{has_repeats};
ghost use Rattle.sipl_zonestore.specs.BareOwners.{HasBare};
ghost use Rattle.sipl_zonestore.specs.Changes.{changed_count, changed_keys};
ghost use Rattle.sipl_zonestore.specs.Content.{no_content};
ghost use Rattle.sipl_zonestore.specs.Differences.{DifferAt, records_of};
ghost use Rattle.sipl_zonestore.specs.Loading.{content_loaded};
ghost use Rattle.sipl_zonestore.specs.NameTable.{HasNames, count_at};
ghost use Rattle.sipl_zonestore.specs.Numbers.{number_refusal, numbered_keys};
ghost use Rattle.sipl_zonestore.specs.SetTable.{HasSets, content_of};
ghost use Rattle.sipl_zonestore.specs.Store.{records_outside};

use crate::differences::records_of;
use crate::fault::StoreFault;
use crate::loaded_tables::{LoadedTables, loaded_tables};
use crate::set_numbers::sets_of;
use crate::sets::SetTable;
use indexmap::{IndexMap, IndexSet};
use sipl_names::Name;
use sipl_records::Record;
use std::alloc::Global;

// What a text makes of the tables, where it replaces the records within the apex, and differs from them in
// the records of these owners only. Of other owners nothing is looked up.
pub(crate) fn loaded_owners(
    alloc: Global,
    apex: &Name,
    records: &[Record],
    text: &[Record],
    owners: &IndexSet<Name>,
    old: &SetTable,
    names: &IndexMap<Name, usize>,
    next: u64,
) -> Result<Box<LoadedTables>, StoreFault>
    requires distinct { has_repeats records.now ≡ false }
    requires text_distinct { has_repeats text.now ≡ false }
    requires within { list_all (λ r. is_within r.owner apex.now) text.now ≡ true }
    requires differ { DifferAt apex.now (contains same_name owners.now) records.now text.now }
    requires sets { HasSets old.now records.now }
    requires names { HasNames names.now.entries records.now }
    requires last { next ≤ 2 ^ 52 + 1 }
    ensures sets { IfOk result (λ loaded. (key : Key) → contains same_name owners.now key.name ≡ true
        → content_of loaded.value.sets key ≡ content_loaded old.now records.now
        (records_outside apex.now records.now ++ text.now)
        (records_outside apex.now records.now ++ text.now) next key) }
    ensures none { IfOk result (λ loaded. (key : Key) → contains same_name owners.now key.name ≡ false
        → content_of loaded.value.sets key ≡ no_content) }
    ensures count { IfOk result (λ loaded. loaded.value.count
        ≡ length (numbered_keys records.now (records_outside apex.now records.now ++ text.now))) }
    ensures last { IfOk result (λ loaded. next + loaded.value.count ≤ 2 ^ 52 + 1) }
    ensures keys { IfOk result (λ loaded. loaded.value.names.changed.keys
        ≡ changed_keys records.now (records_outside apex.now records.now ++ text.now)) }
    ensures counted { IfOk result (λ loaded. loaded.value.names.changed.sets
        ≡ changed_count records.now (records_outside apex.now records.now ++ text.now)) }
    ensures old { IfOk result (λ loaded. HasNames loaded.value.names.old.entries
        (records_of (contains same_name owners.now) records.now)) }
    ensures new { IfOk result (λ loaded. HasNames loaded.value.names.new.entries
        (records_of (contains same_name owners.now) text.now)) }
    ensures few { IfOk result
        (λ loaded. (name : Labels) → count_at loaded.value.names.new.entries name < 2 ^ 63) }
    ensures bare { IfOk result (λ loaded. HasBare (contains same_name loaded.value.bare)
        (records_of (contains same_name owners.now) text.now)) }
    ensures refused { IfErr result (λ fault. fault ≢ StoreFault.Memory → number_refusal records.now
        (records_outside apex.now records.now ++ text.now) next ≡ Some fault) }
{
    let gone = records_of(alloc, records, owners)?;
    let come = records_of(alloc, text, owners)?;
    let gone_sets = sets_of(alloc, &gone, old)?;
    let tables = loaded_tables(alloc, apex, &gone, &come, &gone_sets, names, next)?;
    Ok(tables)
}
