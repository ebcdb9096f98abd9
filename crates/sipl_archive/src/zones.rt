//! Zones as lines, each with the records that are within its apex.
ghost use Rattle.std.specs.Prelude.{◌≡◌, [], ◌∷◌, ◌++◌, length, map, OnOk};
ghost use Rattle.std.specs.List.{IsDistinct};
ghost use Rattle.sipl_names.specs.Labels.{is_within, same_name};
ghost use Rattle.sipl_zonestore.specs.Store.{records_within};
ghost use Rattle.sipl_archive.specs.Sorting.{listed, paired, with_record, zones_of};
ghost use Rattle.sipl_lines.specs.CommandText.{zone_lines};
ghost use Rattle.sipl_archive.specs.Text.{zones_lines};

use indexmap::IndexSet;
use sipl_lines::{write_record_line, write_zone_line};
use sipl_names::Name;
use sipl_records::Record;
use std::alloc::{AllocError, Global};

/// Appends the lines that load zones, each with the records that are within its apex.
pub(crate) fn write_zones(
    alloc: Global,
    out: &mut Vec<u8>,
    apexes: &[Name],
    records: &[Record],
) -> Result<(), AllocError>
    ensures { OnOk result (out.new.items
        ≡ out.old.items ++ zones_lines (zones_of (listed apexes.now) records.now)) }
{
    let mut set = IndexSet::new(alloc);
    list_apexes(alloc, &mut set, apexes)?;
    write_listed(alloc, out, &set, records)
}

// Adds apexes, each once.
fn list_apexes(alloc: Global, set: &mut IndexSet<Name>, apexes: &[Name]) -> Result<(), AllocError>
    requires none { set.old.keys ≡ [] }
    ensures { OnOk result (set.new.keys ≡ listed apexes.now) }
{
    for apex in apexes {
        set.insert(apex.dup(alloc)?)?;
    }
    Ok(())
}

// Appends the lines that load the zones of these apexes.
fn write_listed(
    alloc: Global,
    out: &mut Vec<u8>,
    apexes: &IndexSet<Name>,
    records: &[Record],
) -> Result<(), AllocError>
    ensures { OnOk result (out.new.items
        ≡ out.old.items ++ zones_lines (zones_of apexes.now.keys records.now)) }
{
    let mut lists = Vec::new(alloc);
    push_lists(alloc, &mut lists, apexes.as_slice())?;
    sort_records(alloc, &mut lists, apexes, records)?;
    write_sorted(alloc, out, apexes.as_slice(), &lists)
}

// Appends an empty list for each apex.
fn push_lists(
    alloc: Global,
    lists: &mut Vec<Vec<&Record>>,
    apexes: &[Name],
) -> Result<(), AllocError>
    requires none { lists.old.items ≡ [] }
    ensures { OnOk result (map (λ list. map (λ r. r.now) list.items) lists.new.items
        ≡ map (λ apex. records_within apex []) apexes.now) }
{
    while lists.len() < apexes.len() {
        lists.push(Vec::new(alloc))?;
    }
    Ok(())
}

// Appends each record to the lists of the apexes that it is within.
fn sort_records<'a>(
    alloc: Global,
    lists: &mut Vec<Vec<&'a Record>>,
    apexes: &IndexSet<Name>,
    records: &'a [Record],
) -> Result<(), AllocError>
    requires empty { map (λ list. map (λ r. r.now) list.items) lists.old.items
        ≡ map (λ apex. records_within apex []) apexes.now.keys }
    requires unique { IsDistinct same_name apexes.now.keys }
    ensures { OnOk result (map (λ list. map (λ r. r.now) list.items) lists.new.items
        ≡ map (λ apex. records_within apex records.now) apexes.now.keys) }
{
    for record in records {
        sort_record(alloc, lists, apexes, record)?;
    }
    Ok(())
}

// Appends a record to the lists of the apexes that it is within.
fn sort_record<'a>(
    alloc: Global,
    lists: &mut Vec<Vec<&'a Record>>,
    apexes: &IndexSet<Name>,
    added: &'a Record,
) -> Result<(), AllocError>
    requires len { length lists.old.items ≡ length apexes.now.keys }
    requires unique { IsDistinct same_name apexes.now.keys }
    ensures { OnOk result (map (λ list. map (λ r. r.now) list.items) lists.new.items
        ≡ with_record apexes.now.keys (is_within added.now.owner) added.now
        (map (λ list. map (λ r. r.now) list.items) lists.old.items)) }
{
    let mut name = added.owner.dup(alloc)?;
    push_to(lists, apexes, &name, added)?;
    while name.pop_label() {
        push_to(lists, apexes, &name, added)?;
    }
    Ok(())
}

// Appends a record to the list of the apex that is a name, if there is one.
fn push_to<'a>(
    lists: &mut Vec<Vec<&'a Record>>,
    apexes: &IndexSet<Name>,
    name: &Name,
    added: &'a Record,
) -> Result<(), AllocError>
    requires len { length lists.old.items ≡ length apexes.now.keys }
    requires unique { IsDistinct same_name apexes.now.keys }
    ensures sorted { OnOk result (map (λ list. map (λ r. r.now) list.items) lists.new.items
        ≡ with_record apexes.now.keys (same_name name.now) added.now
        (map (λ list. map (λ r. r.now) list.items) lists.old.items)) }
    ensures len { length lists.new.items ≡ length lists.old.items }
{
    if let Some(place) = apexes.get_index_of(name) {
        lists[place].push(added)?;
    }
    Ok(())
}

// Appends the lines that load zones, each with its list.
fn write_sorted(
    alloc: Global,
    out: &mut Vec<u8>,
    apexes: &[Name],
    lists: &[Vec<&Record>],
) -> Result<(), AllocError>
    requires { length lists.now ≡ length apexes.now }
    ensures { OnOk result (out.new.items ≡ out.old.items ++ zones_lines
        (paired apexes.now (map (λ list. map (λ r. r.now) list.items) lists.now))) }
{
    for place in 0..apexes.len() {
        write_zone(alloc, out, &apexes[place], &lists[place])?;
    }
    Ok(())
}

// Appends the lines that load a zone with these records.
fn write_zone(
    alloc: Global,
    out: &mut Vec<u8>,
    apex: &Name,
    records: &[&Record],
) -> Result<(), AllocError>
    ensures { OnOk result (out.new.items
        ≡ out.old.items ++ zone_lines apex.now (map (λ r. r.now) records.now)) }
{
    write_zone_line(out, apex, records.len())?;
    for record in records {
        write_record_line(alloc, out, record)?;
    }
    Ok(())
}
