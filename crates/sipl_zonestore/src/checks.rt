//! The faults of edits.
ghost use Rattle.std.specs.Prelude.{◌≡◌, ◌≤◌, ◌+◌, ℕ, true, false, length, nat_le, Some, None, MatchResult};
ghost use Rattle.std.specs.List.{list_any};
ghost use Rattle.sipl_names.specs.Labels.{same_name};
ghost use Rattle.sipl_zonestore.specs.Edits.{refusal_of, load, unload, add, remove};
ghost use Rattle.sipl_zonestore.specs.Store.{overlaps, is_covered, records_outside};

use crate::apexes::has_apex;
use crate::fault::StoreFault;
use crate::indexed_records::IndexedRecords;
use sipl_masterfile::ZoneText;
use sipl_names::Name;
use sipl_records::{MAX_SET_LEN, Record};

// The fault of loading the zone beside these apexes and records, if there is one.
pub(crate) fn check_load(
    max_records: usize,
    zone: &ZoneText,
    apexes: &[Name],
    records: &[Record],
) -> Result<(), StoreFault>
    requires { length records.now ≤ max_records }
    ensures { MatchResult result
        (λ _. refusal_of max_records (load zone.now)
        (record { apexes = apexes.now; records = records.now }) ≡ None)
        (λ fault. refusal_of max_records (load zone.now)
        (record { apexes = apexes.now; records = records.now }) ≡ Some fault) }
{
    let apex = zone.apex();
    if apex.is_wildcard() {
        return Err(StoreFault::WildApex);
    }
    if overlaps_any(apex, apexes) {
        return Err(StoreFault::Overlap);
    }
    if !fits(max_records, apex, zone.records().len(), records) {
        return Err(StoreFault::StoreFull);
    }
    Ok(())
}

// Whether `count` records fit in beside those outside the apex, which are counted only where that decides.
fn fits(max_records: usize, apex: &Name, count: usize, records: &[Record]) -> bool
    requires { length records.now ≤ max_records }
    ensures { result ≡ nat_le (length (records_outside apex.now records.now) + count) max_records }
{
    count <= max_records - records.len() || count <= max_records - count_outside(apex, records)
}

// The fault of unloading the zone of this apex, if there is one.
pub(crate) fn check_unload(apex: &Name, apexes: &[Name]) -> Result<(), StoreFault>
    ensures { MatchResult result
        (λ _. list_any (same_name apex.now) apexes.now ≡ true)
        (λ fault. (list_any (same_name apex.now) apexes.now ≡ false) × (fault ≡ StoreFault.NoZone)) }
{
    if !has_apex(apexes, apex) {
        return Err(StoreFault::NoZone);
    }
    Ok(())
}

// The fault of removing the record from these, if there is one. Linear in the number of apexes. Does
// not allocate.
pub(crate) fn check_remove(
    old: &Record,
    apexes: &[Name],
    records: &IndexedRecords,
) -> Result<(), StoreFault>
    ensures { (max_records : ℕ) → MatchResult result
        (λ _. refusal_of max_records (remove old.now)
        (record { apexes = apexes.now; records = records.now.records }) ≡ None)
        (λ fault. refusal_of max_records (remove old.now)
        (record { apexes = apexes.now; records = records.now.records }) ≡ Some fault) }
{
    if !is_covered(apexes, &old.owner) {
        return Err(StoreFault::NoZone);
    }
    if !records.contains(old) {
        return Err(StoreFault::Absent);
    }
    Ok(())
}

// The fault of adding the record beside these apexes and records, if there is one. Linear in the
// number of apexes. Does not allocate.
pub(crate) fn check_add(
    max_records: usize,
    new: &Record,
    apexes: &[Name],
    records: &IndexedRecords,
) -> Result<(), StoreFault>
    ensures { MatchResult result
        (λ _. refusal_of max_records (add new.now)
        (record { apexes = apexes.now; records = records.now.records }) ≡ None)
        (λ fault. refusal_of max_records (add new.now)
        (record { apexes = apexes.now; records = records.now.records }) ≡ Some fault) }
{
    if !is_covered(apexes, &new.owner) {
        return Err(StoreFault::NoZone);
    }
    let found = records.compare(new);
    if found.is_repeated {
        return Err(StoreFault::Duplicate);
    }
    if found.conflicts {
        return Err(StoreFault::AliasBesideData);
    }
    if found.set_len >= MAX_SET_LEN {
        return Err(StoreFault::SetFull);
    }
    if records.len() >= max_records {
        return Err(StoreFault::StoreFull);
    }
    Ok(())
}

// Whether a loaded zone is strictly above the apex or strictly below it.
fn overlaps_any(apex: &Name, apexes: &[Name]) -> bool
    ensures { result ≡ list_any (overlaps apex.now) apexes.now }
{
    apexes.iter().any(|other| overlaps(apex, other))
}

// Whether one of the two names is strictly below the other.
fn overlaps(a: &Name, b: &Name) -> bool
    ensures { result ≡ overlaps a.now b.now }
{
    (a.is_within(b) || b.is_within(a)) && *a != *b
}

// Whether the owner is within a loaded zone.
fn is_covered(apexes: &[Name], owner: &Name) -> bool
    ensures { result ≡ is_covered apexes.now owner.now }
{
    apexes.iter().any(|apex| owner.is_within(apex))
}

// How many records have owners outside the apex.
fn count_outside(apex: &Name, records: &[Record]) -> usize
    ensures { result ≡ length (records_outside apex.now records.now) }
{
    records
        .iter()
        .filter(|record| !record.owner.is_within(apex))
        .count()
}
