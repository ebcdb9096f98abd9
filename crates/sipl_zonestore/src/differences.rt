//! Where the text of a zone differs from the records that are loaded.
ghost use Rattle.std.specs.Prelude.{◌≡◌, ◌≤◌, ◌++◌, ◌+◌, ◌<◌, ◌||◌, [], ◌∷◌, List, length, take, true, IfOk, IfSome, OnOk};
ghost use Rattle.std.specs.Bool.{OnTrue};
ghost use Rattle.std.specs.List.{list_all, list_any};
ghost use Rattle.indexmap.specs.IndexSet.{contains};
ghost use Rattle.sipl_names.specs.Labels.{Labels, is_within, same_name};
ghost use Rattle.sipl_records.specs.declared.record.Record.{Record};
ghost use Rattle.sipl_zonestore.specs.Differences.{AreWithin, DifferAt, records_besides, records_of};
ghost use Rattle.sipl_zonestore.specs.Patches.{IsPatch};

use crate::patches::Patch;
use indexmap::IndexSet;
use sipl_names::Name;
use sipl_records::Record;
use std::alloc::{AllocError, Global};

// The owners whose records are changed by a text, which differs from the records within the apex by this
// patch. `None` where they are more than a quarter of the text's records.
pub(crate) fn owners_of_patch(
    alloc: Global,
    apex: &Name,
    records: &[Record],
    text: &[Record],
    patch: Patch,
) -> Result<Option<IndexSet<Name>>, AllocError>
    requires within { list_all (λ r. is_within r.owner apex.now) text.now ≡ true }
    requires patch { IsPatch apex.now records.now text.now patch }
    ensures { IfOk result (λ owners. IfSome owners
        (λ owners. DifferAt apex.now (contains same_name owners) records.now text.now)) }
{
    let old = &records[patch.start..patch.end];
    let new = &text[patch.first..patch.last];
    changed_owners(alloc, apex, old, new, text.len() / 4)
}

// The owners whose records within the apex are others in a text, or in another order. `None` where there
// are more than `most`. Linear in the number of records, which are compared one by one.
fn changed_owners(
    alloc: Global,
    apex: &Name,
    records: &[Record],
    text: &[Record],
    most: usize,
) -> Result<Option<IndexSet<Name>>, AllocError>
    requires within { list_all (λ r. is_within r.owner apex.now) text.now ≡ true }
    ensures { IfOk result (λ owners. IfSome owners
        (λ owners. DifferAt apex.now (contains same_name owners) records.now text.now)) }
{
    let mut owners = IndexSet::new(alloc);
    if !add_changed_owners(alloc, &mut owners, apex, records, text, most)? {
        return Ok(None);
    }
    Ok(Some(owners))
}

// Adds the owners whose records within the apex are others in a text, or in another order. Returns whether
// all are added: it stops where there are more than `most`.
fn add_changed_owners(
    alloc: Global,
    owners: &mut IndexSet<Name>,
    apex: &Name,
    records: &[Record],
    text: &[Record],
    most: usize,
) -> Result<bool, AllocError>
    requires none { owners.old.keys ≡ [] }
    requires within { list_all (λ r. is_within r.owner apex.now) text.now ≡ true }
    ensures { IfOk result (λ all. all ≡ true
        → DifferAt apex.now (contains same_name owners.new) records.now text.now) }
{
    let mut place = 0;
    for record in records {
        if record.owner.is_within(apex) {
            place = pass_record(alloc, owners, record, text, place)?;
        }
        if owners.len() > most {
            return Ok(false);
        }
    }
    if text.len() - place > most {
        return Ok(false);
    }
    add_owners(alloc, owners, &text[place..])?;
    Ok(true)
}

// Goes past a record, and past those of a text from this place on, up to the one that is equal. Where there
// is none, it adds the owners of both.
fn pass_record(
    alloc: Global,
    owners: &mut IndexSet<Name>,
    old: &Record,
    text: &[Record],
    place: usize,
) -> Result<usize, AllocError>
    requires place { place ≤ length text.now }
    ensures place { IfOk result (λ next. next ≤ length text.now) }
    ensures same { IfOk result (λ next. (before : List Record)
        → records_besides (contains same_name owners.old) before
        ≡ records_besides (contains same_name owners.old) (take place text.now)
        → records_besides (contains same_name owners.new) (before ++ old.now ∷ [])
        ≡ records_besides (contains same_name owners.new) (take next text.now)) }
    ensures within { OnOk result ((apex : Labels)
        → list_all (λ r. is_within r.owner apex) text.now ≡ true
        → is_within old.now.owner apex ≡ true
        → AreWithin apex (contains same_name owners.old)
        → AreWithin apex (contains same_name owners.new)) }
{
    if is_at(text, place, old) {
        return Ok(place + 1);
    }
    if owners.contains(&old.owner) {
        return Ok(place);
    }
    let next = skip_owners(owners, text, place);
    if is_at(text, next, old) {
        return Ok(next + 1);
    }
    pass_both(alloc, owners, old, text, next)
}

// Goes past a record, and past that of a text at this place, if it has one, and adds the owners of both.
fn pass_both(
    alloc: Global,
    owners: &mut IndexSet<Name>,
    old: &Record,
    text: &[Record],
    place: usize,
) -> Result<usize, AllocError>
    requires place { place ≤ length text.now }
    ensures place { IfOk result (λ next. next ≤ length text.now) }
    ensures same { IfOk result (λ next. (before : List Record)
        → records_besides (contains same_name owners.old) before
        ≡ records_besides (contains same_name owners.old) (take place text.now)
        → records_besides (contains same_name owners.new) (before ++ old.now ∷ [])
        ≡ records_besides (contains same_name owners.new) (take next text.now)) }
    ensures within { OnOk result ((apex : Labels)
        → list_all (λ r. is_within r.owner apex) text.now ≡ true
        → is_within old.now.owner apex ≡ true
        → AreWithin apex (contains same_name owners.old)
        → AreWithin apex (contains same_name owners.new)) }
{
    add_owner(alloc, owners, old)?;
    if place >= text.len() {
        return Ok(place);
    }
    add_owner(alloc, owners, &text[place])?;
    Ok(place + 1)
}

// Whether a text has the record at the place.
fn is_at(text: &[Record], place: usize, sought: &Record) -> bool
    ensures { OnTrue result ((place < length text.now)
        × (take (place + 1) text.now ≡ take place text.now ++ sought.now ∷ [])) }
{
    place < text.len() && text[place] == *sought
}

// The first place from this one on whose record has none of the owners.
fn skip_owners(owners: &IndexSet<Name>, text: &[Record], mut place: usize) -> usize
    requires place { place ≤ length text.now }
    ensures place { result ≤ length text.now }
    ensures same { records_besides (contains same_name owners.now) (take result text.now)
        ≡ records_besides (contains same_name owners.now) (take place text.now) }
{
    while place < text.len() && owners.contains(&text[place].owner) {
        place += 1;
    }
    place
}

// Adds the owner of a record.
fn add_owner(alloc: Global, owners: &mut IndexSet<Name>, added: &Record) -> Result<(), AllocError>
    ensures { OnOk result ((name : Labels) → contains same_name owners.new name
        ≡ (same_name added.now.owner name || contains same_name owners.old name)) }
{
    owners.insert(added.owner.dup(alloc)?)?;
    Ok(())
}

// Adds the owners of the records.
fn add_owners(
    alloc: Global,
    owners: &mut IndexSet<Name>,
    records: &[Record],
) -> Result<(), AllocError>
    ensures { OnOk result ((name : Labels) → contains same_name owners.new name
        ≡ (list_any (λ r. same_name r.owner name) records.now
        || contains same_name owners.old name)) }
{
    for record in records {
        add_owner(alloc, owners, record)?;
    }
    Ok(())
}

// Copies of the records of these owners.
pub(crate) fn records_of(
    alloc: Global,
    records: &[Record],
    owners: &IndexSet<Name>,
) -> Result<Vec<Record>, AllocError>
    ensures { IfOk result
        (λ copies. copies.items ≡ records_of (contains same_name owners.now) records.now) }
{
    let mut copies = Vec::new(alloc);
    for record in records {
        if is_among(owners, &record.owner) {
            copies.push(record.dup(alloc)?)?;
        }
    }
    Ok(copies)
}

// How many owners a name is compared with, so that it is not hashed.
const MAX_COMPARED: usize = 4;

// Whether the name is one of the owners. It is hashed only where there are more than a few.
fn is_among(owners: &IndexSet<Name>, name: &Name) -> bool
    ensures { result ≡ contains same_name owners.now name.now }
{
    let names = owners.as_slice();
    if names.len() > MAX_COMPARED {
        return owners.contains(name);
    }
    names.iter().any(|owner| *name == *owner)
}
