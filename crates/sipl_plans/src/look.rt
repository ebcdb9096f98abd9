//! What the records have of a name, by scans of all records.
ghost use Rattle.std.specs.Prelude.{◌≡◌, ◌==◌, ◌++◌, false, None, IfOk, OnOk, if◌then◌else◌};
ghost use Rattle.std.specs.List.{filter_map};
ghost use Rattle.std.specs.Option.{option_copied};
ghost use Rattle.sipl_records.specs.Sets.{data_of, exists_in, same_kind, set_of};
ghost use Rattle.sipl_records.specs.declared.kind.Kind.{Kind};
ghost use Rattle.sipl_choice.specs.FamilyKinds.{address_kinds};
ghost use Rattle.sipl_evidence.specs.Looks.{key, result_of};
ghost use Rattle.sipl_evidence.specs.Answers.{answer, asking_within, first_target, max_ancestors};
ghost use Rattle.sipl_plans.specs.Route.{address_of_data, addresses, offer_at};
ghost use Rattle.sipl_plans.specs.Synthesis.{IsSourceOfSynthesis};

use sipl_choice::Families;
use sipl_evidence::MAX_ALIASES;
use sipl_names::Name;
use sipl_records::{Address, Data, Key, Kind, Record};
use sipl_srv::{Offer, offer};
use std::alloc::{AllocError, Global};

// The data of a name and kind, in the order of the records (RFC 2181, 5).
fn data_of(
    alloc: Global,
    records: &[Record],
    name: &Name,
    kind: Kind,
) -> Result<Vec<Data>, AllocError>
    ensures { IfOk result (λ set. set.items ≡ data_of records.now (key name.now kind)) }
{
    let key = Key {
        name: name.dup(alloc)?,
        kind,
    };
    let mut set = Vec::new(alloc);
    for record in records {
        if record.has_key(&key) {
            set.push(record.value.dup(alloc)?)?;
        }
    }
    Ok(set)
}

// The target of a name's first alias.
fn first_target<'a>(records: &'a [Record], name: &Name) -> Option<&'a Name>
    ensures { option_copied result ≡ first_target (set_of records.now (key name.now Kind.Alias)) }
{
    for record in records {
        if let Data::Alias(target) = &record.value {
            if record.owner == *name {
                return Some(target);
            }
        }
    }
    None
}

// Whether a name exists: it or a name below it owns a record (RFC 4592, 2.2.3).
fn exists(records: &[Record], name: &Name) -> bool
    ensures { result ≡ exists_in records.now name.now }
{
    for record in records {
        if record.owner.is_within(name) {
            return true;
        }
    }
    false
}

// The source of synthesis of a name that does not exist: the wildcard of its nearest ancestor that
// exists (RFC 4592, 3.3.1).
fn source_of_synthesis(
    alloc: Global,
    records: &[Record],
    name: &Name,
) -> Result<Option<Name>, AllocError>
    ensures { IfOk result (IsSourceOfSynthesis (set_of records.now) name.now) }
{
    if exists(records, name) {
        return Ok(None);
    }
    let mut below = name.dup(alloc)?;
    let mut encloser = name.dup(alloc)?;
    while encloser.pop_label() {
        if exists(records, &encloser) {
            let wildcard = below.wildcard_beside(alloc)?;
            return Ok(Some(wildcard));
        }
        below.pop_label();
    }
    Ok(None)
}

// The target of a name's first alias, where one may still be followed.
fn target_within<'a>(records: &'a [Record], name: &Name, left: u8) -> Option<&'a Name>
    ensures { option_copied result ≡ (if left == 0 then None
        else first_target (set_of records.now (key name.now Kind.Alias))) }
{
    if left == 0 {
        return None;
    }
    first_target(records, name)
}

// The answer to a name and a kind, over at most so many aliases (RFC 1034, 3.6.2), and by wildcards
// (RFC 4592, 2.2.1).
fn answer_within(
    alloc: Global,
    records: &[Record],
    name: &Name,
    kind: Kind,
    left: u8,
) -> Result<Vec<Data>, AllocError>
    requires { same_kind kind Kind.Exists ≡ false }
    ensures { IfOk result (λ set. set.items
        ≡ result_of (set_of records.now) (asking_within max_ancestors left name.now kind)) }
{
    let set = data_of(alloc, records, name, kind)?;
    if !set.is_empty() {
        return Ok(set);
    }
    if let Some(target) = target_within(records, name, left) {
        return answer_within(alloc, records, target, kind, left - 1);
    }
    let Some(wildcard) = source_of_synthesis(alloc, records, name)? else {
        return Ok(set);
    };
    let set = data_of(alloc, records, &wildcard, kind)?;
    if !set.is_empty() {
        return Ok(set);
    }
    match target_within(records, &wildcard, left) {
        Some(target) => answer_within(alloc, records, target, kind, left - 1),
        None => Ok(set),
    }
}

// The answer to a name and a kind, over at most 8 aliases.
pub(crate) fn answer(
    alloc: Global,
    records: &[Record],
    name: &Name,
    kind: Kind,
) -> Result<Vec<Data>, AllocError>
    requires { same_kind kind Kind.Exists ≡ false }
    ensures { IfOk result (λ set. set.items ≡ answer (set_of records.now) name.now kind) }
{
    answer_within(alloc, records, name, kind, MAX_ALIASES)
}

// The addresses of a name, in the order of the families (RFC 3263, 4.2).
pub(crate) fn addresses(
    alloc: Global,
    records: &[Record],
    name: &Name,
    families: Families,
) -> Result<Vec<Address>, AllocError>
    ensures { IfOk result (λ found. found.items
        ≡ addresses (set_of records.now) (address_kinds families) name.now) }
{
    let mut found = Vec::new(alloc);
    for kind in families.kinds() {
        let set = answer(alloc, records, name, *kind)?;
        push_addresses(&mut found, &set)?;
    }
    Ok(found)
}

// Appends the addresses among the data.
pub(crate) fn push_addresses(found: &mut Vec<Address>, set: &[Data]) -> Result<(), AllocError>
    ensures { OnOk result
        (found.new.items ≡ found.old.items ++ filter_map address_of_data set.now) }
{
    reserve_first(found, set.len())?;
    for datum in set {
        match datum {
            Data::Address4(number) => found.push(Address::V4(*number))?,
            Data::Address6(address) => found.push(Address::V6(address.number()))?,
            _ => {}
        }
    }
    Ok(())
}

// Reserves space for just so many items, where there is none yet.
pub(crate) fn reserve_first<T>(list: &mut Vec<T>, count: usize) -> Result<(), AllocError>
    ensures { list.new.items ≡ list.old.items }
{
    if list.is_empty() {
        list.reserve_exact(count)?;
    }
    Ok(())
}

// What the SRV records of a name offer (RFC 2782). A name that is too long has none.
pub(crate) fn offer_at(
    alloc: Global,
    records: &[Record],
    name: Option<&Name>,
) -> Result<Offer, AllocError>
    ensures { IfOk result
        (λ offer. offer ≡ offer_at (set_of records.now) (option_copied name.entry)) }
{
    let Some(name) = name else {
        return Ok(Offer::Nothing);
    };
    let set = answer(alloc, records, name, Kind::Service)?;
    offer(alloc, &set)
}
