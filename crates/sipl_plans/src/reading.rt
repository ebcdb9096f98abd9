//! The answers to names over record sets that are read one after another, each when it is first asked
//! for.
ghost use Rattle.std.specs.Prelude.{◌≡◌, ◌<◌, List, IfOk, IfSome};
ghost use Rattle.sipl_records.specs.declared.data.Data.{Data};
ghost use Rattle.sipl_records.specs.declared.kind.Kind.{Kind};
ghost use Rattle.sipl_evidence.specs.Answers.{asking, asking_within, max_ancestors};
ghost use Rattle.sipl_evidence.specs.Looks.{Asking, ask, key};
ghost use Rattle.sipl_plans.specs.Readings.{AddsLooks, IsExistence, IsSynthesizedFrom, IsTarget, LeadsTo, Reads, content_in, contents_in};

use crate::sets::Sets;
use sipl_evidence::{Evidence, Item, MAX_ALIASES, first_target};
use sipl_names::Name;
use sipl_records::{Data, Key, Kind};
use std::alloc::{AllocError, Global};

// The place of a set in the evidence. It is read where it is not there.
fn fetch<S: Sets>(
    alloc: Global,
    evidence: &mut Evidence,
    sets: &mut S,
    name: &Name,
    kind: Kind,
) -> Result<usize, AllocError>
    ensures read { IfOk result (λ place. (next : List Data → Asking (List Data)) → LeadsTo S.source
        (ask (key name.now kind) next) evidence.old sets.old
        (next (content_in evidence.new place)) evidence.new sets.new) }
    ensures looked { AddsLooks S.source sets.old sets.new }
{
    if let Some(place) = evidence.place(name, kind) {
        return Ok(place);
    }
    let place = evidence.len();
    let key = Key {
        name: name.dup(alloc)?,
        kind,
    };
    let (number, content) = sets.read(&key)?;
    evidence.push_unread(Item::new(key, number, content))?;
    Ok(place)
}

// The data of the set in a place.
fn content(evidence: &Evidence, place: usize) -> &[Data]
    ensures { result.now ≡ content_in evidence.now place }
{
    match evidence.items().get(place) {
        Some(item) => item.content(),
        None => &[],
    }
}

// The data of the set in a place, if there is one.
pub(crate) fn contents(evidence: &Evidence, place: Option<usize>) -> &[Data]
    ensures { result.now ≡ contents_in evidence.now place }
{
    match place {
        Some(place) => content(evidence, place),
        None => &[],
    }
}

// Whether a name exists.
fn exists<S: Sets>(
    alloc: Global,
    evidence: &mut Evidence,
    sets: &mut S,
    name: &Name,
) -> Result<bool, AllocError>
    ensures existence { IfOk result (λ found. IsExistence S.source name.now evidence.old sets.old
        found evidence.new sets.new) }
    ensures looked { AddsLooks S.source sets.old sets.new }
{
    let place = fetch(alloc, evidence, sets, name, Kind::Exists)?;
    Ok(!content(evidence, place).is_empty())
}

// The target of a name's first alias, where one may still be followed.
fn target_within<S: Sets>(
    alloc: Global,
    evidence: &mut Evidence,
    sets: &mut S,
    name: &Name,
    left: u8,
) -> Result<Option<Name>, AllocError>
    ensures target { IfOk result (λ found. IsTarget S.source left name.now evidence.old sets.old
        found evidence.new sets.new) }
    ensures left { IfOk result (λ found. IfSome found (λ target. 0 < left)) }
    ensures looked { AddsLooks S.source sets.old sets.new }
{
    if left == 0 {
        return Ok(None);
    }
    let place = fetch(alloc, evidence, sets, name, Kind::Alias)?;
    match first_target(content(evidence, place)) {
        Some(target) => Ok(Some(target.dup(alloc)?)),
        None => Ok(None),
    }
}

// The source of synthesis of a name that does not exist: the wildcard of its nearest ancestor that
// exists (RFC 4592, 3.3.1).
fn source_of_synthesis<S: Sets>(
    alloc: Global,
    evidence: &mut Evidence,
    sets: &mut S,
    name: &Name,
) -> Result<Option<Name>, AllocError>
    ensures source { IfOk result (λ found. IsSynthesizedFrom S.source name.now
        evidence.old sets.old found evidence.new sets.new) }
    ensures looked { AddsLooks S.source sets.old sets.new }
{
    if exists(alloc, evidence, sets, name)? {
        return Ok(None);
    }
    let mut below = name.dup(alloc)?;
    let mut encloser = name.dup(alloc)?;
    while encloser.pop_label() {
        if exists(alloc, evidence, sets, &encloser)? {
            let wildcard = below.wildcard_beside(alloc)?;
            return Ok(Some(wildcard));
        }
        below.pop_label();
    }
    Ok(None)
}

// The place of the answer to a name and a kind, over at most so many aliases (RFC 1034, 3.6.2), and by
// wildcards (RFC 4592, 2.2.1); `None` where it is empty.
fn answer_within<S: Sets>(
    alloc: Global,
    evidence: &mut Evidence,
    sets: &mut S,
    name: &Name,
    kind: Kind,
    left: u8,
) -> Result<Option<usize>, AllocError>
    ensures answer { IfOk result (λ place. Reads S.source
        (asking_within max_ancestors left name.now kind) evidence.old sets.old
        (contents_in evidence.new place) evidence.new sets.new) }
    ensures looked { AddsLooks S.source sets.old sets.new }
{
    let place = fetch(alloc, evidence, sets, name, kind)?;
    if !content(evidence, place).is_empty() {
        return Ok(Some(place));
    }
    if let Some(target) = target_within(alloc, evidence, sets, name, left)? {
        return answer_within(alloc, evidence, sets, &target, kind, left - 1);
    }
    let Some(wildcard) = source_of_synthesis(alloc, evidence, sets, name)? else {
        return Ok(None);
    };
    let place = fetch(alloc, evidence, sets, &wildcard, kind)?;
    if !content(evidence, place).is_empty() {
        return Ok(Some(place));
    }
    match target_within(alloc, evidence, sets, &wildcard, left)? {
        Some(target) => answer_within(alloc, evidence, sets, &target, kind, left - 1),
        None => Ok(None),
    }
}

// The place of the answer to a name and a kind, over at most 8 aliases; `None` where it is empty.
pub(crate) fn answer<S: Sets>(
    alloc: Global,
    evidence: &mut Evidence,
    sets: &mut S,
    name: &Name,
    kind: Kind,
) -> Result<Option<usize>, AllocError>
    ensures answer { IfOk result (λ place. Reads S.source (asking name.now kind)
        evidence.old sets.old (contents_in evidence.new place) evidence.new sets.new) }
    ensures looked { AddsLooks S.source sets.old sets.new }
{
    answer_within(alloc, evidence, sets, name, kind, MAX_ALIASES)
}
