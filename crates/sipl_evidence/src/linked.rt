// The lists of pairs: each pair is in the list of its code and in the list of its id, and each of
// the two spots has the place of the other. So a pair is removed in constant time: the last one of
// its code takes its place.
ghost use Rattle.std.specs.Prelude.{[], ◌∷◌, List, not, ◌≡◌, ℕ, ◌+◌, ◌-◌, ◌<◌, ◌≤◌, ◌&&◌, ◌||◌, ◌++◌, true, false, nat_eq, ◌==◌, is_some, if◌then◌else◌, length, Some, vec_capacity, nat_lt};
ghost use Rattle.sipl_evidence.specs.Lists.{at, len_of, AreDense, HasSpace, KeepsSpace};
ghost use Rattle.sipl_evidence.specs.Dependents.{depends, has_code, ids_of, AreIdsOf};
ghost use Rattle.sipl_evidence.specs.Linked.{pairs_of, ArePaired, AreLast, IsNew, IsOnce};

use crate::code::code_of_key;
use crate::item::Item;
use crate::lists::Lists;
use crate::spot::Spot;

// Adds the pairs of an id with the keys' codes of its items, each code once.
pub(crate) fn link_all(by_code: &mut Lists, by_id: &mut Lists, id: u64, items: &[Item])
    requires paired { ArePaired by_code.old by_id.old }
    requires new { (code : ℕ) → depends (pairs_of by_code.old) code id ≡ false }
    requires codes { HasSpace by_code.old (length items.now) }
    requires ids { HasSpace by_id.old (length items.now) }
    ensures paired { ArePaired by_code.new by_id.new }
    ensures pairs { (code other : ℕ) → depends (pairs_of by_code.new) code other
        ≡ (id == other && has_code items.now code || depends (pairs_of by_code.old) code other) }
    ensures codes { (room : ℕ) → HasSpace by_code.old (room + length items.now)
        → HasSpace by_code.new room }
    ensures ids { (room : ℕ) → HasSpace by_id.old (room + length items.now)
        → HasSpace by_id.new room }
{
    for item in items {
        link_if_new(by_code, by_id, code_of_key(item.key()), id);
    }
}

// Adds a pair if it is not the last one of its code.
fn link_if_new(by_code: &mut Lists, by_id: &mut Lists, code: u64, id: u64)
    requires paired { ArePaired by_code.old by_id.old }
    requires last { AreLast by_code.old id }
    requires codes { HasSpace by_code.old 1 }
    requires ids { HasSpace by_id.old 1 }
    ensures paired { ArePaired by_code.new by_id.new }
    ensures last { AreLast by_code.new id }
    ensures pairs { (k other : ℕ) → depends (pairs_of by_code.new) k other
        ≡ (code == k && id == other || depends (pairs_of by_code.old) k other) }
    ensures codes { (room : ℕ) → HasSpace by_code.old (room + 1) → HasSpace by_code.new room }
    ensures ids { (room : ℕ) → HasSpace by_id.old (room + 1) → HasSpace by_id.new room }
{
    match by_code.last(code) {
        Some(last) if last.list == id => {}
        _ => link(by_code, by_id, code, id),
    }
}

// Adds a new pair.
fn link(by_code: &mut Lists, by_id: &mut Lists, code: u64, id: u64)
    requires paired { ArePaired by_code.old by_id.old }
    requires new { IsNew by_code.old code id }
    requires last { AreLast by_code.old id }
    requires codes { HasSpace by_code.old 1 }
    requires ids { HasSpace by_id.old 1 }
    ensures paired { ArePaired by_code.new by_id.new }
    ensures last { AreLast by_code.new id }
    ensures pairs { (k other : ℕ) → depends (pairs_of by_code.new) k other
        ≡ (code == k && id == other || depends (pairs_of by_code.old) k other) }
    ensures codes { (room : ℕ) → HasSpace by_code.old (room + 1) → HasSpace by_code.new room }
    ensures ids { (room : ℕ) → HasSpace by_id.old (room + 1) → HasSpace by_id.new room }
{
    let rank = by_code.len(code);
    let index = by_id.len(id);
    by_code.push(code, Spot { list: id, index });
    by_id.push(
        id,
        Spot {
            list: code,
            index: rank,
        },
    );
}

// Removes the pairs of an id.
pub(crate) fn unlink_all(by_code: &mut Lists, by_id: &mut Lists, id: u64)
    requires paired { ArePaired by_code.old by_id.old }
    ensures paired { ArePaired by_code.new by_id.new }
    ensures pairs { (code other : ℕ) → depends (pairs_of by_code.new) code other
        ≡ (not (id == other) && depends (pairs_of by_code.old) code other) }
    ensures codes { KeepsSpace by_code.old by_code.new }
    ensures ids { KeepsSpace by_id.old by_id.new }
{
    while unlink_last(by_code, by_id, id) {}
}

// Removes the last pair of an id, and returns whether there was one.
fn unlink_last(by_code: &mut Lists, by_id: &mut Lists, id: u64) -> bool
    requires paired { ArePaired by_code.old by_id.old }
    ensures some { result ≡ nat_lt 0 (len_of by_id.old id) }
    ensures paired { ArePaired by_code.new by_id.new }
    ensures others { (code other : ℕ) → nat_eq id other ≡ false
        → depends (pairs_of by_code.new) code other ≡ depends (pairs_of by_code.old) code other }
    ensures len { len_of by_id.new id ≡ len_of by_id.old id - 1 }
    ensures codes { KeepsSpace by_code.old by_code.new }
    ensures ids { KeepsSpace by_id.old by_id.new }
{
    let Some(place) = by_id.pop(id) else {
        return false;
    };
    let last = by_code.pop(place.list).unwrap();
    if by_code.len(place.list) != place.index {
        by_code.set(place, last);
        by_id.set(last, place);
    }
    true
}

// Appends the ids of a code's pairs.
pub(crate) fn append_list(by_code: &Lists, code: u64, ids: &mut Vec<u64>)
    requires dense { AreDense by_code.now }
    requires once { IsOnce (at by_code.now) }
    requires space { length ids.old.items + length (ids_of (pairs_of by_code.now) code)
        ≤ vec_capacity ids.old }
    ensures appended { (appended : List ℕ) × (ids.new.items ≡ ids.old.items ++ appended)
        × AreIdsOf (pairs_of by_code.now) code appended }
    ensures capacity { vec_capacity ids.new ≡ vec_capacity ids.old }
{
    for index in 0..by_code.len(code) {
        let spot = by_code.get(Spot { list: code, index }).unwrap();
        ids.push_reserved(spot.list);
    }
}
