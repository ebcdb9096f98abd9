// The places of queued ids, the next one first. A forgotten id leaves a stale place, which is dropped
// once it is reached, or when space is needed. A table counts the stale places of each id: they are
// its first ones, since an id that is queued again is appended.
ghost use Rattle.std.specs.Prelude.{◌≡◌, ℕ, ◌+◌, ◌^◌, ◌<◌, ◌≤◌, [], ◌++◌, length, nat_lt};
ghost use Rattle.std.specs.Option.{IfNone, IfSome, option_to_list};
ghost use Rattle.std.specs.VecDeque.{deque_capacity};
ghost use Rattle.indexmap.specs.IndexMap.{index_map_len, spare};
ghost use Rattle.sipl_repair.specs.StalePlaces.{stale_count, one_more, one_less, live, AreCounted, DropsPlaces};

use indexmap::IndexMap;
use std::collections::VecDeque;

// Removes the first live place, and the stale ones before it.
pub(crate) fn pop_live(places: &mut VecDeque<u64>, stale: &mut IndexMap<u64, usize>) -> Option<u64>
    requires counted { AreCounted places.old.items (stale_count stale.old) }
    ensures live { live places.old.items (stale_count stale.old)
        ≡ option_to_list result ++ live places.new.items (stale_count stale.new) }
    ensures empty { IfNone result (live places.new.items (stale_count stale.new) ≡ []) }
    ensures drops { DropsPlaces places.old stale.old places.new stale.new }
    ensures none_stale { IfSome result (λ id. stale_count stale.new id ≡ 0) }
    ensures len { length places.new.items + length (option_to_list result)
        ≤ length places.old.items }
    ensures spare { spare stale.new ≡ spare stale.old }
{
    while let Some(id) = places.pop_front() {
        if !take_one(stale, id) {
            return Some(id);
        }
    }
    None
}

// Drops the stale places if there is no space for `additional` places, or for one more id in the
// table.
pub(crate) fn compact_if_full(
    places: &mut VecDeque<u64>,
    stale: &mut IndexMap<u64, usize>,
    additional: usize,
)
    requires fits { length (live places.old.items (stale_count stale.old)) + additional
        ≤ deque_capacity places.old }
    requires counted { AreCounted places.old.items (stale_count stale.old) }
    ensures live { live places.new.items (stale_count stale.new)
        ≡ live places.old.items (stale_count stale.old) }
    ensures drops { DropsPlaces places.old stale.old places.new stale.new }
    ensures fits { length places.new.items + additional ≤ deque_capacity places.new }
    ensures spare { 0 < index_map_len stale.old + spare stale.old → 0 < spare stale.new }
{
    let free = places.capacity() - places.len();
    if free < additional || stale.len() == stale.capacity() {
        compact(places, stale);
    }
}

// Drops the stale places: each place in turn is removed, and a live one is appended.
fn compact(places: &mut VecDeque<u64>, stale: &mut IndexMap<u64, usize>)
    ensures live { places.new.items ≡ live places.old.items (stale_count stale.old) }
    ensures none_stale { (id : ℕ) → stale_count stale.new id ≡ 0 }
    ensures places_capacity { deque_capacity places.new ≡ deque_capacity places.old }
    ensures spare { index_map_len stale.old + spare stale.old ≤ spare stale.new }
{
    for _ in 0..places.len() {
        let id = places.pop_front().unwrap();
        if !take_one(stale, id) {
            places.push_back_reserved(id);
        }
    }
    stale.clear();
}

// Counts one more stale place of an id.
pub(crate) fn add_one(stale: &mut IndexMap<u64, usize>, id: u64)
    requires spare { 0 < spare stale.old }
    requires fits { stale_count stale.old id + 1 < 2 ^ 64 }
    ensures counts { (k : ℕ) → stale_count stale.new k ≡ one_more (stale_count stale.old) id k }
    ensures capacity { index_map_len stale.old + spare stale.old
        ≤ index_map_len stale.new + spare stale.new }
{
    if let Some(count) = stale.get_mut(&id) {
        *count += 1;
        return;
    }
    let _none = stale.insert(id, 1).unwrap();
}

// Counts one stale place of an id less, and returns whether it had one.
fn take_one(stale: &mut IndexMap<u64, usize>, id: u64) -> bool
    ensures taken { result ≡ nat_lt 0 (stale_count stale.old id) }
    ensures counts { (k : ℕ) → stale_count stale.new k ≡ one_less (stale_count stale.old) id k }
    ensures len { index_map_len stale.new ≡ index_map_len stale.old }
    ensures spare { spare stale.new ≡ spare stale.old }
{
    match stale.get_mut(&id) {
        Some(count) if *count > 0 => {
            *count -= 1;
            true
        }
        _ => false,
    }
}
