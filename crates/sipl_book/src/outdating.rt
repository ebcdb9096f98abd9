// An edit makes entries outdated: those that depend on one of the keys whose sets changed.
ghost use Rattle.std.specs.Prelude.{◌≡◌, ℕ, ◌+◌, ◌≤◌, [], ◌∷◌, length, map, nat_eq, true, vec_capacity};
ghost use Rattle.std.specs.List.{list_any};
ghost use Rattle.sipl_book.specs.Cache.{AreMarkable, InOrder};
ghost use Rattle.sipl_book.specs.Entries.{after_change};
ghost use Rattle.sipl_book.specs.Indexed.{AreAdded, current_count, has, needs};
ghost use Rattle.sipl_book.specs.Repairs.{after_marks};

use crate::indexed::Indexed;
use sipl_records::Key;
use sipl_repair::Queue;

// Makes the current entries that depend on one of these keys outdated, and appends their ids. Where
// nothing is kept no key is looked at.
pub(crate) fn outdate_dependents(
    entries: &mut Indexed,
    keys: &[Key],
    candidates: &mut Vec<u64>,
    ids: &mut Vec<u64>,
)
    requires order { InOrder entries.old.entries }
    requires candidates { length entries.old.entries ≤ vec_capacity candidates.old }
    requires space { length ids.old.items + current_count (λ id. true) entries.old.entries
        ≤ vec_capacity ids.old }
    ensures after { entries.new ≡ record entries.old {
      entries = map (after_change keys.now) entries.old.entries;
    } }
    ensures added { AreAdded entries.old.entries entries.new.entries ids.old.items ids.new.items }
    ensures candidates { vec_capacity candidates.new ≡ vec_capacity candidates.old }
    ensures capacity { vec_capacity ids.new ≡ vec_capacity ids.old }
{
    if entries.entries().len() == 0 {
        return;
    }
    for key in keys {
        entries.write_candidates(key, candidates);
        outdate_candidates(entries, key, candidates.as_slice(), ids);
    }
}

// Makes the candidates that are current and depend on a key outdated, and appends their ids.
fn outdate_candidates(entries: &mut Indexed, key: &Key, candidates: &[u64], ids: &mut Vec<u64>)
    requires order { InOrder entries.old.entries }
    requires all { (id : ℕ) → has (needs key.now) entries.old.entries id ≡ true
        → list_any (nat_eq id) candidates.now ≡ true }
    requires space { length ids.old.items + current_count (λ id. true) entries.old.entries
        ≤ vec_capacity ids.old }
    ensures after { entries.new ≡ record entries.old {
      entries = map (after_change (key.now ∷ [])) entries.old.entries;
    } }
    ensures added { AreAdded entries.old.entries entries.new.entries ids.old.items ids.new.items }
    ensures capacity { vec_capacity ids.new ≡ vec_capacity ids.old }
{
    for id in candidates {
        if entries.outdate(*id, key) {
            ids.push_reserved(*id);
        }
    }
}

// Marks ids, one after the other.
pub(crate) fn mark_all(queue: &mut Queue, ids: &[u64])
    requires { AreMarkable queue.old ids.now }
    ensures { queue.new ≡ after_marks queue.old ids.now }
{
    for id in ids {
        queue.mark(*id);
    }
}
