//! Laws of every queue. The functions do nothing: their contracts are the laws.
ghost use Rattle.std.specs.Prelude.{◌≡◌, ℕ, ◌==◌, ◌||◌, ◌&&◌, not, List, IsTrue};
ghost use Rattle.sipl_repair.specs.QueueState.{QueueState, is_held, is_queued, is_leased, empty_queue, IsConsistent, after_reserve, after_mark, after_lease, after_settle, after_requeue, after_give_back, after_forget};
ghost use Rattle.sipl_repair.specs.Calls.{Call, AreAllowed, after_calls};

/// After any calls on a new queue no id is queued twice, none is both queued and leased, and the
/// held ids are within the capacity.
pub fn consistent_after_any_calls()
    ensures { (calls : List Call) → AreAllowed empty_queue calls
        → IsConsistent (after_calls empty_queue calls) }
{}

/// An id is held, which is queued or leased, from the `mark` that queues it until it is settled or
/// forgotten: no other call changes whether an id is held.
pub fn held_until_settled_or_forgotten()
    ensures reserve { (q : QueueState) → (n id : ℕ)
        → is_held (after_reserve q n) id ≡ is_held q id }
    ensures mark { (q : QueueState) → (k id : ℕ)
        → is_held (after_mark q k) id ≡ (id == k || is_held q id) }
    ensures lease { (q : QueueState) → (id : ℕ) → is_held (after_lease q) id ≡ is_held q id }
    ensures requeue { (q : QueueState) → (k id : ℕ)
        → is_held (after_requeue q k) id ≡ is_held q id }
    ensures give_back { (q : QueueState) → (k id : ℕ)
        → is_held (after_give_back q k) id ≡ is_held q id }
    ensures settle { (q : QueueState) → (k id : ℕ)
        → is_held (after_settle q k) id
        ≡ (is_queued q id || (not (id == k) && is_leased q id)) }
    ensures forget { (q : QueueState) → (k id : ℕ)
        → is_held (after_forget q k) id ≡ (not (id == k) && is_held q id) }
{}
