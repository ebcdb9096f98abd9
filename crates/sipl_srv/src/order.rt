ghost use Rattle.std.specs.Prelude.{◌≡◌, ℕ, ◌-◌, ◌*◌, ◌<◌, ◌≤◌, List, [], ◌∷◌, ◌++◌, length, map, option_map, slice_get, slice_index, IfOk, IfSome};
ghost use Rattle.std.specs.List.{All, remove};
ghost use Rattle.sipl_srv.specs.Order.{of_priority, of_least_priority, weightless, total_weight, first_reaching, chosen_place, AreDistinct, order_of, ordered};

use crate::draws::Draws;
use crate::rank::Ranked;
use sipl_records::Sequence;
use std::alloc::{AllocError, Global};

/// The order in which a client tries at most 32 picks, as places in the list (RFC 2782, "Usage
/// rules"): by priority, the least first, and among picks of one priority by weight and a random
/// word.
///
/// Each step takes one word, over all priorities. Let the picks of least priority among those that
/// are left be in the order of the list, those of weight 0 first. The number of the step is the word
/// modulo the sum of their weights plus 1, and the first of them whose running sum of weights is at
/// least that number is next.
///
/// Allocates only the result. The time is at most that of 32 passes over what is left.
pub fn arrange<T: Ranked>(
    alloc: Global,
    picks: &[T],
    draws: &Draws,
) -> Result<Sequence<usize>, AllocError>
    requires at_most_32_picks { length picks.now ≤ 32 }
    ensures order { IfOk result (λ order. order ≡ ordered (map T.rank picks.now) draws.now) }
    ensures within { IfOk result (λ order. All (λ place. place < length picks.now) order) }
{
    let mut order: Vec<usize> = (0..picks.len()).collect(alloc)?;
    put_in_order(picks, &mut order, draws.words());
    Ok(Sequence::from_vec(order))
}

/// The place of the pick that is first in the order of two picks, as [`arrange`] puts them. The other one
/// is second. Does not allocate.
pub fn first_of_two<T: Ranked>(picks: &[T], draws: &Draws) -> usize
    requires two_picks { length picks.now ≡ 2 }
    ensures within { result < 2 }
    ensures order { ordered (map T.rank picks.now) draws.now ≡ result ∷ (1 - result) ∷ [] }
{
    next_index(picks, &[0, 1], draws.words()[0])
}

// Puts places of picks in the order that the words give, one word for each.
fn put_in_order<T: Ranked>(picks: &[T], places: &mut [usize], words: &[u32])
    requires few { length places.old ≤ 32 }
    requires enough { length places.old ≤ length words.now }
    requires valid { All (λ place. place < length picks.now) places.old }
    requires distinct { AreDistinct places.old }
    ensures { (more : List ℕ) → places.new
        ≡ order_of (map T.rank picks.now) places.old (words.now ++ more) }
{
    for k in 0..places.len() {
        let rest = &mut places[k..];
        let i = next_index(picks, rest, words[k]);
        move_to_front(rest, i);
    }
}

// Moves the element at `i` before the others, which keep their order.
fn move_to_front(places: &mut [usize], i: usize)
    requires { i < length places.old }
    ensures { places.new ≡ slice_index places.old i ∷ remove places.old i }
{
    places[..=i].rotate_right(1);
}

// The index in `places` of the pick that the word chooses.
fn next_index<T: Ranked>(picks: &[T], places: &[usize], word: u32) -> usize
    requires some { 0 < length places.now }
    requires few { length places.now ≤ 32 }
    requires valid { All (λ place. place < length picks.now) places.now }
    ensures within { result < length places.now }
    ensures chosen { chosen_place (map T.rank picks.now) places.now word
        ≡ Some (slice_index places.now result) }
{
    let priority = least_priority(picks, places);
    let number = word % (total_weight(picks, places, priority) + 1);
    if number == 0
        && let Some(i) = first_weightless(picks, places, priority)
    {
        return i;
    }
    first_reaching(picks, places, priority, number).unwrap()
}

// The least priority of these picks.
fn least_priority<T: Ranked>(picks: &[T], places: &[usize]) -> u16
    requires some { 0 < length places.now }
    requires valid { All (λ place. place < length picks.now) places.now }
    ensures some { 0 < length (of_priority (map T.rank picks.now) result places.now) }
    ensures least { of_least_priority (map T.rank picks.now) places.now
        ≡ of_priority (map T.rank picks.now) result places.now }
{
    let mut least = picks[places[0]].priority();
    for place in places {
        least = least.min(picks[*place].priority());
    }
    least
}

// The sum of the weights of the picks of this priority.
fn total_weight<T: Ranked>(picks: &[T], places: &[usize], priority: u16) -> u32
    requires few { length places.now ≤ 32 }
    requires valid { All (λ place. place < length picks.now) places.now }
    ensures total { result ≡ total_weight (map T.rank picks.now)
        (of_priority (map T.rank picks.now) priority places.now) }
    ensures bound { result ≤ 32 * 65535 }
{
    let mut total = 0;
    for place in places {
        let pick = &picks[*place];
        if pick.priority() == priority {
            total += u32::from(pick.weight());
        }
    }
    total
}

// The index of the first pick of this priority and of weight 0.
fn first_weightless<T: Ranked>(picks: &[T], places: &[usize], priority: u16) -> Option<usize>
    requires { All (λ place. place < length picks.now) places.now }
    ensures within { IfSome result (λ i. i < length places.now) }
    ensures first { option_map (slice_index places.now) result ≡ slice_get (weightless
        (map T.rank picks.now) (of_priority (map T.rank picks.now) priority places.now)) 0 }
{
    for (i, place) in places.iter().enumerate() {
        let pick = &picks[*place];
        if pick.priority() == priority && pick.weight() == 0 {
            return Some(i);
        }
    }
    None
}

// The index of the first pick of this priority at which the running sum of weights is at least the
// number.
fn first_reaching<T: Ranked>(
    picks: &[T],
    places: &[usize],
    priority: u16,
    number: u32,
) -> Option<usize>
    requires few { length places.now ≤ 32 }
    requires valid { All (λ place. place < length picks.now) places.now }
    ensures within { IfSome result (λ i. i < length places.now) }
    ensures first { option_map (slice_index places.now) result ≡ first_reaching
        (map T.rank picks.now) number 0 (of_priority (map T.rank picks.now) priority places.now) }
{
    let mut sum = 0;
    for (i, place) in places.iter().enumerate() {
        let pick = &picks[*place];
        if pick.priority() == priority {
            sum += u32::from(pick.weight());
            if sum >= number {
                return Some(i);
            }
        }
    }
    None
}
