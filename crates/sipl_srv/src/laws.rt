//! Laws of every order of picks. The functions do nothing: their contracts are the laws.
ghost use Rattle.std.specs.Prelude.{◌≡◌, ℕ, ◌+◌, ◌<◌, ◌≤◌, List, length, slice_get, slice_set, count_by, if◌then◌else◌, AllPairs, Contains};
ghost use Rattle.std.specs.List.{range_with_len};
ghost use Rattle.std.specs.List.Sorted.{IsPermutation};
ghost use Rattle.sipl_srv.specs.Order.{Rank, AreDistinct, all_places, candidates, priority_at, weight_at, total_weight, ordered};
ghost use Rattle.sipl_srv.specs.Shares.{is_place, is_first_candidate, share, group_of, words_before, first_of_priority};

/// Each pick is in the order once, whatever the words are.
pub fn order_has_each_place_once()
    ensures { (ranks : List Rank) (words : List ℕ)
        → IsPermutation (all_places ranks) (ordered ranks words) }
{}

/// A pick is never before one of lesser priority.
pub fn order_goes_by_priority()
    ensures { (ranks : List Rank) (words : List ℕ)
        → AllPairs (λ a b. priority_at ranks a ≤ priority_at ranks b) (ordered ranks words) }
{}

/// At each step, of the words from 0 to the sum of the weights, as many as a pick's weight choose
/// it, and one more where it is the first of those that are chosen from.
pub fn share_is_the_weight()
    ensures { (ranks : List Rank) (places : List ℕ) (place : ℕ) → AreDistinct places
        → Contains (candidates ranks places) place → share ranks places place
        ≡ weight_at ranks place + (if is_first_candidate ranks places place then 1 else 0) }
{}

/// In the order of all picks, whatever the other words are: of the words from 0 to the sum of the
/// weights of a priority, as many as a pick's weight make it the first of that priority, and one
/// more where the standard places it first. It is the word after one for each pick of lesser
/// priority that decides.
pub fn share_in_the_order_is_the_weight()
    ensures { (ranks : List Rank) (words : List ℕ) (place : ℕ) → place < length ranks
        → length ranks ≤ length words → let priority = priority_at ranks place in
        let group = group_of ranks priority in let step = words_before ranks priority in
        count_by (λ word. is_place place (first_of_priority ranks (slice_set words step word) priority))
        (range_with_len 0 (total_weight ranks group + 1))
        ≡ weight_at ranks place + (if is_place place (slice_get group 0) then 1 else 0) }
{}
