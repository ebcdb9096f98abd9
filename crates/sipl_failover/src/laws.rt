//! Laws over all failovers and all lists of events. Each is the contract of a function that does
//! nothing.
//!
//! They are about the definitions by which the calls of [`crate::Failover`] have their contracts. A
//! refused event changes nothing and has no steps. Times are in milliseconds.

ghost use Rattle.std.specs.Prelude.{◌≡◌, ◌≢◌, ℕ, ◌≤◌, ◌<◌, ◌+◌, ◌-◌, ◌*◌, ◌^◌, ◌↔◌, false, true, List, [], ◌∷◌, length, filter, take, Option, Some, None, IsTrue, All, slice_get};
ghost use Rattle.sipl_choice.specs.declared.endpoint.Endpoint.{Endpoint};
ghost use Rattle.sipl_tx.specs.declared.parts.Kind.{Kind};
ghost use Rattle.sipl_failover.specs.declared.step.Step.TheVariants.{Send, Hold, Deliver, Exhausted};
ghost use Rattle.sipl_failover.specs.FailoverRun.{FailoverRun, Event, new_run, has_ended};
ghost use Rattle.sipl_failover.specs.FailoverRun.Event.{Received, TransportFailed, Ticked};
ghost use Rattle.sipl_failover.specs.Rules.{is_running};
ghost use Rattle.sipl_failover.specs.Branch.{branch_of};
ghost use Rattle.sipl_failover.specs.Runs.{step, run_after, steps_of, IsFailure, IsAck, is_send, is_hold, is_exhausted, is_final, is_final_or_exhausted, contacted, failure_code};

/// The request goes to the next target exactly where the running attempt fails and a target is left
/// (RFC 3263, 4.3): after a 503, an error of its transport, or a timeout without any response.
pub fn next_target_is_tried_after_a_failure()
    ensures only { (run : FailoverRun) (event : Event) →
        filter is_send (step run event).steps ≢ [] →
        IsFailure run event × (run.attempt < length run.targets) }
    ensures always { (run : FailoverRun) (event : Event) →
        1 ≤ run.attempt → IsFailure run event → run.attempt < length run.targets →
        filter is_send (step run event).steps ≡ Send (run.attempt + 1) ∷ [] }
{}

/// After a provisional response to the running attempt no timeout is a failure of this attempt,
/// whatever comes between.
pub fn provisional_response_rules_out_a_failure_by_timeout()
    ensures { (run : FailoverRun) (code moment : ℕ) (retry_after : Option ℕ) (events : List Event) →
        let later = run_after (step run (Received run.attempt code retry_after)).run events in
        1 ≤ run.attempt → has_ended run ≡ false → 100 ≤ code → code < 200 →
        later.attempt ≡ run.attempt → IsFailure later (Ticked moment) → ⊥ }
{}

/// The targets that are contacted are a prefix of the list: in its order, and each at most once.
pub fn contacted_targets_are_a_prefix()
    ensures { (targets : List Endpoint) (kind : Kind) (base start : ℕ) (events : List Event) →
        let run = new_run targets kind base start in
        contacted targets (Send 1 ∷ steps_of run events)
        ≡ take (run_after run events).attempt targets }
{}

/// After the end there are no steps but ACKs of repeated responses, and nothing changes.
pub fn ended_is_final()
    ensures acks { (run : FailoverRun) (events : List Event) → has_ended run ≡ true →
        All IsAck (steps_of run events) }
    ensures stays { (run : FailoverRun) (events : List Event) → has_ended run ≡ true →
        run_after run events ≡ run }
{}

/// That all targets have failed is reported at most once, and exactly where the last target fails.
/// Before it the user gets a 408 after a timeout, and a 500 after the other failures.
pub fn exhausted_is_reported_once_after_the_last_target()
    ensures once { (run : FailoverRun) (events : List Event) →
        length (filter is_exhausted (steps_of run events)) ≤ 1 }
    ensures only { (run : FailoverRun) (event : Event) →
        filter is_exhausted (step run event).steps ≢ [] →
        IsFailure run event × (length run.targets ≤ run.attempt) }
    ensures always { (run : FailoverRun) (event : Event) →
        1 ≤ run.attempt → IsFailure run event → length run.targets ≤ run.attempt →
        filter is_final_or_exhausted (step run event).steps
        ≡ Deliver (failure_code event) ∷ Exhausted ∷ [] }
{}

/// The user gets at most one final response, and gets it at the call that ends the failover.
pub fn final_response_is_delivered_at_the_end()
    ensures once { (run : FailoverRun) (events : List Event) →
        length (filter is_final (steps_of run events)) ≤ 1 }
    ensures end { (run : FailoverRun) (event : Event) → has_ended run ≡ false →
        (has_ended (step run event).run ≡ true)
        ↔ (length (filter is_final (step run event).steps) ≡ 1) }
{}

/// Only the endpoint of a failed attempt is held: for 30,000 ms after a timeout or an error of its
/// transport, and after a 503 for the seconds of its Retry-After field, if there are any.
pub fn failed_endpoint_is_held()
    ensures only { (run : FailoverRun) (event : Event) →
        filter is_hold (step run event).steps ≢ [] → IsFailure run event }
    ensures timeout { (run : FailoverRun) (moment : ℕ) (endpoint : Endpoint) →
        IsFailure run (Ticked moment) → slice_get run.targets (run.attempt - 1) ≡ Some endpoint →
        filter is_hold (step run (Ticked moment)).steps ≡ Hold endpoint 30000 ∷ [] }
    ensures broken { (run : FailoverRun) (endpoint : Endpoint) →
        IsFailure run TransportFailed → slice_get run.targets (run.attempt - 1) ≡ Some endpoint →
        filter is_hold (step run TransportFailed).steps ≡ Hold endpoint 30000 ∷ [] }
    ensures retry_after { (run : FailoverRun) (attempt seconds : ℕ) (endpoint : Endpoint) →
        1 ≤ run.attempt → IsTrue (is_running run attempt) → 0 < seconds →
        slice_get run.targets (run.attempt - 1) ≡ Some endpoint →
        filter is_hold (step run (Received attempt 503 (Some seconds))).steps
        ≡ Hold endpoint (seconds * 1000) ∷ [] }
    ensures no_retry_after { (run : FailoverRun) (attempt code : ℕ) →
        filter is_hold (step run (Received attempt code None)).steps ≡ [] }
    ensures retry_after_zero { (run : FailoverRun) (attempt code : ℕ) →
        filter is_hold (step run (Received attempt code (Some 0))).steps ≡ [] }
{}

/// Two attempts of one failover have different branches, and so have failovers of different bases.
pub fn branches_differ()
    ensures { (base base' attempt attempt' : ℕ) →
        base < 2 ^ 64 → base' < 2 ^ 64 → attempt < 2 ^ 32 → attempt' < 2 ^ 32 →
        branch_of base attempt ≡ branch_of base' attempt' →
        (base ≡ base') × (attempt ≡ attempt') }
{}

/// A branch has at most 28 octets.
pub fn branch_length_is_limited()
    ensures { (base attempt : ℕ) → attempt ≤ 2048 →
        length (branch_of base attempt) ≤ 28 }
{}
