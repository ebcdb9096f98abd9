//! Laws over all transactions and all lists of events. Each is the contract of a function that does
//! nothing.
//!
//! They are about the definitions by which the calls of [`crate::ClientTx`] have their contracts. A
//! refused event changes nothing. Times are in milliseconds.

ghost use Rattle.std.specs.Prelude.{◌≡◌, ◌≢◌, ℕ, ◌≤◌, ◌<◌, ◌+◌, ◌*◌, ◌↔◌, Bool, false, true, List, [], ◌∷◌, length, min, Some, IsTrue, All};
ghost use Rattle.sipl_tx.specs.declared.parts.Kind.{Kind};
ghost use Rattle.sipl_tx.specs.declared.parts.Kind.TheVariants.{Invite, Other};
ghost use Rattle.sipl_tx.specs.declared.parts.State.TheVariants.{Calling, Trying, Proceeding, Completed, Terminated};
ghost use Rattle.sipl_tx.specs.Timers.{ending_timer};
ghost use Rattle.sipl_tx.specs.Table.{no_acts, send_acts};
ghost use Rattle.sipl_tx.specs.Transaction.{Transaction, Event, new_transaction};
ghost use Rattle.sipl_tx.specs.Transaction.Event.{Response, Tick};
ghost use Rattle.sipl_tx.specs.Machine.{awaits_final};
ghost use Rattle.sipl_tx.specs.Runs.{step, run, acts_of, moments_of, deliveries_of, every_millisecond, moments_after, sends_request, reports_timeout, ends_transaction, IsFailure, IsTick, IsBefore, AreApart, EndsAtFinal};

/// A timeout is reported at most once, and only where a final response was awaited and timer B or F
/// ran: not for an INVITE in Proceeding.
pub fn timeout_is_reported_once()
    ensures once { (t : Transaction) (events : List Event) →
        length (moments_of reports_timeout t events) ≤ 1 }
    ensures awaiting { (t : Transaction) (event : Event) →
        IsTrue (reports_timeout (step t event).acts) → IsTrue (awaits_final t.kind t.state) }
    ensures timed { (t : Transaction) (event : Event) →
        IsTrue (reports_timeout (step t event).acts) → ending_timer t.kind t.state ≡ Some 32000 }
{}

/// The end is reported at most once: at the call that leads into Terminated.
pub fn end_is_reported_once()
    ensures once { (t : Transaction) (events : List Event) →
        length (moments_of ends_transaction t events) ≤ 1 }
    ensures there { (t : Transaction) (event : Event) →
        IsTrue (ends_transaction (step t event).acts)
        ↔ ((t.state ≢ Terminated) × ((step t event).transaction.state ≡ Terminated)) }
{}

/// In Terminated nothing is to be done any more, and nothing changes.
pub fn terminated_is_final()
    ensures no_acts { (t : Transaction) (events : List Event) → t.state ≡ Terminated →
        All (λ acts. acts ≡ no_acts) (acts_of t events) }
    ensures stays { (t : Transaction) (events : List Event) → t.state ≡ Terminated →
        run t events ≡ t }
{}

/// Over a reliable transport the request is sent at the start only.
pub fn reliable_requests_are_sent_once()
    ensures { (t : Transaction) (events : List Event) → IsTrue t.reliable →
        moments_of sends_request t events ≡ [] }
{}

/// A retransmission is the only act of its call, which is a tick, and comes at least T1 after the
/// last sending, whatever comes between.
pub fn retransmissions_are_t1_apart()
    ensures only_act { (t : Transaction) (event : Event) →
        IsTrue (sends_request (step t event).acts) → (step t event).acts ≡ send_acts }
    ensures at_ticks { (t : Transaction) (event : Event) →
        IsTrue (sends_request (step t event).acts) → IsTick event }
    ensures apart { (kind : Kind) (reliable : Bool) (start : ℕ) (events : List Event) →
        AreApart 500 start (moments_of sends_request (new_transaction kind reliable start) events) }
{}

/// The time of a transaction never decreases.
pub fn time_never_decreases()
    ensures { (t : Transaction) (events : List Event) → t.moment ≤ (run t events).moment }
{}

/// An INVITE is never Trying, another request never Calling, and none is Completed over a reliable
/// transport.
pub fn states_belong_to_the_kind()
    ensures invite { (reliable : Bool) (start : ℕ) (events : List Event) →
        (run (new_transaction Invite reliable start) events).state ≢ Trying }
    ensures other { (reliable : Bool) (start : ℕ) (events : List Event) →
        (run (new_transaction Other reliable start) events).state ≢ Calling }
    ensures reliable { (kind : Kind) (start : ℕ) (events : List Event) →
        (run (new_transaction kind true start) events).state ≢ Completed }
{}

/// After any events a tick that is 32,000 ms later ends the transaction, except an INVITE in
/// Proceeding, which waits for its user.
pub fn late_tick_terminates()
    ensures invite { (reliable : Bool) (start moment : ℕ) (events : List Event) →
        let t = run (new_transaction Invite reliable start) events in
        t.state ≢ Proceeding → t.moment + 32000 ≤ moment →
        (step t (Tick moment)).transaction.state ≡ Terminated }
    ensures other { (reliable : Bool) (start moment : ℕ) (events : List Event) →
        let t = run (new_transaction Other reliable start) events in
        t.moment + 32000 ≤ moment → (step t (Tick moment)).transaction.state ≡ Terminated }
{}

/// An INVITE over an unreliable transport stays Completed until 32,000 ms after its final response
/// (timer D, RFC 3261, 17.1.1.2): through all responses and all ticks before that time, and no
/// longer than the first tick at or after it.
pub fn invite_is_completed_for_timer_d()
    ensures before { (t : Transaction) (code : ℕ) (events : List Event) →
        t.kind ≡ Invite → IsTrue (awaits_final t.kind t.state) → t.reliable ≡ false →
        300 ≤ code → code ≤ 699 → All (IsBefore (t.moment + 32000)) events →
        (run (step t (Response code)).transaction events).state ≡ Completed }
    ensures end { (t : Transaction) (code moment : ℕ) (events : List Event) →
        t.kind ≡ Invite → IsTrue (awaits_final t.kind t.state) → t.reliable ≡ false →
        300 ≤ code → code ≤ 699 → All (IsBefore (t.moment + 32000)) events →
        t.moment + 32000 ≤ moment →
        (step (run (step t (Response code)).transaction events) (Tick moment)).transaction.state
        ≡ Terminated }
{}

/// Another request over an unreliable transport stays Completed until 5,000 ms after its final
/// response (timer K, RFC 3261, 17.1.2.2): through all responses and all ticks before that time,
/// and no longer than the first tick at or after it.
pub fn other_is_completed_for_timer_k()
    ensures before { (t : Transaction) (code : ℕ) (events : List Event) →
        t.kind ≡ Other → IsTrue (awaits_final t.kind t.state) → t.reliable ≡ false →
        200 ≤ code → code ≤ 699 → All (IsBefore (t.moment + 5000)) events →
        (run (step t (Response code)).transaction events).state ≡ Completed }
    ensures end { (t : Transaction) (code moment : ℕ) (events : List Event) →
        t.kind ≡ Other → IsTrue (awaits_final t.kind t.state) → t.reliable ≡ false →
        200 ≤ code → code ≤ 699 → All (IsBefore (t.moment + 5000)) events →
        t.moment + 5000 ≤ moment →
        (step (run (step t (Response code)).transaction events) (Tick moment)).transaction.state
        ≡ Terminated }
{}

/// A response that is awaited goes to the transaction user, and after a final one none does.
pub fn final_response_is_delivered_once()
    ensures delivered { (t : Transaction) (code : ℕ) →
        IsTrue (awaits_final t.kind t.state) → 100 ≤ code → code ≤ 699 →
        (step t (Response code)).acts.deliver ≡ Some code }
    ensures last { (t : Transaction) (events : List Event) → EndsAtFinal (deliveries_of t events) }
{}

/// Only an INVITE is acknowledged, and only for responses of 300 to 699: the ACK for a 2xx is the
/// transaction user's.
pub fn only_invite_failures_are_acknowledged()
    ensures kind { (t : Transaction) (event : Event) →
        IsTrue (step t event).acts.ack → t.kind ≡ Invite }
    ensures failure { (t : Transaction) (event : Event) →
        IsTrue (step t event).acts.ack → IsFailure event }
{}

/// An INVITE without any response, over an unreliable transport and with a tick at each
/// millisecond, is sent again after intervals that double from T1, and times out after 64 times T1.
pub fn invite_intervals_double()
    ensures sendings { (start ticks : ℕ) → 32000 ≤ ticks →
        moments_of sends_request (new_transaction Invite false start)
        (every_millisecond start ticks)
        ≡ moments_after start (500 ∷ 1500 ∷ 3500 ∷ 7500 ∷ 15500 ∷ 31500 ∷ []) }
    ensures timeout { (start ticks : ℕ) → 32000 ≤ ticks →
        moments_of reports_timeout (new_transaction Invite false start)
        (every_millisecond start ticks)
        ≡ moments_after start (32000 ∷ []) }
{}

/// Another request without any response, over an unreliable transport and with a tick at each
/// millisecond, is sent again after intervals that double from T1 up to T2, and times out after 64
/// times T1.
pub fn other_intervals_double_up_to_t2()
    ensures sendings { (start ticks : ℕ) → 32000 ≤ ticks →
        moments_of sends_request (new_transaction Other false start)
        (every_millisecond start ticks)
        ≡ moments_after start (500 ∷ 1500 ∷ 3500 ∷ 7500 ∷ 11500 ∷ 15500 ∷ 19500 ∷ 23500
        ∷ 27500 ∷ 31500 ∷ []) }
    ensures timeout { (start ticks : ℕ) → 32000 ≤ ticks →
        moments_of reports_timeout (new_transaction Other false start)
        (every_millisecond start ticks)
        ≡ moments_after start (32000 ∷ []) }
{}

/// Timer E runs on from Trying into Proceeding (RFC 3261, 17.1.2.2). While another request waits
/// for its final response over an unreliable transport, a provisional response changes its state
/// only, and a tick before the timer fires only its time. A later tick sends the request, and
/// starts the timer at that time: in Trying for twice its interval, up to T2, in Proceeding for T2.
pub fn timer_e_runs_on_in_proceeding()
    ensures provisional { (t : Transaction) (code : ℕ) →
        t.kind ≡ Other → IsTrue (awaits_final t.kind t.state) → 100 ≤ code → code < 200 →
        (step t (Response code)).transaction ≡ record t { state = Proceeding } }
    ensures running { (t : Transaction) (moment : ℕ) →
        t.kind ≡ Other → IsTrue (awaits_final t.kind t.state) → t.moment ≤ moment →
        moment < t.since + 32000 → moment < t.sent + t.interval →
        step t (Tick moment) ≡ record {
          transaction = record t { moment = moment };
          acts = no_acts;
        } }
    ensures trying { (t : Transaction) (moment : ℕ) →
        t.kind ≡ Other → t.state ≡ Trying → t.reliable ≡ false → t.moment ≤ moment →
        moment < t.since + 32000 → t.sent + t.interval ≤ moment →
        step t (Tick moment) ≡ record {
          transaction =
              record t { moment = moment; sent = moment; interval = min (2 * t.interval) 4000 };
          acts = send_acts;
        } }
    ensures proceeding { (t : Transaction) (moment : ℕ) →
        t.kind ≡ Other → t.state ≡ Proceeding → t.reliable ≡ false → t.moment ≤ moment →
        moment < t.since + 32000 → t.sent + t.interval ≤ moment →
        step t (Tick moment) ≡ record {
          transaction = record t { moment = moment; sent = moment; interval = 4000 };
          acts = send_acts;
        } }
{}
