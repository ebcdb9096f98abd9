//! Laws of every board. The functions do nothing: their contracts are the laws.
ghost use Rattle.std.specs.Prelude.{◌≡◌, ◌≢◌, ◌≤◌, ◌↔◌, ℕ, List, false, IsTrue};
ghost use Rattle.sipl_choice.specs.declared.endpoint.Endpoint.{Endpoint};
ghost use Rattle.sipl_outages.specs.Events.{after_all, AreAccepted, HasLastingHold};
ghost use Rattle.sipl_outages.specs.Holds.{Holds, BoardEvent, no_holds, end_of, is_held, after};
ghost use Rattle.sipl_outages.specs.Holds.BoardEvent.{Hold, Release};

/// After any accepted events on a new board an endpoint is held exactly where one of them is a
/// hold of it that was not released since and that ends after the present time.
pub fn held_exactly_while_a_hold_lasts()
    ensures { (max_holds : ℕ) → (events : List BoardEvent) → AreAccepted max_holds events no_holds
        → (endpoint : Endpoint)
        → IsTrue (is_held (after_all events no_holds) endpoint) ↔ HasLastingHold events endpoint }
{}

/// No accepted events set the clock back.
pub fn time_never_decreases()
    ensures { (max_holds : ℕ) → (events : List BoardEvent) → (holds : Holds)
        → AreAccepted max_holds events holds → holds.now ≤ (after_all events holds).now }
{}

/// A hold of 0 ms of an endpoint that is not held changes nothing.
pub fn hold_of_0_ms_holds_nothing_new()
    ensures { (endpoint : Endpoint) → (holds : Holds) → is_held holds endpoint ≡ false
        → after (Hold endpoint 0) holds ≡ holds }
{}

/// A hold, and a release, of one endpoint leaves the ends of the others.
pub fn other_endpoints_keep_their_ends()
    ensures hold { (endpoint other : Endpoint) → (ms : ℕ) → (holds : Holds) → other ≢ endpoint
        → end_of (after (Hold endpoint ms) holds) other ≡ end_of holds other }
    ensures release { (endpoint other : Endpoint) → (holds : Holds) → other ≢ endpoint
        → end_of (after (Release endpoint) holds) other ≡ end_of holds other }
{}
