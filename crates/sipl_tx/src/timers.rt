//! The timers of RFC 3261, section 17.1 and its table 4, in milliseconds.

ghost use Rattle.std.specs.Prelude.{◌≡◌, ◌*◌, ◌<◌, ◌^◌};
ghost use Rattle.sipl_tx.specs.Timers.{ending_timer, retransmits, next_interval};

use crate::parts::{Kind, State};

/// T1, the estimate of the round-trip time and the first interval of timers A and E, in
/// milliseconds.
pub const T1: u64 = 500;

/// T2, the greatest interval of timer E, in milliseconds.
pub const T2: u64 = 4_000;

/// T4, how long a message can stay in the network, and timer K, in milliseconds.
pub const T4: u64 = 5_000;

/// Timers B and F, in milliseconds: 64 times T1, counted from the start.
pub const TIMEOUT: u64 = 64 * T1;

/// Timer D for an unreliable transport, in milliseconds: at least 32 seconds.
pub const TIMER_D: u64 = 32_000;

// How long the timer that ends a transaction in this state runs.
pub(crate) fn ending_length(kind: Kind, state: State) -> Option<u64>
    ensures { result ≡ ending_timer kind state }
{
    match (kind, state) {
        (Kind::Invite, State::Calling) => Some(TIMEOUT),
        (Kind::Other, State::Trying | State::Proceeding) => Some(TIMEOUT),
        (Kind::Invite, State::Completed) => Some(TIMER_D),
        (Kind::Other, State::Completed) => Some(T4),
        _ => None,
    }
}

// Whether a timer that sends the request again runs in this state.
pub(crate) fn has_retransmissions(kind: Kind, reliable: bool, state: State) -> bool
    ensures { result ≡ retransmits kind reliable state }
{
    match (kind, state) {
        (Kind::Invite, State::Calling) => !reliable,
        (Kind::Other, State::Trying | State::Proceeding) => !reliable,
        _ => false,
    }
}

// The interval of timer A or E once it has fired.
pub(crate) fn interval_after(kind: Kind, state: State, interval: u64) -> u64
    requires { 2 * interval < 2 ^ 64 }
    ensures { result ≡ next_interval kind state interval }
{
    match (kind, state) {
        (Kind::Invite, _) => 2 * interval,
        (Kind::Other, State::Proceeding) => T2,
        (Kind::Other, _) => T2.min(2 * interval),
    }
}
