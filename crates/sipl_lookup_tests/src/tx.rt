//! What a call shows nothing of: a transaction in Completed, the timers D and K that end it, and its own
//! refusals (RFC 3261, figures 5 and 6). The sessions of `tests/sessions/calls` have the rest.

use crate::assertions::{expects_equal, expects_equal_at};
use Event::{Receive, Tick, TransportError};
use sipl_tx::State::{Calling, Completed, Proceeding, Terminated, Trying};
use sipl_tx::TxFault::{BadCode, ClockBack, Ended};
use sipl_tx::{Acts, ClientTx, Kind, Report, State, TxFault};
use std::process::Abort;

#[derive(Clone, Copy)]
enum Event {
    Receive(u16),
    TransportError,
    Tick(u32),
}

// An event, its result, and the state after it.
type Step = (Event, Result<Acts, TxFault>, State);

const NO_ACTS: Acts = Acts {
    send: false,
    ack: false,
    deliver: None,
    report: None,
    ended: false,
};

const SEND: Acts = Acts {
    send: true,
    ..NO_ACTS
};

const ACK: Acts = Acts {
    ack: true,
    ..NO_ACTS
};

const ENDED: Acts = Acts {
    ended: true,
    ..NO_ACTS
};

const BROKEN_AND_ENDED: Acts = Acts {
    report: Some(Report::Broken),
    ..ENDED
};

const DELIVER_100: Acts = Acts {
    deliver: Some(100),
    ..NO_ACTS
};

const DELIVER_200: Acts = Acts {
    deliver: Some(200),
    ..NO_ACTS
};

const DELIVER_404_AND_END: Acts = Acts {
    deliver: Some(404),
    ..ENDED
};

const ACK_486: Acts = Acts {
    deliver: Some(486),
    ..ACK
};

const ACK_699: Acts = Acts {
    deliver: Some(699),
    ..ACK
};

const ACK_503_AND_END: Acts = Acts {
    deliver: Some(503),
    ack: true,
    ..ENDED
};

// Timer D counts from the first final response only.
const INVITE_FAILS: &[Step] = &[
    (Tick(500), Ok(SEND), Calling),
    (Tick(700), Ok(NO_ACTS), Calling),
    (Receive(486), Ok(ACK_486), Completed),
    (Tick(1_500), Ok(NO_ACTS), Completed),
    (Tick(20_000), Ok(NO_ACTS), Completed),
    (Receive(486), Ok(ACK), Completed),
    (Receive(200), Ok(NO_ACTS), Completed),
    (Receive(180), Ok(NO_ACTS), Completed),
    (Tick(32_000), Ok(NO_ACTS), Completed),
    (Tick(32_699), Ok(NO_ACTS), Completed),
    (Receive(600), Ok(ACK), Completed),
    (Tick(32_700), Ok(ENDED), Terminated),
    (Receive(486), Err(Ended), Terminated),
];

// Over TCP there is no Completed.
const RELIABLE_INVITE_FAILS: &[Step] = &[
    (Tick(500), Ok(NO_ACTS), Calling),
    (Receive(503), Ok(ACK_503_AND_END), Terminated),
];

const RELIABLE_REQUEST_FAILS: &[Step] = &[(Receive(404), Ok(DELIVER_404_AND_END), Terminated)];

const OPTIONS_SUCCEEDS: &[Step] = &[
    (Tick(700), Ok(SEND), Trying),
    (Receive(100), Ok(DELIVER_100), Proceeding),
    (Receive(200), Ok(DELIVER_200), Completed),
    (Tick(1_700), Ok(NO_ACTS), Completed),
    (Tick(3_000), Ok(NO_ACTS), Completed),
    (Receive(200), Ok(NO_ACTS), Completed),
    (Receive(404), Ok(NO_ACTS), Completed),
    (Tick(5_699), Ok(NO_ACTS), Completed),
    (Tick(5_700), Ok(ENDED), Terminated),
];

const BREAKS_IN_COMPLETED: &[Step] = &[(TransportError, Ok(BROKEN_AND_ENDED), Terminated)];

// The time comes before the end, and the code before both.
const REFUSALS: &[Step] = &[
    (Tick(400), Ok(NO_ACTS), Calling),
    (Tick(399), Err(ClockBack), Calling),
    (Receive(99), Err(BadCode), Calling),
    (Receive(700), Err(BadCode), Calling),
    (Tick(500), Ok(SEND), Calling),
    (Receive(699), Ok(ACK_699), Completed),
    (Tick(40_000), Ok(ENDED), Terminated),
    (Tick(39_999), Err(ClockBack), Terminated),
    (Tick(40_000), Err(Ended), Terminated),
    (Receive(99), Err(BadCode), Terminated),
    (Receive(200), Err(Ended), Terminated),
    (TransportError, Err(Ended), Terminated),
];

fn result_of(transaction: &mut ClientTx, event: Event) -> Result<Acts, TxFault> {
    match event {
        Receive(code) => transaction.receive(code, Some(5)),
        TransportError => transaction.transport_error(),
        Tick(now) => transaction.tick(u64::from(now)),
    }
}

fn take_each(rt: &impl Abort, transaction: &mut ClientTx, steps: &[Step]) {
    for (place, &(event, expected, state)) in steps.iter().enumerate() {
        let found = result_of(transaction, event);
        expects_equal_at(rt, &found, &expected, &place);
        expects_equal_at(rt, &transaction.state(), &state, &place);
    }
}

// Takes the steps with a transaction that starts at time 0, which sends its request.
fn play(rt: &impl Abort, kind: Kind, reliable: bool, steps: &[Step]) {
    let (mut transaction, acts) = ClientTx::start(kind, reliable, 0);
    expects_equal(rt, &acts, &SEND, "the first acts");
    take_each(rt, &mut transaction, steps);
}

// The same after a 300.
fn play_completed(rt: &impl Abort, kind: Kind, steps: &[Step]) {
    let (mut transaction, _acts) = ClientTx::start(kind, false, 0);
    let _acts = transaction.receive(300, None);
    expects_equal(rt, &transaction.state(), &Completed, "the state");
    take_each(rt, &mut transaction, steps);
}

#[test]
fn a_transaction_is_completed_until_timer_d_or_k(rt: HostRuntime) {
    play(&rt, Kind::Invite, false, INVITE_FAILS);
    play(&rt, Kind::Invite, true, RELIABLE_INVITE_FAILS);
    play(&rt, Kind::Other, true, RELIABLE_REQUEST_FAILS);
    play(&rt, Kind::Other, false, OPTIONS_SUCCEEDS);
    play_completed(&rt, Kind::Invite, BREAKS_IN_COMPLETED);
    play_completed(&rt, Kind::Other, BREAKS_IN_COMPLETED);
    play(&rt, Kind::Invite, false, REFUSALS);
}
