//! Calls that no line makes: over targets of several transports, with a clock of their own, of attempts that
//! were not sent (RFC 3263, 4.3). The sessions of `tests/sessions/calls` have the rest.

use crate::assertions::{expects, expects_equal, expects_equal_at};
use Call::{Receive, Tick, TransportError};
use sipl_choice::Endpoint;
use sipl_choice::Transport::{Sctp, Tcp, Tls, Udp};
use sipl_failover::FailoverFault::{ClockBack, Ended, NoAttempt, NoTargets};
use sipl_failover::Step::{Deliver, Exhausted, Hold, Resend, Send};
use sipl_failover::{Failover, FailoverFault, Step, Steps};
use sipl_records::Address;
use sipl_tx::Kind;
use std::alloc::Global;
use std::process::Abort;

#[derive(Clone, Copy)]
enum Call {
    Receive(u32, u16, Option<u32>),
    TransportError,
    Tick(u32),
}

// A call, and its steps or its fault.
type Row = (Call, Result<&'static [Step], FailoverFault>);

const TLS: Endpoint = Endpoint {
    transport: Tls,
    address: Address::V4(0xC000_0201),
    port: 5061,
};

const SCTP: Endpoint = Endpoint {
    transport: Sctp,
    ..TLS
};

const UDP: Endpoint = Endpoint {
    transport: Udp,
    ..TLS
};

const TCP: Endpoint = Endpoint {
    transport: Tcp,
    ..TLS
};

const OTHER_TCP: Endpoint = Endpoint { port: 5062, ..TCP };

// Over TCP nothing is sent again; over UDP timers A and B count from the second sending.
const OVER_TCP_AND_UDP: &[Row] = &[
    (Tick(500), Ok(&[])),
    (Tick(32_000), Ok(&[Hold(TCP, 30_000), Send(2)])),
    (Tick(32_499), Ok(&[])),
    (Tick(32_500), Ok(&[Resend])),
    (Tick(63_999), Ok(&[Resend])),
    (Tick(64_000), Ok(&[Hold(UDP, 30_000), Send(3)])),
    (Tick(95_999), Ok(&[])),
    (
        Tick(96_000),
        Ok(&[Hold(OTHER_TCP, 30_000), Deliver(408), Exhausted]),
    ),
];

const OVER_TLS_AND_SCTP: &[Row] = &[
    (Receive(1, 183, None), Ok(&[Deliver(183)])),
    (TransportError, Ok(&[Hold(TLS, 30_000), Send(2)])),
    (
        TransportError,
        Ok(&[Hold(SCTP, 30_000), Deliver(500), Exhausted]),
    ),
];

// In a session the time of the holds is refused first, and an ended call is not told the time.
const REFUSALS: &[Row] = &[
    (Tick(400), Ok(&[])),
    (Tick(399), Err(ClockBack)),
    (Tick(500), Ok(&[Resend])),
    (Receive(1, 200, None), Ok(&[Deliver(200)])),
    (Tick(0), Err(Ended)),
];

fn result_of(failover: &mut Failover, call: Call) -> Result<Steps, FailoverFault> {
    match call {
        Receive(attempt, code, retry_after) => failover.receive(attempt, code, retry_after),
        TransportError => failover.transport_error(),
        Tick(now) => failover.tick(u64::from(now)),
    }
}

fn gives(rt: &impl Abort, found: &Result<Steps, FailoverFault>, expected: &Row, place: usize) {
    match (found, expected.1) {
        (Ok(steps), Ok(expected)) => expects_equal_at(rt, &steps.as_slice(), &expected, &place),
        (found, expected) => {
            let fault = found.as_ref().err().copied();
            expects_equal_at(rt, &fault, &expected.err(), &place);
        }
    }
}

fn make_each(rt: &impl Abort, failover: &mut Failover, rows: &[Row]) {
    for (place, row) in rows.iter().enumerate() {
        let found = result_of(failover, row.0);
        gives(rt, &found, row, place);
    }
}

// The failover of an INVITE over at most 2,048 targets that is sent at time 0.
fn start(rt: &impl Abort, alloc: Global, targets: &[Endpoint]) -> Failover {
    let first = &targets[..targets.len().min(2_048)];
    let targets = Vec::from_slice(alloc, first).expect(rt, "out of memory");
    let (failover, steps) = Failover::start(targets, Kind::Invite, 9, 0).expect(rt, "F1");
    expects_equal(rt, &steps.as_slice(), &[Send(1)].as_slice(), "the steps");
    failover
}

// It alone owns a failover.
fn play(rt: &impl Abort, alloc: Global, targets: &[Endpoint], rows: &[Row]) {
    let mut failover = start(rt, alloc, targets);
    make_each(rt, &mut failover, rows);
    drop(failover);
}

fn fault_without_targets(alloc: Global) -> Option<FailoverFault> {
    Failover::start(Vec::new(alloc), Kind::Invite, 9, 0).err()
}

// The attempt has neither an endpoint nor a branch.
fn is_unsent(rt: &impl Abort, alloc: Global, failover: &Failover, attempt: u32) {
    let mut out = Vec::new(alloc);
    let branch = failover.branch(attempt, &mut out);
    let is_empty = out.is_empty();
    drop(out);
    let unsent = Some(NoAttempt);
    expects_equal(
        rt,
        &failover.endpoint(attempt).err(),
        &unsent,
        "the endpoint",
    );
    expects_equal(rt, &branch.err(), &unsent, "the branch");
    expects(rt, is_empty, "a part of a branch");
}

// The first attempt alone was sent: a CANCEL goes to it, and to none after the end.
fn are_unsent(rt: &impl Abort, alloc: Global, failover: &mut Failover) {
    is_unsent(rt, alloc, failover, 0);
    is_unsent(rt, alloc, failover, 2);
    expects_equal(rt, &failover.cancel_target(), &Some(1), "a CANCEL");
    let _steps = failover.receive(1, 486, None);
    expects_equal(rt, &failover.cancel_target(), &None, "a CANCEL");
}

fn play_unsent(rt: &impl Abort, alloc: Global) {
    let mut failover = start(rt, alloc, &[TCP]);
    are_unsent(rt, alloc, &mut failover);
    drop(failover);
}

#[test]
fn each_attempt_follows_the_timers_of_its_own_transport(rt: HostRuntime) {
    let alloc = rt.alloc();
    play(&rt, alloc, &[TCP, UDP, OTHER_TCP], OVER_TCP_AND_UDP);
    play(&rt, alloc, &[TLS, SCTP], OVER_TLS_AND_SCTP);
    play(&rt, alloc, &[UDP, TCP], REFUSALS);
    play_unsent(&rt, alloc);
    let fault = fault_without_targets(alloc);
    expects_equal(&rt, &fault, &Some(NoTargets), "no targets");
}
