// Lookups and repairs that gates edit beside or stop, and calls that are refused.
use crate::calls::{BOTH, Call, FIND, Found, find, is_found, look_up, play, play_alone};
use crate::gates::{Counting, Editing, comes, rest};
use crate::values::{
    ADDRESS_2, ADDRESS_11, BOB, OVER_TCP, SERVER_1, SERVER_2, SERVER_11, Scene, closes_with,
    endpoint, is_equal, new_service, question, record, scene_of,
};
use sipl_book::Edit;
use sipl_choice::Transport;
use sipl_service::{Go, OpenGate, Pass, Service, ServiceFault};
use std::alloc::Global;
use std::process::Abort;
use std::sync::Wait;
use std::sync::atomic::Ordering;
use std::test::*;
use std::thread;
use std::thread::Threads;
use std::time::Clock;

pub(crate) const FOO: &[u8] = b"sip:foo.example.com:5060";

/// The zone with a wildcard, where no name `foo` exists.
pub(crate) const LOAD_WILDCARD: &[Call] = &[
    Call::Load,
    Call::Add(b"*.example.com. A 192.0.2.9", 1),
];

pub(crate) const BELOW_FOO: &[u8] = b"x.foo.example.com. TXT y";

/// An entry that an edit outdates.
pub(crate) const OUTDATE: &[Call] = &[Call::Load, FIND, Call::Remove(ADDRESS_2)];

// ---- sets that change beside a lookup

// A URI and its random words.
type Asked = (&'static [u8], &'static [u32]);

// What is loaded, what is asked, and the read of it at which another caller adds a record.
type Contention = (&'static [Call], Asked, u64, &'static [u8]);

const OF_A_SET: Contention = (&[Call::Load], (OVER_TCP, &[2, 0]), 3, ADDRESS_11);

const OF_EXISTENCE: Contention = (LOAD_WILDCARD, (FOO, &[]), 4, BELOW_FOO);

const ALL_THREE: Found = Found::Targets(Transport::Tcp, &[SERVER_2, SERVER_1, SERVER_11]);

// With so many tries.
const CONTENTIONS: &[(Contention, u64, Found)] = &[
    // a_lookup_is_refused_where_a_set_changes_in_each_try
    (OF_A_SET, 1, Found::Contended(b"server1.example.com. A")),
    // a_lookup_is_tried_again_where_a_set_changes
    (OF_A_SET, 2, ALL_THREE),
    // a_lookup_is_refused_where_existence_changes_in_each_try
    (
        OF_EXISTENCE,
        1,
        Found::Contended(b"foo.example.com. EXISTS"),
    ),
    // a_lookup_is_tried_again_where_existence_changes
    (OF_EXISTENCE, 2, Found::NoAddress),
];

fn edits_beside<R: Wait + Abort>(scene: &Scene<R>, row: &Contention, found: Found) {
    let (calls, (uri, words), at, record) = *row;
    let mut pass = scene.service.pass();
    play(scene, &mut pass, calls);
    let gate = Editing::new(scene, record, at, Go::On);
    find(scene, &mut pass, uri, words, found, &gate);
    drop(gate);
    drop(pass);
}

fn contends<R: Wait + Abort>(rt: &R, alloc: Global, row: &(Contention, u64, Found)) {
    assert!(rt; row.1 == 1 || row.1 == 2);
    let service = new_service(rt, alloc, row.1);
    edits_beside(&scene_of(rt, alloc, &service), &row.0, row.2);
    drop(service);
}

fn contend<R: Wait + Abort>(rt: &R, alloc: Global, rows: &[(Contention, u64, Found)]) {
    for row in rows {
        contends(rt, alloc, row);
    }
}

#[test]
fn a_lookup_is_tried_again_where_what_it_read_changes(rt: HostRuntime) {
    contend(&rt, rt.alloc(), CONTENTIONS);
}

// ---- lookups that are stopped or refused

fn has_receipts(rt: &impl Abort, pass: &Pass, count: usize) {
    is_equal(rt, &pass.receipts().len(), &count);
}

fn stops_at<R: Wait + Abort>(scene: &Scene<R>, pass: &mut Pass, at: u64, found: Found) {
    let gate = Counting::new(at, Go::Stop);
    find(scene, pass, BOB, &[2, 0], found, &gate);
    drop(gate);
}

// Lookups that are stopped at each of their four reads leave no receipt. With a fifth one none comes.
fn stops_at_each_read<R: Wait + Abort>(scene: &Scene<R>) {
    let mut pass = scene.service.pass();
    play(scene, &mut pass, &[Call::Load]);
    for at in 1..=4 {
        stops_at(scene, &mut pass, at, Found::Fault("L6"));
        has_receipts(scene.rt, &pass, 1);
    }
    stops_at(scene, &mut pass, 5, BOTH);
    has_receipts(scene.rt, &pass, 2);
    drop(pass);
}

#[test]
fn a_lookup_that_is_stopped_leaves_no_receipt(rt: HostRuntime) {
    let service = new_service(&rt, rt.alloc(), 4);
    stops_at_each_read(&scene_of(&rt, rt.alloc(), &service));
    closes_with(&rt, service, 2);
}

// The pass of an event of one service, with another one, which has none.
fn is_ahead<R: Wait + Abort>(rt: &R, alloc: Global, service: &Service, other: &Service) {
    let mut pass = other.pass();
    play(&scene_of(rt, alloc, other), &mut pass, &[Call::Hold(1)]);
    let ahead = Call::Find(BOB, &[], Found::Ahead(0, 1));
    play(&scene_of(rt, alloc, service), &mut pass, &[ahead]);
    drop(pass);
}

#[test]
fn a_pass_that_has_seen_more_is_refused(rt: HostRuntime) {
    let (service, other) = (
        new_service(&rt, rt.alloc(), 1),
        new_service(&rt, rt.alloc(), 1),
    );
    is_ahead(&rt, rt.alloc(), &service, &other);
    drop(other);
    drop(service);
}

fn is_stopped(rt: &impl Abort, refused: Option<ServiceFault>) {
    let is_so = matches!(&refused, Some(ServiceFault::Stopped));
    drop(refused);
    assert!(rt; is_so, "not stopped");
}

// The calls that are refused after `stop`; one of them would be refused for another reason as well.
fn refuses<R: Wait + Abort>(scene: &Scene<R>, pass: &mut Pass) {
    let Scene { rt, alloc, service } = *scene;
    find(scene, pass, BOB, &[], Found::Fault("L6"), &OpenGate);
    let edit = Edit::Add(record(rt, alloc, ADDRESS_11));
    is_stopped(rt, service.edit(rt, pass, edit).err());
    let server = endpoint(Transport::Tcp, SERVER_1);
    is_stopped(rt, service.hold(rt, pass, &server, 1).err());
    is_stopped(rt, service.release(rt, pass, &server).err());
    is_stopped(rt, service.advance(rt, pass, 1).err());
    is_stopped(rt, service.repair(rt).err());
    is_stopped(rt, service.turn_page(rt).err());
    let question = question(rt, alloc, BOB);
    let found = service.deps(rt, &question);
    drop(question);
    is_stopped(rt, found.err());
}

fn stops<R: Wait + Abort>(scene: &Scene<R>) {
    let mut pass = scene.service.pass();
    play(scene, &mut pass, &[Call::Load]);
    stops_at(scene, &mut pass, 1, Found::Fault("L6"));
    play(scene, &mut pass, &[FIND]);
    scene.service.stop(scene.rt);
    refuses(scene, &mut pass);
    has_receipts(scene.rt, &pass, 2);
    drop(pass);
}

#[test]
fn a_stopped_service_refuses(rt: HostRuntime) {
    let service = new_service(&rt, rt.alloc(), 1);
    stops(&scene_of(&rt, rt.alloc(), &service));
    closes_with(&rt, service, 2);
}

// ---- repairs

// Whether Bob's question has a current answer, of one target: its lookup, which a read would stop, calls
// no gate.
fn is_current<R: Wait + Abort>(scene: &Scene<R>, pass: &mut Pass) -> bool {
    let gate = Counting::new(1, Go::Stop);
    let told = look_up(scene, pass, BOB, &[2, 0], &gate);
    let is_so = is_found(scene, &told, Found::Targets(Transport::Tcp, &[SERVER_1]));
    drop(told);
    let calls = gate.callers.load(Ordering::SeqCst);
    drop(gate);
    is_so && calls == 0
}

fn repairs<R: Wait + Abort>(scene: &Scene<R>) {
    let mut pass = scene.service.pass();
    play(scene, &mut pass, OUTDATE);
    let is_repaired = scene.service.repair(scene.rt).is_ok();
    let is_current = is_current(scene, &mut pass);
    drop(pass);
    assert!(scene.rt; is_repaired && is_current, "not repaired");
}

#[test]
fn a_repaired_entry_is_current(rt: HostRuntime) {
    let service = new_service(&rt, rt.alloc(), 1);
    repairs(&scene_of(&rt, rt.alloc(), &service));
    drop(service);
}

// Whether others can repair what the worker has begun, in so many turns at most.
fn is_repaired<R: Wait + Clock + Abort>(scene: &Scene<R>, pass: &mut Pass) -> bool {
    for _ in 0..1000 {
        if scene.service.repair(scene.rt).is_ok() && is_current(scene, pass) {
            return true;
        }
        rest(scene.rt);
    }
    false
}

// An entry becomes outdated, and the worker that looks it up again is stopped: others repair it.
fn gives_back<R: Wait + Clock + Abort>(scene: &Scene<R>, gate: &Counting) {
    let mut pass = scene.service.pass();
    play(scene, &mut pass, OUTDATE);
    let is_so = comes(scene.rt, &gate.first_worker) && is_repaired(scene, &mut pass);
    drop(pass);
    scene.service.stop(scene.rt);
    assert!(scene.rt; is_so, "no lease was given back");
}

fn worker_stops<R: Threads + Wait + Clock + Abort + Sync>(scene: &Scene<R>, at: u64) {
    let gate = Counting::new(at, Go::Stop);
    thread::join(
        scene.rt,
        || scene.service.run_workers(scene.rt, 1, &gate),
        || gives_back(scene, &gate),
    );
    drop(gate);
}

// The zone, two answers and the removal are the events.
fn stops_a_worker<R: Threads + Wait + Clock + Abort + Sync>(rt: &R, alloc: Global, at: u64) {
    let service = new_service(rt, alloc, 4);
    worker_stops(&scene_of(rt, alloc, &service), at);
    closes_with(rt, service, 4);
}

#[test]
fn a_worker_that_is_stopped_gives_its_lease_back(rt: HostRuntime) {
    for at in 1..=9 {
        stops_a_worker(&rt, rt.alloc(), at);
    }
}

// An edit is made while the worker's run is stopped, before it sleeps. It goes on with what is queued.
fn goes_on<R: Wait + Clock + Abort>(scene: &Scene<R>, gate: &Editing) {
    play_alone(scene, OUTDATE);
    let goes_on = comes(scene.rt, &gate.later);
    scene.service.stop(scene.rt);
    assert!(scene.rt; goes_on, "the edit was missed");
}

fn edits_while_stopped<R: Threads + Wait + Clock + Abort + Sync>(scene: &Scene<R>) {
    let gate = Editing::new(scene, ADDRESS_11, 1, Go::Stop);
    thread::join(
        scene.rt,
        || scene.service.run_workers(scene.rt, 1, &gate),
        || goes_on(scene, &gate),
    );
    drop(gate);
}

#[test]
fn a_worker_that_was_stopped_does_not_miss_an_edit(rt: HostRuntime) {
    let service = new_service(&rt, rt.alloc(), 4);
    edits_while_stopped(&scene_of(&rt, rt.alloc(), &service));
    drop(service);
}
