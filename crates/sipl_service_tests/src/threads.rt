// Calls of several threads.
use crate::calls::{BOTH, Call, FIND, Found, find, play, play_alone};
use crate::gates::{Counting, Waiting, comes};
use crate::lookups::{BELOW_FOO, FOO, LOAD_WILDCARD, OUTDATE};
use crate::values::{
    OVER_TCP, SERVER_1, Scene, claims, close, closes_with, events, is_equal, keep, new_service,
    scene_of, turn_page,
};
use sipl_book::Page;
use sipl_choice::Transport;
use sipl_service::{ClaimFault, Go, Pass, Service};
use std::alloc::Global;
use std::process::Abort;
use std::sync::Wait;
use std::sync::atomic::{AtomicU64, Ordering};
use std::test::*;
use std::thread;
use std::thread::Threads;
use std::time::Clock;

// ---- receipts of two threads

fn plays<R: Wait + Abort>(scene: &Scene<R>, mut pass: Pass, calls: &[Call]) -> Pass {
    play(scene, &mut pass, calls);
    pass
}

// The passes of two callers: one loads the zone, adds a host and finds it, beside one that finds both
// servers.
fn two_callers<R: Threads + Wait + Abort + Sync>(scene: &Scene<R>) -> (Pass, Pass) {
    let first = plays(scene, scene.service.pass(), &[Call::Load]);
    let second = scene.service.pass();
    let added = Call::Add(b"other.example.com. A 192.0.2.50", 1);
    let other = Found::Targets(Transport::Udp, &[0xC000_0232]);
    let found = Call::Find(b"sip:other.example.com:5060", &[], other);
    thread::join(
        scene.rt,
        || plays(scene, first, &[added, found]),
        || plays(scene, second, &[FIND]),
    )
}

fn first_number(rt: &impl Abort, pass: &Pass) -> u64 {
    match pass.receipts().first() {
        Some(receipt) => receipt.number,
        None => panic!(rt; "no receipt"),
    }
}

// The claims of these pages, and of those after the first, which are empty if there are any, with a pass of
// another service and the two that have the receipts: with these two, with either missing, with the other
// service's first.
fn are_claims(rt: &impl Abort, alloc: Global, pages: &[Page], all: &[Pass; 3]) {
    let unclaimed = ClaimFault::Unclaimed(first_number(rt, &all[2]));
    let all = &all[..];
    is_equal(rt, &events(pages), &4);
    claims(rt, alloc, pages, &all[1..], Ok(()));
    claims(rt, alloc, pages, &all[1..2], Err(unclaimed));
    claims(rt, alloc, pages, &all[2..], Err(ClaimFault::Unclaimed(0)));
    claims(rt, alloc, pages, all, Err(ClaimFault::NotOurs(0)));
}

// The claims of an empty page that was turned after others, and of no page.
fn are_no_claims(rt: &impl Abort, alloc: Global, pages: &[Page], all: &[Pass; 3]) {
    let all = &all[..];
    let (empty, passes) = (pages.get(1..).unwrap_or(&[]), &all[1..]);
    is_equal(rt, &events(empty), &0);
    claims(rt, alloc, empty, passes, Err(ClaimFault::Gap(0)));
    claims(rt, alloc, &[], passes, Err(ClaimFault::NotOurs(0)));
}

fn pass_of_another<R: Wait + Abort>(rt: &R, alloc: Global) -> Pass {
    let other = new_service(rt, alloc, 1);
    let mut pass = other.pass();
    let advanced = other.advance(rt, &mut pass, 1);
    drop(other);
    advanced.expect(rt, "the time is refused");
    pass
}

fn are_the_journal<R: Threads + Wait + Abort + Sync>(rt: &R, alloc: Global, is_turned: bool) {
    let service = new_service(rt, alloc, 4);
    let (first, second) = two_callers(&scene_of(rt, alloc, &service));
    let passes = [pass_of_another(rt, alloc), first, second];
    let mut pages = Vec::new(alloc);
    if is_turned {
        keep(rt, &mut pages, turn_page(rt, &service));
    }
    keep(rt, &mut pages, close(rt, service));
    are_claims(rt, alloc, &pages, &passes);
    if is_turned {
        are_no_claims(rt, alloc, &pages, &passes);
    }
    drop(pages);
    drop(passes);
}

// The second: a_page_turned_after_the_last_event_is_claimed_with_an_empty_one
#[test]
fn the_receipts_of_two_threads_are_the_journal(rt: HostRuntime) {
    are_the_journal(&rt, rt.alloc(), false);
    are_the_journal(&rt, rt.alloc(), true);
}

// ---- pages that are turned beside calls

fn turn_pages<R: Wait + Abort>(scene: &Scene<R>) -> Vec<Page> {
    let mut pages = Vec::new(scene.alloc);
    for _ in 0..50 {
        keep(scene.rt, &mut pages, turn_page(scene.rt, scene.service));
    }
    pages
}

// Loads the zone and finds its servers, again and again.
fn finds<R: Wait + Abort>(scene: &Scene<R>, mut pass: Pass) -> Pass {
    play(scene, &mut pass, &[Call::Load]);
    for _ in 0..200 {
        play(scene, &mut pass, &[FIND]);
    }
    pass
}

fn turned_beside<R: Threads + Wait + Abort + Sync>(scene: &Scene<R>) -> (Vec<Page>, Pass) {
    let pass = scene.service.pass();
    thread::join(scene.rt, || turn_pages(scene), || finds(scene, pass))
}

#[test]
fn pages_turned_beside_calls_are_claimed(rt: HostRuntime) {
    let service = new_service(&rt, rt.alloc(), 16);
    let scene = scene_of(&rt, rt.alloc(), &service);
    let (mut pages, pass) = turned_beside(&scene);
    keep(&rt, &mut pages, close(&rt, service));
    let passes = [pass];
    claims(&rt, rt.alloc(), &pages, &passes, Ok(()));
    drop(passes);
    drop(pages);
}

// ---- a lookup beside one that is held

fn held<R: Wait + Abort + Clock>(scene: &Scene<R>, gate: &Waiting<R>) {
    let mut pass = scene.service.pass();
    find(scene, &mut pass, OVER_TCP, &[2, 0], BOTH, gate);
    drop(pass);
}

fn answered<R: Wait + Abort + Clock>(scene: &Scene<R>, gate: &Waiting<R>) {
    assert!(scene.rt; comes(scene.rt, &gate.is_held), "no lookup is held");
    play_alone(scene, &[FIND]);
    gate.is_answered.store(1, Ordering::SeqCst);
}

fn overtaken<R: Threads + Wait + Abort + Clock + Sync>(scene: &Scene<R>) {
    play_alone(scene, &[Call::Load]);
    let gate = Waiting {
        clock: scene.rt,
        is_held: AtomicU64::new(0),
        is_answered: AtomicU64::new(0),
    };
    thread::join(scene.rt, || held(scene, &gate), || answered(scene, &gate));
    drop(gate);
}

#[test]
fn a_lookup_overtakes_one_that_is_held(rt: HostRuntime) {
    let service = new_service(&rt, rt.alloc(), 4);
    overtaken(&scene_of(&rt, rt.alloc(), &service));
    drop(service);
}

// ---- workers

// Calls after which an entry is outdated, and how many events they are.
const OUTDATED: &[(&[Call], usize)] = &[
    // workers_repair_until_the_service_is_stopped
    (OUTDATE, 3),
    // workers_are_woken_where_existence_alone_changes
    (
        &[
            Call::Load,
            Call::Add(b"*.example.com. A 192.0.2.9", 1),
            Call::Find(FOO, &[], Found::Targets(Transport::Udp, &[0xC000_0209])),
            Call::Add(BELOW_FOO, 0),
        ],
        4,
    ),
];

// An entry becomes outdated, and a worker looks it up again.
fn waits<R: Wait + Abort + Clock>(scene: &Scene<R>, calls: &[Call], gate: &Counting) {
    play_alone(scene, calls);
    let is_repaired = comes(scene.rt, &gate.first_worker);
    scene.service.stop(scene.rt);
    assert!(scene.rt; is_repaired, "no worker has repaired the entry");
}

fn repaired<R: Threads + Wait + Abort + Clock + Sync>(scene: &Scene<R>, calls: &[Call]) {
    let gate = Counting::new(1, Go::On);
    thread::join(
        scene.rt,
        || scene.service.run_workers(scene.rt, 1, &gate),
        || waits(scene, calls, &gate),
    );
    drop(gate);
}

fn repair<R: Threads + Wait + Abort + Clock + Sync>(
    rt: &R,
    alloc: Global,
    rows: &[(&[Call], usize)],
) {
    for (calls, events) in rows {
        let service = new_service(rt, alloc, 4);
        repaired(&scene_of(rt, alloc, &service), calls);
        closes_with(rt, service, *events);
    }
}

#[test]
fn workers_repair_until_the_service_is_stopped(rt: HostRuntime) {
    repair(&rt, rt.alloc(), OUTDATED);
}

// ---- versions of sets that callers read

// Two callers read the same sets: those that are not empty have one version each.
fn reads_twice<R: Wait + Abort>(scene: &Scene<R>) {
    play_alone(scene, &[Call::Load, FIND, Call::Versions(4)]);
    play_alone(
        scene,
        &[Call::Find(OVER_TCP, &[2, 0], BOTH), Call::Versions(4)],
    );
}

// The versions go with the page; a lookup that reads has its own.
fn turns_and_reads<R: Wait + Abort>(scene: &Scene<R>) {
    reads_twice(scene);
    let page = turn_page(scene.rt, scene.service);
    is_equal(scene.rt, &page.events().len(), &3);
    let server = Found::Targets(Transport::Tcp, &[SERVER_1]);
    let found = Call::Find(b"sip:server1.example.com:5060;transport=tcp", &[], server);
    play_alone(scene, &[Call::Versions(0), found, Call::Versions(1)]);
    drop(page);
}

// sets_that_another_caller_read_are_not_read_again
#[test]
fn versions_are_let_go_of_with_a_page(rt: HostRuntime) {
    let service = new_service(&rt, rt.alloc(), 4);
    turns_and_reads(&scene_of(&rt, rt.alloc(), &service));
    drop(service);
}

// Two callers read what is above their names, of which the wildcard's set alone has a version.
fn read_existence<R: Threads + Wait + Abort + Sync>(scene: &Scene<R>) {
    play_alone(scene, LOAD_WILDCARD);
    let found = Found::Targets(Transport::Udp, &[0xC000_0209]);
    let foo = Call::Find(FOO, &[], found);
    let bar = Call::Find(b"sip:x.bar.example.com:5060", &[], found);
    thread::join(
        scene.rt,
        || play_alone(scene, &[foo]),
        || play_alone(scene, &[bar]),
    );
    play_alone(scene, &[Call::Versions(1)]);
}

#[test]
fn existence_has_no_versions(rt: HostRuntime) {
    let service = new_service(&rt, rt.alloc(), 4);
    read_existence(&scene_of(&rt, rt.alloc(), &service));
    drop(service);
}
