//! Queues and leases that no script shows: of many ids, of several queues, and what a queue tells of itself.
//! `tests/sessions/repairs` has the rest.

use crate::assertions::{expects, expects_at, expects_equal, expects_equal_at};
use sipl_repair::{Lease, Queue, QueueFault};
use std::alloc::Global;
use std::ops::Range;
use std::process::Abort;

const MANY: u64 = 65_536;

// No assertion is where a queue or a lease is owned: each is an exit, at which the proof shows what
// becomes of the owned value. So `play` alone owns a queue, each scenario borrows it, and a lease is
// spent before its id is compared.
enum Scenario {
    States,
    Capacity,
    ForgetsMany,
    KeepsTheOrder,
    LeasesOfAnother,
    ReusesSpace,
}

// Plays a scenario with a new queue of this capacity.
fn play(rt: &impl Abort, alloc: Global, capacity: usize, scenario: Scenario) {
    let mut queue = queue_of(rt, alloc, capacity);
    run(rt, alloc, &mut queue, scenario);
    drop(queue);
}

fn queue_of(rt: &impl Abort, alloc: Global, capacity: usize) -> Queue {
    let mut queue = Queue::new(alloc);
    queue.reserve(capacity).expect(rt, "out of memory");
    queue
}

fn run(rt: &impl Abort, alloc: Global, queue: &mut Queue, scenario: Scenario) {
    match scenario {
        Scenario::States => states_of_one(rt, queue),
        Scenario::Capacity => capacity_of_one(rt, queue),
        Scenario::ForgetsMany => forgets_many(rt, queue),
        Scenario::KeepsTheOrder => keeps_the_order(rt, queue),
        Scenario::LeasesOfAnother => with_another(rt, alloc, queue),
        Scenario::ReusesSpace => reuses_space_four_times(rt, queue),
    }
}

fn mark(rt: &impl Abort, queue: &mut Queue, id: u64) {
    assert!(rt; queue.has_capacity_for(id), "no capacity for {id}");
    queue.mark(id);
}

fn mark_each(rt: &impl Abort, queue: &mut Queue, ids: &[u64]) {
    for id in ids {
        mark(rt, queue, *id);
    }
}

fn mark_all(rt: &impl Abort, queue: &mut Queue, ids: Range<u64>) {
    for id in ids {
        mark(rt, queue, id);
    }
}

fn next(rt: &impl Abort, queue: &mut Queue) -> Lease {
    queue.lease().expect(rt, "no id is queued")
}

// Settles the first queued id, and returns it.
fn settle_next(rt: &impl Abort, queue: &mut Queue) -> u64 {
    let lease = next(rt, queue);
    let id = lease.id();
    queue.settle(lease);
    id
}

fn is_id(rt: &impl Abort, found: u64, expected: u64) {
    expects_equal(rt, &found, &expected, "the id");
}

// How many ids are queued.
fn has_len(rt: &impl Abort, queue: &Queue, len: usize) {
    expects_equal(rt, &queue.len(), &len, "the length");
}

fn settles_each(rt: &impl Abort, queue: &mut Queue, ids: &[u64]) {
    for id in ids {
        is_id(rt, settle_next(rt, queue), *id);
    }
}

fn settles_all(rt: &impl Abort, queue: &mut Queue, ids: Range<u64>) {
    for id in ids {
        is_id(rt, settle_next(rt, queue), id);
    }
}

fn has_capacity(rt: &impl Abort, queue: &Queue, capacity: usize) {
    expects_equal(rt, &queue.capacity(), &capacity, "the capacity");
}

// The fault of a lease, or none where an id is queued, which stays queued.
fn fault_of_lease(queue: &mut Queue) -> Option<QueueFault> {
    match queue.lease() {
        Ok(lease) => {
            queue.give_back(lease);
            None
        }
        Err(fault) => Some(fault),
    }
}

// A lease is refused with Q1, and no id is queued.
fn has_no_more(rt: &impl Abort, queue: &mut Queue) {
    let fault = fault_of_lease(queue);
    expects_equal(rt, &fault, &Some(QueueFault::Empty), "a lease");
    expects(rt, queue.is_empty(), "an id is queued");
}

// Whether an id is queued, and whether it is leased.
fn states(queue: &Queue, id: u64) -> (bool, bool) {
    (queue.is_queued(id), queue.is_leased(id))
}

fn is_in_state(rt: &impl Abort, queue: &Queue, id: u64, state: (bool, bool)) {
    expects_equal_at(rt, &states(queue, id), &state, &id);
}

// The states of the id 1 while it is leased and once it is idle.
fn states_by_its_lease(rt: &impl Abort, queue: &mut Queue) -> [(bool, bool); 2] {
    let lease = next(rt, queue);
    let leased = states(queue, 1);
    queue.settle(lease);
    [leased, states(queue, 1)]
}

fn states_of_one(rt: &impl Abort, queue: &mut Queue) {
    mark(rt, queue, 1);
    is_in_state(rt, queue, 1, (true, false));
    let [leased, idle] = states_by_its_lease(rt, queue);
    expects_equal(rt, &leased, &(false, true), "leased");
    expects_equal(rt, &idle, &(false, false), "idle");
}

fn new_capacity(alloc: Global) -> usize {
    Queue::new(alloc).capacity()
}

fn capacity_of_one(rt: &impl Abort, queue: &mut Queue) {
    mark(rt, queue, 1);
    has_capacity(rt, queue, 1);
    expects(rt, queue.has_capacity_for(1), "no capacity for a queued id");
    has_no_capacity_for(rt, queue, 2);
}

fn forget_from_the_middle(queue: &mut Queue) {
    for step in 0..MANY / 2 {
        queue.forget(MANY / 2 + step);
        queue.forget(MANY / 2 - 1 - step);
    }
}

fn forget_one_again_and_again(rt: &impl Abort, queue: &mut Queue) {
    for id in 0..MANY {
        queue.forget(MANY / 2);
        mark(rt, queue, MANY / 2);
        is_in_state(rt, queue, id, (true, false));
    }
}

// The ids are forgotten from the middle outwards, and then one of them is again and again.
fn forgets_many(rt: &impl Abort, queue: &mut Queue) {
    mark_all(rt, queue, 0..MANY);
    forget_from_the_middle(queue);
    has_no_more(rt, queue);
    mark_all(rt, queue, 0..MANY);
    forget_one_again_and_again(rt, queue);
    has_len(rt, queue, 65_536);
    settles_all(rt, queue, 0..MANY / 2);
    settles_all(rt, queue, MANY / 2 + 1..MANY);
    settles_each(rt, queue, &[MANY / 2]);
    has_no_more(rt, queue);
}

fn forget_and_mark(rt: &impl Abort, queue: &mut Queue, times: u64) {
    for _ in 0..times {
        queue.forget(2);
        mark(rt, queue, 2);
    }
}

fn has_no_capacity_for(rt: &impl Abort, queue: &Queue, id: u64) {
    expects_at(rt, !queue.has_capacity_for(id), "capacity for", &id);
}

fn mark_and_forget_others(rt: &impl Abort, queue: &mut Queue) {
    for id in 100..1_100 {
        mark(rt, queue, id);
        has_no_capacity_for(rt, queue, id + 1);
        queue.forget(id);
    }
}

// Neither many stale places of one id, nor those of many ids, change the order of the others.
fn keeps_the_order(rt: &impl Abort, queue: &mut Queue) {
    mark_each(rt, queue, &[1, 2, 3]);
    forget_and_mark(rt, queue, 1_000);
    mark_and_forget_others(rt, queue);
    has_len(rt, queue, 3);
    settles_each(rt, queue, &[1, 3, 2]);
    has_no_more(rt, queue);
}

// Spends three leases of another queue on this one.
fn spend_leases_of(rt: &impl Abort, other: &mut Queue, queue: &mut Queue) {
    let settled = next(rt, other);
    queue.settle(settled);
    let requeued = next(rt, other);
    queue.requeue(requeued);
    let given_back = next(rt, other);
    queue.give_back(given_back);
}

fn leases_of_another(rt: &impl Abort, other: &mut Queue, queue: &mut Queue) {
    mark_each(rt, other, &[2, 8, 9]);
    mark_each(rt, queue, &[1, 2]);
    let here = next(rt, queue);
    spend_leases_of(rt, other, queue);
    is_in_state(rt, queue, 1, (false, true));
    is_in_state(rt, queue, 2, (true, false));
    is_in_state(rt, queue, 8, (false, false));
    is_in_state(rt, queue, 9, (false, false));
    queue.settle(here);
}

fn with_another(rt: &impl Abort, alloc: Global, queue: &mut Queue) {
    let mut other = queue_of(rt, alloc, 3);
    leases_of_another(rt, &mut other, queue);
    drop(other);
}

// Each round marks other ids, so that the space of settled ids is used again.
fn reuses_space(rt: &impl Abort, queue: &mut Queue, ids: Range<u64>) {
    mark_all(rt, queue, ids.start..ids.end);
    has_len(rt, queue, 65_536);
    has_no_capacity_for(rt, queue, 10 * MANY);
    settles_all(rt, queue, ids);
    has_no_more(rt, queue);
}

fn reuses_space_four_times(rt: &impl Abort, queue: &mut Queue) {
    for round in 0..4 {
        reuses_space(rt, queue, round * MANY..(round + 1) * MANY);
    }
    has_capacity(rt, queue, 65_536);
}

#[test]
fn queues_have_their_ids_in_order_and_reuse_their_space(rt: HostRuntime) {
    let alloc = rt.alloc();
    expects_equal(&rt, &new_capacity(alloc), &0, "the capacity of a new queue");
    play(&rt, alloc, 1, Scenario::States);
    play(&rt, alloc, 1, Scenario::Capacity);
    play(&rt, alloc, 2, Scenario::LeasesOfAnother);
    play(&rt, alloc, 4, Scenario::KeepsTheOrder);
    play(&rt, alloc, 65_536, Scenario::ForgetsMany);
    play(&rt, alloc, 65_536, Scenario::ReusesSpace);
}
