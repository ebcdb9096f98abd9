// What a question depends on, as the service reads it: each set with its number and its data, before and
// after an edit.
use crate::calls::{Call, play_alone};
use crate::values::{
    ADDRESS_2, ADDRESS_11, BOB, Scene, is_equal, new_service, question, record, scene_of,
};
use sipl_evidence::Item;
use sipl_records::Data;
use std::process::Abort;
use std::sync::Wait;
use std::test::*;

// The records that Bob's question depends on, in the order of reading, and of addition within a set; with the
// number of its set as the zone is loaded, and after an edit. The sets of a zone take the numbers from 1, in
// the order of its records. A set that grows takes the next number, and the others keep theirs.
const ROWS: &[((u64, u64), &[u8])] = &[
    (
        (1, 1),
        b"example.com. NAPTR 50 50 \"s\" \"SIPS+D2T\" \"\" _sips._tcp.example.com.",
    ),
    (
        (1, 1),
        b"example.com. NAPTR 90 50 \"s\" \"SIP+D2T\" \"\" _sip._tcp.example.com.",
    ),
    (
        (1, 1),
        b"example.com. NAPTR 100 50 \"s\" \"SIP+D2U\" \"\" _sip._udp.example.com.",
    ),
    (
        (2, 2),
        b"_sip._tcp.example.com. SRV 0 1 5060 server1.example.com.",
    ),
    (
        (2, 2),
        b"_sip._tcp.example.com. SRV 0 2 5060 server2.example.com.",
    ),
    ((3, 5), b"server1.example.com. A 192.0.2.1"),
    ((0, 5), ADDRESS_11),
    ((4, 4), ADDRESS_2),
];

// Whether a datum of a set is that of this record, with the set's number.
fn is_row<R: Abort>(scene: &Scene<R>, item: &Item, data: &Data, number: u64, text: &[u8]) -> bool {
    let record = record(scene.rt, scene.alloc, text);
    let is_datum = item.key().name == record.owner && *data == record.value;
    drop(record);
    is_datum && item.number() == number
}

fn are_rows<R: Abort>(scene: &Scene<R>, items: &[Item], is_edited: bool) -> bool {
    let mut rows = ROWS.iter().filter(|row| {
        let (first, _) = row.0;
        is_edited || first != 0
    });
    for item in items {
        for data in item.content() {
            let Some(row) = rows.next() else {
                return false;
            };
            let (first, edited) = row.0;
            let number = if is_edited { edited } else { first };
            if !is_row(scene, item, data, number, row.1) {
                return false;
            }
        }
    }
    rows.next().is_none()
}

// Bob's question depends on four sets, with these records.
fn has_rows<R: Wait + Abort>(scene: &Scene<R>, is_edited: bool) {
    let question = question(scene.rt, scene.alloc, BOB);
    let found = scene.service.deps(scene.rt, &question);
    drop(question);
    let is_so = match &found {
        Ok(deps) => deps.items().len() == 4 && are_rows(scene, deps.items(), is_edited),
        Err(_) => false,
    };
    drop(found);
    assert!(scene.rt; is_so, "other sets");
}

fn before_and_after<R: Wait + Abort>(scene: &Scene<R>) {
    play_alone(scene, &[Call::Load]);
    has_rows(scene, false);
    play_alone(scene, &[Call::Add(ADDRESS_11, 1)]);
    has_rows(scene, true);
}

#[test]
fn dependencies_are_the_sets_with_their_numbers(rt: HostRuntime) {
    let service = new_service(&rt, rt.alloc(), 4);
    before_and_after(&scene_of(&rt, rt.alloc(), &service));
    drop(service);
}

// ---- holds

// So many endpoints are held on the board that is shared, which is that of the service.
fn holds<R: Wait + Abort>(scene: &Scene<R>, count: usize) {
    let shared = scene.service.share_board(scene.rt);
    let board = shared.expect(scene.rt, "out of memory");
    is_equal(scene.rt, &board.get().len(), &count);
    is_equal(scene.rt, &scene.service.held_endpoints(scene.rt), &count);
    drop(board);
}

fn shares_the_board<R: Wait + Abort>(scene: &Scene<R>) {
    holds(scene, 0);
    play_alone(scene, &[Call::Hold(1)]);
    holds(scene, 1);
}

#[test]
fn the_board_is_shared_as_it_is(rt: HostRuntime) {
    let service = new_service(&rt, rt.alloc(), 1);
    shares_the_board(&scene_of(&rt, rt.alloc(), &service));
    drop(service);
}
