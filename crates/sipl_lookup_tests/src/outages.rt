//! What a session shows nothing of: copies of a board, and boards that share theirs. The sessions of
//! `tests/sessions/holds` have the rest.

use crate::assertions::expects_equal;
use sipl_choice::{Endpoint, Transport};
use sipl_outages::{Board, ShareableBoard, SharedBoard};
use sipl_records::Address;
use std::alloc::Global;
use std::process::Abort;

// The time, how many endpoints are held, and whether the first and the second are.
type Shown = (u64, usize, bool, bool);

// TCP, an address of 198.18.0.0/16 (RFC 2544), port 5060.
fn endpoint(number: u32) -> Endpoint {
    Endpoint {
        transport: Transport::Tcp,
        address: Address::V4(0xC612_0000 | number),
        port: 5060,
    }
}

fn shown_by(board: &Board) -> Shown {
    (
        board.now(),
        board.len(),
        board.is_held(&endpoint(1)),
        board.is_held(&endpoint(2)),
    )
}

fn hold(rt: &impl Abort, board: &mut Board, number: u32, ms: u64) {
    board
        .hold(&endpoint(number), ms)
        .expect(rt, "the hold is refused");
}

// What a copy shows, first and at a later time; with all places taken it has no hold more.
fn change_the_copy(rt: &impl Abort, copy: &mut Board) -> [Shown; 2] {
    let first = shown_by(copy);
    let is_refused = copy.hold(&endpoint(3), 1).is_err();
    expects_equal(rt, &is_refused, &true, "whether a hold is refused");
    copy.advance(30).expect(rt, "the time is refused");
    [first, shown_by(copy)]
}

fn copy_and_change(rt: &impl Abort, alloc: Global, board: &Board) -> [Shown; 2] {
    let mut copy = board.dup(alloc).expect(rt, "out of memory");
    let shown = change_the_copy(rt, &mut copy);
    drop(copy);
    shown
}

// What a copy shows before and after its change, and then the board.
fn copies(rt: &impl Abort, alloc: Global, board: &mut Board) -> [Shown; 3] {
    board.advance(10).expect(rt, "the time is refused");
    hold(rt, board, 1, 20);
    hold(rt, board, 2, 30);
    let [first, changed] = copy_and_change(rt, alloc, board);
    [first, changed, shown_by(board)]
}

fn play_copies(rt: &impl Abort, alloc: Global) -> [Shown; 3] {
    let mut board = Board::with(alloc, 2);
    let shown = copies(rt, alloc, &mut board);
    drop(board);
    shown
}

// What a share shows, which is dropped then.
fn shown(shared: SharedBoard) -> Shown {
    let shown = shown_by(shared.get());
    drop(shared);
    shown
}

fn share(rt: &impl Abort, board: &mut ShareableBoard) -> SharedBoard {
    board.share().expect(rt, "out of memory")
}

// What a share shows after a hold that came later.
fn share_and_hold(rt: &impl Abort, board: &mut ShareableBoard, number: u32, ms: u64) -> Shown {
    let shared = share(rt, board);
    let _result = board.hold(&endpoint(number), ms);
    shown(shared)
}

// What a share shows after a release that came later.
fn share_and_release(rt: &impl Abort, board: &mut ShareableBoard, number: u32) -> Shown {
    let shared = share(rt, board);
    let _result = board.release(&endpoint(number));
    shown(shared)
}

// What a share shows after the time was set.
fn share_and_advance(rt: &impl Abort, board: &mut ShareableBoard, to: u64) -> Shown {
    let shared = share(rt, board);
    let _result = board.advance(to);
    shown(shared)
}

// What is shared before each change, and what is then.
fn shares(rt: &impl Abort, board: &mut ShareableBoard) -> [Shown; 6] {
    [
        share_and_hold(rt, board, 1, 20),
        share_and_hold(rt, board, 2, 30),
        share_and_hold(rt, board, 2, 40),
        share_and_advance(rt, board, 20),
        share_and_release(rt, board, 2),
        share_and_advance(rt, board, 21),
    ]
}

// The last share of a board that is dropped.
fn last_share(rt: &impl Abort, alloc: Global) -> SharedBoard {
    let mut board = ShareableBoard::new(alloc, Board::new(alloc));
    let _first = share_and_hold(rt, &mut board, 1, 20);
    share(rt, &mut board)
}

fn play_shares(rt: &impl Abort, alloc: Global) -> [Shown; 6] {
    let mut board = ShareableBoard::new(alloc, Board::new(alloc));
    let shown = shares(rt, &mut board);
    drop(board);
    shown
}

#[test]
fn copies_and_shares_of_a_board_stay_as_they_were(rt: HostRuntime) {
    let copied = [
        (10, 2, true, true),
        (30, 1, false, true),
        (10, 2, true, true),
    ];
    expects_equal(&rt, &play_copies(&rt, rt.alloc()), &copied, "a copy");
    let shared = [
        (0, 0, false, false),
        (0, 1, true, false),
        (0, 2, true, true),
        (0, 2, true, true),
        (20, 1, false, true),
        (20, 0, false, false),
    ];
    expects_equal(&rt, &play_shares(&rt, rt.alloc()), &shared, "the shares");
    let last = shown(last_share(&rt, rt.alloc()));
    expects_equal(&rt, &last, &(0, 1, true, false), "the last share");
}
