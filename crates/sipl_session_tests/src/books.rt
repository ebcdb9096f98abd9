// Sessions at a book whose state no line shows, or no settings allow.
ghost use Rattle.std.specs.Prelude.{◌≤◌, ◌-◌, ◌^◌};

use super::assertions::{expects, expects_equal};
use super::rows::{Row, Texts};
use super::streams::{has_replies_at, new_book};
use sipl_book::{Book, Limits, MAX_FIRST};
use std::alloc::Global;
use std::process::Abort;
use std::test::Fail;

// That a session at a book replies so.
fn replies_at(rt: &impl Abort, alloc: Global, book: &mut Book, rows: &[Row]) -> Result<(), Fail> {
    let texts = Texts::new(alloc, rows)?;
    let has_replies = has_replies_at(alloc, book, &texts.input, &texts.replies);
    drop(texts);
    expects(rt, has_replies?, "the replies");
    Ok(())
}

// ---- pages

// A page of the greatest first number, and of one event.
const LAST_ROWS: &[Row] = &[
    (b"page\n", b"ok page 4503599626321920 0\n"),
    (b"page\n", b"ok page 4503599626321920 0\n"),
    (b"hold udp 192.0.2.1 5060 1\n", b"ok hold\n"),
    (b"page\n", b"err B6\n"),
    (b"hold udp 192.0.2.1 5060 1\n", b"err B3\n"),
    (b"find sip:192.0.2.1\n", b"err B3\n"),
    (b"page\n", b"err B6\n"),
];

// The same, where one page can be turned with an event.
const LAST_BUT_ONE_ROWS: &[Row] = &[
    (b"hold udp 192.0.2.1 5060 1\n", b"ok hold\n"),
    (b"page\n", b"ok page 4503599626321919 1\n"),
    (b"page\n", b"ok page 4503599626321920 0\n"),
    (b"release udp 192.0.2.1 5060\n", b"ok release\n"),
    (b"page\n", b"err B6\n"),
];

// That a session replies so at a book whose pages have one event each, from this number on.
fn replies_from(rt: &impl Abort, alloc: Global, first: u64, rows: &[Row]) -> Result<(), Fail>
    requires { first ≤ 2 ^ 52 - 2 ^ 20 }
{
    let limits = Limits {
        journal: 1,
        first,
        ..Limits::greatest()
    };
    let mut book = new_book(alloc, &limits)?;
    let has_replies = replies_at(rt, alloc, &mut book, rows);
    drop(book);
    has_replies
}

#[test]
fn no_page_begins_above_the_greatest_number(rt: HostRuntime) -> Result<(), Fail> {
    replies_from(&rt, rt.alloc(), MAX_FIRST, LAST_ROWS)?;
    replies_from(&rt, rt.alloc(), MAX_FIRST - 1, LAST_BUT_ONE_ROWS)
}

// ---- what is kept, and looks

const ZONE: Row = (
    b"zone example.com. 7
@ NAPTR 50 50 \"s\" \"SIPS+D2T\" \"\" _sips._tcp
@ NAPTR 90 50 \"s\" \"SIP+D2T\" \"\" _sip._tcp
@ NAPTR 100 50 \"s\" \"SIP+D2U\" \"\" _sip._udp
_sip._tcp SRV 0 1 5060 server1
_sip._tcp SRV 0 2 5060 server2
server1 A 192.0.2.1
server2 A 192.0.2.2
",
    b"ok zone 7 0 0 4\n",
);

const FIND: Row = (
    b"find sip:bob@example.com words 2,0\n",
    b"target 1 tcp 192.0.2.2 5060\ntarget 2 tcp 192.0.2.1 5060\nok find 2\n",
);

const FIND_ONE: Row = (
    b"find sip:bob@example.com words 2,0\n",
    b"target 1 tcp 192.0.2.1 5060\nok find 1\n",
);

const REMOVE: Row = (b"del server2.example.com. A 192.0.2.2\n", b"ok del 1\n");

const DEPS: Row = (
    b"deps sip:bob@example.com\n",
    b"dep example.com. NAPTR 3
dep _sip._tcp.example.com. SRV 2
dep server1.example.com. A 1
dep server2.example.com. A 1
ok deps 4
",
);

// The numbers of queued results and of events.
fn has_counts(rt: &impl Abort, book: &Book, queued: u64, events: usize) {
    let found = (book.queued(), book.journal().len());
    expects_equal(rt, &found, &(queued, events), "queued results and events");
}

// An edit makes the result outdated, a repair looks it up again, and the next find looks at no set.
fn repairs(rt: &impl Abort, alloc: Global, book: &mut Book) -> Result<(), Fail> {
    replies_at(rt, alloc, book, &[ZONE, FIND, REMOVE])?;
    has_counts(rt, book, 1, 3);
    replies_at(rt, alloc, book, &[(b"repair\n", b"ok repair\n")])?;
    has_counts(rt, book, 0, 3);
    let looks = book.looks();
    replies_at(rt, alloc, book, &[FIND_ONE])?;
    expects_equal(rt, &book.looks(), &looks, "looks");
    Ok(())
}

// The sets that a question depends on are read, and nothing is kept.
fn lists(rt: &impl Abort, alloc: Global, book: &mut Book) -> Result<(), Fail> {
    replies_at(rt, alloc, book, &[ZONE, DEPS])?;
    has_counts(rt, book, 0, 1);
    let looks = book.looks();
    replies_at(rt, alloc, book, &[FIND])?;
    has_counts(rt, book, 0, 2);
    expects(rt, book.looks() > looks, "looks of the question");
    Ok(())
}

fn at_new_book(rt: &impl Abort, alloc: Global, is_list: bool) -> Result<(), Fail> {
    let mut book = new_book(alloc, &Limits::greatest())?;
    let is_so = if is_list {
        lists(rt, alloc, &mut book)
    } else {
        repairs(rt, alloc, &mut book)
    };
    drop(book);
    is_so
}

#[test]
fn a_repaired_result_is_found_without_a_look(rt: HostRuntime) -> Result<(), Fail> {
    at_new_book(&rt, rt.alloc(), false)
}

#[test]
fn listing_sets_keeps_no_result(rt: HostRuntime) -> Result<(), Fail> {
    at_new_book(&rt, rt.alloc(), true)
}
