// Tests of what pages have.
use crate::values::{ADDRESS, ENDPOINT, add, client, expects_equal, find, load};
use sipl_book::{Book, Event, Limits, Page, State};
use sipl_choice::{Families, Transport};
use sipl_outages::Held;
use std::alloc::Global;
use std::process::Abort;

// How many apexes and records a state has, how many endpoints are held, and the time.
type Sizes = (usize, usize, usize, u64);

fn sizes(state: &State) -> Sizes {
    let (held, now) = match state.board() {
        Some(board) => (board.len(), board.now()),
        None => (0, 0),
    };
    (state.apexes().len(), state.records().len(), held, now)
}

fn has_base(rt: &impl Abort, book: &Book, expected: Sizes) {
    expects_equal(rt, &sizes(book.base()), &expected, "the base");
}

// What an event is: an edit, an answer, or a hold or a move of the clock with its milliseconds.
fn shown(event: &Event) -> (&'static str, u64) {
    match event {
        Event::Change(_) => ("edit", 0),
        Event::Answer(_, _, _) => ("answer", 0),
        Event::Hold(endpoint, ms) if *endpoint == ENDPOINT => ("hold", *ms),
        Event::Advance(to) => ("clock", *to),
        _ => ("?", 0),
    }
}

fn has_events(rt: &impl Abort, events: &[Event], expected: &[(&str, u64)]) {
    expects_equal(rt, &events.len(), &expected.len(), "events");
    for (event, (word, ms)) in events.iter().zip(expected) {
        expects_equal(rt, &shown(event), &(*word, *ms), "an event");
    }
}

// The states before and after the events of a page, and the numbers of the first one, of how many there are,
// and of the next one.
fn has_states(rt: &impl Abort, page: &Page, states: (Sizes, Sizes), numbers: (u64, u64, u64)) {
    let found = (sizes(page.base()), sizes(page.result()));
    expects_equal(rt, &found, &states, "the states");
    let found = (page.first(), page.extent().count, page.next());
    expects_equal(rt, &found, &numbers, "the numbers");
}

fn is_for_the_client(rt: &impl Abort, book: &Book, page: &Page) {
    let is_so = page.abilities() == book.abilities() && page.held() == book.held();
    expects_equal(rt, &is_so, &true, "the client and the policy");
}

pub(crate) fn turn_page(rt: &impl Abort, book: &mut Book) -> Page {
    book.turn_page().expect(rt, "the page is refused")
}

// The events of a first page: a load, a record and an answer.
pub(crate) fn fill_first(rt: &impl Abort, alloc: Global, book: &mut Book) {
    load(rt, alloc, book, b"");
    add(rt, alloc, book, ADDRESS);
    find(rt, alloc, book, b"sip:server1.example.com:5060", &[]);
}

// Those of a second one: a hold and a move of the clock.
pub(crate) fn fill_second(rt: &impl Abort, book: &mut Book) {
    let numbers = (book.hold(&ENDPOINT, 1000), book.advance(500));
    expects_equal(rt, &numbers, &(Ok(3), Ok(4)), "the numbers of events");
}

fn first_page(rt: &impl Abort, book: &mut Book) {
    let page = turn_page(rt, book);
    has_states(rt, &page, ((0, 0, 0, 0), (1, 1, 0, 0)), (0, 3, 3));
    has_events(
        rt,
        page.events(),
        &[("edit", 0), ("edit", 0), ("answer", 0)],
    );
    is_for_the_client(rt, book, &page);
    drop(page);
}

fn second_page(rt: &impl Abort, book: &mut Book) {
    let page = turn_page(rt, book);
    has_states(rt, &page, ((1, 1, 0, 0), (1, 1, 1, 500)), (3, 2, 5));
    has_events(rt, page.events(), &[("hold", 1000), ("clock", 500)]);
    is_for_the_client(rt, book, &page);
    drop(page);
}

fn states(rt: &impl Abort, alloc: Global, book: &mut Book) {
    has_base(rt, book, (0, 0, 0, 0));
    fill_first(rt, alloc, book);
    has_base(rt, book, (0, 0, 0, 0));
    first_page(rt, book);
    has_base(rt, book, (1, 1, 0, 0));
    fill_second(rt, book);
    second_page(rt, book);
    has_base(rt, book, (1, 1, 1, 500));
}

#[test]
fn a_page_has_the_events_and_the_states_before_and_after_them(rt: HostRuntime) {
    let abilities = client(&rt, rt.alloc(), &[Transport::Udp], Families::V4);
    let mut book = Book::new(rt.alloc(), abilities, &Limits::greatest(), Held::Out);
    states(&rt, rt.alloc(), &mut book);
    drop(book);
}
