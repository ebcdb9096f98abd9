// Tests of which page follows which.
ghost use Rattle.std.specs.Prelude.{◌≤◌, ◌-◌, ◌^◌};

use crate::page_states::{fill_first, fill_second, turn_page};
use crate::values::{ADDRESS, ENDPOINT, add, client, expects_equal, load};
use sipl_book::{Book, Limits, Page};
use sipl_choice::{Families, Transport};
use sipl_outages::Held;
use std::alloc::Global;
use std::process::Abort;

// For a page, whether it is a first one, and which of the pages it follows.
fn order_of(page: &Page, pages: &[Page]) -> [bool; 4] {
    let mut order = [page.is_first(), false, false, false];
    for (follows, before) in order.iter_mut().skip(1).zip(pages) {
        *follows = page.follows(before);
    }
    order
}

const ORDER: &[[bool; 4]] = &[
    [true, false, false, false],
    [false, true, false, false],
    [false, false, true, false],
];

fn are_in_order(rt: &impl Abort, pages: &[Page]) {
    for (page, expected) in pages.iter().zip(ORDER) {
        expects_equal(rt, &order_of(page, pages), expected, "the order");
    }
}

fn fill_third(rt: &impl Abort, book: &mut Book) {
    expects_equal(
        rt,
        &book.release(&ENDPOINT),
        &Ok(5),
        "the number of the event",
    );
}

fn keep(rt: &impl Abort, pages: &mut Vec<Page>, page: Page) {
    pages.push(page).expect(rt, "out of memory");
}

// Turns three pages with events, and an edit in the first alone.
fn turn_three(rt: &impl Abort, alloc: Global, book: &mut Book, pages: &mut Vec<Page>) {
    fill_first(rt, alloc, book);
    keep(rt, pages, turn_page(rt, book));
    fill_second(rt, book);
    keep(rt, pages, turn_page(rt, book));
    fill_third(rt, book);
    keep(rt, pages, turn_page(rt, book));
}

fn three_pages(rt: &impl Abort, alloc: Global, book: &mut Book) {
    let mut pages = Vec::new(alloc);
    turn_three(rt, alloc, book, &mut pages);
    are_in_order(rt, &pages);
    drop(pages);
}

#[test]
fn each_page_follows_the_one_before_it_alone(rt: HostRuntime) {
    let mut book = book_of(&rt, rt.alloc(), PLAIN);
    three_pages(&rt, rt.alloc(), &mut book);
    drop(book);
}

const OTHER_ADDRESS: &[u8] = b"server2.example.com. A 192.0.2.2";

// A book: the policy, the address families of its client, its record, and the number of its first event.
#[derive(Clone, Copy)]
struct Form {
    held: Held,
    families: Families,
    record: &'static [u8],
    first: u64,
}

const PLAIN: Form = Form {
    held: Held::Out,
    families: Families::V4,
    record: ADDRESS,
    first: 0,
};

fn book_of(rt: &impl Abort, alloc: Global, form: Form) -> Book
    requires { form.first ≤ 2 ^ 52 - 2 ^ 20 }
{
    let limits = Limits {
        first: form.first,
        ..Limits::greatest()
    };
    let abilities = client(rt, alloc, &[Transport::Udp], form.families);
    Book::new(alloc, abilities, &limits, form.held)
}

// Appends the first page of a book, with a zone of its record, and the second one, taken as the book ends.
fn push_pages(rt: &impl Abort, alloc: Global, pages: &mut Vec<Page>, form: Form)
    requires { form.first ≤ 2 ^ 52 - 2 ^ 20 }
{
    let mut book = book_of(rt, alloc, form);
    load(rt, alloc, &mut book, b"");
    add(rt, alloc, &mut book, form.record);
    keep(rt, pages, turn_page(rt, &mut book));
    keep(rt, pages, book.into_page());
}

// Whether the page at the one place follows that at the other.
fn follows(pages: &[Page], place: usize, before: usize) -> bool {
    match (pages.get(place), pages.get(before)) {
        (Some(page), Some(before)) => page.follows(before),
        _ => false,
    }
}

fn are_followed(rt: &impl Abort, alloc: Global, form: Form, expected: bool)
    requires { form.first ≤ 2 ^ 52 - 2 ^ 20 }
{
    let mut pages = Vec::new(alloc);
    push_pages(rt, alloc, &mut pages, form);
    push_pages(rt, alloc, &mut pages, PLAIN);
    let found = (follows(&pages, 1, 2), follows(&pages, 3, 0));
    drop(pages);
    expects_equal(rt, &found, &(expected, expected), "the order of books");
}

#[test]
fn no_page_follows_one_of_another_policy_client_state_or_number(rt: HostRuntime) {
    let alloc = rt.alloc();
    are_followed(&rt, alloc, PLAIN, true);
    let held = Held::Last;
    are_followed(&rt, alloc, Form { held, ..PLAIN }, false);
    let families = Families::V6;
    are_followed(&rt, alloc, Form { families, ..PLAIN }, false);
    let record = OTHER_ADDRESS;
    are_followed(&rt, alloc, Form { record, ..PLAIN }, false);
    are_followed(&rt, alloc, Form { first: 1, ..PLAIN }, false);
}
