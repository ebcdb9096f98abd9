// Tests of what a book counts: looks at sets, and current entries that depend on a set.
use crate::values::{add, client, expects_equal, find, load, name, question, remove};
use sipl_book::{Book, Limits};
use sipl_choice::{Families, Transport};
use sipl_outages::Held;
use sipl_records::{Key, Kind};
use std::alloc::Global;
use std::process::Abort;

const ZONE: &[u8] = b"@ NAPTR 50 50 \"s\" \"SIPS+D2T\" \"\" _sips._tcp
@ NAPTR 90 50 \"s\" \"SIP+D2T\" \"\" _sip._tcp
@ NAPTR 100 50 \"s\" \"SIP+D2U\" \"\" _sip._udp
_sip._tcp SRV 0 1 5060 server1
_sip._tcp SRV 0 2 5060 server2
server1 A 192.0.2.1
server2 A 192.0.2.2
";

const BOB: &[u8] = b"sip:bob@example.com";

const FOO: &[u8] = b"sip:foo.example.com:5060";

const BELOW_FOO: &[u8] = b"x.foo.example.com. TXT y";

const OTHER_ADDRESS: &[u8] = b"*.example.com. A 192.0.2.10";

// Makes a test with a book over the zone, which it alone owns.
fn play(rt: &impl Abort, alloc: Global, is_by_wildcard: bool) {
    let abilities = client(rt, alloc, &[Transport::Tcp, Transport::Udp], Families::V4);
    let mut book = Book::new(alloc, abilities, &Limits::greatest(), Held::Out);
    load(rt, alloc, &mut book, ZONE);
    make(rt, alloc, &mut book, is_by_wildcard);
    drop(book);
}

fn make(rt: &impl Abort, alloc: Global, book: &mut Book, is_by_wildcard: bool) {
    if is_by_wildcard {
        wildcard(rt, alloc, book);
    } else {
        lookups(rt, alloc, book);
    }
}

fn has_looks(rt: &impl Abort, book: &Book, looks: u64) {
    expects_equal(rt, &book.looks(), &looks, "looks");
}

fn has_events(rt: &impl Abort, book: &Book, count: usize) {
    expects_equal(rt, &book.journal().len(), &count, "events");
}

// The id of a question's entry, and whether it is current.
fn has_entry(rt: &impl Abort, alloc: Global, book: &Book, uri: &[u8], id: u64, is_current: bool) {
    let question = question(rt, alloc, uri);
    let found = book
        .entry(&question)
        .map(|entry| (entry.id(), entry.is_current()));
    drop(question);
    expects_equal(rt, &found, &Some((id, is_current)), "the entry");
}

// So many current entries have the owner's set of this kind in their evidence, whose number is this one.
fn has_dependents(
    rt: &impl Abort,
    alloc: Global,
    book: &Book,
    (owner, kind): (&[u8], Kind),
    dependents: u64,
    number: u64,
) {
    let key = Key {
        name: name(rt, alloc, owner),
        kind,
    };
    let found = (book.dependents(&key), book.number(&key));
    drop(key);
    expects_equal(rt, &found, &(dependents, number), "dependents and number");
}

fn has_address_dependents(
    rt: &impl Abort,
    alloc: Global,
    book: &Book,
    owner: &[u8],
    dependents: u64,
    number: u64,
) {
    let key = (owner, Kind::Address4);
    has_dependents(rt, alloc, book, key, dependents, number);
}

fn repair(rt: &impl Abort, book: &mut Book) {
    expects_equal(rt, &book.repair(), &Ok(()), "a repair");
}

// The second question finds the answer of the first one, and looks at no set. The sets of the zone are
// numbered in the order of its text.
fn is_kept(rt: &impl Abort, alloc: Global, book: &mut Book) {
    find(rt, alloc, book, BOB, &[2, 0]);
    has_looks(rt, book, 4);
    find(rt, alloc, book, BOB, &[2, 0]);
    has_address_dependents(rt, alloc, book, b"server1.example.com.", 1, 3);
    has_address_dependents(rt, alloc, book, b"server2.example.com.", 1, 4);
    has_address_dependents(rt, alloc, book, b"other.example.com.", 0, 0);
    has_looks(rt, book, 4);
}

// An edit outdates the answer, and a repair looks it up again before anyone asks.
fn is_repaired(rt: &impl Abort, alloc: Global, book: &mut Book) {
    remove(rt, alloc, book, b"server2.example.com. A 192.0.2.2");
    has_address_dependents(rt, alloc, book, b"server2.example.com.", 0, 0);
    has_entry(rt, alloc, book, BOB, 1, false);
    repair(rt, book);
    has_entry(rt, alloc, book, BOB, 1, true);
    has_address_dependents(rt, alloc, book, b"server2.example.com.", 1, 0);
    has_looks(rt, book, 13);
    find(rt, alloc, book, BOB, &[2, 0]);
    has_looks(rt, book, 13);
}

// The question depends on so many sets.
fn has_dependencies(rt: &impl Abort, alloc: Global, book: &mut Book, count: usize) {
    let evidence = book.deps(question(rt, alloc, BOB));
    let found = evidence
        .as_ref()
        .map(|evidence| evidence.items().len())
        .ok();
    drop(evidence);
    expects_equal(rt, &found, &Some(count), "dependencies");
}

// The route of the question reads four sets: the NAPTR records, the SRV records and two addresses. Of a
// server that does not exist it reads its alias and its existence as well, that of the domain, and the
// addresses and the alias of the domain's wildcard.
fn lookups(rt: &impl Abort, alloc: Global, book: &mut Book) {
    is_kept(rt, alloc, book);
    is_repaired(rt, alloc, book);
    has_dependencies(rt, alloc, book, 9);
    has_looks(rt, book, 22);
    has_events(rt, book, 5);
}

#[test]
fn a_question_is_looked_up_once_until_a_set_of_its_evidence_changes(rt: HostRuntime) {
    play(&rt, rt.alloc(), false);
}

// The answer of `foo` depends on that it does not exist, and that the domain does.
fn is_kept_by_wildcard(rt: &impl Abort, alloc: Global, book: &mut Book) {
    add(rt, alloc, book, b"*.example.com. A 192.0.2.9");
    find(rt, alloc, book, FOO, &[]);
    has_looks(rt, book, 5);
    has_dependents(rt, alloc, book, (b"foo.example.com.", Kind::Exists), 1, 0);
    has_dependents(rt, alloc, book, (b"example.com.", Kind::Exists), 1, 1);
    has_dependents(rt, alloc, book, (b"com.", Kind::Exists), 0, 1);
    has_dependents(rt, alloc, book, (b"*.example.com.", Kind::Exists), 0, 1);
    find(rt, alloc, book, FOO, &[]);
    has_looks(rt, book, 5);
    has_events(rt, book, 4);
}

// Other names that begin to exist leave the answer as it is; one below `foo` outdates it, and a repair looks
// it up again. Then the wildcard is no longer among what the answer depends on.
fn wildcard(rt: &impl Abort, alloc: Global, book: &mut Book) {
    is_kept_by_wildcard(rt, alloc, book);
    add(rt, alloc, book, b"x.bar.example.com. TXT");
    has_entry(rt, alloc, book, FOO, 2, true);
    add(rt, alloc, book, BELOW_FOO);
    has_entry(rt, alloc, book, FOO, 2, false);
    expects_equal(rt, &book.queued(), &1, "queued entries");
    repair(rt, book);
    has_entry(rt, alloc, book, FOO, 2, true);
    has_looks(rt, book, 8);
    find(rt, alloc, book, FOO, &[]);
    has_looks(rt, book, 8);
    add(rt, alloc, book, OTHER_ADDRESS);
    has_entry(rt, alloc, book, FOO, 2, true);
    remove(rt, alloc, book, OTHER_ADDRESS);
    remove(rt, alloc, book, BELOW_FOO);
    has_entry(rt, alloc, book, FOO, 2, false);
}

#[test]
fn an_answer_by_a_wildcard_is_outdated_where_its_name_begins_to_exist(rt: HostRuntime) {
    play(&rt, rt.alloc(), true);
}
