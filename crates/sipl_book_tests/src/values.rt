// What the tests need to write calls of a book.
use sipl_book::{Book, Edit};
use sipl_choice::{Abilities, Endpoint, Families, Transport};
use sipl_masterfile::{ZoneText, read_record, read_zone};
use sipl_names::Name;
use sipl_records::{Address, Record};
use sipl_srv::Draws;
use sipl_uri::{Question, Uri};
use std::alloc::Global;
use std::fmt::Debug;
use std::process::Abort;

pub(crate) const ADDRESS: &[u8] = b"server1.example.com. A 192.0.2.1";

pub(crate) const ENDPOINT: Endpoint = Endpoint {
    transport: Transport::Udp,
    address: Address::V4(0xC000_0201),
    port: 5060,
};

// Ends the test where a value is not the expected one.
pub(crate) fn expects_equal<T: PartialEq + Debug>(
    rt: &impl Abort,
    found: &T,
    expected: &T,
    what: &str,
) {
    assert_eq!(rt; *found, *expected, "{what}");
}

pub(crate) fn client(
    rt: &impl Abort,
    alloc: Global,
    transports: &[Transport],
    families: Families,
) -> Abilities {
    let preference = Vec::from_slice(alloc, transports).expect(rt, "out of memory");
    Abilities::new(preference, families).expect(rt, "abilities")
}

pub(crate) fn question(rt: &impl Abort, alloc: Global, uri: &[u8]) -> Question {
    Uri::parse(alloc, uri).expect(rt, "the URI is refused")
}

pub(crate) fn name(rt: &impl Abort, alloc: Global, text: &[u8]) -> Name {
    let root = Name::root(alloc);
    let name = Name::from_text(alloc, text, &root);
    drop(root);
    name.expect(rt, "the name is refused")
}

fn record(rt: &impl Abort, alloc: Global, text: &[u8]) -> Record {
    let root = Name::root(alloc);
    let record = read_record(alloc, text, &root);
    drop(root);
    record.expect(rt, "the record is refused")
}

// The zone `example.com.` with this text.
fn zone(rt: &impl Abort, alloc: Global, text: &[u8]) -> ZoneText {
    let apex = name(rt, alloc, b"example.com.");
    let zone = read_zone(alloc, text, &apex);
    drop(apex);
    zone.expect(rt, "the zone is refused")
}

pub(crate) fn load(rt: &impl Abort, alloc: Global, book: &mut Book, text: &[u8]) {
    is_made(rt, book, Edit::Load(zone(rt, alloc, text)));
}

pub(crate) fn add(rt: &impl Abort, alloc: Global, book: &mut Book, text: &[u8]) {
    is_made(rt, book, Edit::Add(record(rt, alloc, text)));
}

pub(crate) fn remove(rt: &impl Abort, alloc: Global, book: &mut Book, text: &[u8]) {
    is_made(rt, book, Edit::Remove(record(rt, alloc, text)));
}

fn is_made(rt: &impl Abort, book: &mut Book, edit: Edit) {
    expects_equal(rt, &book.change(edit).is_ok(), &true, "an edit");
}

// The answer is made to a question for these random words.
pub(crate) fn find(rt: &impl Abort, alloc: Global, book: &mut Book, uri: &[u8], words: &[u32]) {
    let draws = Draws::from_words(words).expect(rt, "the words are refused");
    let found = book.find(question(rt, alloc, uri), &draws);
    let is_answered = found.is_ok();
    drop(found);
    expects_equal(rt, &is_answered, &true, "an answer");
}
