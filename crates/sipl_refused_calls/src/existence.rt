// Edits that make names exist.
use crate::call::{Outcome, outcome_again, outcome_of, refused};
use crate::plans::new_store;
use crate::values::{Asked, apex, book, finds, question_of, record, zone};
use sipl_book::{Book, Edit};
use sipl_names::Name;
use sipl_records::{Key, Kind, Record};
use sipl_uri::Question;
use sipl_zonestore::{Changed, StoreFault, ZoneStore};
use std::alloc::{AllocError, Global};

// How many names begin to exist with the record: each label below the domain is one more.
const LABELS: usize = 120;

// The record makes its owner exist, and each name between that and the domain. The last key is that of the
// existence of the name next below the domain.
fn are_added(
    added: &Result<Changed, StoreFault>,
    store: &mut ZoneStore,
    last: &Key,
    records: usize,
) -> Option<bool> {
    match added {
        Ok(changed) => Some(
            changed.sets == 1 && changed.keys.len() == LABELS + 1 && store.number(last) == 1,
        ),
        Err(fault) => {
            let is_as_before = store.records().len() == records && store.number(last) == 0;
            refused(fault.code(), is_as_before)
        }
    }
}

fn adds(store: &mut ZoneStore, record: &Record, last: &Key) -> Option<bool> {
    let records = store.records().len();
    let added = store.add(record);
    let made = are_added(&added, store, last, records);
    drop(added);
    made
}

fn adds_twice(store: &mut ZoneStore, record: &Record, last: &Key) -> Outcome {
    match adds(store, record, last) {
        Some(is_right) => outcome_of(is_right),
        None => outcome_again(adds(store, record, last)),
    }
}

// Appends an owner's text of so many labels, relative to the domain, with its address.
fn push_line(line: &mut Vec<u8>) -> Result<(), AllocError> {
    for _ in 1..LABELS {
        line.extend_from_slice(b"a.")?;
    }
    line.extend_from_slice(b"a A 192.0.2.1")
}

fn deep_record(alloc: Global) -> Option<Record> {
    let mut line = Vec::new(alloc);
    let record = match push_line(&mut line) {
        Ok(()) => record(alloc, &line),
        Err(_) => None,
    };
    drop(line);
    record
}

fn last_key(alloc: Global) -> Option<Key> {
    let apex = apex(alloc)?;
    let name = Name::from_text(alloc, b"a", &apex);
    drop(apex);
    Some(Key {
        name: name.ok()?,
        kind: Kind::Exists,
    })
}

fn loaded(alloc: Global) -> Option<Box<ZoneStore>> {
    let mut store = new_store(alloc)?;
    let is_loaded = loads(alloc, &mut store);
    is_loaded.then_some(store)
}

fn loads(alloc: Global, store: &mut ZoneStore) -> bool {
    match zone(alloc) {
        Some(zone) => {
            let loaded = store.load(&zone).ok();
            drop(zone);
            let is_loaded = loaded.is_some();
            drop(loaded);
            is_loaded
        }
        None => false,
    }
}

pub(crate) fn add_names_call(alloc: Global) -> Option<Outcome> {
    let record = deep_record(alloc)?;
    let outcome = adds_deep(alloc, &record);
    drop(record);
    outcome
}

fn adds_deep(alloc: Global, record: &Record) -> Option<Outcome> {
    let last = last_key(alloc)?;
    let outcome = adds_to_zone(alloc, record, &last);
    drop(last);
    outcome
}

fn adds_to_zone(alloc: Global, record: &Record, last: &Key) -> Option<Outcome> {
    let mut store = loaded(alloc)?;
    let outcome = adds_twice(&mut store, record, last);
    drop(store);
    Some(outcome)
}

// Whether the answer is kept, and is current or not.
fn is_current(book: &Book, question: &Question, expected: bool) -> bool {
    match book.entry(question) {
        Some(entry) => entry.is_current() == expected,
        None => false,
    }
}

// The book keeps the answer of a name that does not exist. The edit makes one above it exist, and changes
// no record set.
fn outdates(alloc: Global, book: &mut Book, question: &Question, record: &Record) -> Option<bool> {
    let edit = Edit::Add(record.dup(alloc).ok()?);
    match book.change(edit) {
        Ok(done) => Some(
            done.changed == 0 && is_current(book, question, false) && book.queued() == 1,
        ),
        Err(fault) => {
            let is_as_before = book.journal().len() == 2 && is_current(book, question, true);
            refused(fault.code(), is_as_before)
        }
    }
}

fn outdates_twice(alloc: Global, book: &mut Book, question: &Question, record: &Record) -> Outcome {
    match outdates(alloc, book, question, record) {
        Some(is_right) => outcome_of(is_right),
        None => outcome_again(outdates(alloc, book, question, record)),
    }
}

fn book_with_answer(alloc: Global) -> Option<Box<Book>> {
    let mut book = book(alloc)?;
    let is_found = finds(alloc, &mut book, Asked::Deep);
    is_found.then_some(book)
}

pub(crate) fn outdate_call(alloc: Global) -> Option<Outcome> {
    let record = record(alloc, b"x.f.g.h TXT")?;
    let outcome = outdates_deep(alloc, &record);
    drop(record);
    outcome
}

fn outdates_deep(alloc: Global, record: &Record) -> Option<Outcome> {
    let question = question_of(alloc, Asked::Deep)?;
    let outcome = outdates_answer(alloc, &question, record);
    drop(question);
    outcome
}

fn outdates_answer(alloc: Global, question: &Question, record: &Record) -> Option<Outcome> {
    let mut book = book_with_answer(alloc)?;
    let outcome = outdates_twice(alloc, &mut book, question, record);
    drop(book);
    Some(outcome)
}
