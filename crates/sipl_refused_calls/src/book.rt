// Calls of a book.
ghost use Rattle.std.specs.Prelude.{◌≡◌, IfErr};

use crate::call::{Outcome, outcome_again, outcome_of, refused};
use crate::values::{
    Asked, SETS, book, draws, finding, finds, is_answer, is_bobs, new_book, question_of, record,
    zone,
};
use sipl_book::{Book, BookFault, Edit, Handed, Uncommitted};
use sipl_masterfile::ZoneText;
use sipl_plans::Finding;
use sipl_srv::Draws;
use sipl_uri::Question;
use std::alloc::Global;

fn changes(alloc: Global, book: &mut Book, zone: &ZoneText) -> Option<bool> {
    let edit = Edit::Load(zone.dup(alloc).ok()?);
    match book.change(edit) {
        Ok(done) => {
            Some(done.number == 0 && done.changed == SETS as u64 && book.journal().len() == 1)
        }
        Err(fault) => refused(fault.code(), book.journal().is_empty()),
    }
}

fn changes_twice(alloc: Global, book: &mut Book, zone: &ZoneText) -> Outcome {
    match changes(alloc, book, zone) {
        Some(is_right) => outcome_of(is_right),
        None => outcome_again(changes(alloc, book, zone)),
    }
}

pub(crate) fn change_call(alloc: Global) -> Option<Outcome> {
    let zone = zone(alloc)?;
    let outcome = changes_new(alloc, &zone);
    drop(zone);
    outcome
}

fn changes_new(alloc: Global, zone: &ZoneText) -> Option<Outcome> {
    let mut book = new_book(alloc)?;
    let outcome = changes_twice(alloc, &mut book, zone);
    drop(book);
    Some(outcome)
}

fn is_found(
    found: &Result<Handed, BookFault>,
    book: &Book,
    asked: Asked,
    question: &Question,
) -> Option<bool> {
    match found {
        Ok(handed) => Some(handed.number == 1 && is_answer(asked, &handed.answer)),
        Err(fault) => {
            let is_as_before = book.journal().len() == 1 && book.entry(question).is_none();
            refused(fault.code(), is_as_before)
        }
    }
}

fn answers(
    alloc: Global,
    book: &mut Book,
    asked: Asked,
    question: &Question,
    draws: &Draws,
) -> Option<bool> {
    let found = book.find(question.dup(alloc).ok()?, draws);
    let made = is_found(&found, book, asked, question);
    drop(found);
    made
}

fn answers_twice(
    alloc: Global,
    book: &mut Book,
    asked: Asked,
    question: &Question,
) -> Option<Outcome> {
    let draws = draws()?;
    match answers(alloc, book, asked, question, &draws) {
        Some(is_right) => Some(outcome_of(is_right)),
        None => Some(outcome_again(answers(alloc, book, asked, question, &draws))),
    }
}

pub(crate) fn find_call(alloc: Global, asked: Asked) -> Option<Outcome> {
    let question = question_of(alloc, asked)?;
    let outcome = answers_by_book(alloc, asked, &question);
    drop(question);
    outcome
}

fn answers_by_book(alloc: Global, asked: Asked, question: &Question) -> Option<Outcome> {
    let mut book = book(alloc)?;
    let outcome = answers_twice(alloc, &mut book, asked, question);
    drop(book);
    outcome
}

// Whether it is Bob's answer, which has the second event.
fn is_committed(handed: Handed) -> bool {
    let is_so = handed.number == 1 && is_bobs(&handed.answer);
    drop(handed);
    is_so
}

// The first of the two commits has the finding, and gives it back where it is refused.
fn commit_found(book: &mut Book, finding: Finding, draws: &Draws) -> Result<bool, Uncommitted>
    requires { finding.client ≡ book.old.client }
    ensures client { book.new.client ≡ book.old.client }
    ensures finding { IfErr result (λ uncommitted. uncommitted.finding ≡ finding) }
{
    let handed = book.commit_checked(finding, draws)?;
    Ok(is_committed(handed))
}

fn commit(alloc: Global, book: &mut Book) -> Option<Outcome> {
    let draws = draws()?;
    match finding(alloc, book) {
        Ok(finding) => Some(commit_twice(book, Box::into_inner(finding), &draws)),
        Err(_) => None,
    }
}

fn commit_twice(book: &mut Book, finding: Finding, draws: &Draws) -> Outcome
    requires { finding.client ≡ book.old.client }
{
    match commit_found(book, finding, draws) {
        Ok(is_right) => outcome_of(is_right),
        Err(uncommitted) => commit_again(book, uncommitted, draws),
    }
}

fn commit_again(book: &mut Book, uncommitted: Uncommitted, draws: &Draws) -> Outcome
    requires { uncommitted.finding.client ≡ book.old.client }
{
    let Uncommitted { fault, finding } = uncommitted;
    let is_refused = fault == BookFault::Memory && book.journal().len() == 1;
    let committed = commit_found(book, finding, draws);
    let is_right = matches!(&committed, Ok(true));
    drop(committed);
    outcome_again(Some(is_refused && is_right))
}

pub(crate) fn commit_call(alloc: Global) -> Option<Outcome> {
    let mut book = book(alloc)?;
    let outcome = commit(alloc, &mut book);
    drop(book);
    outcome
}

// The book has an entry that is outdated. Its lease is given back.
fn leases(book: &mut Book, question: &Question) -> Option<bool> {
    match book.lease() {
        Ok((lease, leased)) => {
            book.give_back(lease);
            let is_same = leased == *question;
            drop(leased);
            Some(is_same)
        }
        Err(fault) => refused(fault.code(), book.queued() == 1),
    }
}

// Keeps the answer, and makes it outdated.
fn outdates(alloc: Global, book: &mut Book) -> bool {
    finds(alloc, book, Asked::Bob) && removes(alloc, book)
}

fn removes(alloc: Global, book: &mut Book) -> bool {
    match record(alloc, b"server2.example.com. A 192.0.2.2") {
        Some(record) => book.change(Edit::Remove(record)).is_ok(),
        None => false,
    }
}

fn leases_twice(alloc: Global, book: &mut Book, question: &Question) -> Option<Outcome> {
    if !outdates(alloc, book) {
        return None;
    }
    match leases(book, question) {
        Some(is_right) => Some(outcome_of(is_right)),
        None => Some(outcome_again(leases(book, question))),
    }
}

pub(crate) fn lease_call(alloc: Global) -> Option<Outcome> {
    let question = question_of(alloc, Asked::Bob)?;
    let outcome = leases_entry(alloc, &question);
    drop(question);
    outcome
}

fn leases_entry(alloc: Global, question: &Question) -> Option<Outcome> {
    let mut book = book(alloc)?;
    let outcome = leases_twice(alloc, &mut book, question);
    drop(book);
    outcome
}
