// What the calls begin with. `None` says that an allocation failed before the call.
ghost use Rattle.std.specs.Prelude.{◌≡◌, IfOk};

use sipl_book::{Book, Edit, Limits};
use sipl_choice::{Abilities, Families, Transport};
use sipl_masterfile::{ZoneText, read_record, read_zone};
use sipl_names::Name;
use sipl_outages::Held;
use sipl_plans::{Answer, Finding, Run};
use sipl_records::{Address, Record};
use sipl_srv::Draws;
use sipl_uri::{Question, Uri};
use std::alloc::{AllocError, Global};

const BOB: &[u8] = b"sip:bob@example.com";

pub(crate) const ZONE: &[u8] = b"@ NAPTR 50 50 \"s\" \"SIP+D2T\" \"\" _sip._tcp
_sip._tcp SRV 0 1 5060 server1
_sip._tcp SRV 0 2 5060 server2
server1 A 192.0.2.1
server2 A 192.0.2.2
* A 192.0.2.9
";

const SERVER_1: Address = Address::V4(0xC000_0201);

pub(crate) const SERVER_2: Address = Address::V4(0xC000_0202);

// How many sets the zone has, and how many names exist by it.
pub(crate) const SETS: usize = 5;

pub(crate) const NAMES: usize = 8;

// A question of a name that does not exist, with seven names between it and the domain.
const DEEP: &[u8] = b"sip:a.b.c.d.e.f.g.h.example.com:5060;transport=tcp";

// What is asked: Bob's question, whose names exist, or the one whose name does not.
#[derive(Clone, Copy)]
pub(crate) enum Asked {
    Bob,
    Deep,
}

pub(crate) fn apex(alloc: Global) -> Option<Name> {
    let root = Name::root(alloc);
    let apex = Name::from_text(alloc, b"example.com.", &root);
    drop(root);
    apex.ok()
}

pub(crate) fn zone(alloc: Global) -> Option<ZoneText> {
    let apex = apex(alloc)?;
    let zone = read_zone(alloc, ZONE, &apex);
    drop(apex);
    zone.ok()
}

// The record of a text whose names are relative to the domain.
pub(crate) fn record(alloc: Global, text: &[u8]) -> Option<Record> {
    let apex = apex(alloc)?;
    let record = read_record(alloc, text, &apex);
    drop(apex);
    record.ok()
}

pub(crate) fn abilities(alloc: Global) -> Option<Abilities> {
    let preference = Vec::from_slice(alloc, &[Transport::Tcp]).ok()?;
    Abilities::new(preference, Families::V4).ok()
}

pub(crate) fn question_of(alloc: Global, asked: Asked) -> Option<Question> {
    let uri = match asked {
        Asked::Bob => BOB,
        Asked::Deep => DEEP,
    };
    Uri::parse(alloc, uri).ok()
}

// Whether the answer is that of the question.
pub(crate) fn is_answer(asked: Asked, answer: &Answer) -> bool {
    match asked {
        Asked::Bob => is_bobs(answer),
        Asked::Deep => is_wildcards(answer),
    }
}

// A book without zones. It is boxed, as all is that has many parts: so a function lets go of one value.
pub(crate) fn new_book(alloc: Global) -> Option<Box<Book>> {
    let abilities = abilities(alloc)?;
    let book = Book::new(alloc, abilities, &Limits::greatest(), Held::Out);
    Box::new(alloc, book).ok()
}

// A book with the zone.
pub(crate) fn book(alloc: Global) -> Option<Box<Book>> {
    let mut book = new_book(alloc)?;
    let is_loaded = loads(alloc, &mut book);
    is_loaded.then_some(book)
}

fn loads(alloc: Global, book: &mut Book) -> bool {
    match zone(alloc) {
        Some(zone) => book.change(Edit::Load(zone)).is_ok(),
        None => false,
    }
}

// Whether a book finds an answer to the question.
pub(crate) fn finds(alloc: Global, book: &mut Book, asked: Asked) -> bool {
    match draws() {
        Some(draws) => finds_by(alloc, book, asked, &draws),
        None => false,
    }
}

fn finds_by(alloc: Global, book: &mut Book, asked: Asked, draws: &Draws) -> bool {
    match question_of(alloc, asked) {
        Some(question) => {
            let found = book.find(question, draws);
            let is_found = found.is_ok();
            drop(found);
            is_found
        }
        None => false,
    }
}

// Gives a run the next set that it wants, from a book.
pub(crate) fn read_next(alloc: Global, book: &mut Book, run: &mut Run) -> Result<(), AllocError>
    ensures book { book.new.client ≡ book.old.client }
    ensures run { run.new.client ≡ run.old.client }
{
    if let Some(key) = run.wants() {
        let (number, content) = book.read(key)?;
        run.give(alloc, number, content)?;
    }
    Ok(())
}

// Gives a run four sets: all that Bob's question wants, or of a name that does not exist its address, its
// alias, its existence, and that of its parent.
pub(crate) fn read_four(alloc: Global, book: &mut Book, run: &mut Run) -> Result<(), AllocError>
    ensures book { book.new.client ≡ book.old.client }
    ensures run { run.new.client ≡ run.old.client }
{
    read_next(alloc, book, run)?;
    read_next(alloc, book, run)?;
    read_next(alloc, book, run)?;
    read_next(alloc, book, run)
}

// A run of a question for a book's client.
fn start(alloc: Global, book: &Book, question: Question) -> Result<Box<Run>, AllocError>
    ensures { IfOk result (λ run. run.value.client ≡ book.now.client) }
{
    let run = Run::start(alloc, question, book.abilities())?;
    Ok(Box::new(alloc, run)?)
}

// What a run has found. One that wants another set has found nothing, as where an allocation failed.
fn finish(alloc: Global, run: Box<Run>) -> Result<Box<Finding>, AllocError>
    ensures { IfOk result (λ finding. finding.value.client ≡ run.value.client) }
{
    match Box::into_inner(run).finish() {
        Ok(finding) => Ok(Box::new(alloc, finding)?),
        Err(unfinished) => {
            drop(unfinished);
            Err(AllocError)
        }
    }
}

// What is found for a question with a book: its route, and the sets that it reads, which are four.
fn found_for(alloc: Global, book: &mut Book, question: Question) -> Result<Box<Finding>, AllocError>
    ensures same { book.new.client ≡ book.old.client }
    ensures client { IfOk result (λ finding. finding.value.client ≡ book.old.client) }
{
    let mut run = start(alloc, book, question)?;
    match read_four(alloc, book, &mut run) {
        Ok(()) => finish(alloc, run),
        Err(fault) => {
            drop(run);
            Err(fault)
        }
    }
}

// What is found for Bob's question.
pub(crate) fn finding(alloc: Global, book: &mut Book) -> Result<Box<Finding>, AllocError>
    ensures same { book.new.client ≡ book.old.client }
    ensures client { IfOk result (λ finding. finding.value.client ≡ book.old.client) }
{
    match question_of(alloc, Asked::Bob) {
        Some(question) => found_for(alloc, book, question),
        None => Err(AllocError),
    }
}

pub(crate) fn draws() -> Option<Draws> {
    Draws::from_words(&[2, 0, 1]).ok()
}

// Whether the answer is the address of the wildcard.
fn is_wildcards(answer: &Answer) -> bool {
    match answer {
        Answer::Targets(targets) => {
            let targets = targets.as_slice();
            targets.len() == 1 && targets[0].address == Address::V4(0xC000_0209)
        }
        Answer::None(_) => false,
    }
}

// Whether the answer is server2 and then server1.
pub(crate) fn is_bobs(answer: &Answer) -> bool {
    are_addresses(answer, SERVER_2, SERVER_1)
}

// Whether the answer is server1 and then server2.
pub(crate) fn is_bobs_reversed(answer: &Answer) -> bool {
    are_addresses(answer, SERVER_1, SERVER_2)
}

fn are_addresses(answer: &Answer, first: Address, second: Address) -> bool {
    match answer {
        Answer::Targets(targets) => {
            let targets = targets.as_slice();
            targets.len() == 2 && targets[0].address == first && targets[1].address == second
        }
        Answer::None(_) => false,
    }
}
