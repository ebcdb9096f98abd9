//! What no line shows of plans: a run that is to finish early, what its finding keeps, and the plan
//! from all records beside it. The rest is in `tests/sessions/routes/`, `tests/sessions/dependencies/` and
//! `tests/sessions/wildcards/`.
mod runs;

use crate::assertions::expects_equal;
use sipl_choice::{Abilities, Endpoint, Families, Transport};
use sipl_masterfile::read_record;
use sipl_names::Name;
use sipl_outages::{Board, Held};
use sipl_plans::{Answer, plan_of};
use sipl_records::{Address, Record};
use sipl_srv::Draws;
use sipl_uri::{Question, Uri};
use std::alloc::Global;
use std::process::Abort;

// An endpoint: the transport, the address and the port.
type Target = (Transport, &'static str, u16);

// The answer from the first 32 records.
fn plan(
    rt: &impl Abort,
    alloc: Global,
    records: &[Record],
    board: &Board,
    question: &Question,
    abilities: &Abilities,
    draws: &Draws,
    held: Held,
) -> Answer {
    let records = &records[..records.len().min(32)];
    plan_of(alloc, records, board, question, abilities, draws, held).expect(rt, "out of memory")
}

// The answer from these records, while nothing is held.
fn planned(
    rt: &impl Abort,
    alloc: Global,
    records: &[Record],
    question: &Question,
    abilities: &Abilities,
) -> Answer {
    let board = Board::new(alloc);
    let draws = no_draws(rt);
    plan(
        rt,
        alloc,
        records,
        &board,
        question,
        abilities,
        &draws,
        Held::Out,
    )
}

// Words of 0.
fn no_draws(rt: &impl Abort) -> Draws {
    Draws::from_words(&[]).expect(rt, "at most 32 words")
}

fn question_of(rt: &impl Abort, alloc: Global, uri: &str) -> Question {
    Uri::parse(alloc, uri.as_bytes()).expect(rt, "a URI")
}

fn abilities_of(rt: &impl Abort, alloc: Global, client: (Families, &[Transport])) -> Abilities {
    let (families, transports) = client;
    let preference = Vec::from_slice(alloc, transports).expect(rt, "out of memory");
    Abilities::new(preference, families).expect(rt, "abilities")
}

fn records_of(rt: &impl Abort, alloc: Global, lines: &[&str]) -> Vec<Record> {
    let mut records = Vec::new(alloc);
    for line in lines {
        push_record(rt, alloc, &mut records, line);
    }
    records
}

fn push_record(rt: &impl Abort, alloc: Global, records: &mut Vec<Record>, line: &str) {
    let record = read_record(alloc, line.as_bytes(), &Name::root(alloc)).expect(rt, line);
    records.push(record).expect(rt, "out of memory");
}

// The name of a text that ends in a dot.
fn name(rt: &impl Abort, alloc: Global, text: &str) -> Name {
    let root = Name::root(alloc);
    Name::from_text(alloc, text.as_bytes(), &root).expect(rt, "a name")
}

// The answer has these targets, in this order.
fn has_targets(rt: &impl Abort, answer: &Answer, found: &[Target]) {
    match answer {
        Answer::Targets(targets) => are_targets(rt, targets.as_slice(), found),
        Answer::None(reason) => panic!(rt; "{}", reason.name()),
    }
}

fn are_targets(rt: &impl Abort, targets: &[Endpoint], found: &[Target]) {
    is_len(rt, targets.len(), found.len(), "targets");
    for (endpoint, target) in targets.iter().zip(found.iter()) {
        is_target(rt, endpoint, target);
    }
}

fn is_len(rt: &impl Abort, len: usize, expected: usize, name: &str) {
    expects_equal(rt, &len, &expected, name);
}

fn is_target(rt: &impl Abort, endpoint: &Endpoint, target: &Target) {
    expects_equal(rt, endpoint, &endpoint_of(rt, *target), "a target");
}

fn endpoint_of(rt: &impl Abort, target: Target) -> Endpoint {
    let (transport, address, port) = target;
    let address = Address::from_text(address.as_bytes()).expect(rt, "an address");
    Endpoint {
        transport,
        address,
        port,
    }
}
