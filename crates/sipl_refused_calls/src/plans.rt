// Calls of a store, a run and a plan.
use crate::call::{Outcome, outcome_again, outcome_of, refused};
use crate::values::{
    Asked, NAMES, SERVER_2, SETS, abilities, book, draws, finding, is_bobs, is_bobs_reversed,
    question_of, read_four, read_next, zone,
};
use sipl_book::Book;
use sipl_choice::{Abilities, Endpoint, Transport};
use sipl_masterfile::ZoneText;
use sipl_outages::{Board, Held};
use sipl_plans::{Answer, Finding, Run, draw};
use sipl_records::Key;
use sipl_srv::Draws;
use sipl_zonestore::{Changed, StoreFault, ZoneStore};
use std::alloc::{AllocError, Global};

fn is_loaded(
    loaded: &Result<Changed, StoreFault>,
    store: &mut ZoneStore,
    zone: &ZoneText,
) -> Option<bool> {
    match loaded {
        Ok(changed) => {
            let is_loaded = store.records() == zone.records();
            Some(changed.sets == SETS && changed.keys.len() == SETS + NAMES && is_loaded)
        }
        Err(fault) => {
            let is_empty = store.apexes().is_empty() && store.records().is_empty();
            refused(fault.code(), is_empty)
        }
    }
}

fn loads(store: &mut ZoneStore, zone: &ZoneText) -> Option<bool> {
    let loaded = store.load(zone);
    let made = is_loaded(&loaded, store, zone);
    drop(loaded);
    made
}

fn loads_twice(store: &mut ZoneStore, zone: &ZoneText) -> Outcome {
    match loads(store, zone) {
        Some(is_right) => outcome_of(is_right),
        None => outcome_again(loads(store, zone)),
    }
}

pub(crate) fn new_store(alloc: Global) -> Option<Box<ZoneStore>> {
    Box::new(alloc, ZoneStore::new(alloc)).ok()
}

pub(crate) fn load_call(alloc: Global) -> Option<Outcome> {
    let zone = zone(alloc)?;
    let outcome = loads_new(alloc, &zone);
    drop(zone);
    outcome
}

fn loads_new(alloc: Global, zone: &ZoneText) -> Option<Outcome> {
    let mut store = new_store(alloc)?;
    let outcome = loads_twice(&mut store, zone);
    drop(store);
    Some(outcome)
}

fn wanted(alloc: Global, run: &Run) -> Option<Key> {
    run.wants()?.dup(alloc).ok()
}

// The run wants another set then than that of this key.
fn is_given(given: Result<(), AllocError>, run: &Run, key: &Key) -> Option<bool> {
    let is_wanted = run.wants() == Some(key);
    match given {
        Ok(()) => Some(!is_wanted),
        Err(_) => refused("Memory", is_wanted),
    }
}

fn gives(alloc: Global, book: &mut Book, run: &mut Run) -> Option<bool> {
    let key = wanted(alloc, run)?;
    let given = read_next(alloc, book, run);
    let made = is_given(given, run, &key);
    drop(key);
    made
}

// The set that is given is the first one, or that of a name above one that does not exist.
fn gives_twice(alloc: Global, book: &mut Book, run: &mut Run, asked: Asked) -> Option<Outcome> {
    if matches!(asked, Asked::Deep) {
        read_four(alloc, book, run).ok()?;
    }
    match gives(alloc, book, run) {
        Some(is_right) => Some(outcome_of(is_right)),
        None => Some(outcome_again(gives(alloc, book, run))),
    }
}

fn run_of(alloc: Global, asked: Asked) -> Option<Box<Run>> {
    let abilities = abilities(alloc)?;
    let run = start(alloc, asked, &abilities);
    drop(abilities);
    run
}

fn start(alloc: Global, asked: Asked, abilities: &Abilities) -> Option<Box<Run>> {
    let question = question_of(alloc, asked)?;
    let run = Run::start(alloc, question, abilities).ok()?;
    Box::new(alloc, run).ok()
}

pub(crate) fn give_call(alloc: Global, asked: Asked) -> Option<Outcome> {
    let mut run = run_of(alloc, asked)?;
    let outcome = gives_from_book(alloc, &mut run, asked);
    drop(run);
    outcome
}

fn gives_from_book(alloc: Global, run: &mut Run, asked: Asked) -> Option<Outcome> {
    let mut book = book(alloc)?;
    let outcome = gives_twice(alloc, &mut book, run, asked);
    drop(book);
    outcome
}

fn are_targets(drawn: &Result<Answer, AllocError>, held: Held) -> Option<bool> {
    match drawn {
        Ok(answer) => {
            Some(match held {
                Held::Out => is_bobs(answer),
                Held::Last => is_bobs_reversed(answer),
            })
        }
        Err(_) => None,
    }
}

fn draws_targets(
    alloc: Global,
    finding: &Finding,
    board: &Board,
    draws: &Draws,
    held: Held,
) -> Option<bool> {
    let drawn = draw(alloc, finding.layout(), draws, board, held);
    let made = are_targets(&drawn, held);
    drop(drawn);
    made
}

fn draws_twice(alloc: Global, finding: &Finding, board: &Board, held: Held) -> Option<Outcome> {
    let draws = draws()?;
    match draws_targets(alloc, finding, board, &draws, held) {
        Some(is_right) => Some(outcome_of(is_right)),
        None => Some(outcome_again(draws_targets(alloc, finding, board, &draws, held))),
    }
}

// A board that holds nothing, or server2's endpoint.
fn board_of(alloc: Global, held: Held) -> Option<Box<Board>> {
    let mut board = Box::new(alloc, Board::new(alloc)).ok()?;
    let is_made = match held {
        Held::Out => true,
        Held::Last => holds(&mut board),
    };
    is_made.then_some(board)
}

fn holds(board: &mut Board) -> bool {
    let endpoint = Endpoint {
        transport: Transport::Tcp,
        address: SERVER_2,
        port: 5060,
    };
    board.hold(&endpoint, 5000).is_ok()
}

fn found(alloc: Global) -> Option<Box<Finding>> {
    let mut book = book(alloc)?;
    let finding = finding(alloc, &mut book);
    drop(book);
    finding.ok()
}

// Where the policy is that held targets are last, the board holds the first target.
pub(crate) fn draw_call(alloc: Global, held: Held) -> Option<Outcome> {
    let board = board_of(alloc, held)?;
    let outcome = draws_found(alloc, &board, held);
    drop(board);
    outcome
}

fn draws_found(alloc: Global, board: &Board, held: Held) -> Option<Outcome> {
    let finding = found(alloc)?;
    let outcome = draws_twice(alloc, &finding, board, held);
    drop(finding);
    outcome
}
