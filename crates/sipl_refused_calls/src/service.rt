// Calls of a service.
use crate::call::{Outcome, outcome_again, outcome_of, refused};
use crate::values::{Asked, SETS, abilities, draws, is_answer, question_of, zone};
use sipl_book::{Done, Edit, Extent, Limits, Page};
use sipl_masterfile::ZoneText;
use sipl_outages::Held;
use sipl_service::{Ledger, OpenGate, Pass, Receipts, Service, ServiceFault, Told, claim};
use sipl_srv::Draws;
use sipl_uri::Question;
use std::alloc::Global;
use std::sync::Wait;

// A service, and the pass of its caller.
#[derive(Drop)]
struct Caller {
    service: Box<Service>,
    pass: Pass,
}

fn new_service(alloc: Global) -> Option<Box<Service>> {
    let abilities = abilities(alloc)?;
    let service = Service::new(alloc, abilities, &Limits::greatest(), 4, Held::Out).ok()?;
    Box::new(alloc, service).ok()
}

fn new_caller(alloc: Global) -> Option<Caller> {
    let service = new_service(alloc)?;
    let pass = service.pass();
    Some(Caller { service, pass })
}

// Loads the zone.
fn loads<R: Wait>(rt: &R, alloc: Global, caller: &mut Caller) -> bool {
    match zone(alloc) {
        Some(zone) => {
            let edited = caller.service.edit(rt, &mut caller.pass, Edit::Load(zone));
            let is_loaded = edited.is_ok();
            drop(edited);
            is_loaded
        }
        None => false,
    }
}

// ---- an edit

fn is_edited(edited: &Result<Done, ServiceFault>, pass: &Pass) -> Option<bool> {
    match edited {
        Ok(done) => Some(
            done.number == 0 && done.changed == SETS as u64 && pass.receipts().len() == 1,
        ),
        Err(fault) => refused(fault.code(), pass.receipts().is_empty()),
    }
}

fn edits<R: Wait>(rt: &R, alloc: Global, caller: &mut Caller, zone: &ZoneText) -> Option<bool> {
    let edit = Edit::Load(zone.dup(alloc).ok()?);
    let edited = caller.service.edit(rt, &mut caller.pass, edit);
    let made = is_edited(&edited, &caller.pass);
    drop(edited);
    made
}

fn edits_twice<R: Wait>(rt: &R, alloc: Global, caller: &mut Caller, zone: &ZoneText) -> Outcome {
    match edits(rt, alloc, caller, zone) {
        Some(is_right) => outcome_of(is_right),
        None => outcome_again(edits(rt, alloc, caller, zone)),
    }
}

fn edits_new<R: Wait>(rt: &R, alloc: Global, zone: &ZoneText) -> Option<Outcome> {
    let mut caller = new_caller(alloc)?;
    let outcome = edits_twice(rt, alloc, &mut caller, zone);
    drop(caller);
    Some(outcome)
}

pub(crate) fn edit_call<R: Wait>(rt: &R, alloc: Global) -> Option<Outcome> {
    let zone = zone(alloc)?;
    let outcome = edits_new(rt, alloc, &zone);
    drop(zone);
    outcome
}

// ---- a lookup

fn is_told(told: &Result<Told, ServiceFault>, pass: &Pass, asked: Asked) -> Option<bool> {
    match told {
        Ok(told) => Some(is_answer(asked, told.answer()) && pass.receipts().len() == 2),
        Err(fault) => refused(fault.code(), pass.receipts().len() == 1),
    }
}

fn looks_up<R: Wait>(
    rt: &R,
    caller: &mut Caller,
    asked: Asked,
    question: &Question,
    draws: &Draws,
) -> Option<bool> {
    let told = caller
        .service
        .lookup(rt, &mut caller.pass, question, draws, &OpenGate);
    let made = is_told(&told, &caller.pass, asked);
    drop(told);
    made
}

fn looks_up_twice<R: Wait>(
    rt: &R,
    caller: &mut Caller,
    asked: Asked,
    question: &Question,
) -> Option<Outcome> {
    let draws = draws()?;
    match looks_up(rt, caller, asked, question, &draws) {
        Some(is_right) => Some(outcome_of(is_right)),
        None => Some(outcome_again(looks_up(rt, caller, asked, question, &draws))),
    }
}

fn looks_up_loaded<R: Wait>(
    rt: &R,
    alloc: Global,
    asked: Asked,
    question: &Question,
) -> Option<Outcome> {
    let mut caller = new_caller(alloc)?;
    let outcome = if loads(rt, alloc, &mut caller) {
        looks_up_twice(rt, &mut caller, asked, question)
    } else {
        None
    };
    drop(caller);
    outcome
}

pub(crate) fn lookup_call<R: Wait>(rt: &R, alloc: Global, asked: Asked) -> Option<Outcome> {
    let question = question_of(alloc, asked)?;
    let outcome = looks_up_loaded(rt, alloc, asked, &question);
    drop(question);
    outcome
}

// ---- a page

// Whether a page has the one event.
fn is_turned(turned: &Result<Page, ServiceFault>) -> Option<bool> {
    match turned {
        Ok(page) => Some(page.extent() == Extent { first: 0, count: 1 }),
        Err(fault) => refused(fault.code(), true),
    }
}

// The service has one event, whose records no page has yet.
fn turns_page<R: Wait>(rt: &R, service: &Service) -> Option<bool> {
    let turned = service.turn_page(rt);
    let made = is_turned(&turned);
    drop(turned);
    made
}

fn turns_page_twice<R: Wait>(rt: &R, service: &Service) -> Outcome {
    match turns_page(rt, service) {
        Some(is_right) => outcome_of(is_right),
        None => outcome_again(turns_page(rt, service)),
    }
}

pub(crate) fn turn_call<R: Wait>(rt: &R, alloc: Global) -> Option<Outcome> {
    let mut caller = new_caller(alloc)?;
    let outcome = if loads(rt, alloc, &mut caller) {
        Some(turns_page_twice(rt, &caller.service))
    } else {
        None
    };
    drop(caller);
    outcome
}

// ---- services that are closed

// When the page of a service is turned that has two events: a zone that is loaded, and a move of the clock.
#[derive(Clone, Copy, PartialEq, Eq)]
pub(crate) enum Turned {
    BetweenThem,
    AfterThem,
    Never,
}

fn keeps(pages: &mut Vec<Page>, page: Option<Page>) -> bool {
    match page {
        Some(page) => pages.push(page).is_ok(),
        None => false,
    }
}

fn keeps_page<R: Wait>(rt: &R, caller: &Caller, pages: &mut Vec<Page>) -> bool {
    keeps(pages, caller.service.turn_page(rt).ok())
}

fn advances<R: Wait>(rt: &R, caller: &mut Caller) -> bool {
    let advanced = caller.service.advance(rt, &mut caller.pass, 1);
    let is_advanced = advanced.is_ok();
    drop(advanced);
    is_advanced
}

fn has_events<R: Wait>(
    rt: &R,
    alloc: Global,
    caller: &mut Caller,
    turned: Turned,
    pages: &mut Vec<Page>,
) -> bool {
    loads(rt, alloc, caller)
        && (turned != Turned::BetweenThem || keeps_page(rt, caller, pages))
        && advances(rt, caller)
        && (turned != Turned::AfterThem || keeps_page(rt, caller, pages))
}

// Closing does not allocate.
fn closes(service: Box<Service>, pages: &mut Vec<Page>) -> bool {
    keeps(pages, Box::into_inner(service).close().ok())
}

// The pass of a caller whose service is closed.
fn pass_of(caller: Caller, pages: &mut Vec<Page>) -> Option<Pass> {
    let Caller { service, pass } = caller;
    closes(service, pages).then_some(pass)
}

// The pass of a service with two events, which is closed, and its pages in their order.
fn closed<R: Wait>(rt: &R, alloc: Global, turned: Turned, pages: &mut Vec<Page>) -> Option<Pass> {
    let mut caller = new_caller(alloc)?;
    if has_events(rt, alloc, &mut caller, turned, pages) {
        pass_of(caller, pages)
    } else {
        drop(caller);
        None
    }
}

// ---- a claim

fn claims(alloc: Global, pages: &[Page], passes: &[Pass]) -> Option<bool> {
    match claim(alloc, pages, passes) {
        Ok(()) => Some(true),
        Err(fault) => refused(fault.code(), true),
    }
}

fn claims_twice(alloc: Global, pages: &[Page], passes: &[Pass]) -> Outcome {
    match claims(alloc, pages, passes) {
        Some(is_right) => outcome_of(is_right),
        None => outcome_again(claims(alloc, pages, passes)),
    }
}

fn claims_with(alloc: Global, pages: &[Page], pass: Pass) -> Outcome {
    let passes = [pass];
    let outcome = claims_twice(alloc, pages, &passes);
    drop(passes);
    outcome
}

fn claims_closed<R: Wait>(rt: &R, alloc: Global, pages: &mut Vec<Page>) -> Option<Outcome> {
    let pass = closed(rt, alloc, Turned::BetweenThem, pages)?;
    Some(claims_with(alloc, pages.as_slice(), pass))
}

pub(crate) fn claim_call<R: Wait>(rt: &R, alloc: Global) -> Option<Outcome> {
    let mut pages = Vec::new(alloc);
    let outcome = claims_closed(rt, alloc, &mut pages);
    drop(pages);
    outcome
}

// ---- a ledger

fn adds(ledger: &mut Ledger, receipts: Receipts) -> Outcome {
    match ledger.add(receipts) {
        Ok(()) => outcome_of(ledger.waiting().len() == 1),
        Err(receipts) => adds_again(ledger, receipts),
    }
}

fn adds_again(ledger: &mut Ledger, receipts: Receipts) -> Outcome {
    let is_as_before = receipts.len() == 2 && ledger.is_settled();
    let is_added = has_added(ledger, receipts);
    outcome_again(Some(is_as_before && is_added && ledger.waiting().len() == 1))
}

fn adds_to_ledger(alloc: Global, receipts: Receipts) -> Outcome {
    let mut ledger = Ledger::new(alloc);
    let outcome = adds(&mut ledger, receipts);
    drop(ledger);
    outcome
}

// The receipts of a service with two events, whose pages these are.
fn receipts<R: Wait>(
    rt: &R,
    alloc: Global,
    turned: Turned,
    pages: &mut Vec<Page>,
) -> Option<Receipts> {
    let mut pass = closed(rt, alloc, turned, pages)?;
    let receipts = pass.hand_over();
    drop(pass);
    Some(receipts)
}

pub(crate) fn add_to_ledger_call<R: Wait>(rt: &R, alloc: Global) -> Option<Outcome> {
    let mut pages = Vec::new(alloc);
    let receipts = receipts(rt, alloc, Turned::Never, &mut pages);
    drop(pages);
    Some(adds_to_ledger(alloc, receipts?))
}

// The ledger has all receipts of the page.
fn claims_page(ledger: &mut Ledger, page: &Page) -> Option<bool> {
    match ledger.claim(page) {
        Ok(()) => Some(ledger.next() == 2 && ledger.is_settled()),
        Err(fault) => refused(fault.code(), ledger.next() == 0 && !ledger.is_settled()),
    }
}

fn claims_page_twice(ledger: &mut Ledger, page: &Page) -> Outcome {
    match claims_page(ledger, page) {
        Some(is_right) => outcome_of(is_right),
        None => outcome_again(claims_page(ledger, page)),
    }
}

fn has_added(ledger: &mut Ledger, receipts: Receipts) -> bool {
    let added = ledger.add(receipts);
    let is_added = added.is_ok();
    drop(added);
    is_added
}

fn claims_page_by(alloc: Global, receipts: Receipts, page: &Page) -> Option<Outcome> {
    let mut ledger = Ledger::new(alloc);
    let outcome = if has_added(&mut ledger, receipts) {
        Some(claims_page_twice(&mut ledger, page))
    } else {
        None
    };
    drop(ledger);
    outcome
}

fn claims_first<R: Wait>(
    rt: &R,
    alloc: Global,
    turned: Turned,
    pages: &mut Vec<Page>,
) -> Option<Outcome> {
    let receipts = receipts(rt, alloc, turned, pages)?;
    match pages.as_slice().first() {
        Some(page) => claims_page_by(alloc, receipts, page),
        None => {
            drop(receipts);
            None
        }
    }
}

// The first page has both events.
pub(crate) fn claim_page_call<R: Wait>(rt: &R, alloc: Global, turned: Turned) -> Option<Outcome> {
    let mut pages = Vec::new(alloc);
    let outcome = claims_first(rt, alloc, turned, &mut pages);
    drop(pages);
    outcome
}
