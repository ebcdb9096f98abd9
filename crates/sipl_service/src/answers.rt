// The answers that the book under the lock records: that of a current entry, and that of a finding, which
// is committed. Copies of a question, of random words and of an answer share what they have, and are made
// there.
ghost use Rattle.std.specs.Prelude.{◌≡◌, ◌≢◌, ◌⊎◌, ◌^◌, ℕ, ◌<◌, ◌≤◌, ◌++◌, [], ◌∷◌, length, false, true, None, Some, Ok, IfOk, IfErr, OnOk, OnErr};
ghost use Rattle.std.specs.Arc.{arc_value};
ghost use Rattle.sipl_outages.specs.Holds.{no_holds};
ghost use Rattle.sipl_plans.specs.Findings.{IsSound};
ghost use Rattle.sipl_plans.specs.Plan.{draw};
ghost use Rattle.sipl_book.specs.Book.{answer_now, next_event};
ghost use Rattle.sipl_book.specs.Calls.{CommitsAnswer, IsHanded, after_check, is_full, recorded, store_with_looks};
ghost use Rattle.sipl_book.specs.Entries.{has_current_entry};
ghost use Rattle.sipl_service.specs.Answering.{IsDrawnFor, Records};
ghost use Rattle.sipl_service.specs.Passes.{receipt_of};
ghost use Rattle.sipl_service.specs.Refusals.{commit_fault, contended, early_fault, hand_fault};
ghost use Rattle.sipl_service.specs.Telling.{IsAnswerTo, event_of, told_to};

use crate::answered::Answered;
use crate::asked::Asked;
use crate::checks::next_answer;
use crate::fault::ServiceFault;
use crate::pass::Pass;
use crate::receipt::Receipt;
use crate::told::Told;
use sipl_book::{Book, BookFault, Event, SharedDraws, Uncommitted};
use sipl_evidence::Evidence;
use sipl_outages::{Board, Held, SharedBoard};
use sipl_plans::{Answer, Finding, draw};
use sipl_uri::Question;
use std::alloc::{AllocError, Global};
use std::sync::Arc;

// The answer of the current entry of a question.
#[tactic(auto, using(crate::proofs::FirstFault::hand_before, crate::proofs::FirstFault::hand_not_current,))]
pub(crate) fn hand(
    alloc: Global,
    book: &mut Book,
    pass: &Pass,
    asked: Box<Asked>,
    words: &SharedDraws,
) -> Result<Answered, ServiceFault>
    requires words { words.now ≡ asked.value.draws }
    ensures front { OnOk result (pass.now.front ≤ next_event book.old) }
    ensures limit { OnOk result (next_event book.old ≤ 2 ^ 52) }
    ensures answered { IfOk result (λ answered. Records asked.value (next_event book.old) answered) }
    ensures handed { IfOk result (λ answered.
        IsHanded asked.value.question asked.value.draws book.old book.new
        (Ok (record { number = answered.told.number; answer = answered.told.answer }))) }
    ensures store { book.new.store ≡ book.old.store }
    ensures refused { IfErr result (λ fault. fault ≢ ServiceFault.Memory
        → hand_fault pass.now asked.value book.old ≡ Some fault) }
    ensures memory { IfErr result (λ fault. fault ≡ ServiceFault.Memory
        → early_fault pass.now asked.value.abilities asked.value.held book.old ≡ None) }
    ensures unchanged { OnErr result (book.new ≡ book.old) }
{
    let number = match next_answer(book, pass, &asked.abilities, asked.held) {
        Ok(number) => number,
        Err(fault) => {
            drop(asked);
            return Err(fault);
        }
    };
    let Ok(holds) = book.share_board() else {
        drop(asked);
        return Err(ServiceFault::Memory);
    };
    let told = tell_entry(alloc, book, number, asked, holds)?;
    match record(alloc, book, &told, words) {
        Ok(receipt) => Ok(Answered {
            told,
            receipt,
            released: None,
        }),
        Err(fault) => {
            drop(told);
            Err(fault)
        }
    }
}

// Records the answer that is returned, for these random words. Returns the receipt for it.
#[tactic(auto, using(crate::proofs::FirstFault::refused_for_memory))]
fn record(
    alloc: Global,
    book: &mut Book,
    told: &Told,
    words: &SharedDraws,
) -> Result<Receipt, ServiceFault>
    requires words { words.now ≡ told.now.words }
    requires answer { told.now.answer ≡ answer_now book.old told.now.question told.now.words }
    requires space { is_full book.old ≡ false }
    ensures journal { OnOk result (book.new ≡ recorded (event_of told.now) book.old) }
    ensures receipt { IfOk result
        (λ receipt. receipt ≡ receipt_of (next_event book.old) (event_of told.now)) }
    ensures memory { IfErr result (λ fault. fault ≡ ServiceFault.Memory) }
    ensures unchanged { OnErr result (book.new ≡ book.old) }
{
    let (copies, receipt) = Copies::twice(alloc, told, words)?;
    match book.record_answer(copies.question, copies.words, copies.answer) {
        Ok(number) => Ok(receipt.into_receipt(number)),
        Err(fault) => {
            drop(receipt);
            Err(fault.into())
        }
    }
}

// Copies of the question, the random words and the answer that is returned, for the journal or a receipt.
// They share what they have.
#[derive(Drop)]
struct Copies {
    question: Question,
    words: SharedDraws,
    answer: Answer,
}

impl Copies {
    // Copies of what is returned, for these random words.
    fn of(alloc: Global, told: &Told, words: &SharedDraws) -> Result<Self, AllocError>
        requires { words.now ≡ told.now.words }
        ensures question { IfOk result (λ copies. copies.question ≡ told.now.question) }
        ensures words { IfOk result (λ copies. copies.words ≡ told.now.words) }
        ensures answer { IfOk result (λ copies. copies.answer ≡ told.now.answer) }
    {
        let answer = told.answer().dup(alloc)?;
        let words = words.dup()?;
        Ok(Copies {
            question: told.question().dup(alloc)?,
            words,
            answer,
        })
    }

    // As `of`, for the journal and for a receipt.
    fn twice(alloc: Global, told: &Told, words: &SharedDraws) -> Result<(Self, Self), AllocError>
        requires { words.now ≡ told.now.words }
        ensures question { IfOk result (λ twice. twice.0.question ≡ told.now.question) }
        ensures words { IfOk result (λ twice. twice.0.words ≡ told.now.words) }
        ensures answer { IfOk result (λ twice. twice.0.answer ≡ told.now.answer) }
        ensures same { IfOk result (λ twice. twice.1 ≡ twice.0) }
    {
        let first = Copies::of(alloc, told, words)?;
        match Copies::of(alloc, told, words) {
            Ok(second) => Ok((first, second)),
            Err(error) => {
                drop(first);
                Err(error)
            }
        }
    }

    // The receipt with this number.
    fn into_receipt(self, number: u64) -> Receipt
        ensures { result
            ≡ receipt_of number (Event.Answer self.question self.words self.answer) }
    {
        Receipt {
            number,
            event: Event::Answer(self.question, self.words, self.answer),
        }
    }
}

// The answer of the current entry of a question for these holds, which the entry keeps where it can be
// returned again. B1 where there is none.
fn tell_entry(
    alloc: Global,
    book: &mut Book,
    number: u64,
    asked: Box<Asked>,
    holds: SharedBoard,
) -> Result<Told, ServiceFault>
    requires client { book.old.client ≡ asked.value.abilities }
    requires held { book.old.held ≡ asked.value.held }
    requires holds { holds ≡ book.old.board }
    ensures number { IfOk result (λ told. told.number ≡ number) }
    ensures asked { IfOk result (λ told. IsAnswerTo asked.value told) }
    ensures answer { IfOk result
        (λ told. told.answer ≡ answer_now book.old asked.value.question asked.value.draws) }
    ensures current { OnOk result (has_current_entry book.old.entries asked.value.question ≡ true) }
    ensures refused { IfErr result (λ fault. fault ≢ ServiceFault.Memory
        → (fault ≡ ServiceFault.Book BookFault.NotCurrent)
        × (has_current_entry book.old.entries asked.value.question ≡ false)) }
    ensures unchanged { book.new ≡ book.old }
{
    let entry = match book.entry(&asked.question) {
        Some(entry) if entry.is_current() => entry,
        _ => {
            drop(asked);
            drop(holds);
            return Err(ServiceFault::Book(BookFault::NotCurrent));
        }
    };
    let wants_answer = entry.wants_answer(&asked.draws, holds.get());
    let told = Told::of(alloc, number, asked, entry, holds)?;
    if wants_answer {
        book.keep_answer(told.question(), told.draws(), told.answer());
    }
    Ok(told)
}

// The answer of a finding, where the sets that it read are as they were. L1 with the key of the first
// that is not. What is asked is the question of the finding, and this is its answer where nothing is held.
pub(crate) fn commit(
    alloc: Global,
    book: &mut Book,
    pass: &Pass,
    asked: Box<Asked>,
    words: &SharedDraws,
    drawn: Answer,
    finding: Finding,
) -> Result<Answered, ServiceFault>
    requires words { words.now ≡ asked.value.draws }
    requires drawn { IsDrawnFor finding asked.value drawn }
    requires sound { IsSound finding }
    ensures front { OnOk result (pass.now.front ≤ next_event book.old) }
    ensures limit { OnOk result (next_event book.old ≤ 2 ^ 52) }
    ensures answered { IfOk result (λ answered. Records asked.value (next_event book.old) answered) }
    ensures journal { IfOk result
        (λ answered. book.new.journal ≡ book.old.journal ++ event_of answered.told ∷ []) }
    ensures store { book.new.store ≡ store_with_looks book.new.store.looks book.old.store }
    ensures committed { IfOk result (λ answered. CommitsAnswer finding asked.value.draws
        book.old book.new (Ok (record { number = answered.told.number; released = answered.released }))) }
    ensures refused { IfErr result (λ fault. fault ≢ ServiceFault.Memory
        → commit_fault pass.now asked.value finding book.old ≡ Some fault) }
    ensures memory { IfErr result (λ fault. fault ≡ ServiceFault.Memory
        → early_fault pass.now asked.value.abilities asked.value.held book.old ≡ None) }
    ensures unchanged { OnErr result (book.new.journal ≡ book.old.journal) }
    ensures looked { OnErr result
        ((book.new ≡ book.old) ⊎ (book.new ≡ after_check finding book.old)) }
{
    let told = match tell_finding(alloc, book, pass, asked, drawn, &finding) {
        Ok(told) => told,
        Err(fault) => {
            drop(finding);
            return Err(fault);
        }
    };
    let Ok((copies, receipt)) = Copies::twice(alloc, &told, words) else {
        drop(told);
        drop(finding);
        return Err(ServiceFault::Memory);
    };
    match book.commit_answer(finding, copies.question, copies.words, copies.answer) {
        Ok(committed) => Ok(Answered {
            receipt: receipt.into_receipt(told.number()),
            told,
            released: committed.released,
        }),
        Err(uncommitted) => {
            drop(told);
            drop(receipt);
            let fault = fault_of(alloc, &uncommitted);
            drop(uncommitted);
            Err(fault)
        }
    }
}

// The answer of a finding for the holds of the book, with the number of the next event. The
// book is as it was.
fn tell_finding(
    alloc: Global,
    book: &mut Book,
    pass: &Pass,
    asked: Box<Asked>,
    drawn: Answer,
    finding: &Finding,
) -> Result<Told, ServiceFault>
    requires drawn { IsDrawnFor finding.now asked.value drawn }
    requires sound { IsSound finding.now }
    ensures front { OnOk result (pass.now.front ≤ next_event book.old) }
    ensures limit { OnOk result (next_event book.old ≤ 2 ^ 52) }
    ensures told { IfOk result (λ told. told ≡ told_to asked.value (next_event book.old)
        (draw finding.now.layout book.old.board.holds asked.value.draws asked.value.held)
        finding.now.items book.old.board) }
    ensures client { OnOk result (book.old.client ≡ asked.value.abilities) }
    ensures held { OnOk result (book.old.held ≡ asked.value.held) }
    ensures accepted { OnOk result
        (early_fault pass.now asked.value.abilities asked.value.held book.old ≡ None) }
    ensures refused { IfErr result (λ fault. fault ≢ ServiceFault.Memory
        → early_fault pass.now asked.value.abilities asked.value.held book.old ≡ Some fault) }
    ensures memory { IfErr result (λ fault. fault ≡ ServiceFault.Memory
        → early_fault pass.now asked.value.abilities asked.value.held book.old ≡ None) }
    ensures unchanged { book.new ≡ book.old }
{
    let number = match next_answer(book, pass, &asked.abilities, asked.held) {
        Ok(number) => number,
        Err(fault) => {
            drop(asked);
            drop(drawn);
            return Err(fault);
        }
    };
    let Ok((evidence, holds)) = share_parts(book, finding) else {
        drop(asked);
        drop(drawn);
        return Err(ServiceFault::Memory);
    };
    match drawn_again(alloc, finding, &asked, holds.get(), drawn) {
        Ok(answer) => Ok(Told::drawn(number, asked, answer, evidence, holds)),
        Err(_) => {
            drop(asked);
            drop(evidence);
            drop(holds);
            Err(ServiceFault::Memory)
        }
    }
}

// The evidence of a finding and the holds of the book, which are shared. The only error is an allocation
// failure. The book is as it was.
fn share_parts(
    book: &mut Book,
    finding: &Finding,
) -> Result<(Arc<Evidence>, SharedBoard), AllocError>
    ensures evidence { IfOk result (λ parts. arc_value parts.0 ≡ finding.now.items) }
    ensures holds { IfOk result (λ parts. parts.1 ≡ book.old.board) }
    ensures unchanged { book.new ≡ book.old }
{
    let holds = book.share_board()?;
    match finding.share_evidence() {
        Ok(evidence) => Ok((evidence, holds)),
        Err(error) => {
            drop(holds);
            Err(error)
        }
    }
}

// The answer of a finding for the holds of a board: where nothing is held, the one that is drawn.
fn drawn_again(
    alloc: Global,
    finding: &Finding,
    asked: &Asked,
    board: &Board,
    drawn: Answer,
) -> Result<Answer, AllocError>
    requires { IsDrawnFor finding.now asked.now drawn }
    ensures { IfOk result (λ answer. answer
        ≡ draw finding.now.layout board.now.holds asked.now.draws asked.now.held) }
{
    if board.is_empty() {
        return Ok(drawn);
    }
    drop(drawn);
    draw(alloc, finding.layout(), &asked.draws, board, asked.held)
}

// Why a finding was not committed.
fn fault_of(alloc: Global, uncommitted: &Uncommitted) -> ServiceFault
    requires within { (place : ℕ) → uncommitted.now.fault ≡ BookFault.Stale place
        → place < length uncommitted.now.finding.items }
    ensures known { result ≢ ServiceFault.Memory → uncommitted.now.fault ≢ BookFault.Memory }
    ensures contended { result ≢ ServiceFault.Memory
        → result ≡ contended uncommitted.now.finding.items uncommitted.now.fault }
{
    let BookFault::Stale(place) = uncommitted.fault else {
        return uncommitted.fault.into();
    };
    match uncommitted.finding.evidence().items().get(place) {
        Some(item) => match item.key().dup(alloc) {
            Ok(key) => ServiceFault::Contended(key),
            Err(error) => error.into(),
        },
        None => unreachable!(),
    }
}
