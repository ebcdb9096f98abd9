// Whether a call may record an event, by the book and its caller's pass.
ghost use Rattle.std.specs.Prelude.{◌≡◌, ◌≢◌, ◌≤◌, ◌^◌, None, Some, false, IfOk, IfErr, OnOk};
ghost use Rattle.sipl_book.specs.Book.{next_event};
ghost use Rattle.sipl_book.specs.Calls.{is_full};
ghost use Rattle.sipl_service.specs.Refusals.{early_fault, is_for, unless_ahead, unless_other};

use crate::fault::ServiceFault;
use crate::pass::Pass;
use sipl_book::{Book, BookFault};
use sipl_choice::Abilities;
use sipl_outages::Held;

// The number of the next event. L2 where the pass has seen it.
pub(crate) fn next_number(book: &Book, pass: &Pass) -> Result<u64, ServiceFault>
    ensures number { IfOk result (λ number. number ≡ next_event book.now) }
    ensures front { OnOk result (pass.now.front ≤ next_event book.now) }
    ensures limit { OnOk result (next_event book.now ≤ 2 ^ 52) }
    ensures accepted { OnOk result (unless_ahead pass.now book.now None ≡ None) }
    ensures ahead { IfErr result
        (λ fault. unless_ahead pass.now book.now None ≡ Some fault) }
    ensures known { IfErr result (λ fault. fault ≢ ServiceFault.Memory) }
{
    let next = book.next_event();
    let front = pass.front();
    if front > next {
        return Err(ServiceFault::PassAhead { next, front });
    }
    Ok(next)
}

// Whether the book is for a client of these abilities, and for this policy on held endpoints.
pub(crate) fn is_for(book: &Book, abilities: &Abilities, held: Held) -> bool
    ensures { result ≡ is_for abilities.now held book.now }
{
    book.abilities() == abilities && book.held() == held
}

// L7 where the book is for a client of other abilities, or for another policy.
pub(crate) fn check_client(
    book: &Book,
    abilities: &Abilities,
    held: Held,
) -> Result<(), ServiceFault>
    ensures same { OnOk result (book.now.client ≡ abilities.now) }
    ensures held { OnOk result (book.now.held ≡ held) }
    ensures accepted { OnOk result (unless_other abilities.now held book.now None ≡ None) }
    ensures other { IfErr result
        (λ fault. unless_other abilities.now held book.now None ≡ Some fault) }
    ensures only { IfErr result (λ fault. fault ≡ ServiceFault.OtherBook) }
{
    if !is_for(book, abilities, held) {
        return Err(ServiceFault::OtherBook);
    }
    Ok(())
}

// The number of the next event, where it may be an answer. L2 where the pass has seen it, L7 where the
// book is for a client of other abilities, or for another policy, B3 where the journal is full.
pub(crate) fn next_answer(
    book: &Book,
    pass: &Pass,
    abilities: &Abilities,
    held: Held,
) -> Result<u64, ServiceFault>
    ensures number { IfOk result (λ number. number ≡ next_event book.now) }
    ensures front { OnOk result (pass.now.front ≤ next_event book.now) }
    ensures limit { OnOk result (next_event book.now ≤ 2 ^ 52) }
    ensures same { OnOk result (book.now.client ≡ abilities.now) }
    ensures held { OnOk result (book.now.held ≡ held) }
    ensures space { OnOk result (is_full book.now ≡ false) }
    ensures accepted { OnOk result (early_fault pass.now abilities.now held book.now ≡ None) }
    ensures refused { IfErr result
        (λ fault. early_fault pass.now abilities.now held book.now ≡ Some fault) }
    ensures known { IfErr result (λ fault. fault ≢ ServiceFault.Memory) }
{
    let number = next_number(book, pass)?;
    check_client(book, abilities, held)?;
    if book.is_full() {
        return Err(ServiceFault::Book(BookFault::JournalFull));
    }
    Ok(number)
}
