// What a change does to the book that the lock lends it, and the receipt for it, whose caller has space for
// it.
ghost use Rattle.std.specs.Prelude.{◌≡◌, ◌≢◌, ◌^◌, ◌-◌, ◌≤◌, length, slice_get, None, Some, Ok, IfOk, IfErr, IfSome, OnOk, OnErr};
ghost use Rattle.sipl_outages.specs.Holds.BoardEvent.{Hold, Release, Advance};
ghost use Rattle.sipl_book.specs.Calls.{IsChanged, MovesBoard, board_refusal, change_refusal, early_change_refusal};
ghost use Rattle.sipl_service.specs.Refusals.{change_fault};

use crate::checks::next_number;
use crate::fault::ServiceFault;
use crate::pass::Pass;
use crate::receipt::Receipt;
use sipl_book::{Book, Done, Edit, Event};
use sipl_choice::Endpoint;
use std::alloc::Global;

// An edit that is to be made, and the receipt for it, which gets its number then.
#[derive(Drop)]
pub(crate) struct NewEdit {
    pub edit: Edit,
    pub receipt: Receipt,
}

// An edit that was made, the receipt for it, and where it loads a zone a copy of its event, which shares the
// records of an earlier load.
#[derive(Drop)]
pub(crate) struct Edited {
    pub done: Done,
    pub receipt: Receipt,
    pub load: Option<Event>,
}

impl Edited {
    // The receipt. That of a load shares the records of its event; then its own are dropped.
    pub fn into_receipt(self) -> Receipt
        requires { IfSome self.load (λ event. event ≡ self.receipt.event) }
        ensures { result ≡ self.receipt }
    {
        let Edited {
            mut receipt,
            load,
            ..
        } = self;
        if let Some(event) = load {
            receipt.event = event;
        }
        receipt
    }
}

// Edits the zones. The receipt has a copy of the edit.
pub(crate) fn change(
    alloc: Global,
    book: &mut Book,
    pass: &Pass,
    new: Box<NewEdit>,
) -> Result<Edited, ServiceFault>
    requires { new.value.receipt.event ≡ Event.Change new.value.edit }
    ensures number { IfOk result (λ edited. edited.receipt.number ≡ edited.done.number) }
    ensures event { IfOk result (λ edited. edited.receipt.event ≡ Event.Change new.value.edit) }
    ensures load { IfOk result
        (λ edited. IfSome edited.load (λ event. event ≡ edited.receipt.event)) }
    ensures front { IfOk result (λ edited. pass.now.front ≤ edited.done.number) }
    ensures limit { IfOk result (λ edited. edited.done.number ≤ 2 ^ 52) }
    ensures changed { IfOk result
        (λ edited. IsChanged new.value.edit book.old book.new (Ok edited.done)) }
    ensures refused { IfErr result (λ fault. fault ≢ ServiceFault.Memory
        → change_fault pass.now book.old (change_refusal new.value.edit book.old) ≡ Some fault) }
    ensures memory { IfErr result (λ fault. fault ≡ ServiceFault.Memory
        → change_fault pass.now book.old (early_change_refusal new.value.edit book.old) ≡ None) }
    ensures unchanged { OnErr result (book.new ≡ book.old) }
{
    next_number(book, pass)?;
    let NewEdit { edit, mut receipt } = Box::into_inner(new);
    let done = match book.change(edit) {
        Ok(done) => done,
        Err(fault) => {
            drop(receipt);
            return Err(fault.into());
        }
    };
    receipt.number = done.number;
    let load = dup_load(alloc, book);
    Ok(Edited {
        done,
        receipt,
        load,
    })
}

// A copy of the last event, where it loads a zone and the copy can be had.
fn dup_load(alloc: Global, book: &Book) -> Option<Event>
    ensures { IfSome result
        (λ event. slice_get book.now.journal (length book.now.journal - 1) ≡ Some event) }
{
    let event = book.journal().last()?;
    match event {
        Event::Change(Edit::Load(_)) => event.dup(alloc).ok(),
        _ => None,
    }
}

// Holds an endpoint for some milliseconds from now.
pub(crate) fn hold(
    book: &mut Book,
    pass: &Pass,
    endpoint: &Endpoint,
    ms: u64,
) -> Result<Receipt, ServiceFault>
    ensures event { IfOk result (λ receipt. receipt.event ≡ Event.Hold endpoint.now ms) }
    ensures front { IfOk result (λ receipt. pass.now.front ≤ receipt.number) }
    ensures limit { IfOk result (λ receipt. receipt.number ≤ 2 ^ 52) }
    ensures moved { IfOk result
        (λ receipt. MovesBoard (Hold endpoint.now ms) book.old book.new (Ok receipt.number)) }
    ensures store { book.new.store ≡ book.old.store }
    ensures refused { IfErr result (λ fault. fault ≢ ServiceFault.Memory
        → change_fault pass.now book.old (board_refusal (Hold endpoint.now ms) book.old) ≡ Some fault) }
    ensures memory { IfErr result (λ fault. fault ≡ ServiceFault.Memory
        → change_fault pass.now book.old (board_refusal (Hold endpoint.now ms) book.old) ≡ None) }
    ensures unchanged { OnErr result (book.new ≡ book.old) }
{
    next_number(book, pass)?;
    let number = book.hold(endpoint, ms)?;
    let event = Event::Hold(*endpoint, ms);
    Ok(Receipt { number, event })
}

// Ends the hold of an endpoint.
pub(crate) fn release(
    book: &mut Book,
    pass: &Pass,
    endpoint: &Endpoint,
) -> Result<Receipt, ServiceFault>
    ensures event { IfOk result (λ receipt. receipt.event ≡ Event.Release endpoint.now) }
    ensures front { IfOk result (λ receipt. pass.now.front ≤ receipt.number) }
    ensures limit { IfOk result (λ receipt. receipt.number ≤ 2 ^ 52) }
    ensures moved { IfOk result
        (λ receipt. MovesBoard (Release endpoint.now) book.old book.new (Ok receipt.number)) }
    ensures store { book.new.store ≡ book.old.store }
    ensures refused { IfErr result (λ fault. fault ≢ ServiceFault.Memory
        → change_fault pass.now book.old (board_refusal (Release endpoint.now) book.old) ≡ Some fault) }
    ensures memory { IfErr result (λ fault. fault ≡ ServiceFault.Memory
        → change_fault pass.now book.old (board_refusal (Release endpoint.now) book.old) ≡ None) }
    ensures unchanged { OnErr result (book.new ≡ book.old) }
{
    next_number(book, pass)?;
    let number = book.release(endpoint)?;
    let event = Event::Release(*endpoint);
    Ok(Receipt { number, event })
}

// Sets the time.
pub(crate) fn advance(book: &mut Book, pass: &Pass, to: u64) -> Result<Receipt, ServiceFault>
    ensures event { IfOk result (λ receipt. receipt.event ≡ Event.Advance to) }
    ensures front { IfOk result (λ receipt. pass.now.front ≤ receipt.number) }
    ensures limit { IfOk result (λ receipt. receipt.number ≤ 2 ^ 52) }
    ensures moved { IfOk result
        (λ receipt. MovesBoard (Advance to) book.old book.new (Ok receipt.number)) }
    ensures store { book.new.store ≡ book.old.store }
    ensures time { OnOk result (to ≤ 2 ^ 52) }
    ensures refused { IfErr result (λ fault. fault ≢ ServiceFault.Memory
        → change_fault pass.now book.old (board_refusal (Advance to) book.old) ≡ Some fault) }
    ensures memory { IfErr result (λ fault. fault ≡ ServiceFault.Memory
        → change_fault pass.now book.old (board_refusal (Advance to) book.old) ≡ None) }
    ensures unchanged { OnErr result (book.new ≡ book.old) }
{
    next_number(book, pass)?;
    let number = book.advance(to)?;
    let event = Event::Advance(to);
    Ok(Receipt { number, event })
}
