// The receipts that wait with numbers below the end of some events.
ghost use Rattle.std.specs.Prelude.{◌≡◌, ◌≢◌, ◌<◌, ◌≤◌, ◌-◌, ◌⊎◌, length, map, false, true, slice_set, slice_index_or, Some, IfErr, OnOk, vec_len};
ghost use Rattle.sipl_service.specs.Claims.{IsUnion, event_in};
ghost use Rattle.sipl_service.specs.Ledgers.{IsNoUnionAfter};
ghost use Rattle.sipl_service.specs.Receipts.{all_receipts, due, later};

use crate::claims::{claim_place, first_free, first_number, join};
use crate::fault::ClaimFault;
use crate::receipt::Receipt;
use crate::receipts::Receipts;
use crate::spaces::Spaces;
use sipl_book::{Event, Page};
use std::alloc::Global;

// Whether the events of the pages are the union of the receipts that wait with numbers below the end,
// where those with numbers below the next were claimed.
pub(crate) fn check(
    alloc: Global,
    next: u64,
    end: u64,
    pages: &[Page],
    waiting: &[Receipts],
) -> Result<(), ClaimFault>
    ensures union { OnOk result (IsUnion pages.now (due end (all_receipts waiting.now))) }
    ensures cause { IfErr result (λ fault. fault ≢ ClaimFault.Memory
        → IsNoUnionAfter next pages.now (due end (all_receipts waiting.now)) fault) }
{
    let Ok(events) = join(alloc, pages) else {
        return Err(ClaimFault::Memory);
    };
    let mut claimed = Vec::new(alloc);
    if claimed.resize(events.len(), false).is_err() {
        return Err(ClaimFault::Memory);
    }
    let first = first_number(pages);
    for handed in waiting {
        let count = handed.count_due(end);
        for place in 0..count {
            match claim_new_place(&mut claimed, next, first, &events, handed.get(place)) {
                Ok(()) => {}
                Err(fault) => return Err(fault),
            }
        }
    }
    match first_free(claimed.as_slice()) {
        Some(place) => Err(ClaimFault::Unclaimed(first + place as u64)),
        None => Ok(()),
    }
}

// As `claim_place`; a receipt with a number below the next is one too many.
fn claim_new_place(
    claimed: &mut Vec<bool>,
    next: u64,
    first: u64,
    events: &[&Event],
    receipt: &Receipt,
) -> Result<(), ClaimFault>
    requires { vec_len claimed.old ≡ length events.now }
    ensures len { vec_len claimed.new ≡ vec_len claimed.old }
    ensures ours { OnOk result (event_in first (map (λ event. event.now) events.now)
        receipt.now.number ≡ Some receipt.now.event) }
    ensures free { OnOk result
        (slice_index_or claimed.old.items (receipt.now.number - first) false ≡ false) }
    ensures places { OnOk result
        (claimed.new.items ≡ slice_set claimed.old.items (receipt.now.number - first) true) }
    ensures cause { IfErr result (λ fault.
        let here = event_in first (map (λ event. event.now) events.now) receipt.now.number in
        ((fault ≡ ClaimFault.Doubled receipt.now.number) × (receipt.now.number < next))
        ⊎ (((fault ≡ ClaimFault.NotOurs receipt.now.number) × (next ≤ receipt.now.number)
        × (here ≢ Some receipt.now.event))
        ⊎ ((fault ≡ ClaimFault.Doubled receipt.now.number) × (here ≡ Some receipt.now.event)
        × (slice_index_or claimed.old.items (receipt.now.number - first) false ≡ true)))) }
{
    if receipt.number < next {
        return Err(ClaimFault::Doubled(receipt.number));
    }
    claim_place(claimed, first, events, receipt)
}

// Drops the receipts with numbers below the end. The space of hand-overs of which none is left may be kept.
pub(crate) fn let_go(waiting: &mut Vec<Receipts>, spaces: &mut Spaces, end: u64)
    ensures { all_receipts waiting.new.items ≡ later end (all_receipts waiting.old.items) }
{
    for place in 0..waiting.len() {
        let_go_of_handed(&mut waiting[place], spaces, end);
    }
    waiting.retain(|handed| !handed.is_empty());
}

// Drops the receipts of a hand-over with numbers below the end.
fn let_go_of_handed(handed: &mut Receipts, spaces: &mut Spaces, end: u64)
    ensures { handed.new ≡ later end handed.old }
{
    handed.let_go(end);
    spaces.keep(handed);
}
