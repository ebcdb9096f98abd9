ghost use Rattle.std.specs.Prelude.{◌≡◌, ◌≢◌, ◌-◌, ◌^◌, ◌<◌, ◌≤◌, ◌⊎◌, ℕ, MatchBool, true, false, length, map, slice_set, slice_index_or, None, Some, IfSome, IfNone, IfOk, IfErr, OnOk, vec_len};
ghost use Rattle.std.specs.List.{All};
ghost use Rattle.sipl_book.specs.Machine.{IsLegal, empty_state};
ghost use Rattle.sipl_book.specs.Pages.{AreInOrder, events_in};
ghost use Rattle.sipl_service.specs.Passes.{receipts_of};
ghost use Rattle.sipl_service.specs.Claims.{IsReplayed, IsCause, IsUnion, event_in, first_in};

use crate::fault::ClaimFault;
use crate::gap::first_gap;
use crate::pass::Pass;
use crate::receipt::Receipt;
use sipl_book::{Event, Page};
use std::alloc::{AllocError, Global};

/// Whether the pages of a closed service, in their order, follow one another from the empty state, and
/// their events are the union of the passes' receipts: they have the event of each receipt at its
/// number, and each event is that of just one receipt. Linear in the events and their parts, and in what
/// `Page::follows` compares.
///
/// The fault is the first one: the least place of a page that does not follow the one before it (L8);
/// going through the receipts in order, one whose number has no such event (L4), or one whose number an
/// earlier one has (L5); then the least number that no receipt has (L3).
pub fn claim(alloc: Global, pages: &[Page], passes: &[Pass]) -> Result<(), ClaimFault>
    ensures union { OnOk result
        (AreInOrder None pages.now × IsUnion pages.now (receipts_of passes.now)) }
    ensures exact { IfErr result (λ fault. fault ≢ ClaimFault.Memory
        → AreInOrder None pages.now → IsUnion pages.now (receipts_of passes.now) → ⊥) }
    ensures cause { IfErr result
        (λ fault. IsCause pages.now (receipts_of passes.now) fault) }
    ensures legal { OnOk result (All (λ page.
        IsLegal page.client page.held (events_in pages.now) empty_state) pages.now) }
{
    if let Some(place) = first_gap(pages) {
        return Err(ClaimFault::Gap(place as u64));
    }
    let Ok(events) = join(alloc, pages) else {
        return Err(ClaimFault::Memory);
    };
    let mut claimed = Vec::new(alloc);
    if claimed.resize(events.len(), false).is_err() {
        return Err(ClaimFault::Memory);
    }
    let first = first_number(pages);
    for pass in passes {
        let receipts = pass.receipts();
        for receipt in receipts {
            match claim_place(&mut claimed, first, &events, receipt) {
                Ok(()) => {}
                Err(fault) => return Err(fault),
            }
        }
    }
    match first_free(claimed.as_slice()) {
        Some(place) => Err(ClaimFault::Unclaimed(first + place as u64)),
        None => Ok(()),
    }
}

// The number of the first event of all pages; 0 where there is no page.
pub(crate) fn first_number(pages: &[Page]) -> u64
    ensures first { result ≡ first_in pages.now }
    ensures limit { result ≤ 2 ^ 52 }
{
    match pages.first() {
        Some(page) => page.first(),
        None => 0,
    }
}

// The events of all pages, in their order. The only error is an allocation failure.
pub(crate) fn join<'a>(alloc: Global, pages: &'a [Page]) -> Result<Vec<&'a Event>, AllocError>
    ensures events { IfOk result (λ events.
        map (λ event. event.now) events.items ≡ events_in pages.now) }
    ensures pages { OnOk result (All IsReplayed pages.now) }
{
    let mut joined = Vec::new(alloc);
    for page in pages {
        let events = page.events();
        for event in events {
            joined.push(event)?;
        }
    }
    Ok(joined)
}

// Claims the place of the receipt's number, where the event of that number is the receipt's and the place
// is free.
pub(crate) fn claim_place(
    claimed: &mut Vec<bool>,
    first: u64,
    events: &[&Event],
    receipt: &Receipt,
) -> Result<(), ClaimFault>
    requires { vec_len claimed.old ≡ length events.now }
    ensures len { vec_len claimed.new ≡ vec_len claimed.old }
    ensures ours { OnOk result (event_in first (map (λ event. event.now) events.now)
        receipt.now.number ≡ Some receipt.now.event) }
    ensures free { OnOk result
        (slice_index_or claimed.old.items (receipt.now.number - first) false ≡ false) }
    ensures places { OnOk result
        (claimed.new.items ≡ slice_set claimed.old.items (receipt.now.number - first) true) }
    ensures cause { IfErr result (λ fault.
        let here = event_in first (map (λ event. event.now) events.now) receipt.now.number in
        ((fault ≡ ClaimFault.NotOurs receipt.now.number) × (here ≢ Some receipt.now.event))
        ⊎ ((fault ≡ ClaimFault.Doubled receipt.now.number) × (here ≡ Some receipt.now.event)
        × (slice_index_or claimed.old.items (receipt.now.number - first) false ≡ true))) }
{
    if !is_ours(first, events, receipt) {
        return Err(ClaimFault::NotOurs(receipt.number));
    }
    let place = (receipt.number - first) as usize;
    if claimed[place] {
        return Err(ClaimFault::Doubled(receipt.number));
    }
    claimed[place] = true;
    Ok(())
}

// Whether the event of the receipt's number is the receipt's.
fn is_ours(first: u64, events: &[&Event], receipt: &Receipt) -> bool
    ensures ours { let here = event_in first (map (λ event. event.now) events.now) receipt.now.number in
        MatchBool result (here ≡ Some receipt.now.event) (here ≢ Some receipt.now.event) }
    ensures first { result ≡ true → first ≤ receipt.now.number }
    ensures within { result ≡ true → receipt.now.number - first < length events.now }
{
    if receipt.number < first || receipt.number - first >= events.len() as u64 {
        return false;
    }
    *events[(receipt.number - first) as usize] == receipt.event
}

// The least place that is not claimed.
pub(crate) fn first_free(claimed: &[bool]) -> Option<usize>
    ensures free { IfSome result (λ n. (n < length claimed.now)
        × (slice_index_or claimed.now n false ≡ false)
        × ((k : ℕ) → k < n → slice_index_or claimed.now k false ≡ true)) }
    ensures none { IfNone result
        ((k : ℕ) → k < length claimed.now → slice_index_or claimed.now k false ≡ true) }
{
    for place in 0..claimed.len() {
        if !claimed[place] {
            return Some(place);
        }
    }
    None
}
