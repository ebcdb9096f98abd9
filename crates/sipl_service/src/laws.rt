//! What follows from the contracts of the calls of a ledger. Each law is the contract of a function
//! that does nothing.
ghost use Rattle.sipl_service.specs.Laws.{AcceptsWhatIsWhole, ClaimsAreTheClaim, EventsAreReceipts, EventsAreThoseBelow, NoneWaits, PagesFollow};

/// The pages that a ledger has claimed follow one another, and their events, joined, are legal from the
/// empty state.
pub fn claimed_pages_follow()
    ensures { PagesFollow }
{}

/// The receipts that were added up to the last claim, with numbers below `next`, are those of the claimed
/// events, each once. All others wait. Where none that waits came too late, these are all receipts that
/// were added with numbers below `next`.
pub fn claimed_events_are_receipts()
    ensures receipts { EventsAreReceipts }
    ensures in_time { EventsAreThoseBelow }
{}

/// Where no receipt waits, the claimed pages follow one another, and their events are the union of all
/// receipts that were added: which is what `claim` checks.
pub fn claims_are_the_claim()
    ensures { ClaimsAreTheClaim }
{}

/// Of pages and receipts that `claim` accepts, a ledger that has claimed the pages before one accepts that
/// one, where the receipts that were added with numbers below its end are just these, in whatever order.
/// Where it has claimed all pages, and just these receipts were added, none waits.
pub fn what_is_whole_is_claimed()
    ensures page { AcceptsWhatIsWhole }
    ensures end { NoneWaits }
{}
