// What is checked before a book records an event or takes a finding.
ghost use Rattle.std.specs.Prelude.{◌≡◌, ◌≢◌, ◌<◌, length, nat_le, if◌then◌else◌, None, Some, unwrap_or, OnOk, IfErr, MatchResult, position, vec_len, vec_capacity};
ghost use Rattle.sipl_zonestore.specs.Looks.{looked};
ghost use Rattle.sipl_book.specs.Calls.{after_looks, compared, is_renumbered, is_stale};

use crate::event::Event;
use crate::fault::BookFault;
use sipl_evidence::Item;
use sipl_outages::BoardFault;
use sipl_zonestore::ZoneStore;

// Reserves the place of the next event. B3 where the journal has as many as its maximum, or else an
// allocation failure.
pub(crate) fn reserve_event(journal: &mut Vec<Event>, max_events: usize) -> Result<(), BookFault>
    ensures items { journal.new.items ≡ journal.old.items }
    ensures few { OnOk result (length journal.old.items < max_events) }
    ensures space { OnOk result (vec_len journal.new < vec_capacity journal.new) }
    ensures fault { IfErr result (λ fault. fault
        ≡ (if nat_le max_events (length journal.old.items)
        then BookFault.JournalFull else BookFault.Memory)) }
{
    if journal.len() >= max_events {
        return Err(BookFault::JournalFull);
    }
    journal.reserve(1)?;
    Ok(())
}

// The fault of an event that has no place: one of its own comes before an allocation failure.
pub(crate) fn first_fault(unreserved: BookFault, own: Option<BookFault>) -> BookFault
    ensures full { unreserved ≢ BookFault.Memory → result ≡ unreserved }
    ensures memory { unreserved ≡ BookFault.Memory → result ≡ unwrap_or own BookFault.Memory }
{
    match (unreserved, own) {
        (BookFault::Memory, Some(fault)) => fault,
        (fault, _) => fault,
    }
}

// The fault that a board finds.
pub(crate) fn board_fault(found: Result<(), BoardFault>) -> Option<BookFault>
    ensures { MatchResult found (λ _. result ≡ None) (λ fault. result ≡ Some (BookFault.Board fault)) }
{
    match found {
        Ok(()) => None,
        Err(fault) => Some(BookFault::Board(fault)),
    }
}

// The place of the first item whose set has another number than when it was read. Looks at no data.
pub(crate) fn first_renumbered(store: &ZoneStore, items: &[Item]) -> Option<usize>
    ensures { result ≡ position (is_renumbered store.now) items.now }
{
    items
        .iter()
        .position(|item| store.number(item.key()) != item.number())
}

// The place of the first item whose set is no longer as it was read. Counts a look for each item up
// to it.
pub(crate) fn first_stale(store: &mut ZoneStore, items: &[Item]) -> Option<usize>
    ensures place { result ≡ position (is_stale store.old) items.now }
    ensures looks { store.new ≡ after_looks (compared store.old items.now) store.old }
{
    for (place, item) in items.iter().enumerate() {
        if is_stale(store, item) {
            return Some(place);
        }
    }
    None
}

// Whether the item's set is no longer as it was read. Counts a look.
fn is_stale(store: &mut ZoneStore, item: &Item) -> bool
    ensures stale { result ≡ is_stale store.old item.now }
    ensures looks { store.new ≡ looked store.old }
{
    let (number, content) = store.set(item.key());
    number != item.number() || *content != *item.content()
}
