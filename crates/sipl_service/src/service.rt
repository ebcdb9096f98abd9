ghost use Rattle.std.specs.Prelude.{◌≡◌, ◌≤◌, ◌-◌, ◌^◌, ◌⊎◌, [], IfOk, IfErr, OnOk};
ghost use Rattle.sipl_book.specs.Pages.{IsPage};
ghost use Rattle.sipl_service.specs.LatestVersions.{key_edited};
ghost use Rattle.sipl_service.specs.Passes.{GetsReceipt, IsOutcomeOf};

use crate::changes;
use crate::changes::NewEdit;
use crate::checks::is_for;
use crate::fault::ServiceFault;
use crate::pass::{Pass, add_receipt};
use crate::receipt::Receipt;
use crate::shared::{Shared, new_versions};
use crossbeam_utils::CachePadded;
use sipl_book::{Book, BookFault, Done, Edit, Event, Limits, Page};
use sipl_choice::{Abilities, Endpoint};
use sipl_outages::{Held, SharedBoard};
use sipl_records::Key;
use std::alloc::{AllocError, Global};
use std::hint::spin_loop;
use std::marker::Model;
use std::sync::{Condvar, Mutex, MutexGuard, Wait};

/// The greatest number of tries of a lookup.
pub const MAX_TRIES: u64 = 16;

// How often a thread tries the lock before it sleeps, and how many pauses there are between two tries:
// some 200 microseconds in all, in which some hundred calls of others take it and release it. To sleep and be
// woken takes longer than most of them hold it.
const LOOKS: u32 = 400;

const PAUSES: u32 = 8;

/// How many answers a service keeps.
#[derive(Clone, Copy, Debug, PartialEq, Eq)]
pub struct EntryCounts {
    /// The questions that have an answer, current or outdated.
    pub kept: u64,
    /// Those whose answer is current.
    pub current: u64,
    /// Those that are to be looked up again, and that no worker has leased.
    pub queued: u64,
}

/// A book that threads share (RFC 3263, 4), for one client and one policy on held endpoints. Contracts
/// see the client's abilities, the policy, and how often a lookup tries to commit. They do not see what the
/// lock guards, so none says when a call is refused, or that the book is then as it was.
#[derive(Drop)]
pub struct Service {
    pub(crate) alloc: Global,
    pub(crate) abilities: Abilities,
    pub(crate) held: Held,
    pub(crate) tries: u64,
    // Apart from the other fields, which callers read without the lock: a thread that tries the lock takes
    // the cache line that the lock is in.
    pub(crate) shared: CachePadded<Mutex<Shared>>,
    // Repair workers wait here for entries to be queued, or for the end.
    pub(crate) woken: Condvar,
}

impl Model for Service {
    ghost use Rattle.sipl_service.specs.Services.{ServiceState};
    ghost use Rattle.std.specs.Prelude.{◌≤◌};

    ghost Value = { ServiceState };

    ghost view = { λ service. record {
      client = service.abilities;
      held = service.held;
      tries = service.tries;
    } };

    ghost invariant = { λ service. 1 ≤ service.tries };
}

impl Service {
    /// A service over a book without zones, holds, entries or events, at time 0. A lookup tries to
    /// commit at most `tries` times, from 1 to 16.
    pub fn new(
        alloc: Global,
        abilities: Abilities,
        limits: &Limits,
        tries: u64,
        held: Held,
    ) -> Result<Self, AllocError>
        requires records { limits.now.records ≤ 1048576 }
        requires entries { limits.now.entries ≤ 65536 }
        requires journal { limits.now.journal ≤ 1048576 }
        requires holds { limits.now.holds ≤ 4096 }
        requires first { 1 ≤ limits.now.next }
        requires last { limits.now.next ≤ 2 ^ 52 }
        requires page { limits.now.first ≤ 2 ^ 52 - 2 ^ 20 }
        requires once { 1 ≤ tries }
        requires most { tries ≤ 16 }
        ensures { IfOk result
            (λ service. service ≡ record { client = abilities; held = held; tries = tries }) }
    {
        let versions = new_versions(alloc)?;
        let book = Book::new(alloc, abilities.dup(alloc)?, limits, held);
        Ok(Service {
            alloc,
            abilities,
            held,
            tries,
            shared: CachePadded::new(Mutex::new(Shared::new(alloc, book, versions))),
            woken: Condvar::new(),
        })
    }

    // Takes the lock, which is held for about a microsecond in most calls.
    pub(crate) fn lock<R: Wait>(&self, rt: &R) -> MutexGuard<'_, Shared> {
        for _ in 0..LOOKS {
            if let Some(guard) = self.shared.try_lock() {
                return guard;
            }
            pause();
        }
        self.shared.lock(rt)
    }

    /// The abilities of the client.
    pub fn abilities(&self) -> &Abilities
        ensures { result.now ≡ self.now.client }
    {
        &self.abilities
    }

    /// The policy on held endpoints.
    pub fn held(&self) -> Held
        ensures { result ≡ self.now.held }
    {
        self.held
    }

    /// How many versions of record sets are kept, which are those that callers have read since the last page.
    /// It is only a measure of the memory that they use, so it has no contract.
    pub fn version_count<R: Wait>(&self, rt: &R) -> usize {
        self.lock(rt).version_count()
    }

    /// How many answers are kept, and how many of them are current or queued. Linear in the number of
    /// kept answers, with the lock held. They are only measures, so this has no contract.
    pub fn entry_counts<R: Wait>(&self, rt: &R) -> EntryCounts {
        let shared = self.lock(rt);
        EntryCounts {
            kept: shared.book.kept(),
            current: shared.book.current(),
            queued: shared.book.queued(),
        }
    }

    /// A pass for one caller, which has seen nothing. Does not allocate.
    pub fn pass(&self) -> Pass
        ensures { result ≡ record { receipts = []; front = 0 } }
    {
        Pass::new(self.alloc)
    }

    /// Edits the zones, and wakes the repair workers where entries are queued then. Returns the event's
    /// number, and how many record sets have changed.
    ///
    /// The fault is `Memory`, or the first of: the service was stopped (L6), the pass has seen an event that
    /// the service has not (L2), a fault of the book (B3, S1 to S9). Then the book and the pass are as they
    /// were.
    pub fn edit<R: Wait>(&self, rt: &R, pass: &mut Pass, edit: Edit) -> Result<Done, ServiceFault>
        ensures receipt { GetsReceipt (λ done. done.number) (λ done. Event.Change edit)
            pass.old pass.new result }
        ensures outcome { IfOk result (λ done. IsOutcomeOf edit done) }
    {
        if pass.receipts.reserve(1).is_err() {
            drop(edit);
            return Err(ServiceFault::Memory);
        }
        let new = new_edit(self.alloc, edit)?;
        let key = edited_key(self.alloc, &new.edit)?;
        let mut shared = self.lock(rt);
        if shared.is_stopped {
            drop(key);
            return Err(ServiceFault::Stopped);
        }
        let changed = shared.change(self.alloc, pass, new, key.as_ref());
        drop(key);
        let edited = changed?;
        let is_queued = shared.book.queued() > 0;
        drop(shared);
        if is_queued {
            self.woken.notify_all();
        }
        let done = edited.done;
        add_receipt(&mut pass.receipts, &mut pass.front, edited.into_receipt());
        Ok(done)
    }

    /// Holds an endpoint for some milliseconds from now, as `Book::hold` does. Returns the event's
    /// number.
    ///
    /// The fault is `Memory`, or the first of: L6, L2, a fault of the book (B3, O2, O4). Then the book and
    /// the pass are as they were.
    pub fn hold<R: Wait>(
        &self,
        rt: &R,
        pass: &mut Pass,
        endpoint: &Endpoint,
        ms: u64,
    ) -> Result<u64, ServiceFault>
        ensures { GetsReceipt (λ number. number) (λ number. Event.Hold endpoint.now ms)
            pass.old pass.new result }
    {
        pass.receipts.reserve(1)?;
        let mut shared = self.lock(rt);
        if shared.is_stopped {
            return Err(ServiceFault::Stopped);
        }
        let receipt = changes::hold(&mut shared.book, pass, endpoint, ms)?;
        drop(shared);
        Ok(add_receipt(&mut pass.receipts, &mut pass.front, receipt))
    }

    /// Ends the hold of an endpoint. Returns the event's number.
    ///
    /// The fault is `Memory`, or the first of: L6, L2, a fault of the book (B3, O3). Then the book and the
    /// pass are as they were.
    pub fn release<R: Wait>(
        &self,
        rt: &R,
        pass: &mut Pass,
        endpoint: &Endpoint,
    ) -> Result<u64, ServiceFault>
        ensures { GetsReceipt (λ number. number) (λ number. Event.Release endpoint.now)
            pass.old pass.new result }
    {
        pass.receipts.reserve(1)?;
        let mut shared = self.lock(rt);
        if shared.is_stopped {
            return Err(ServiceFault::Stopped);
        }
        let receipt = changes::release(&mut shared.book, pass, endpoint)?;
        drop(shared);
        Ok(add_receipt(&mut pass.receipts, &mut pass.front, receipt))
    }

    /// Sets the time, in milliseconds, at most to 2^52. Returns the event's number.
    ///
    /// The fault is `Memory`, or the first of: L6, L2, a fault of the book (B3, O1, O2). Then the book and
    /// the pass are as they were.
    pub fn advance<R: Wait>(&self, rt: &R, pass: &mut Pass, to: u64) -> Result<u64, ServiceFault>
        ensures receipt { GetsReceipt (λ number. number) (λ number. Event.Advance to)
            pass.old pass.new result }
        ensures limit { OnOk result (to ≤ 2 ^ 52) }
    {
        pass.receipts.reserve(1)?;
        let mut shared = self.lock(rt);
        if shared.is_stopped {
            return Err(ServiceFault::Stopped);
        }
        let receipt = changes::advance(&mut shared.book, pass, to)?;
        drop(shared);
        Ok(add_receipt(&mut pass.receipts, &mut pass.front, receipt))
    }

    /// The present time, in milliseconds, at most 2^52.
    pub fn now<R: Wait>(&self, rt: &R) -> u64
        ensures { result ≤ 2 ^ 52 }
    {
        self.lock(rt).book.board().now()
    }

    /// How many endpoints are held, at most 4,096.
    pub fn held_endpoints<R: Wait>(&self, rt: &R) -> usize
        ensures { result ≤ 4096 }
    {
        self.lock(rt).book.board().len()
    }

    /// The held endpoints and the time, as `Book::share_board` shares them. The lock tells nothing of
    /// them, so this has no contract.
    ///
    /// The only error is an allocation failure (or 2^63 that share the value); then nothing changes.
    pub fn share_board<R: Wait>(&self, rt: &R) -> Result<SharedBoard, AllocError> {
        self.lock(rt).book.share_board()
    }

    /// Stops the service: the workers end, and calls that can be refused for it are (L6).
    pub fn stop<R: Wait>(&self, rt: &R) {
        self.lock(rt).is_stopped = true;
        self.woken.notify_all();
    }

    /// Returns the events since the last page, and begins an empty journal at the state as it is, as
    /// `Book::turn_page` does. The numbers of events go on. Where an edit was made since the last page,
    /// the records are copied with the lock held. The versions of record sets that were read are released;
    /// callers that still copy from them keep them.
    ///
    /// The fault is `Memory`, or the first of: the service was stopped (L6), the book is for another client
    /// or policy (L7), no number is left for another page (B6). Then the journal is as it was.
    pub fn turn_page<R: Wait>(&self, rt: &R) -> Result<Page, ServiceFault>
        ensures page { IfOk result (λ page. IsPage page) }
        ensures client { IfOk result (λ page. page.client ≡ self.now.client) }
        ensures held { IfOk result (λ page. page.held ≡ self.now.held) }
        ensures refused { IfErr result (λ fault. (fault ≡ ServiceFault.Stopped)
            ⊎ ((fault ≡ ServiceFault.OtherBook) ⊎ ((fault ≡ ServiceFault.Book BookFault.PagesSpent)
            ⊎ (fault ≡ ServiceFault.Memory)))) }
    {
        self.turn_page_into(rt, None)
    }

    /// Turns the page as `turn_page` does, but the new journal has this space, if there is one. Events in it
    /// are dropped.
    pub fn turn_page_into<R: Wait>(
        &self,
        rt: &R,
        space: Option<Vec<Event>>,
    ) -> Result<Page, ServiceFault>
        ensures page { IfOk result (λ page. IsPage page) }
        ensures client { IfOk result (λ page. page.client ≡ self.now.client) }
        ensures held { IfOk result (λ page. page.held ≡ self.now.held) }
        ensures refused { IfErr result (λ fault. (fault ≡ ServiceFault.Stopped)
            ⊎ ((fault ≡ ServiceFault.OtherBook) ⊎ ((fault ≡ ServiceFault.Book BookFault.PagesSpent)
            ⊎ (fault ≡ ServiceFault.Memory)))) }
    {
        let versions = new_versions(self.alloc)?;
        let mut shared = self.lock(rt);
        shared.check(&self.abilities, self.held)?;
        let (page, read) = shared.turn_page(self.alloc, versions, space)?;
        drop(shared);
        drop(read);
        Ok(page)
    }

    /// Returns the events since the last page, for the service's client and policy on held endpoints. Does
    /// not allocate.
    ///
    /// The only fault is a book for another client or policy (L7); the service is returned with it.
    pub fn close(self) -> Result<Page, (ServiceFault, Service)>
        ensures page { IfOk result (λ page. IsPage page) }
        ensures client { IfOk result (λ page. page.client ≡ self.client) }
        ensures held { IfOk result (λ page. page.held ≡ self.held) }
        ensures refused { IfErr result (λ refused. refused.1 ≡ self) }
        ensures cause { IfErr result (λ refused. refused.0 ≡ ServiceFault.OtherBook) }
    {
        let shared = self.shared.into_inner().into_inner();
        if !is_for(&shared.book, &self.abilities, self.held) {
            let service = Service {
                alloc: self.alloc,
                abilities: self.abilities,
                held: self.held,
                tries: self.tries,
                shared: CachePadded::new(Mutex::new(shared)),
                woken: Condvar::new(),
            };
            return Err((ServiceFault::OtherBook, service));
        }
        drop(self.abilities);
        Ok(shared.into_page())
    }
}

// An edit that is to be made, and the receipt for it. It is boxed, so that a call that is refused drops
// one value, whatever the edit is.
fn new_edit(alloc: Global, edit: Edit) -> Result<Box<NewEdit>, AllocError>
    ensures edit { IfOk result (λ new. new.value.edit ≡ edit) }
    ensures event { IfOk result (λ new. new.value.receipt.event ≡ Event.Change edit) }
{
    let Ok(copy) = edit.dup(alloc) else {
        drop(edit);
        return Err(AllocError);
    };
    let event = Event::Change(copy);
    let receipt = Receipt { number: 0, event };
    Ok(Box::new(alloc, NewEdit { edit, receipt })?)
}

// The key of the set of records that an edit of one record may change; `None` for an edit of a zone, and
// for a record that is in no set.
fn edited_key(alloc: Global, edit: &Edit) -> Result<Option<Key>, AllocError>
    ensures { IfOk result (λ key. key ≡ key_edited edit.now) }
{
    match edit {
        Edit::Add(record) | Edit::Remove(record) => record.key(alloc),
        Edit::Load(_) | Edit::Unload(_) => Ok(None),
    }
}

// Leaves the lock to the threads that have it or try it, for some half a microsecond.
fn pause() {
    for _ in 0..PAUSES {
        spin_loop();
    }
}
