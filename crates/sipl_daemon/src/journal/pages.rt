//! The journal of the daemon's service, which rolls: pages are turned before they are full, and each is
//! claimed when the receipts of its events are in.
ghost use Rattle.std.specs.Bool.{OnFalse, OnTrue};
ghost use Rattle.std.specs.Prelude.{◌≡◌, [], IfErr, IfOk};
ghost use Rattle.sipl_state.specs.Turning.{IsUnturned};
ghost use Rattle.sipl_daemon.specs.SessionDesk.{IsExtent, IsHandedOver};

use crate::journal::spaces::Spaces;
use sipl_book::{Edit, Extent};
use sipl_plans::Answer;
use sipl_service::{Pass, Receipts, ServiceFault};
use sipl_state::{Source, Turned};
use std::alloc::Global;
use std::collections::VecDeque;
use std::mem;
use std::sync::atomic::{AtomicBool, AtomicU64, Ordering};
use std::sync::{Condvar, CondvarTimeouts, Mutex, Wait};
use std::time::{Clock, Duration};

// An estimate of the octets of memory that an event takes with its receipt until it is claimed, and with each
// target of its answer, or each record of its zone.
const EVENT_OCTETS: u64 = 280;

const TARGET_OCTETS: u64 = 64;

const RECORD_OCTETS: u64 = 100;

// How often the thread that claims looks whether the daemon is to stop, in milliseconds.
const LOOK: u64 = 100;

// How many pages may wait to be claimed before those who make events wait too, and how long these do at most
// for each page more, in milliseconds.
const MAX_AHEAD: usize = 1;

const PACE: u64 = 50;

/// The pages that were turned, and what their events are claimed with, until the thread that claims takes
/// them.
#[derive(Drop)]
pub(crate) struct Pages {
    alloc: Global,
    // The greatest number of events of a page.
    journal: u64,
    // How many octets its events may take.
    max_octets: u64,
    // The number of the event at which the page is turned.
    due: AtomicU64,
    // How many octets the events since the last page take, by their estimate.
    octets: AtomicU64,
    // The pages that were turned and not claimed, in their order.
    turned: Mutex<VecDeque<Turned>>,
    // Wakes the thread that claims.
    woken: Condvar,
    // Wakes those who wait for it.
    taken: Condvar,
    // Whether it can't go on, and none is to wait for it.
    is_held_up: AtomicBool,
    // The receipts that were handed over since the last claim.
    handed: Mutex<VecDeque<Receipts>>,
    pub(crate) spaces: Spaces,
    claimed: AtomicU64,
}

impl Pages {
    /// No page, of a service whose pages have so many events at most, which take so many octets.
    pub(crate) fn new(alloc: Global, journal: u64, max_octets: u64) -> Pages {
        Pages {
            alloc,
            journal,
            max_octets,
            due: AtomicU64::new(due_after(0, journal)),
            octets: AtomicU64::new(0),
            turned: Mutex::new(VecDeque::new(alloc)),
            woken: Condvar::new(),
            taken: Condvar::new(),
            is_held_up: AtomicBool::new(false),
            handed: Mutex::new(VecDeque::new(alloc)),
            spaces: Spaces::new(alloc),
            claimed: AtomicU64::new(0),
        }
    }

    /// How many pages were claimed.
    pub(crate) fn claimed(&self) -> u64 {
        self.claimed.load(Ordering::SeqCst)
    }

    /// How many pages wait to be claimed.
    pub(crate) fn waiting<R: Wait>(&self, rt: &R) -> usize {
        self.turned.lock(rt).len()
    }

    /// Counts an event, which takes so many octets. Turns the page, if the event is in its last eighth, or
    /// its events take too many octets, or the changes up to a place make the log of the state too long.
    pub(crate) fn count_event<R: Wait>(
        &self,
        rt: &R,
        source: &Source,
        number: u64,
        octets: u64,
        place: u64,
    ) {
        let before = self.octets.fetch_add(octets, Ordering::SeqCst);
        if !self.is_due(source, number, before.saturating_add(octets), place) {
            return;
        }
        let mut turned = self.turned.lock(rt);
        // Another thread may have turned it.
        if self.is_due(source, number, self.octets.load(Ordering::SeqCst), place) {
            drop(self.push_page(rt, source, &mut turned));
        }
    }

    // Whether the page is to be turned.
    fn is_due(&self, source: &Source, number: u64, octets: u64, place: u64) -> bool {
        number >= self.due.load(Ordering::SeqCst)
            || octets > self.max_octets
            || source.is_log_long(place)
    }

    /// Turns the page.
    pub(crate) fn turn_page<R: Wait>(&self, rt: &R, source: &Source) -> Result<Extent, ServiceFault>
        ensures page { IfOk result IsExtent }
        ensures refused { IfErr result IsUnturned }
    {
        let mut turned = self.turned.lock(rt);
        self.push_page(rt, source, &mut turned)
    }

    // Turns the page and keeps it. Space for it comes first, so that it is not lost.
    fn push_page<R: Wait>(
        &self,
        rt: &R,
        source: &Source,
        turned: &mut VecDeque<Turned>,
    ) -> Result<Extent, ServiceFault>
        ensures page { IfOk result IsExtent }
        ensures refused { IfErr result IsUnturned }
    {
        turned.reserve(1)?;
        let next = source.turn_page(rt, self.spaces.take_journal(rt))?;
        let extent = next.page.extent();
        let due = due_after(next.page.next(), self.journal);
        self.due.store(due, Ordering::SeqCst);
        self.octets.store(0, Ordering::SeqCst);
        drop(turned.push_back(next));
        self.woken.notify_all();
        Ok(extent)
    }

    /// Hands the receipts of a caller over, to be claimed. Returns whether it has none left: where an
    /// allocation fails it keeps them.
    pub(crate) fn hand_over<R: Wait>(&self, rt: &R, pass: &mut Pass) -> bool
        ensures handed { IsHandedOver pass.old pass.new }
        ensures none_left { OnTrue result (pass.new.receipts ≡ []) }
        ensures kept { OnFalse result (pass.new ≡ pass.old) }
    {
        if pass.receipts().is_empty() {
            return true;
        }
        let mut handed = self.handed.lock(rt);
        if handed.reserve(1).is_err() {
            return false;
        }
        let receipts = match self.spaces.take_receipts(rt, pass.receipts().len()) {
            Some(space) => pass.hand_over_into(space),
            None => pass.hand_over(),
        };
        handed.push_back_reserved(receipts);
        true
    }

    /// Waits until a page is turned, for a tenth of a second at most.
    pub(crate) fn wait_for_page<R: Wait + Clock>(&self, rt: &R) {
        let turned = self.turned.lock(rt);
        let longest = Duration::from_millis(LOOK);
        let _turned = self
            .woken
            .wait_timeout_while(rt, turned, longest, |turned| turned.is_empty());
    }

    /// Waits until at most one page waits to be claimed, for 50 milliseconds at most for each page more: so
    /// those who make events do not get ahead of the thread that claims them. Where that can't go on it does
    /// not wait.
    pub(crate) fn keep_pace<R: Wait + Clock>(&self, rt: &R) {
        let turned = self.turned.lock(rt);
        let ahead = turned.len().saturating_sub(MAX_AHEAD) as u64;
        if ahead == 0 || self.is_held_up.load(Ordering::SeqCst) {
            return;
        }
        let longest = Duration::from_millis(ahead.saturating_mul(PACE));
        let _turned = self
            .taken
            .wait_timeout_while(rt, turned, longest, |turned| turned.len() > MAX_AHEAD);
    }

    /// Says whether the thread that claims can't go on.
    pub(crate) fn hold_up(&self, is_held_up: bool) {
        self.is_held_up.store(is_held_up, Ordering::SeqCst);
    }

    /// Takes the next page out that was turned, if there is one.
    pub(crate) fn take_next<R: Wait>(&self, rt: &R) -> Option<Turned> {
        let next = self.turned.lock(rt).pop_front();
        self.taken.notify_all();
        next
    }

    /// Takes the receipts out that were handed over since the last time.
    pub(crate) fn take_handed<R: Wait>(&self, rt: &R) -> VecDeque<Receipts> {
        let mut handed = self.handed.lock(rt);
        mem::replace(&mut *handed, VecDeque::new(self.alloc))
    }

    /// Counts a page that was claimed.
    pub(crate) fn count_claimed(&self) {
        self.claimed.fetch_add(1, Ordering::SeqCst);
    }
}

/// An estimate of how many octets the event of a lookup takes.
pub(crate) fn answer_octets(answer: &Answer) -> u64 {
    let targets = match answer {
        Answer::Targets(targets) => targets.len() as u64,
        Answer::None(_) => 0,
    };
    EVENT_OCTETS.saturating_add(targets.saturating_mul(TARGET_OCTETS))
}

/// An estimate of how many octets the event of an edit takes.
pub(crate) fn edit_octets(edit: &Edit) -> u64 {
    let records = match edit {
        Edit::Load(zone) => zone.records().len() as u64,
        _ => 0,
    };
    EVENT_OCTETS.saturating_add(records.saturating_mul(RECORD_OCTETS))
}

/// How many octets the event of a hold, or of a move of the clock, takes.
pub(crate) fn board_octets() -> u64 {
    EVENT_OCTETS
}

// The number of the event at which a page that begins so is turned: an eighth of it is left then.
fn due_after(first: u64, journal: u64) -> u64 {
    let used = journal.saturating_sub(journal / 8).saturating_sub(1);
    first.saturating_add(used)
}
