//! Space that is used again: of what was claimed, for what comes.
use sipl_book::Event;
use sipl_service::{Ledger, Receipts};
use std::alloc::Global;
use std::sync::{Mutex, Wait};

/// How many hand-overs' space is kept at most.
pub(crate) const MAX_RECEIPTS: usize = 128;

// How many receipts a caller hands over at least that goes on in space that is kept.
const MIN_RECEIPTS: usize = 32;

// How many journals' space is kept at most.
const MAX_JOURNALS: usize = 3;

/// The space of receipts and of events that were claimed, in which later ones are kept: so a daemon that runs
/// for months takes no more memory than what was under way at once.
#[derive(Drop)]
pub(crate) struct Spaces {
    receipts: Mutex<Vec<Receipts>>,
    journals: Mutex<Vec<Vec<Event>>>,
}

impl Spaces {
    /// None.
    pub(crate) fn new(alloc: Global) -> Spaces {
        Spaces {
            receipts: Mutex::new(Vec::new(alloc)),
            journals: Mutex::new(Vec::new(alloc)),
        }
    }

    /// Takes the space of a hand-over out, if there is some, for a caller that hands so many receipts over.
    /// For one that hands few over there is none: the space for many would wait with each of its hand-overs.
    pub(crate) fn take_receipts<R: Wait>(&self, rt: &R, count: usize) -> Option<Receipts> {
        if count < MIN_RECEIPTS {
            return None;
        }
        self.receipts.lock(rt).pop()
    }

    /// Takes the space of a journal out, if there is some.
    pub(crate) fn take_journal<R: Wait>(&self, rt: &R) -> Option<Vec<Event>> {
        self.journals.lock(rt).pop()
    }

    /// Keeps the space of what a ledger has let go of.
    pub(crate) fn put_receipts<R: Wait>(&self, rt: &R, ledger: &mut Ledger) {
        let mut receipts = self.receipts.lock(rt);
        let space = MAX_RECEIPTS.saturating_sub(receipts.len());
        for _ in 0..space {
            let Some(space) = ledger.take_space() else {
                break;
            };
            drop(receipts.push(space));
        }
    }

    /// Keeps the space of a journal.
    pub(crate) fn put_journal<R: Wait>(&self, rt: &R, space: Vec<Event>) {
        let mut journals = self.journals.lock(rt);
        if journals.len() < MAX_JOURNALS {
            drop(journals.push(space));
        } else {
            drop(space);
        }
    }
}
