//! The course of a session.
use sipl_observed::{Cause, Observed};
use std::cell::Cell;
use std::io::{Error, ErrorKind};
use std::sync::atomic::AtomicU64;
use std::time::{Clock, Instant};

/// The course of a session, which its reader and its writer note.
#[derive(Drop)]
pub struct Course {
    /// Where its last change ends in the file of changes.
    pub place: AtomicU64,
    // When the batch was read that is replied to, and when the last of its replies was written.
    read_at: Cell<Option<Instant>>,
    written_at: Cell<Option<Instant>>,
    // Why the daemon ends it, if it does.
    cause: Cell<Option<Cause>>,
}

impl Course {
    /// At the start of a session.
    pub fn new() -> Course {
        Course {
            place: AtomicU64::new(0),
            read_at: Cell::new(None),
            written_at: Cell::new(None),
            cause: Cell::new(None),
        }
    }

    /// Why the daemon ends it, if it does.
    pub fn cause(&self) -> Option<Cause> {
        self.cause.get()
    }

    /// The daemon ends it.
    pub fn end(&self, cause: Cause) {
        self.cause.set(Some(cause));
    }

    /// The daemon ends it where a read or a write has failed since the client let too much time pass.
    pub fn end_if_late(&self, cause: Cause, error: &Error) {
        if matches!(error.kind(), ErrorKind::WouldBlock | ErrorKind::TimedOut) {
            self.end(cause);
        }
    }

    /// A batch was read, of which the time is taken where there are metrics.
    pub fn begin_batch<R: Clock>(&self, rt: &R, observed: &Observed) {
        if observed.batches.is_some() {
            self.read_at.set(Instant::now(rt).ok());
            self.written_at.set(None);
        }
    }

    /// Replies were written.
    pub fn write_batch<R: Clock>(&self, rt: &R) {
        if self.read_at.get().is_some() {
            self.written_at.set(Instant::now(rt).ok());
        }
    }

    /// The next batch is to be read: all replies to the last one were written.
    pub fn end_batch(&self, observed: &Observed) {
        let (Some(batches), Some(begun), Some(ended)) = (
            &observed.batches,
            self.read_at.get(),
            self.written_at.get(),
        ) else {
            return;
        };
        let passed = ended.duration_since(begun).as_nanos();
        batches.observe(u64::try_from(passed).unwrap_or(u64::MAX));
        self.read_at.set(None);
    }
}
