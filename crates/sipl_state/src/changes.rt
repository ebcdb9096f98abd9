//! The changes since the last state, in a file: each is there before its reply is sent.
use crate::files::{expect_same, open_to_append, remove_new, write_new};
use crate::pending::{Checkpoint, Pending, long_after};
use crate::state_files::{Base, StateFiles, point_after};
use crate::written::Written;
use sipl_archive::state_text;
use sipl_book::State;
use sipl_commits::{Point, log_of, write_state};
use std::alloc::{AllocError, Global};
use std::fs::File;
use std::io::ErrorKind;
use std::rt::Files;
use std::sync::atomic::{AtomicBool, AtomicU64, Ordering};
use std::sync::{Mutex, MutexGuard, Wait};
use std::{fs, io};

/// The file of a state, and that of the changes since then. Changes are made and appended under one lock, so
/// they are in their order.
#[derive(Drop)]
pub struct Changes {
    alloc: Global,
    files: StateFiles,
    // It has the lock of the state for as long as it is open.
    lock: File,
    pending: Mutex<Pending>,
    written: Mutex<Written>,
    // The place up to which the changes are in the file, and synced.
    synced: AtomicU64,
    // The place after which the log is so long that a state is to be written.
    long_at: AtomicU64,
    // Whether something failed that was done to the files.
    has_failed: AtomicBool,
}

/// How many octets a state has, its log, and the changes of that; their last checkpoint, and the points
/// before the first commit of the log and after the last one.
#[derive(Clone, Copy)]
pub(crate) struct Extent {
    pub(crate) state_len: u64,
    pub(crate) log_len: u64,
    pub(crate) len: u64,
    pub(crate) checkpoint: u64,
    pub(crate) first: Point,
    pub(crate) last: Point,
}

impl Changes {
    /// The files of a state, of which a file has the lock, and the log to append to, or why it can't be
    /// written. It has these changes, which lead to this time.
    pub(crate) fn new(
        alloc: Global,
        files: StateFiles,
        lock: File,
        file: File,
        failure: Option<ErrorKind>,
        extent: Extent,
        time: u64,
    ) -> Changes {
        let Extent {
            state_len,
            log_len,
            len,
            checkpoint,
            first,
            last,
        } = extent;
        let base = Base { first, start: 0 };
        Changes {
            alloc,
            files,
            lock,
            pending: Mutex::new(Pending::new(alloc, state_len, len, checkpoint, time)),
            written: Mutex::new(Written::new(alloc, file, log_len, base, last, failure)),
            synced: AtomicU64::new(len),
            long_at: AtomicU64::new(long_after(0, state_len)),
            has_failed: AtomicBool::new(failure.is_some()),
        }
    }

    /// Whether something failed that was done to the files, so that no change can be kept until they are
    /// mended.
    pub fn has_failed(&self) -> bool {
        self.has_failed.load(Ordering::SeqCst)
    }

    /// The changes that are not in the file yet. Whoever has them makes the next change.
    pub(crate) fn lock<R: Wait>(&self, rt: &R) -> MutexGuard<'_, Pending> {
        self.pending.lock(rt)
    }

    /// Fails as what failed did, that was done to the files, if anything has.
    pub fn check<R: Wait>(&self, rt: &R) -> io::Result<()> {
        self.written.lock(rt).check()
    }

    /// Whether the log is so long, with the changes up to a place, that a state is to be written.
    pub fn is_long_at(&self, place: u64) -> bool {
        place > self.long_at.load(Ordering::SeqCst)
    }

    /// Appends a checkpoint to the changes that are not in the file yet. Returns its number, and the place
    /// after it.
    pub(crate) fn push_checkpoint(&self, pending: &mut Pending) -> Result<Checkpoint, AllocError> {
        let checkpoint = pending.push_checkpoint()?;
        self.long_at.store(pending.long_at(), Ordering::SeqCst);
        Ok(checkpoint)
    }

    /// Returns once all octets up to a place are in the file, and survive the end of the machine: at once
    /// where they are, so that who has changed nothing waits for nobody.
    pub fn sync<R: Wait>(&self, rt: &R, place: u64) -> io::Result<()> {
        if self.is_synced(place) {
            return Ok(());
        }
        let mut written = self.written.lock(rt);
        if self.is_synced(place) {
            return Ok(());
        }
        self.write(rt, &mut written)
    }

    // Whether all octets up to a place are in the file.
    fn is_synced(&self, place: u64) -> bool {
        place <= self.synced.load(Ordering::SeqCst)
    }

    /// Writes the state after a checkpoint, and begins the log anew with the changes after it. First the
    /// checkpoint is in the old log. Where the state can't be written, before it takes its place, the old log
    /// goes on.
    pub fn write_state<R: Files<File = File> + Wait>(
        &self,
        rt: &R,
        checkpoint: Checkpoint,
        state: &State,
    ) -> io::Result<()> {
        self.sync(rt, checkpoint.begin)?;
        self.expect_own(rt)?;
        let digest = self.write_new_state(rt, checkpoint, state)?;
        self.begin_log(rt, checkpoint, &digest)
    }

    // Checks that the lock of the state is that which this process has: another folder may have been moved or
    // mounted there, or another process may have the files by a lock that was made anew.
    fn expect_own<R: Files<File = File>>(&self, rt: &R) -> io::Result<()> {
        let path = self.files.lock_path(self.alloc)?;
        expect_same(rt, &self.lock, path.as_str())
    }

    /// Writes the log anew, with all changes, where something failed that was done to the files. Then changes
    /// can be kept again.
    pub fn mend<R: Files<File = File> + Wait>(&self, rt: &R) -> io::Result<()> {
        let mut written = self.written.lock(rt);
        if written.check().is_ok() {
            return Ok(());
        }
        let end = self.take_unwritten(rt, &mut written)?;
        self.expect_own(rt)?;
        self.write_log_anew(rt, &mut written)?;
        self.synced.store(end, Ordering::SeqCst);
        self.has_failed.store(false, Ordering::SeqCst);
        Ok(())
    }

    /// Writes the last state, after which there are no changes. Where these can't be written to the log it
    /// has them all the same, and this fails.
    pub fn end<R: Files<File = File> + Wait>(&self, rt: &R, state: &State) -> io::Result<()> {
        let checkpoint = self.push_last_checkpoint(rt)?;
        let ended = self.write_state(rt, checkpoint, state);
        if ended.is_err() && self.has_failed() {
            let _ = self.write_alone(rt, checkpoint, state);
        }
        ended
    }

    // Writes a last state without what is in the log before it. Where it is not known which of two logs is
    // that of the state in its place, both stay.
    fn write_alone<R: Files<File = File> + Wait>(
        &self,
        rt: &R,
        checkpoint: Checkpoint,
        state: &State,
    ) -> io::Result<()> {
        let written = self.written.lock(rt);
        if !written.has_base() {
            return Ok(());
        }
        self.expect_own(rt)?;
        let digest = self.write_new_state(rt, checkpoint, state)?;
        let begun = self.begin_empty(rt, &digest);
        if begun.is_err() {
            remove_new(rt, self.alloc, self.files.state.as_str());
        }
        begun
    }

    // Begins a log without changes after a state of this digest, which takes its place.
    fn begin_empty<R: Files<File = File>>(&self, rt: &R, digest: &[u8; 32]) -> io::Result<()> {
        let (log, _) = log_of(self.alloc, &point_after(digest), &[])?;
        self.files.begin(rt, self.alloc, &log)
    }

    fn push_last_checkpoint<R: Wait>(&self, rt: &R) -> Result<Checkpoint, AllocError> {
        let mut pending = self.pending.lock(rt);
        self.push_checkpoint(&mut pending)
    }

    // Appends the changes that are not in the file yet.
    fn write<R: Wait>(&self, rt: &R, written: &mut Written) -> io::Result<()> {
        written.check()?;
        let (text, end) = self.pending.lock(rt).take();
        let appended = written.write(text);
        self.keep_failure(written, appended)?;
        self.synced.store(end, Ordering::SeqCst);
        Ok(())
    }

    // Keeps why something failed that was done to the files, if it did.
    fn keep_failure(&self, written: &mut Written, outcome: io::Result<()>) -> io::Result<()> {
        if outcome.is_err() {
            self.has_failed.store(true, Ordering::SeqCst);
        }
        written.keep_failure(outcome)
    }

    // Puts the changes that are not in the file to those that could not be written. Returns the place after
    // them.
    fn take_unwritten<R: Wait>(&self, rt: &R, written: &mut Written) -> Result<u64, AllocError> {
        let mut pending = self.pending.lock(rt);
        written.reserve_unwritten(pending.len())?;
        let (text, end) = pending.take();
        written.keep_unwritten(&text);
        Ok(end)
    }

    // Writes the log anew, with all changes after the state that is in its place, and goes on with it.
    fn write_log_anew<R: Files<File = File>>(
        &self,
        rt: &R,
        written: &mut Written,
    ) -> io::Result<()> {
        let base = match written.bases() {
            (base, None) => base,
            (base, Some(next)) => self.files.base(rt, self.alloc, base, next)?,
        };
        let octets = self.files.log_after(rt, self.alloc, &base.first)?;
        let synced = self.synced.load(Ordering::SeqCst);
        let changes = written.all_changes(&octets, &base, synced)?;
        let (log, last) = log_of(self.alloc, &base.first, &changes)?;
        let file = self.files.write_log(rt, self.alloc, &log)?;
        written.go_on(file, log.len() as u64, base, last);
        Ok(())
    }

    // Writes the state that is to take the place of the old one. Returns its digest.
    fn write_new_state<R: Files<File = File> + Wait>(
        &self,
        rt: &R,
        checkpoint: Checkpoint,
        state: &State,
    ) -> io::Result<[u8; 32]> {
        let body = state_text(self.alloc, checkpoint.number, state)?;
        let mut text = Vec::new(self.alloc);
        let digest = write_state(self.alloc, &mut text, &body)?;
        write_new(rt, self.alloc, self.files.state.as_str(), &text)?;
        self.set_state_len(rt, text.len() as u64);
        Ok(digest)
    }

    // The state that was written has so many octets.
    fn set_state_len<R: Wait>(&self, rt: &R, len: u64) {
        let mut pending = self.pending.lock(rt);
        pending.set_state_len(len);
        self.long_at.store(pending.long_at(), Ordering::SeqCst);
    }

    // Begins the log anew after a state of this digest, which takes its place, or is removed. Where that
    // fails the file in hand may be none of the folder's any more, so nothing is written to it from then on.
    fn begin_log<R: Files<File = File> + Wait>(
        &self,
        rt: &R,
        checkpoint: Checkpoint,
        digest: &[u8; 32],
    ) -> io::Result<()> {
        let mut written = self.written.lock(rt);
        let begun = self.begin_written(rt, &mut written, checkpoint, digest);
        if begun.is_err() {
            remove_new(rt, self.alloc, self.files.state.as_str());
        }
        self.keep_failure(&mut written, begun)
    }

    fn begin_written<R: Files<File = File> + Wait>(
        &self,
        rt: &R,
        written: &mut Written,
        checkpoint: Checkpoint,
        digest: &[u8; 32],
    ) -> io::Result<()> {
        self.write(rt, written)?;
        let changes = self.changes_from(rt, written, checkpoint.begin)?;
        let first = point_after(digest);
        let (log, last) = log_of(self.alloc, &first, &changes)?;
        let base = Base {
            first,
            start: checkpoint.begin,
        };
        written.set_next(base);
        self.files.begin(rt, self.alloc, &log)?;
        let file = open_to_append(rt, self.files.log.as_str())?;
        written.go_on(file, log.len() as u64, base, last);
        Ok(())
    }

    // The changes in the log from a place on. Where there are none, as at the end, the log is not read.
    fn changes_from<R: Files<File = File>>(
        &self,
        rt: &R,
        written: &Written,
        place: u64,
    ) -> io::Result<Vec<u8>> {
        if self.is_synced(place.saturating_add(1)) {
            let octets = fs::read(&(rt, self.alloc), self.files.log.as_str())?;
            written.changes_from(&octets, place)
        } else {
            Ok(Vec::new(self.alloc))
        }
    }
}
