//! The log of the changes since a state, to which those that were made are appended, in commits.
ghost use Rattle.std.specs.Prelude.{◌≡◌, ◌≤◌, ◌+◌, ◌++◌, length, OnOk, vec_len, vec_capacity};

use crate::state_files::Base;
use sipl_commits::{Point, read_log, write_commit};
use std::alloc::{AllocError, Global};
use std::fs::File;
use std::io;
use std::io::{ErrorKind, Write};
use std::os::unix::fs::MetadataExt;

/// The log.
#[derive(Drop)]
pub(crate) struct Written {
    alloc: Global,
    file: File,
    // How many octets it has.
    len: u64,
    // The place of its first change, and the point before its first commit.
    base: Base,
    // The point after its last commit.
    last: Point,
    // The base of the log that was to take its place, with a state.
    next: Option<Base>,
    // The changes that could not be written, after those of the last commit.
    unwritten: Vec<u8>,
    // Why a write failed, or what was done to the files: since then nothing is known of them, and nothing
    // more is written to them, so that no later change is reported as kept.
    failure: Option<ErrorKind>,
}

impl Written {
    /// A log of so many octets to append to, which begins there and has commits up to this point; or why it
    /// can't be written.
    pub(crate) fn new(
        alloc: Global,
        file: File,
        len: u64,
        base: Base,
        last: Point,
        failure: Option<ErrorKind>,
    ) -> Written {
        Written {
            alloc,
            file,
            len,
            base,
            last,
            next: None,
            unwritten: Vec::new(alloc),
            failure,
        }
    }

    /// Fails as what failed before did, if anything has.
    pub(crate) fn check(&self) -> io::Result<()> {
        match self.failure {
            Some(kind) => Err(io::Error::from(kind)),
            None => Ok(()),
        }
    }

    /// Keeps why something failed that was done to the files, if it did: from then on every write fails.
    pub(crate) fn keep_failure(&mut self, outcome: io::Result<()>) -> io::Result<()> {
        if let (Err(error), None) = (&outcome, self.failure) {
            self.failure = Some(error.kind());
        }
        outcome
    }

    /// Appends changes in a commit, and syncs the file. Where that fails the changes are kept until the log
    /// is written anew.
    pub(crate) fn write(&mut self, changes: Vec<u8>) -> io::Result<()> {
        if changes.is_empty() {
            return Ok(());
        }
        let appended = self.append(&changes);
        if appended.is_err() {
            self.unwritten = changes;
        }
        self.keep_failure(appended)
    }

    fn append(&mut self, changes: &[u8]) -> io::Result<()> {
        let mut commit = Vec::new(self.alloc);
        let next = write_commit(self.alloc, &mut commit, &self.last, changes)?;
        self.expect_unchanged()?;
        self.put(&commit)?;
        self.last = next;
        self.len = self.len.saturating_add(commit.len() as u64);
        Ok(())
    }

    // Checks that the file has a name, and as many octets as were written to it: a commit after others would
    // not be read again, nor one in a file that was removed.
    fn expect_unchanged(&self) -> io::Result<()> {
        let found = self.file.metadata()?;
        if found.nlink() == 0 {
            Err(io::Error::from(ErrorKind::NotFound))
        } else if found.len() == self.len {
            Ok(())
        } else {
            Err(io::Error::from(ErrorKind::InvalidData))
        }
    }

    // Appends a commit to the file, and syncs it. Where that fails the commit is cut off: the next start
    // would read what may never be on the disk, and write after it.
    fn put(&mut self, commit: &[u8]) -> io::Result<()> {
        let put = self.write_synced(commit);
        if put.is_err() {
            let _ = self.file.set_len(self.len);
        }
        put
    }

    fn write_synced(&mut self, commit: &[u8]) -> io::Result<()> {
        self.file.write_all(commit)?;
        self.file.sync_data()
    }

    /// Reserves the space of changes that could not be written.
    pub(crate) fn reserve_unwritten(&mut self, len: usize) -> Result<(), AllocError>
        ensures { OnOk result
            (vec_len self.new.unwritten + len ≤ vec_capacity self.new.unwritten) }
    {
        self.unwritten.reserve(len)
    }

    /// Keeps changes that could not be written, in space that is reserved.
    pub(crate) fn keep_unwritten(&mut self, changes: &[u8])
        requires space { vec_len self.old.unwritten + length changes.now
            ≤ vec_capacity self.old.unwritten }
        ensures { self.new.unwritten.items ≡ self.old.unwritten.items ++ changes.now }
    {
        self.unwritten.extend_from_slice(changes).unwrap();
    }

    /// All changes of a log with these octets after its base: those that were written, which reach to a
    /// place, and those that could not be.
    pub(crate) fn all_changes(
        &self,
        octets: &[u8],
        base: &Base,
        synced: u64,
    ) -> io::Result<Vec<u8>> {
        let mut changes = self.changes_of(octets, &base.first)?;
        let len = usize::try_from(synced.saturating_sub(base.start)).unwrap_or(usize::MAX);
        if changes.len() < len {
            return Err(io::Error::from(ErrorKind::InvalidData));
        }
        changes.truncate(len);
        changes.extend_from_slice(&self.unwritten)?;
        Ok(changes)
    }

    /// The changes of the log with these octets that begin at a place.
    pub(crate) fn changes_from(&self, octets: &[u8], place: u64) -> io::Result<Vec<u8>> {
        let changes = self.changes_of(octets, &self.base.first)?;
        let skipped = usize::try_from(place.saturating_sub(self.base.start)).unwrap_or(usize::MAX);
        let rest = changes.as_slice().get(skipped..).unwrap_or(&[]);
        Ok(Vec::from_slice(self.alloc, rest)?)
    }

    // All changes of a log with these octets.
    fn changes_of(&self, octets: &[u8], first: &Point) -> io::Result<Vec<u8>> {
        match read_log(self.alloc, octets, first) {
            Ok(log) => Ok(log.changes(self.alloc)?),
            Err(_) => Err(io::Error::from(ErrorKind::InvalidData)),
        }
    }

    /// The base of the log, and that of the one that was to take its place, if there is one.
    pub(crate) fn bases(&self) -> (Base, Option<Base>) {
        (self.base, self.next)
    }

    /// Whether the log of the state that is in its place is known.
    pub(crate) fn has_base(&self) -> bool {
        self.next.is_none()
    }

    /// Another log is to take its place, with a state.
    pub(crate) fn set_next(&mut self, next: Base) {
        self.next = Some(next);
    }

    /// Goes on with a log of so many octets that was written anew, and has all changes.
    pub(crate) fn go_on(&mut self, file: File, len: u64, base: Base, last: Point) {
        self.file = file;
        self.len = len;
        self.base = base;
        self.last = last;
        self.next = None;
        self.unwritten.clear();
        self.failure = None;
    }
}
