//! The zones and the holds of a daemon, read again from their files: a state, and the log of the changes
//! since then.
use crate::changes::{Changes, Extent};
use crate::files::{open_to_append, read_file, remove_new, sync_folder, take_place, write_new};
use crate::first_format::FirstFormat;
use crate::state_files::{FoundLog, StateFiles, point_after};
use sipl_archive::{Made, checkpoint_of, made_of, replies_to, whole_len};
use sipl_commits::{
    Commit, Log, LogFault, Point, StateFault as FileFault, log_of, read_log, read_state,
    write_state,
};
use sipl_lines::{Desk, split_line};
use std::alloc::{AllocError, Global};
use std::fs::File;
use std::io;
use std::io::ErrorKind;
use std::rt::Files;

/// Why a state can't be read.
#[derive(Drop)]
pub enum StateFault {
    /// The state, or a file that is to be one, can't be read or written.
    File(io::Error),
    /// The log can't be read or written.
    Log(io::Error),
    /// This line of the state can't be read, or is refused.
    State(u64),
    /// The state is not as it was written: its last line is not the digest of the others.
    Digest,
    /// This line of the log can't be read, or is refused.
    Line(u64),
    /// The commit at this octet of the log is not as it was written.
    Octet(usize),
    /// A change in the commit of this number is refused.
    Commit(u64),
    /// There is no log of this state.
    OtherLog,
}

impl From<io::Error> for StateFault {
    fn from(error: io::Error) -> StateFault {
        StateFault::File(error)
    }
}

impl From<AllocError> for StateFault {
    fn from(_: AllocError) -> StateFault {
        StateFault::File(io::Error::from(ErrorKind::OutOfMemory))
    }
}

impl From<LogFault> for StateFault {
    fn from(fault: LogFault) -> StateFault {
        match fault {
            LogFault::FirstFormat | LogFault::OtherState => StateFault::OtherLog,
            LogFault::Head => StateFault::Line(1),
            LogFault::Commit(place) => StateFault::Octet(place),
            LogFault::Memory => StateFault::from(AllocError),
        }
    }
}

/// The changes that a daemon goes on from, and what was found of their files.
#[derive(Drop)]
pub struct Restored {
    pub changes: Changes,
    pub found: FoundFiles,
}

/// What was found of the files of a state.
#[derive(Clone, Copy, Debug)]
pub struct FoundFiles {
    /// Whether there are any.
    pub are_there: bool,
    /// Whether they are of the first format.
    pub are_first: bool,
    /// How many commits the log has.
    pub commits: u64,
    /// The octet of the log at which there was a write that did not end, if there was one.
    pub torn: Option<usize>,
}

// What was read of the files of a state, and made.
#[derive(Drop)]
enum Read {
    // The lines of a state of the first format and its log, or of an empty state, and the last checkpoint.
    First {
        body: Vec<u8>,
        checkpoint: u64,
    },
    // A log, which may have to take its place yet, and has so many octets before its tail.
    Second {
        extent: Extent,
        is_new: bool,
        whole: usize,
        tail: Vec<u8>,
    },
}

// How many octets a state has, its checkpoint, and the point before the first commit of its log.
#[derive(Clone, Copy)]
struct FoundState {
    len: u64,
    checkpoint: u64,
    first: Point,
}

/// Reads the state of a path, whose lock is this file, and the changes after it, makes them at a desk, and
/// opens the log. All is made before anything is written. Where it is to go on though the log can't be
/// written, its changes have failed.
pub fn restore<R: Files<File = File>, D: Desk>(
    rt: &R,
    alloc: Global,
    path: &str,
    lock: File,
    goes_on: bool,
    desk: &mut D,
) -> Result<Restored, StateFault> {
    let files = StateFiles::new(alloc, path)?;
    let (read, found) = read_files(rt, alloc, &files, desk)?;
    let (extent, opened) = match read {
        Read::First { body, checkpoint } => {
            let extent = begin(rt, alloc, &files, &body, checkpoint)?;
            (extent, open_to_append(rt, files.log.as_str()))
        }
        Read::Second {
            extent,
            is_new,
            whole,
            tail,
        } => (extent, go_on(rt, alloc, &files, is_new, whole, &tail)),
    };
    let (file, failure) = match opened {
        Ok(file) => (file, None),
        // (nothing is written to it)
        Err(error) if goes_on => (File::open(rt, files.state.as_str())?, Some(error.kind())),
        Err(error) => return Err(StateFault::Log(error)),
    };
    let time = desk.now();
    let changes = Changes::new(alloc, files, lock, file, failure, extent, time);
    Ok(Restored { changes, found })
}

/// Reads the state of a path and the changes after it, and makes them at a desk, as `restore` does. Writes
/// nothing.
pub fn check_state<R: Files<File = File>, D: Desk>(
    rt: &R,
    alloc: Global,
    path: &str,
    desk: &mut D,
) -> Result<FoundFiles, StateFault> {
    let files = StateFiles::new(alloc, path)?;
    let (_, found) = read_files(rt, alloc, &files, desk)?;
    Ok(found)
}

// What was done with a log, or its fault.
fn of_log<T: Drop>(outcome: io::Result<T>) -> Result<T, StateFault> {
    match outcome {
        Ok(value) => Ok(value),
        Err(error) => Err(StateFault::Log(error)),
    }
}

// Reads the files of a state, and makes what they have.
fn read_files<R: Files<File = File>, D: Desk>(
    rt: &R,
    alloc: Global,
    files: &StateFiles,
    desk: &mut D,
) -> Result<(Read, FoundFiles), StateFault> {
    let Some(octets) = read_file(rt, alloc, files.state.as_str())? else {
        return read_first(rt, alloc, files, &[], desk);
    };
    match read_state(alloc, &octets) {
        Ok(state) => {
            let checkpoint = make_state(alloc, state.body, desk)?;
            let base = FoundState {
                len: octets.len() as u64,
                checkpoint,
                first: point_after(&state.digest),
            };
            drop(octets);
            read_second(rt, alloc, files, &base, desk)
        }
        Err(FileFault::FirstFormat) => read_first(rt, alloc, files, &octets, desk),
        Err(FileFault::Format) => Err(StateFault::State(1)),
        Err(FileFault::Digest) => Err(StateFault::Digest),
        Err(FileFault::Memory) => Err(StateFault::from(AllocError)),
    }
}

// Reads files of the first format, or none, and makes what they have.
fn read_first<R: Files<File = File>, D: Desk>(
    rt: &R,
    alloc: Global,
    files: &StateFiles,
    state: &[u8],
    desk: &mut D,
) -> Result<(Read, FoundFiles), StateFault> {
    let log = of_log(read_file(rt, alloc, files.log.as_str()))?;
    let are_there = log.is_some() || !state.is_empty();
    let first = FirstFormat::read(alloc, state, log.as_deref())?;
    let checkpoint = match make_body(alloc, &first.body, desk)? {
        Ok(checkpoint) => checkpoint,
        Err(line) => return Err(first.fault_at(line)),
    };
    let found = FoundFiles {
        are_there,
        are_first: are_there,
        commits: 0,
        torn: None,
    };
    let body = first.body;
    Ok((Read::First { body, checkpoint }, found))
}

// Writes the lines of a state into files of the second format.
fn begin<R: Files<File = File>>(
    rt: &R,
    alloc: Global,
    files: &StateFiles,
    body: &[u8],
    checkpoint: u64,
) -> Result<Extent, StateFault> {
    let mut text = Vec::new(alloc);
    let digest = write_state(alloc, &mut text, body)?;
    let first = point_after(&digest);
    let (octets, last) = log_of(alloc, &first, &[])?;
    write_new(rt, alloc, files.state.as_str(), &text)?;
    let begun = files.begin(rt, alloc, &octets);
    if begun.is_err() {
        remove_new(rt, alloc, files.state.as_str());
    }
    begun?;
    Ok(Extent {
        state_len: text.len() as u64,
        log_len: octets.len() as u64,
        len: 0,
        checkpoint,
        first,
        last,
    })
}

// Makes the zones and the holds of a state. Returns its checkpoint.
fn make_state<D: Desk>(alloc: Global, body: &[u8], desk: &mut D) -> Result<u64, StateFault> {
    match make_body(alloc, body, desk)? {
        Ok(checkpoint) => Ok(checkpoint),
        Err(line) => Err(StateFault::State(line.saturating_add(1))),
    }
}

// Makes the lines of a state, of which the first is its checkpoint. Returns the last checkpoint, or the
// number of the line that is refused.
fn make_body<D: Desk>(
    alloc: Global,
    body: &[u8],
    desk: &mut D,
) -> Result<Result<u64, u64>, AllocError> {
    let (head, rest) = split_line(body);
    let Some(checkpoint) = checkpoint_of(head) else {
        return Ok(Err(1));
    };
    let made = make_lines(alloc, rest, desk)?;
    if made.is_refused || made.octets < rest.len() {
        return Ok(Err(made.lines.saturating_add(2)));
    }
    Ok(Ok(made.checkpoint.unwrap_or(checkpoint)))
}

// Reads the log of a state, and makes its changes.
fn read_second<R: Files<File = File>, D: Desk>(
    rt: &R,
    alloc: Global,
    files: &StateFiles,
    state: &FoundState,
    desk: &mut D,
) -> Result<(Read, FoundFiles), StateFault> {
    let Some(FoundLog { octets, is_new }) = of_log(files.find_log(rt, alloc, &state.first))? else {
        return Err(StateFault::OtherLog);
    };
    let log = match read_log(alloc, &octets, &state.first) {
        Ok(log) => log,
        Err(fault) => return Err(StateFault::from(fault)),
    };
    let whole = octets.len().saturating_sub(log.tail.len());
    let found = FoundFiles {
        are_there: true,
        are_first: false,
        commits: log.commits.len() as u64,
        torn: if log.tail.is_empty() {
            None
        } else {
            Some(whole)
        },
    };
    let extent = make_changes(alloc, &log, whole, state, desk)?;
    let tail = Vec::from_slice(alloc, log.tail)?;
    let read = Read::Second {
        extent,
        is_new,
        whole,
        tail,
    };
    Ok((read, found))
}

// Goes on with a log, which takes its place where it has not, and is left without its tail. Its name is
// synced: a kill may have come before that, and what is appended would be lost with it. Returns the log, to
// append to.
fn go_on<R: Files<File = File>>(
    rt: &R,
    alloc: Global,
    files: &StateFiles,
    is_new: bool,
    whole: usize,
    tail: &[u8],
) -> io::Result<File> {
    if is_new {
        take_place(rt, alloc, files.log.as_str())?;
    }
    if !tail.is_empty() {
        files.drop_tail(rt, alloc, whole, tail)?;
    }
    sync_folder(rt, files.log.as_str())?;
    open_to_append(rt, files.log.as_str())
}

// Makes the changes of the log of a state, which has so many octets before its tail.
fn make_changes<D: Desk>(
    alloc: Global,
    log: &Log<'_>,
    whole: usize,
    state: &FoundState,
    desk: &mut D,
) -> Result<Extent, StateFault> {
    let changes = log.changes(alloc)?;
    let made = make_lines(alloc, &changes, desk)?;
    if made.is_refused || made.octets < changes.len() {
        return Err(StateFault::Commit(commit_at(&log.commits, made.octets)));
    }
    Ok(Extent {
        state_len: state.len,
        log_len: whole as u64,
        len: changes.len() as u64,
        checkpoint: made.checkpoint.unwrap_or(state.checkpoint),
        first: state.first,
        last: log.last,
    })
}

// The number of the commit that has this octet of the changes of all.
fn commit_at(commits: &[Commit<'_>], octet: usize) -> u64 {
    let mut rest = octet;
    for commit in commits {
        if rest < commit.body.len() {
            return commit.point.number;
        }
        rest -= commit.body.len();
    }
    0
}

// Makes the changes of a text, but for the last one where that is not whole.
fn make_lines<D: Desk>(alloc: Global, text: &[u8], desk: &mut D) -> Result<Made, AllocError> {
    let whole = text.get(..whole_len(text)).unwrap_or(&[]);
    match replies_to(alloc, desk, whole) {
        Some(replies) => Ok(made_of(whole, &replies)),
        None => Err(AllocError),
    }
}
