//! The files of a state: where they are, and which of them belong together.
use crate::files::{
    new_path, open_to_append, read_file, remove_new, sync_folder, take_place, truncate, write_file,
    write_new,
};
use sipl_commits::{Point, StateFault, read_state, write_head};
use std::alloc::{AllocError, Global};
use std::fs::File;
use std::io::ErrorKind;
use std::rt::Files;
use std::{fs, io};

/// Where a state is, and the changes since then.
#[derive(Drop)]
pub(crate) struct StateFiles {
    pub(crate) state: String,
    pub(crate) log: String,
}

/// The octets of a log, and whether it has yet to take its place.
#[derive(Drop)]
pub(crate) struct FoundLog {
    pub(crate) octets: Vec<u8>,
    pub(crate) is_new: bool,
}

/// A place in all changes that were ever appended, and the point of the log that begins there.
#[derive(Clone, Copy)]
pub(crate) struct Base {
    pub(crate) first: Point,
    pub(crate) start: u64,
}

/// The point of a log without commits, after a state of this digest.
pub(crate) fn point_after(digest: &[u8; 32]) -> Point {
    Point {
        number: 0,
        digest: *digest,
    }
}

impl StateFiles {
    /// Those of the state of a path.
    pub(crate) fn new(alloc: Global, path: &str) -> Result<StateFiles, AllocError> {
        Ok(StateFiles {
            state: String::from_str(alloc, path)?,
            log: format!(in alloc; "{path}.log")?,
        })
    }

    /// The path of the lock of the state.
    pub(crate) fn lock_path(&self, alloc: Global) -> Result<String, AllocError> {
        format!(in alloc; "{}.lock", self.state)
    }

    /// Begins a log with these octets: the new one is there, also after a loss of power, before its state
    /// takes its place, and takes its own after that. What a kill leaves between the two is finished at the
    /// next start. Where the state may have taken its place the new log stays.
    pub(crate) fn begin<R: Files<File = File>>(
        &self,
        rt: &R,
        alloc: Global,
        log: &[u8],
    ) -> io::Result<()> {
        self.write_new_log(rt, alloc, log)?;
        take_place(rt, alloc, self.state.as_str())?;
        take_place(rt, alloc, self.log.as_str())
    }

    // Writes the log that is to take its place with a state, and keeps its name.
    fn write_new_log<R: Files<File = File>>(
        &self,
        rt: &R,
        alloc: Global,
        log: &[u8],
    ) -> io::Result<()> {
        write_new(rt, alloc, self.log.as_str(), log)?;
        let synced = sync_folder(rt, self.state.as_str());
        if synced.is_err() {
            remove_new(rt, alloc, self.log.as_str());
        }
        synced
    }

    /// Writes a log anew, which takes the place of the old one. Returns it, to append to.
    pub(crate) fn write_log<R: Files<File = File>>(
        &self,
        rt: &R,
        alloc: Global,
        log: &[u8],
    ) -> io::Result<File> {
        write_new(rt, alloc, self.log.as_str(), log)?;
        let moved = take_place(rt, alloc, self.log.as_str());
        if moved.is_err() {
            remove_new(rt, alloc, self.log.as_str());
        }
        moved?;
        open_to_append(rt, self.log.as_str())
    }

    /// The log of the state before a point: that which is in its place, or else the new one, where a kill
    /// came before it took its place. Where neither is, it is the other log that is there, if there is one.
    pub(crate) fn find_log<R: Files<File = File>>(
        &self,
        rt: &R,
        alloc: Global,
        point: &Point,
    ) -> io::Result<Option<FoundLog>> {
        let mut head = Vec::new(alloc);
        write_head(alloc, &mut head, point)?;
        let found = read_file(rt, alloc, self.log.as_str())?;
        if let Some(octets) = &found
            && octets.starts_with(&head)
        {
            return Ok(in_place(found));
        }
        let new = read_file(rt, alloc, new_path(alloc, self.log.as_str())?.as_str())?;
        match new {
            Some(octets) if octets.starts_with(&head) => Ok(Some(FoundLog {
                octets,
                is_new: true,
            })),
            _ => Ok(in_place(found)),
        }
    }

    /// The log of the state before a point, which takes its place now where it has not.
    pub(crate) fn log_after<R: Files<File = File>>(
        &self,
        rt: &R,
        alloc: Global,
        point: &Point,
    ) -> io::Result<Vec<u8>> {
        match self.find_log(rt, alloc, point)? {
            Some(FoundLog { octets, is_new }) => {
                if is_new {
                    take_place(rt, alloc, self.log.as_str())?;
                }
                Ok(octets)
            }
            None => Err(io::Error::from(ErrorKind::NotFound)),
        }
    }

    /// Leaves of the log the octets before its tail, which has a file of its own then, where there is space
    /// for one.
    pub(crate) fn drop_tail<R: Files<File = File>>(
        &self,
        rt: &R,
        alloc: Global,
        whole: usize,
        tail: &[u8],
    ) -> io::Result<()> {
        let _ = write_file(rt, format!(in alloc; "{}.torn", self.log)?.as_str(), tail);
        truncate(rt, self.log.as_str(), whole as u64)
    }

    /// Which of two bases is that of the state that is in its place: that before it, or that which was to
    /// take it.
    pub(crate) fn base<R: Files<File = File>>(
        &self,
        rt: &R,
        alloc: Global,
        old: Base,
        new: Base,
    ) -> io::Result<Base> {
        sync_folder(rt, self.state.as_str())?;
        let octets = fs::read(&(rt, alloc), self.state.as_str())?;
        let first = match read_state(alloc, &octets) {
            Ok(state) => point_after(&state.digest),
            Err(StateFault::Memory) => return Err(io::Error::from(ErrorKind::OutOfMemory)),
            Err(_) => return Err(io::Error::from(ErrorKind::InvalidData)),
        };
        if first == new.first {
            Ok(new)
        } else if first == old.first {
            Ok(old)
        } else {
            Err(io::Error::from(ErrorKind::InvalidData))
        }
    }
}

fn in_place(octets: Option<Vec<u8>>) -> Option<FoundLog> {
    octets.map(|octets| FoundLog {
        octets,
        is_new: false,
    })
}
