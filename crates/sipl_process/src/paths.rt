//! What is at the paths of settings and arguments, before it is opened: a pipe would be waited for, a device
//! read without end, and what is in the way of a page be seen only with the first page.
use crate::fault::Fault;
use crate::host::Host;
use sipl_archive::{ReplayFault, is_passed_over};
use sipl_settings::GivenFault;
use std::alloc::Global;
use std::fs::{File, Metadata, OpenOptions};
use std::io::ErrorKind;
use std::os::unix::fs::{FileTypeExt, OpenOptionsExt};
use std::rt::Files;
use std::{fs, io};

// What the names of a state's files have after its own.
const ENDINGS: &[&str] = &["", ".lock", ".log", ".new", ".log.new", ".log.torn"];

// How many octets a file of settings may have.
const MAX_SETTINGS: u64 = 1 << 20;

/// Checks that settings can be read from a path: there is a file of no great length, or a pipe that is open
/// and has no path of its own.
pub(crate) fn expect_settings<H: Host>(host: &H, alloc: Global, path: &str) -> Result<(), Fault> {
    match check_settings(host, alloc, path) {
        Ok(()) => Ok(()),
        Err(error) => Err(Fault::Settings(GivenFault::File(String::from_str(alloc, path)?, error))),
    }
}

/// Checks that each file of a state is one, or is not there. `found` is where the path leads, if that can be
/// said.
pub fn expect_state<H: Host>(
    host: &H,
    alloc: Global,
    path: &str,
    found: io::Result<String>,
) -> Result<(), Fault> {
    match found {
        Ok(path) => expect_state_at(host, alloc, path.as_str()),
        Err(error) => Err(Fault::State(String::from_str(alloc, path)?, link_error(error))),
    }
}

/// Checks that an archive is a folder.
pub(crate) fn expect_folder<H: Host>(host: &H, alloc: Global, path: &str) -> Result<(), Fault> {
    match check_folder(host, path) {
        Ok(()) => Ok(()),
        Err(error) => Err(Fault::Archive(String::from_str(alloc, path)?, error)),
    }
}

/// Checks that what is in an archive is files, but for what is passed over as no page.
pub(crate) fn expect_pages<H: Host>(host: &H, alloc: Global, folder: &str) -> Result<(), Fault> {
    match check_pages(host, alloc, folder) {
        Ok(None) => Ok(()),
        Ok(Some((path, error))) => Err(Fault::Replay(ReplayFault::File(path, error))),
        Err(error) => {
            let folder = String::from_str(alloc, folder)?;
            Err(Fault::Replay(ReplayFault::File(folder, error)))
        }
    }
}

/// Checks that the next page of an archive, whose lock is taken, finds no other than a file in its way, which
/// is removed, and where that is asked for that it can be made.
pub(crate) fn expect_page<H: Host>(
    host: &H,
    alloc: Global,
    folder: &str,
    is_made: bool,
) -> Result<(), Fault> {
    let path = format!(in alloc; "{folder}/new")?;
    match check_page(host, path.as_str(), is_made) {
        Ok(()) => Ok(()),
        Err(error) => Err(Fault::Archive(path, error)),
    }
}

// The path of the first in a folder that is not a file, and why, if there is one.
fn check_pages<H: Host>(
    host: &H,
    alloc: Global,
    folder: &str,
) -> io::Result<Option<(String, io::Error)>> {
    for entry in fs::read_dir(&(host, alloc), folder)? {
        let entry = entry?;
        let path = entry.path().as_str();
        if is_passed_over(host, path) {
            continue;
        }
        if let Err(error) = expect_file_at(host, path) {
            return Ok(Some((String::from_str(alloc, path)?, error)));
        }
    }
    Ok(None)
}

// Checks that there is a file at a path.
fn expect_file_at<R: Files>(rt: &R, path: &str) -> io::Result<()> {
    expect_file(&fs::metadata(rt, path)?)
}

fn check_settings<H: Host>(host: &H, alloc: Global, path: &str) -> io::Result<()> {
    let found = fs::metadata(host, path)?;
    if found.file_type().is_fifo() && fs::canonicalize(&(host, alloc), path).is_err() {
        return Ok(());
    }
    expect_file(&found)?;
    if found.len() <= MAX_SETTINGS {
        Ok(())
    } else {
        Err(io::Error::from(ErrorKind::FileTooLarge))
    }
}

fn expect_file(found: &Metadata) -> io::Result<()> {
    if found.is_file() {
        Ok(())
    } else {
        Err(io::Error::new(ErrorKind::InvalidInput, "not a regular file"))
    }
}

// Checks that there is a file at a path, or nothing.
fn expect_file_or_none<R: Files>(rt: &R, path: &str) -> io::Result<()> {
    match fs::metadata(rt, path) {
        Ok(found) => expect_file(&found),
        Err(error) if error.kind() == ErrorKind::NotFound => Ok(()),
        Err(error) => Err(error),
    }
}

// What is said where a path does not lead to a state: nothing is found only where it is a link.
fn link_error(error: io::Error) -> io::Error {
    if error.kind() == ErrorKind::NotFound {
        io::Error::new(ErrorKind::NotFound, "a symbolic link that leads nowhere")
    } else {
        error
    }
}

fn expect_state_at<H: Host>(host: &H, alloc: Global, path: &str) -> Result<(), Fault> {
    for ending in ENDINGS {
        let path = format!(in alloc; "{path}{ending}")?;
        if let Err(error) = expect_file_or_none(host, path.as_str()) {
            return Err(Fault::State(path, error));
        }
    }
    Ok(())
}

fn check_folder<R: Files>(rt: &R, path: &str) -> io::Result<()> {
    if fs::metadata(rt, path)?.is_dir() {
        Ok(())
    } else {
        Err(io::Error::from(ErrorKind::NotADirectory))
    }
}

fn check_page<R: Files<File = File>>(rt: &R, path: &str, is_made: bool) -> io::Result<()> {
    expect_file_or_none(rt, path)?;
    if !is_made {
        // What a kill has left of a page has the space that others need.
        let _ = fs::remove_file(rt, path);
        return Ok(());
    }
    let file = OpenOptions::new()
        .write(true)
        .create(true)
        .truncate(true)
        .mode(0o600)
        .open(rt, path)?;
    drop(file);
    fs::remove_file(rt, path)
}
