//! Locks that processes take on a file.
use std::fs::{File, OpenOptions, TryLockError};
use std::io;
use std::io::ErrorKind;
use std::os::unix::fs::OpenOptionsExt;
use std::rt::Files;

/// Opens a file, and takes its lock: `ResourceBusy` where another process has it. It is kept for as long as
/// the file is open.
pub fn take_lock<R: Files<File = File>>(rt: &R, path: &str) -> io::Result<File> {
    let file = OpenOptions::new()
        .write(true)
        .create(true)
        .truncate(false)
        .mode(0o600)
        .open(rt, path)?;
    locked(file)
}

/// As `take_lock`, of a file that is there, which may be on a disk that can't be written.
pub fn take_lock_there<R: Files<File = File>>(rt: &R, path: &str) -> io::Result<File> {
    locked(File::open(rt, path)?)
}

// The file, once its lock is taken.
fn locked(file: File) -> io::Result<File> {
    match file.try_lock() {
        Ok(()) => Ok(file),
        Err(TryLockError::WouldBlock) => Err(io::Error::new(
            ErrorKind::ResourceBusy,
            "another siplocd has it",
        )),
        Err(TryLockError::Error(error)) => Err(error),
    }
}
