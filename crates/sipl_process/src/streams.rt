//! The standard streams. Where one is closed, the system gives its number to what is opened next, and what is
//! printed goes there: a line of the log into a client's connection, or `ready` into the file of the changes.
use std::alloc::Global;
use std::fs::{File, OpenOptions};
use std::io;
use std::os::fd::AsRawFd;
use std::rt::Files;

// How many standard streams there are: their numbers are below it.
const STREAMS: i32 = 3;

/// Opens the null device in place of each standard stream that is closed, for as long as what it returns is
/// kept.
pub fn open_closed<R: Files<File = File>>(rt: &R, alloc: Global) -> io::Result<Vec<File>> {
    let mut opened = Vec::new(alloc);
    for _ in 0..STREAMS {
        let file = OpenOptions::new()
            .read(true)
            .write(true)
            .open(rt, "/dev/null")?;
        if file.as_raw_fd() >= STREAMS {
            break;
        }
        opened.push(file)?;
    }
    Ok(opened)
}
