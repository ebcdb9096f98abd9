//! The time of the host, as that of the book.
use std::io;
use std::time::{Clock, Instant};

/// The clock of the machine, from the start of the daemon.
#[derive(Drop)]
pub struct HostTime {
    start: Instant,
    // The book's time at the start, in milliseconds.
    base: u64,
}

impl HostTime {
    /// A clock that begins at a time of the book, in milliseconds.
    pub fn new<R: Clock>(rt: &R, base: u64) -> io::Result<HostTime> {
        Ok(HostTime {
            start: Instant::now(rt)?,
            base,
        })
    }

    /// The clock goes on from a time of the book.
    pub fn restart<R: Clock>(&mut self, rt: &R, base: u64) -> io::Result<()> {
        self.start = Instant::now(rt)?;
        self.base = base;
        Ok(())
    }

    /// The time, in milliseconds. Where the clock of the machine can't be read it is that of the start.
    pub fn now<R: Clock>(&self, rt: &R) -> u64 {
        let passed = match self.start.elapsed(rt) {
            Ok(passed) => u64::try_from(passed.as_millis()).unwrap_or(u64::MAX),
            Err(_) => 0,
        };
        self.base.saturating_add(passed)
    }
}
