//! What is reported of states, and of writes that fail.
use crate::observed::{Observed, with_time};
use sipl_log::Level;
use std::alloc::AllocError;
use std::fmt::Write as _;
use std::rt::Files;
use std::sync::Wait;
use std::time::{Clock, Duration, Instant};
use std::{fs, io};

// How long a message of the start waits until it is written, in milliseconds.
const TOLD: u64 = 1_000;

impl Observed {
    /// Reports that a state was written which was begun at a time: how long it took, and how long it is.
    pub fn tell_state<R: Files + Wait + Clock>(&self, rt: &R, begun: Option<Instant>) {
        let Some(path) = &self.state else {
            return;
        };
        let line = self
            .line(Level::Info, "written")
            .text("path", path.as_str());
        let line = match fs::metadata(rt, path.as_str()) {
            Ok(found) => line.number("octets", found.len()),
            Err(_) => line,
        };
        self.log.push(rt, with_time(rt, line, begun));
    }

    /// Reports what was read of a state from a time on: how many zones, records and holds it has with the
    /// changes after it, and how many commits these were.
    pub fn tell_read<R: Wait + Clock>(
        &self,
        rt: &R,
        begun: Option<Instant>,
        totals: (u64, u64, u64),
        commits: u64,
    ) {
        let Some(path) = &self.state else {
            return;
        };
        let (zones, records, held) = totals;
        let line = self
            .line(Level::Info, "read")
            .text("path", path.as_str())
            .number("zones", zones)
            .number("records", records)
            .number("held", held)
            .number("commits", commits);
        self.log.push(rt, with_time(rt, line, begun));
    }

    /// Reports that there is no state, so that nothing is loaded or held.
    pub fn tell_empty<R: Wait + Clock>(&self, rt: &R) {
        if let Some(path) = &self.state {
            let line = self.line(Level::Warn, "empty").text("path", path.as_str());
            self.log.push(rt, line);
        }
    }

    /// Says that a log had a write that did not end, at this octet, before anything else is done.
    pub fn tell_torn<R: Wait + Clock>(
        &self,
        rt: &R,
        path: &str,
        octet: usize,
    ) -> Result<(), AllocError> {
        let mut text = String::new(self.alloc);
        write_torn(&mut text, path, octet)?;
        self.log.push_message(rt, Level::Warn, text.as_str());
        self.log.wait_until_written(rt, Duration::from_millis(TOLD));
        Ok(())
    }

    /// Says something, whatever is written of the log.
    pub fn say<R: Wait>(&self, rt: &R, text: &str) {
        self.log.push_message(rt, Level::Error, text);
    }

    /// Says why changes can't be written, and that they are refused.
    pub fn say_refusing<R: Wait>(&self, rt: &R, error: &io::Error) {
        match format!(in self.alloc; "siplocd: state: {error}: changes are refused") {
            Ok(text) => self.say(rt, text.as_str()),
            Err(_) => self.say(rt, "siplocd: state: changes are refused"),
        }
    }

    /// Says why a state can't be written, and that its log goes on.
    pub fn say_going_on<R: Wait>(&self, rt: &R, error: &io::Error) {
        match format!(in self.alloc; "siplocd: state: {error}: the log goes on") {
            Ok(text) => self.say(rt, text.as_str()),
            Err(_) => self.say(rt, "siplocd: state: the log goes on"),
        }
    }

    /// Says why a page can't be archived, and that pages wait.
    pub fn say_waiting<R: Wait>(&self, rt: &R, error: &io::Error) {
        match format!(in self.alloc; "siplocd: archive: {error}: pages wait") {
            Ok(text) => self.say(rt, text.as_str()),
            Err(_) => self.say(rt, "siplocd: archive: pages wait"),
        }
    }

    /// Reports that changes could not be written.
    pub fn tell_unsynced<R: Wait + Clock>(&self, rt: &R, error: &io::Error) {
        let line = self.line(Level::Error, "failed").text("what", "changes");
        self.log.push(rt, self.with_cause(line, error));
    }
}

// Appends that a log had a write that did not end, at this octet.
fn write_torn(out: &mut String, path: &str, octet: usize) -> Result<(), AllocError> {
    write!(
        out,
        "siplocd: state {path}.log: a write did not end at octet {octet}"
    )
}
