//! The lines that wait to be written.
use crate::level::Level;
use crate::line::Line;
use crate::repeats::Repeats;
use std::alloc::{AllocError, Global};
use std::collections::VecDeque;
use std::mem;
use std::time::Instant;

// How many lines wait at most. Others are dropped, and counted.
const MAX_LINES: usize = 1_024;

/// The lines that wait to be written, and what became of the others.
#[derive(Drop)]
pub(crate) struct Queue {
    alloc: Global,
    has_priorities: bool,
    lines: VecDeque<String>,
    repeats: Repeats,
    // How many lines were dropped since a line said so, and in all.
    lost: u64,
    dropped: u64,
    // How many of them lines tell that wait, and those that are being written.
    told: u64,
    in_hand: u64,
    /// Whether a thread writes lines, and whether it is at it.
    pub(crate) has_writer: bool,
    pub(crate) is_writing: bool,
}

impl Queue {
    /// No line.
    pub(crate) fn new(alloc: Global) -> Queue {
        Queue {
            alloc,
            has_priorities: false,
            lines: VecDeque::new(alloc),
            repeats: Repeats::new(alloc),
            lost: 0,
            dropped: 0,
            told: 0,
            in_hand: 0,
            has_writer: false,
            is_writing: false,
        }
    }

    /// Each line has its priority before it from now on, or not.
    pub(crate) fn set_priorities(&mut self, has_priorities: bool) {
        self.has_priorities = has_priorities;
    }

    /// Whether all was written.
    pub(crate) fn is_done(&self) -> bool {
        self.lines.is_empty() && !self.is_writing
    }

    /// Whether no line waits.
    pub(crate) fn is_empty(&self) -> bool {
        self.lines.is_empty()
    }

    /// How many lines were dropped.
    pub(crate) fn dropped(&self) -> u64 {
        self.dropped
    }

    /// Appends a line, unless it came too often in this second, or too many wait.
    pub(crate) fn push(&mut self, line: Line, now: Option<Instant>) {
        self.begin_second(now);
        let level = line.level();
        let Some(text) = line.into_text() else {
            self.drop_one();
            return;
        };
        if !self.repeats.admit(self.alloc, text.as_str()) {
            return;
        }
        self.push_text(level, text.as_str());
    }

    /// Appends a message, whatever waits. Returns whether it is there: an allocation may fail.
    pub(crate) fn push_message(&mut self, level: Level, text: &str) -> bool {
        self.append(level, text).is_ok()
    }

    /// Ends a second that is over: says how often lines of it came too often.
    pub(crate) fn begin_second(&mut self, now: Option<Instant>) {
        let Some(now) = now else {
            return;
        };
        if !self.repeats.is_over(now) {
            return;
        }
        if let Ok(told) = self.repeats.begin(self.alloc, now) {
            for text in &told {
                self.push_text(level_of(text.as_str()), text.as_str());
            }
        }
    }

    /// Takes out all that waits, as one text.
    pub(crate) fn take(&mut self) -> String {
        let lines = mem::replace(&mut self.lines, VecDeque::new(self.alloc));
        self.in_hand = mem::replace(&mut self.told, 0);
        match joined(self.alloc, &lines) {
            Ok(text) => text,
            Err(_) => {
                self.lose(lines.len() as u64);
                String::new(self.alloc)
            }
        }
    }

    /// Counts the lines of a text that was taken out and could not be written, or not all of it.
    pub(crate) fn lose_text(&mut self, text: &str) {
        self.lose(
            text.as_bytes()
                .iter()
                .filter(|octet| **octet == b'\n')
                .count() as u64,
        );
    }

    // Counts lines that were taken out and are lost. Those of which one of them tells are to be told again.
    fn lose(&mut self, lines: u64) {
        self.count_lost(lines);
        self.lost = self.lost.saturating_add(self.in_hand);
    }

    // Appends a line, if there is space; before it how many had none.
    fn push_text(&mut self, level: Level, text: &str) {
        self.tell_lost();
        if self.lines.len() >= MAX_LINES || self.append(level, text).is_err() {
            self.drop_one();
        }
    }

    // Says how many lines were dropped, once there is space for a line again.
    fn tell_lost(&mut self) {
        if self.lost == 0 || self.lines.len().saturating_add(1) >= MAX_LINES {
            return;
        }
        let line = Line::new(self.alloc, Level::Warn, "lost").number("lines", self.lost);
        if let Some(text) = line.into_text() {
            if self.append(Level::Warn, text.as_str()).is_ok() {
                self.told = self.told.saturating_add(self.lost);
                self.lost = 0;
            }
        }
    }

    fn append(&mut self, level: Level, text: &str) -> Result<(), AllocError> {
        let priority = if self.has_priorities {
            level.priority()
        } else {
            ""
        };
        let line = format!(in self.alloc; "{priority}{text}\n")?;
        self.lines.reserve(1)?;
        let _ = self.lines.push_back(line);
        Ok(())
    }

    fn drop_one(&mut self) {
        self.count_lost(1);
    }

    fn count_lost(&mut self, count: u64) {
        self.lost = self.lost.saturating_add(count);
        self.dropped = self.dropped.saturating_add(count);
    }
}

// The level of a line, by its first word.
fn level_of(text: &str) -> Level {
    for level in [Level::Error, Level::Warn, Level::Debug] {
        if text.starts_with(level.name()) {
            return level;
        }
    }
    Level::Info
}

fn joined(alloc: Global, lines: &VecDeque<String>) -> Result<String, AllocError> {
    let mut text = String::new(alloc);
    for line in lines {
        text.push_str(line.as_str())?;
    }
    Ok(text)
}
