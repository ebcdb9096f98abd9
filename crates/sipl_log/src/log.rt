//! The log of a program.
ghost use Rattle.std.specs.Prelude.{◌≡◌, IfSome};
ghost use Rattle.sipl_log.specs.Lines.{event_text, level_of, line_text};

use crate::level::{Level, Verbosity};
use crate::line::Line;
use crate::queue::Queue;
use std::alloc::Global;
use std::sync::atomic::{AtomicU64, Ordering};
use std::sync::{Condvar, CondvarTimeouts, Mutex, Wait};
use std::time::{Clock, Duration, Instant};

// How often the writer looks whether a second is over of which lines are to be told, in milliseconds.
const LOOK: u64 = 1_000;

/// The log of a program. Any thread may append a line, and waits for no one who writes.
#[derive(Drop)]
pub struct Log {
    alloc: Global,
    // The last level whose lines are written; 0 for none.
    rank: AtomicU64,
    queue: Mutex<Queue>,
    changed: Condvar,
}

impl Log {
    /// A log that is off.
    pub fn new(alloc: Global) -> Log {
        Log {
            alloc,
            rank: AtomicU64::new(0),
            queue: Mutex::new(Queue::new(alloc)),
            changed: Condvar::new(),
        }
    }

    /// From now on lines are written that matter so much: with their priorities before them, as the journal
    /// of systemd has them, or without.
    pub fn begin<R: Wait>(&self, rt: &R, verbosity: Verbosity, has_priorities: bool) {
        self.queue.lock(rt).set_priorities(has_priorities);
        self.rank.store(verbosity.rank(), Ordering::SeqCst);
    }

    /// Whether lines of a level are written.
    pub fn allows(&self, level: Level) -> bool {
        level.rank() <= self.rank.load(Ordering::SeqCst)
    }

    /// The beginning of a line of an event.
    pub fn line(&self, level: Level, event: &str) -> Line
        ensures level { level_of result ≡ level }
        ensures text { IfSome (line_text result) (λ text. text ≡ event_text level event.now) }
    {
        Line::new(self.alloc, level, event)
    }

    /// Appends a line, if those of its level are written. It is dropped where too many wait.
    pub fn push<R: Wait + Clock>(&self, rt: &R, line: Line) {
        if !self.allows(line.level()) {
            return;
        }
        let now = Instant::now(rt).ok();
        self.queue.lock(rt).push(line, now);
        self.changed.notify_all();
    }

    /// Appends a message, whatever is written of the log. Returns whether it could: an allocation may fail.
    pub fn push_message<R: Wait>(&self, rt: &R, level: Level, text: &str) -> bool {
        let is_there = self.queue.lock(rt).push_message(level, text);
        self.changed.notify_all();
        is_there
    }

    /// How many lines were dropped.
    pub fn dropped<R: Wait>(&self, rt: &R) -> u64 {
        self.queue.lock(rt).dropped()
    }

    /// Writes lines as they come, without end. One thread of the program does, for which nothing waits:
    /// standard error may be a pipe that no one reads.
    pub fn run<R: Eprint + Wait + Clock>(&self, rt: &R) {
        self.expect_writer(rt);
        for _ in 0..u64::MAX {
            self.write_next(rt);
        }
    }

    /// A thread writes lines from now on, or is about to.
    pub fn expect_writer<R: Wait>(&self, rt: &R) {
        self.queue.lock(rt).has_writer = true;
    }

    /// Waits until all lines are written, for so long at most, if a thread writes them.
    pub fn wait_until_written<R: Wait + Clock>(&self, rt: &R, longest: Duration) {
        let queue = self.queue.lock(rt);
        if queue.has_writer {
            let _queue = self
                .changed
                .wait_timeout_while(rt, queue, longest, |queue| !queue.is_done());
        }
    }

    /// Waits until all lines are written, for so long at most. This thread writes those that no other one has
    /// begun to write.
    pub fn end<R: Eprint + Wait + Clock>(&self, rt: &R, longest: Duration) {
        self.wait_until_written(rt, longest);
        let text = self.take_rest(rt);
        if !text.is_empty() {
            let _ = eprint!(rt; "{text}");
        }
    }

    // Takes out the lines that wait, unless a thread is at writing others.
    fn take_rest<R: Wait>(&self, rt: &R) -> String {
        let mut queue = self.queue.lock(rt);
        if queue.is_writing {
            return String::new(self.alloc);
        }
        queue.take()
    }

    // Waits for lines, and writes them.
    fn write_next<R: Eprint + Wait + Clock>(&self, rt: &R) {
        let text = self.take_next(rt);
        let is_written = text.is_empty() || eprint!(rt; "{text}").is_ok();
        let mut queue = self.queue.lock(rt);
        if !is_written {
            queue.lose_text(text.as_str());
        }
        queue.is_writing = false;
        drop(queue);
        self.changed.notify_all();
    }

    // Waits for lines, for a second at most, and takes them out.
    fn take_next<R: Wait + Clock>(&self, rt: &R) -> String {
        let queue = self.queue.lock(rt);
        let longest = Duration::from_millis(LOOK);
        let (mut queue, _) = self
            .changed
            .wait_timeout_while(rt, queue, longest, |queue| queue.is_empty());
        queue.begin_second(Instant::now(rt).ok());
        queue.is_writing = !queue.is_empty();
        queue.take()
    }
}
