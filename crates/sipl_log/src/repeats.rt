//! Equal lines of one second.
use std::alloc::{AllocError, Global};
use std::time::{Duration, Instant};

// How many equal lines are written in a second.
const MAX_EQUAL: u64 = 10;

// How many different lines are compared in a second. Others are written without that.
const MAX_KINDS: usize = 64;

// A line, and how often it came in this second.
#[derive(Drop)]
struct Kind {
    text: String,
    count: u64,
}

/// The lines of this second, so that equal ones are counted and written as one.
#[derive(Drop)]
pub(crate) struct Repeats {
    begun: Option<Instant>,
    kinds: Vec<Kind>,
}

impl Repeats {
    /// No line yet.
    pub(crate) fn new(alloc: Global) -> Repeats {
        Repeats {
            begun: None,
            kinds: Vec::new(alloc),
        }
    }

    /// Whether the second is over.
    pub(crate) fn is_over(&self, now: Instant) -> bool {
        match self.begun {
            Some(begun) => now.duration_since(begun) >= Duration::from_secs(1),
            None => true,
        }
    }

    /// Begins a second. Returns the lines to write of the last one: each that came too often, with how often
    /// it was not written.
    pub(crate) fn begin(&mut self, alloc: Global, now: Instant) -> Result<Vec<String>, AllocError> {
        self.begun = Some(now);
        let mut told = Vec::new(alloc);
        for kind in &self.kinds {
            if kind.count > MAX_EQUAL {
                let left = kind.count.saturating_sub(MAX_EQUAL);
                told.push(format!(in alloc; "{} repeated={left}", kind.text)?)?;
            }
        }
        self.kinds.clear();
        Ok(told)
    }

    /// Counts a line. Returns whether it is to be written.
    pub(crate) fn admit(&mut self, alloc: Global, text: &str) -> bool {
        for kind in &mut self.kinds {
            if kind.text.as_str() == text {
                kind.count = kind.count.saturating_add(1);
                return kind.count <= MAX_EQUAL;
            }
        }
        if self.kinds.len() < MAX_KINDS {
            self.keep(alloc, text);
        }
        true
    }

    // Keeps a new line to compare others with. Where an allocation fails others are not compared with it.
    fn keep(&mut self, alloc: Global, text: &str) {
        if let Ok(text) = String::from_str(alloc, text) {
            let _ = self.kinds.push(Kind { text, count: 1 });
        }
    }
}
