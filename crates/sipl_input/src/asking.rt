//! The reader of a session that may only ask.
ghost use Rattle.std.specs.Prelude.{◌≤◌, length};

use crate::input::Input;
use memchr::memchr;
use sipl_lines::{CommandWord, MAX_LINE_LEN, taken_by};
use sipl_records::next_field;
use std::alloc::{AllocError, Global};
use std::io;
use std::io::{ErrorKind, Read};
use std::time::Clock;

// How many octets are kept of a line. A longer one is no command.
const MAX_KEPT: usize = MAX_LINE_LEN + 2;

// How many octets are read at a time.
const CHUNK: usize = 16_384;

// The most reads in which no line ends that the session is to have.
const MAX_READS: u32 = 1 << 31;

// The line that stands for one that is refused: the desk of a session that may only ask refuses it too.
const REFUSED: CommandWord = CommandWord::Repair;

/// What a client sends that may only ask. In place of each line that is refused, and the lines that it takes,
/// the session has one that its desk refuses: so it keeps no zone, and makes no hold but those of its calls.
#[derive(Drop)]
pub struct Asking<'a, R> {
    input: Input<'a, R>,
    chunk: Vec<u8>,
    filter: Filter,
}

// What the session has of the lines that were read.
#[derive(Drop)]
struct Filter {
    // The line whose end was not read.
    line: Vec<u8>,
    // How many lines the last line that was refused takes yet.
    skipped: u64,
    // What the session has not had yet, from this place on.
    lines: Vec<u8>,
    begin: usize,
}

impl<'a, R: Clock> Asking<'a, R> {
    /// At the start of a session with this input.
    pub fn new(alloc: Global, input: Input<'a, R>) -> Result<Self, AllocError> {
        let chunk = vec![in alloc; 0; CHUNK]?;
        Ok(Asking {
            input,
            chunk,
            filter: Filter {
                line: Vec::new(alloc),
                skipped: 0,
                lines: Vec::new(alloc),
                begin: 0,
            },
        })
    }
}

impl Filter {
    // Whether the session has had all.
    fn is_empty(&self) -> bool {
        self.begin >= self.lines.len()
    }

    // Returns a part of what the session has not had yet.
    fn take(&mut self, buf: &mut [u8]) -> usize
        ensures { result ≤ length buf.new }
    {
        let rest = self.lines.as_slice().get(self.begin..).unwrap_or(&[]);
        let count = rest.len().min(buf.len());
        if let (Some(to), Some(from)) = (buf.get_mut(..count), rest.get(..count)) {
            to.copy_from_slice(from);
        }
        self.begin = self.begin.saturating_add(count);
        count
    }

    // Goes on with what was read, when the session has had all before.
    fn put(&mut self, chunk: &[u8]) -> Result<(), AllocError> {
        self.lines.clear();
        self.begin = 0;
        let mut place = 0usize;
        for _ in 0..chunk.len() {
            let rest = chunk.get(place..).unwrap_or(&[]);
            let Some(len) = memchr(b'\n', rest) else {
                break;
            };
            self.keep(rest.get(..len).unwrap_or(&[]))?;
            self.end_line()?;
            place = place.saturating_add(len).saturating_add(1);
        }
        self.keep(chunk.get(place..).unwrap_or(&[]))
    }

    // Keeps a piece of a line.
    fn keep(&mut self, piece: &[u8]) -> Result<(), AllocError> {
        let space = MAX_KEPT.saturating_sub(self.line.len()).min(piece.len());
        self.line
            .extend_from_slice(piece.get(..space).unwrap_or(&[]))
    }

    // Ends a line: the session has it, or what stands for it.
    fn end_line(&mut self) -> Result<(), AllocError> {
        if self.skipped > 0 {
            self.skipped = self.skipped.saturating_sub(1);
        } else if is_refused(&self.line) {
            self.skipped = taken_by(&self.line);
            self.lines.extend_from_slice(REFUSED.name())?;
            self.lines.push(b'\n')?;
        } else {
            self.lines.extend_from_slice(&self.line)?;
            self.lines.push(b'\n')?;
        }
        self.line.clear();
        Ok(())
    }
}

// Whether a line is a command that does more than to ask.
fn is_refused(line: &[u8]) -> bool {
    match next_field(line) {
        Some((word, _)) => CommandWord::needs_rights(word),
        None => false,
    }
}

impl<R: Clock> Read for Asking<'_, R> {
    fn read(&mut self, buf: &mut [u8]) -> io::Result<usize> {
        for _ in 0..MAX_READS {
            if !self.filter.is_empty() {
                return Ok(self.filter.take(buf));
            }
            let count = self.input.read(&mut self.chunk)?;
            if count == 0 {
                return Ok(0);
            }
            self.filter.put(self.chunk.get(..count).unwrap_or(&[]))?;
        }
        Err(io::Error::from(ErrorKind::TimedOut))
    }
}
