// Readers and writers of the tests' own, and sessions over them.
ghost use Rattle.std.specs.Prelude.{◌≤◌, ◌-◌, ◌^◌};

use sipl_book::{Book, Limits};
use sipl_choice::{Abilities, Families, Transport};
use sipl_lines::{Ended, ServeFault, Tapped, serve, serve_within};
use sipl_outages::Held;
use std::alloc::{AllocError, Global};
use std::io;
use std::io::{ErrorKind, Read, Write};
use std::test::Fail;

// A text that is read in pieces of `most` octets. The read of the number `fails_at`, from 1, fails.
#[derive(Drop)]
pub struct Pieces<'a> {
    rest: &'a [u8],
    most: usize,
    fails_at: u64,
    calls: u64,
}

impl<'a> Pieces<'a> {
    pub fn new(text: &'a [u8], most: usize, fails_at: u64) -> Self {
        Pieces {
            rest: text,
            most,
            fails_at,
            calls: 0,
        }
    }
}

impl Read for Pieces<'_> {
    fn read(&mut self, buf: &mut [u8]) -> io::Result<usize> {
        self.calls = self.calls.saturating_add(1);
        if self.calls == self.fails_at {
            return Err(io::Error::from(ErrorKind::BrokenPipe));
        }
        let count = self.most.min(buf.len()).min(self.rest.len());
        buf[..count].copy_from_slice(&self.rest[..count]);
        self.rest = &self.rest[count..];
        Ok(count)
    }
}

// How a write fails.
#[derive(Clone, Copy)]
pub enum Failing {
    Error,
    TakesNothing,
}

// A text that is written in pieces of `most` octets. The write of the number `fails_at`, from 1,
// fails. The first `flushed` octets are flushed.
#[derive(Drop)]
pub struct Paper {
    pub text: Vec<u8>,
    most: usize,
    fails_at: u64,
    failing: Failing,
    calls: u64,
    pub flushed: usize,
}

impl Paper {
    pub fn new(alloc: Global, most: usize, failing: Failing, fails_at: u64) -> Self {
        Paper {
            text: Vec::new(alloc),
            most,
            fails_at,
            failing,
            calls: 0,
            flushed: 0,
        }
    }

    // A sheet that takes all.
    pub fn blank(alloc: Global) -> Self {
        Paper::new(alloc, usize::MAX, Failing::Error, 0)
    }
}

impl Write for Paper {
    fn write(&mut self, buf: &[u8]) -> io::Result<usize> {
        self.calls = self.calls.saturating_add(1);
        if self.calls == self.fails_at {
            return match self.failing {
                Failing::Error => Err(io::Error::from(ErrorKind::BrokenPipe)),
                Failing::TakesNothing => Ok(0),
            };
        }
        let count = self.most.min(buf.len());
        self.text.extend_from_slice(&buf[..count])?;
        Ok(count)
    }

    fn flush(&mut self) -> io::Result<()> {
        self.flushed = self.text.len();
        Ok(())
    }
}

// A book with these limits for a client of UDP and TCP, in this order, and IPv4, whose answers leave held
// endpoints out. It is boxed, so that whoever owns it lets go of one value at each exit.
pub fn new_book(alloc: Global, limits: &Limits) -> Result<Box<Book>, Fail>
    requires records { limits.now.records ≤ 1048576 }
    requires entries { limits.now.entries ≤ 65536 }
    requires journal { limits.now.journal ≤ 1048576 }
    requires holds { limits.now.holds ≤ 4096 }
    requires first { 1 ≤ limits.now.next }
    requires last { limits.now.next ≤ 2 ^ 52 }
    requires page { limits.now.first ≤ 2 ^ 52 - 2 ^ 20 }
{
    let preference = Vec::from_slice(alloc, &[Transport::Udp, Transport::Tcp])?;
    let abilities = Abilities::new(preference, Families::V4)?;
    Ok(Box::new(alloc, Book::new(alloc, abilities, limits, Held::Out))?)
}

// Appends so many times the same octets.
pub fn push_times(text: &mut Vec<u8>, octets: &[u8], count: usize) -> Result<(), AllocError> {
    for _ in 0..count {
        text.extend_from_slice(octets)?;
    }
    Ok(())
}

// Whether a new session at a book writes this for an input.
pub fn has_replies_at(
    alloc: Global,
    book: &mut Book,
    input: &[u8],
    want: &[u8],
) -> Result<bool, Fail> {
    let mut reader = Tapped::new(input);
    let mut writer = Tapped::new(Vec::new(alloc));
    let served = serve(alloc, &mut reader, &mut writer, book);
    drop(reader);
    let text = writer.into_inner();
    let is_so = text.as_slice() == want;
    drop(text);
    served?;
    Ok(is_so)
}

// What serving a session, or playing a script, came to: how it ended, the number of reads, which stream
// failed, the text that was written, and how many octets of it were flushed.
#[derive(Drop)]
pub struct Served {
    pub ended: Result<Ended, ServeFault>,
    pub reads: u64,
    pub read_failed: bool,
    pub write_failed: bool,
    pub text: Vec<u8>,
    pub flushed: usize,
}

impl Served {
    pub fn new(
        ended: Result<Ended, ServeFault>,
        reader: Tapped<Pieces<'_>>,
        writer: Tapped<Paper>,
    ) -> Self {
        let (reads, read_failed, write_failed) = (reader.reads(), reader.failed(), writer.failed());
        drop(reader);
        let paper = writer.into_inner();
        Served {
            ended,
            reads,
            read_failed,
            write_failed,
            flushed: paper.flushed,
            text: paper.text,
        }
    }
}

// Serves a new session at a book, with at most `limit` reads.
pub fn serve_at(
    alloc: Global,
    reader: Pieces<'_>,
    writer: Paper,
    book: &mut Book,
    limit: u64,
) -> Served {
    let mut reader = Tapped::new(reader);
    let mut writer = Tapped::new(writer);
    let ended = serve_within(alloc, &mut reader, &mut writer, book, limit);
    Served::new(ended, reader, writer)
}
