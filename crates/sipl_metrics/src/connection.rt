//! The connection of a request, which has ten seconds since it has begun.
use crate::request::{Asked, read_request};
use sipl_listen::Stream;
use std::alloc::Global;
use std::io;
use std::io::{ErrorKind, Read, Write};
use std::net::Shutdown;
use std::time::{Clock, Duration, Instant};

// How long a connection may last, in milliseconds.
const PATIENCE: u64 = 10_000;

// How many octets are read at a time.
const CHUNK: usize = 1_024;

// How many reads a head may take, and how many writes a reply.
const MAX_TURNS: u32 = 1 << 14;

/// Reads what is left of a request that was refused. Without that the system may end the connection before
/// the reply was read.
pub fn read_rest<R: Clock>(rt: &R, stream: &Stream, begun: Instant) -> io::Result<()> {
    stream.shutdown(Shutdown::Write)?;
    let mut chunk = [0; CHUNK];
    for _ in 0..MAX_TURNS {
        read_some(rt, stream, begun, &mut chunk)?;
    }
    Ok(())
}

/// Reads a request's head, and what it asks for. An end before that of the head is an error.
pub fn read_head<R: Clock>(
    rt: &R,
    alloc: Global,
    stream: &Stream,
    begun: Instant,
) -> io::Result<Asked> {
    let mut head = Vec::new(alloc);
    let mut chunk = [0; CHUNK];
    for _ in 0..MAX_TURNS {
        let count = read_some(rt, stream, begun, &mut chunk)?;
        head.extend_from_slice(chunk.get(..count).unwrap_or(&[]))?;
        if let Some(asked) = read_request(&head) {
            return Ok(asked);
        }
    }
    Err(io::Error::from(ErrorKind::TimedOut))
}

// Reads at least one octet.
fn read_some<R: Clock>(
    rt: &R,
    stream: &Stream,
    begun: Instant,
    chunk: &mut [u8],
) -> io::Result<usize> {
    set_rest(rt, stream, begun)?;
    let mut reader = stream;
    match reader.read(chunk)? {
        0 => Err(io::Error::from(ErrorKind::UnexpectedEof)),
        count => Ok(count),
    }
}

/// Writes a reply.
pub fn write_all<R: Clock>(
    rt: &R,
    stream: &Stream,
    begun: Instant,
    octets: &[u8],
) -> io::Result<()> {
    let mut written = 0usize;
    for _ in 0..MAX_TURNS {
        let rest = octets.get(written..).unwrap_or(&[]);
        if rest.is_empty() {
            return Ok(());
        }
        set_rest(rt, stream, begun)?;
        let mut writer = stream;
        written = written.saturating_add(writer.write(rest)?);
    }
    Err(io::Error::from(ErrorKind::TimedOut))
}

// Lets the next read or write wait for what is left of the time.
fn set_rest<R: Clock>(rt: &R, stream: &Stream, begun: Instant) -> io::Result<()> {
    let left = Duration::from_millis(PATIENCE).saturating_sub(begun.elapsed(rt)?);
    if left.is_zero() {
        return Err(io::Error::from(ErrorKind::TimedOut));
    }
    stream.set_timeouts(Some(left), Some(left))
}
