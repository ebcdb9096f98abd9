//! A control line, sent to a daemon.
use crate::fault::Fault;
use crate::host::Host;
use memchr::memrchr;
use sipl_listen::{Address, Stream};
use std::alloc::{AllocError, Global};
use std::io;
use std::io::{ErrorKind, Read, Write};
use std::net::{Shutdown, TcpStream};
use std::os::unix::net::UnixStream;
use std::time::{Clock, Duration, Instant};

// For how many milliseconds a peer may send nothing, and how many it has in all.
const SILENCE: u64 = 30_000;

const LONGEST: u64 = 600_000;

// How many octets may come: a million zones have fewer.
const MAX_LEN: u64 = 1 << 30;

// How many octets are read at a time.
const CHUNK: usize = 16_384;

// How many octets of a line are looked at.
const HEAD: usize = 8;

/// Sends a line to the control address of a daemon, and prints what comes back until the connection ends.
/// Returns whether the line is accepted. What comes back has to be the reply of a control address, and to
/// end.
pub fn tell<R: Print + AllocGlobal, H: Host>(
    rt: &R,
    host: &H,
    address: &str,
    line: &str,
) -> Result<bool, Fault> {
    let alloc = rt.alloc();
    let begun = Instant::now(host)?;
    let stream = at(alloc, address, connect(host, alloc, address))?;
    let told = tell_at(rt, host, begun, address, &stream, line);
    drop(stream);
    told
}

// What was done with the peer at an address, or its fault.
fn at<T: Drop>(alloc: Global, address: &str, outcome: io::Result<T>) -> Result<T, Fault> {
    match outcome {
        Ok(value) => Ok(value),
        Err(error) => Err(Fault::Tell(String::from_str(alloc, address)?, error)),
    }
}

fn connect<H: Host>(host: &H, alloc: Global, address: &str) -> io::Result<Stream> {
    match Address::from_text(alloc, address)? {
        Some(Address::Tcp(address)) => {
            let patience = Duration::from_millis(SILENCE);
            Ok(Stream::Tcp(host.connect_timeout(address, patience)?))
        }
        Some(Address::Unix(path)) => Ok(Stream::Unix(UnixStream::connect(host, path.as_str())?)),
        None => Err(io::Error::new(
            ErrorKind::InvalidInput,
            "not an address as 127.0.0.1:5098 or unix:PATH",
        )),
    }
}

// Sends a line over a connection that has begun at a time, and prints what comes back.
fn tell_at<R: Print + AllocGlobal, H: Host>(
    rt: &R,
    host: &H,
    begun: Instant,
    address: &str,
    stream: &Stream,
    line: &str,
) -> Result<bool, Fault> {
    let alloc = rt.alloc();
    at(alloc, address, send(host, alloc, begun, stream, line))?;
    let mut last = Vec::new(alloc);
    print_reply(rt, host, begun, address, stream, &mut last)?;
    at(alloc, address, is_accepted(&last))
}

fn send<H: Host>(
    host: &H,
    alloc: Global,
    begun: Instant,
    stream: &Stream,
    line: &str,
) -> io::Result<()> {
    let text = format!(in alloc; "{line}\n")?;
    set_patience(host, begun, stream, false)?;
    let mut writer = stream;
    late(writer.write_all(text.as_bytes()))?;
    stream.shutdown(Shutdown::Write)
}

// Prints what comes back until the connection ends. Leaves how its last line begins, and the end of that.
fn print_reply<R: Print + AllocGlobal, H: Host>(
    rt: &R,
    host: &H,
    begun: Instant,
    address: &str,
    stream: &Stream,
    last: &mut Vec<u8>,
) -> Result<(), Fault> {
    let mut chunk = [0; CHUNK];
    let mut left = MAX_LEN;
    for _ in 0..MAX_LEN {
        let count = at(
            rt.alloc(),
            address,
            read_some(host, begun, stream, last, &mut chunk),
        )?;
        let octets = chunk.get(..count).unwrap_or(&[]);
        if octets.is_empty() {
            return Ok(());
        }
        rt.write_all(octets)?;
        keep_last(last, octets)?;
        left = left.saturating_sub(octets.len() as u64);
        if left == 0 {
            break;
        }
    }
    let fault = io::Error::new(ErrorKind::FileTooLarge, "a reply without end");
    Err(Fault::Tell(String::from_str(rt.alloc(), address)?, fault))
}

// Reads some octets after a line, of which this was kept.
fn read_some<H: Host>(
    host: &H,
    begun: Instant,
    stream: &Stream,
    last: &[u8],
    chunk: &mut [u8],
) -> io::Result<usize> {
    set_patience(host, begun, stream, last == b"ok stop\n".as_slice())?;
    let mut reader = stream;
    late(reader.read(chunk))
}

// Lets the next read or write wait until the time for all is over; a peer that is not about to end, no longer
// than one may be silent.
fn set_patience<R: Clock>(rt: &R, begun: Instant, stream: &Stream, ends: bool) -> io::Result<()> {
    let left = Duration::from_millis(LONGEST).saturating_sub(begun.elapsed(rt)?);
    let patience = if ends {
        left
    } else {
        left.min(Duration::from_millis(SILENCE))
    };
    if patience.is_zero() {
        return Err(io::Error::from(ErrorKind::TimedOut));
    }
    stream.set_timeouts(Some(patience), Some(patience))
}

// What became of a read or a write: one that waited for too long is late.
fn late<T: Drop>(outcome: io::Result<T>) -> io::Result<T> {
    match outcome {
        Err(error) if error.kind() == ErrorKind::WouldBlock => {
            Err(io::Error::from(ErrorKind::TimedOut))
        }
        outcome => outcome,
    }
}

// Goes on with octets after a line that is kept. Of the last line its beginning is kept, and its end.
fn keep_last(last: &mut Vec<u8>, octets: &[u8]) -> Result<(), AllocError> {
    let line = last_line(octets);
    if line.len() < octets.len() || last.ends_with(b"\n") {
        last.clear();
    }
    let count = HEAD.saturating_sub(last.len()).min(line.len());
    last.extend_from_slice(line.get(..count).unwrap_or(&[]))?;
    if octets.ends_with(b"\n") && !last.ends_with(b"\n") {
        last.push(b'\n')?;
    }
    Ok(())
}

// The last line of some octets, with its end where that is there.
fn last_line(octets: &[u8]) -> &[u8] {
    let text = octets.strip_suffix(b"\n").unwrap_or(octets);
    match memrchr(b'\n', text) {
        Some(place) => octets.get(place.saturating_add(1)..).unwrap_or(&[]),
        None => octets,
    }
}

// Whether a reply whose last line was kept accepts the line that was told.
fn is_accepted(last: &[u8]) -> io::Result<bool> {
    if last.is_empty() {
        return Err(io::Error::new(ErrorKind::UnexpectedEof, "no reply"));
    }
    if !last.ends_with(b"\n") {
        return Err(io::Error::new(ErrorKind::UnexpectedEof, "the reply ends within a line"));
    }
    if last.starts_with(b"ok ") {
        Ok(true)
    } else if last.starts_with(b"err ") {
        Ok(false)
    } else {
        Err(io::Error::new(ErrorKind::InvalidData, "not the reply of a control address"))
    }
}
