ghost use Rattle.std.specs.Io.{ReadsAtMost, WritesAtMost};

use std::io;
use std::io::{ErrorKind, Read, Write};
use std::net::{Shutdown, TcpStream};
use std::os::unix::net::UnixStream;
use std::time::Duration;

// How often a call is made again that was interrupted, one time after another. A stop of the process, or a
// debugger, interrupts one that waits with a time limit.
const MAX_INTERRUPTS: u32 = 1 << 20;

/// A connection, over TCP or a Unix socket. One thread reads and writes it by `&`, and another may end
/// these calls by `shutdown`.
#[derive(Drop)]
pub enum Stream {
    /// Over TCP.
    Tcp(TcpStream),
    /// Over a Unix socket.
    Unix(UnixStream),
}

impl Stream {
    /// Sets how long a read or a write may wait: one that waits longer fails with `WouldBlock`. Over TCP each
    /// write is sent at once from then on.
    pub fn set_timeouts(&self, read: Option<Duration>, write: Option<Duration>) -> io::Result<()> {
        match self {
            Stream::Tcp(stream) => {
                // Without this a short reply may wait until the client has acknowledged the one before.
                stream.set_nodelay(true)?;
                stream.set_read_timeout(read)?;
                stream.set_write_timeout(write)
            }
            Stream::Unix(stream) => {
                stream.set_read_timeout(read)?;
                stream.set_write_timeout(write)
            }
        }
    }

    /// Ends reads or writes, those that wait too.
    pub fn shutdown(&self, how: Shutdown) -> io::Result<()> {
        match self {
            Stream::Tcp(stream) => stream.shutdown(how),
            Stream::Unix(stream) => stream.shutdown(how),
        }
    }
}

impl Read for &Stream {
    fn read(&mut self, buf: &mut [u8]) -> io::Result<usize> {
        let stream: &Stream = *self;
        match stream {
            Stream::Tcp(stream) => read_from(stream, buf),
            Stream::Unix(stream) => read_from(stream, buf),
        }
    }
}

impl Write for &Stream {
    fn write(&mut self, buf: &[u8]) -> io::Result<usize> {
        let stream: &Stream = *self;
        match stream {
            Stream::Tcp(stream) => write_to(stream, buf),
            Stream::Unix(stream) => write_to(stream, buf),
        }
    }

    fn flush(&mut self) -> io::Result<()> {
        Ok(())
    }
}

fn read_from<R: Read + Drop>(mut stream: R, buf: &mut [u8]) -> io::Result<usize>
    ensures { ReadsAtMost result buf.new }
{
    for _ in 0..MAX_INTERRUPTS {
        match stream.read(buf) {
            Err(error) if error.kind() == ErrorKind::Interrupted => {}
            outcome => return outcome,
        }
    }
    Err(io::Error::from(ErrorKind::Interrupted))
}

fn write_to<W: Write + Drop>(mut stream: W, buf: &[u8]) -> io::Result<usize>
    ensures { WritesAtMost result buf.now }
{
    for _ in 0..MAX_INTERRUPTS {
        match stream.write(buf) {
            Err(error) if error.kind() == ErrorKind::Interrupted => {}
            outcome => return outcome,
        }
    }
    Err(io::Error::from(ErrorKind::Interrupted))
}
