//! A client's stream as the writer of its session.
ghost use Rattle.std.specs.Io.{WritesAtMost};

use crate::daemon::Daemon;
use sipl_input::Course;
use sipl_listen::Stream;
use sipl_observed::Cause;
use sipl_settings::OnFailure;
use std::io;
use std::io::{ErrorKind, Write};
use std::sync::Wait;
use std::sync::atomic::Ordering;
use std::time::{Clock, Duration, Instant};

// For how many milliseconds a client may take no reply, and then not all replies to one read.
const WRITE: u64 = 30_000;

// The most octets of one write. A Unix socket waits for so long for each 36 KB or so.
const PIECE: usize = 32_768;

/// A client's stream as a writer: a reply is sent once the changes before it are in their file.
#[derive(Drop)]
pub(crate) struct Output<'a, R> {
    rt: &'a R,
    daemon: &'a Daemon,
    stream: &'a Stream,
    course: &'a Course,
    // Since when the client is given the replies to one read, of which it has not taken all.
    since: Option<Instant>,
}

impl<'a, R: Wait + Clock> Output<'a, R> {
    /// The writer of a session.
    pub(crate) fn new(
        rt: &'a R,
        daemon: &'a Daemon,
        stream: &'a Stream,
        course: &'a Course,
    ) -> Self {
        Output {
            rt,
            daemon,
            stream,
            course,
            since: None,
        }
    }

    // Waits until the session's changes are in their file. Where they can't be, the session ends without its
    // reply.
    fn sync(&self) -> io::Result<()> {
        let Some(changes) = &self.daemon.source.changes else {
            return Ok(());
        };
        let synced = changes.sync(self.rt, self.course.place.load(Ordering::SeqCst));
        if let Err(error) = &synced {
            self.daemon.observed.tell_unsynced(self.rt, error);
            if self.daemon.on_failure == OnFailure::End {
                self.daemon.stop.ask(self.rt);
            }
        }
        synced
    }

    // Writes a piece of the octets. How many octets were taken.
    fn write_piece(&self, buf: &[u8]) -> io::Result<usize>
        ensures { WritesAtMost result buf.now }
    {
        let mut stream = self.stream;
        match stream.write(&buf[..buf.len().min(PIECE)]) {
            Ok(count) => Ok(count),
            Err(error) => {
                self.course.end_if_late(Cause::Slow, &error);
                Err(error)
            }
        }
    }

    // Gives a client up that takes the replies to one read too slowly: its receipts wait for it, and all
    // pages for them. Where the clock of the machine can't be read it has time.
    fn give_up_if_late(&self, since: Instant) -> io::Result<()> {
        match since.elapsed(self.rt) {
            Ok(passed) if passed >= Duration::from_millis(WRITE) => {
                self.course.end(Cause::Slow);
                Err(io::Error::from(ErrorKind::TimedOut))
            }
            _ => Ok(()),
        }
    }
}

/// Sets how long the client of a session that begins may send nothing, or take no reply.
pub(crate) fn set_patience(daemon: &Daemon, stream: &Stream) -> io::Result<()> {
    let idle = daemon.idle.map(Duration::from_secs);
    stream.set_timeouts(idle, Some(Duration::from_millis(WRITE)))
}

impl<R: Wait + Clock> Write for Output<'_, R> {
    fn write(&mut self, buf: &[u8]) -> io::Result<usize> {
        self.sync()?;
        let since = match self.since {
            Some(since) => Some(since),
            None => Instant::now(self.rt).ok(),
        };
        let count = self.write_piece(buf)?;
        self.since = if count < buf.len() { since } else { None };
        match self.since {
            Some(since) => self.give_up_if_late(since)?,
            None => self.course.write_batch(self.rt),
        }
        Ok(count)
    }

    fn flush(&mut self) -> io::Result<()> {
        Ok(())
    }
}
