//! A client's stream as the reader of its session.
use crate::course::Course;
use crate::http::{MAX_METHOD_LEN, begins_request};
use sipl_listen::{Stop, Stream};
use sipl_observed::{Cause, Observed};
use std::alloc::Global;
use std::io;
use std::io::{ErrorKind, Read};
use std::time::Clock;

/// A client's stream as a reader, which fails once the daemon is to stop, where the stream begins as a
/// request of HTTP does, and where it ends: so a line whose end has not come is not carried out, and no part
/// of a zone is loaded.
#[derive(Drop)]
pub struct Input<'a, R> {
    rt: &'a R,
    stream: &'a Stream,
    course: &'a Course,
    stop: &'a Stop,
    observed: &'a Observed,
    // The first octets that were read.
    first: Vec<u8>,
}

impl<'a, R: Clock> Input<'a, R> {
    /// The reader of a session.
    pub fn new(
        rt: &'a R,
        alloc: Global,
        stream: &'a Stream,
        course: &'a Course,
        stop: &'a Stop,
        observed: &'a Observed,
    ) -> Self {
        Input {
            rt,
            stream,
            course,
            stop,
            observed,
            first: Vec::new(alloc),
        }
    }

    fn check(&self) -> io::Result<()> {
        if self.stop.is_asked() {
            return Err(io::Error::from(ErrorKind::ConnectionAborted));
        }
        Ok(())
    }

    // Checks that the input does not begin as a request of HTTP does, when it goes on with these octets.
    fn check_first(&mut self, octets: &[u8]) -> io::Result<()> {
        let space = MAX_METHOD_LEN.saturating_sub(self.first.len());
        if space == 0 {
            return Ok(());
        }
        let piece = octets.get(..space.min(octets.len())).unwrap_or(&[]);
        self.first.extend_from_slice(piece)?;
        if begins_request(&self.first) {
            self.course.end(Cause::Http);
            return Err(io::Error::from(ErrorKind::InvalidData));
        }
        Ok(())
    }
}

impl<R: Clock> Read for Input<'_, R> {
    fn read(&mut self, buf: &mut [u8]) -> io::Result<usize> {
        // A client that came while the others were ended is ended here.
        self.check()?;
        self.course.end_batch(self.observed);
        let mut stream = self.stream;
        let count = match stream.read(buf) {
            Ok(count) => count,
            Err(error) => {
                self.course.end_if_late(Cause::Idle, &error);
                return Err(error);
            }
        };
        self.course.begin_batch(self.rt, self.observed);
        self.check()?;
        if count == 0 {
            return Err(io::Error::from(ErrorKind::UnexpectedEof));
        }
        self.check_first(buf.get(..count).unwrap_or(&[]))?;
        Ok(count)
    }
}
