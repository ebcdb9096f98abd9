//! How clients are accepted.
use crate::clients::{Client, Clients};
use crate::fault::ConnectionFault;
use crate::listener::Listener;
use crate::stop::Stop;
use crate::stream::Stream;
use std::alloc::Global;
use std::io;
use std::io::{ErrorKind, Write};
use std::sync::{Arc, Wait};
use std::time::{Clock, Duration};

/// The result of an accept.
#[derive(Drop)]
pub enum Accepted {
    /// A client, which has a place.
    Client(Client),
    /// There was no place for the client, which was sent the code of the fault.
    Refused(ConnectionFault),
    /// The accept failed, or an allocation.
    Failed(io::Error),
}

// How long it waits after an accept that failed, in milliseconds.
const REFUSED: u64 = 50;

// How long a place is waited for that is to be freed, in milliseconds.
const LEAVING: u64 = 1_000;

/// Accepts a client as `next_client` does. Where there is no place, the client is ended that was not heard
/// for longest, to make one.
pub fn next_client_making_room<R: Wait + Clock>(
    rt: &R,
    alloc: Global,
    stop: &Stop,
    listener: &Listener,
    clients: &Clients,
) -> Accepted {
    let stream = match next_stream(rt, stop, listener) {
        Ok(stream) => stream,
        Err(error) => return Accepted::Failed(error),
    };
    clients.make_room(rt, Duration::from_millis(LEAVING));
    enter(rt, alloc, stream, clients)
}

/// Accepts a client, and gives it a place. One for which there is no place is sent the code of that fault.
/// After an accept that failed it waits, at most until the stop.
pub fn next_client<R: Wait + Clock>(
    rt: &R,
    alloc: Global,
    stop: &Stop,
    listener: &Listener,
    clients: &Clients,
) -> Accepted {
    match next_stream(rt, stop, listener) {
        Ok(stream) => enter(rt, alloc, stream, clients),
        Err(error) => Accepted::Failed(error),
    }
}

// Gives a place to a client. One for which there is none is sent the code of that fault.
fn enter<R: Wait>(rt: &R, alloc: Global, stream: Stream, clients: &Clients) -> Accepted {
    let Ok(stream) = Arc::new(alloc, stream) else {
        return Accepted::Failed(io::Error::from(ErrorKind::OutOfMemory));
    };
    match clients.enter(rt, &stream) {
        Some(client) => Accepted::Client(client),
        None => {
            refuse(alloc, &stream);
            Accepted::Refused(ConnectionFault::Busy)
        }
    }
}

/// Accepts a connection. After an accept that failed it waits, at most until the stop.
pub fn next_stream<R: Wait + Clock>(
    rt: &R,
    stop: &Stop,
    listener: &Listener,
) -> io::Result<Stream> {
    let accepted = listener.accept();
    if accepted.is_err() {
        stop.pause(rt, Duration::from_millis(REFUSED));
    }
    accepted
}

// Sends a client the code of the fault that there is no place.
fn refuse(alloc: Global, stream: &Stream) {
    if let Ok(text) = format!(in alloc; "err {}\n", ConnectionFault::Busy.code()) {
        let mut output = stream;
        let _ = output.write_all(text.as_bytes());
    }
}
