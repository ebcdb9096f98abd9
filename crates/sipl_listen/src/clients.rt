ghost use Rattle.std.specs.Prelude.{◌≡◌, ◌<◌, IfSome, vec_len};

use crate::stream::Stream;
use std::alloc::{AllocError, Global};
use std::net::Shutdown;
use std::sync::{Arc, Condvar, CondvarTimeouts, Mutex, Wait};
use std::time::{Clock, Duration};

// What a place that is free has in place of the number of a line.
const FREE: u64 = u64::MAX;

// The places of the clients: each is free, or has the stream of one, and the number of its last line among
// the lines of all that were heard.
#[derive(Drop)]
struct Places {
    streams: Vec<Option<Arc<Stream, Global>>>,
    last_lines: Vec<u64>,
    next: u64,
    taken: u64,
}

impl Places {
    // Takes a free place, if there is one.
    fn enter(&mut self, stream: Arc<Stream, Global>) -> Option<usize>
        ensures place { IfSome result (λ place. place < vec_len self.old.streams) }
        ensures as_many { vec_len self.new.streams ≡ vec_len self.old.streams }
    {
        let place = self.streams.iter().position(|it| it.is_none())?;
        self.streams[place] = Some(stream);
        self.taken = self.taken.saturating_add(1);
        self.hear(place);
        Some(place)
    }

    // The next line is of the client at a place.
    fn hear(&mut self, place: usize)
        ensures as_many { vec_len self.new.streams ≡ vec_len self.old.streams }
    {
        if let Some(last) = self.last_lines.get_mut(place) {
            *last = self.next;
            self.next = self.next.saturating_add(1);
        }
    }

    // Frees a place.
    fn leave(&mut self, place: usize)
        ensures as_many { vec_len self.new.streams ≡ vec_len self.old.streams }
    {
        if let Some(it) = self.streams.get_mut(place) {
            *it = None;
            self.taken = self.taken.saturating_sub(1);
        }
        if let Some(last) = self.last_lines.get_mut(place) {
            *last = FREE;
        }
    }

    fn is_full(&self) -> bool {
        self.taken >= self.streams.len() as u64
    }

    // Ends the reads and writes of the client that was not heard for longest.
    fn shut_silent(&self) {
        let (mut silent, mut least) = (0usize, FREE);
        for (place, last) in self.last_lines.iter().enumerate() {
            if *last < least {
                (silent, least) = (place, *last);
            }
        }
        if let Some(Some(stream)) = self.streams.get(silent) {
            let _ = stream.shutdown(Shutdown::Both);
        }
    }

    // Ends the reads or the writes of all clients.
    fn shut(&self, how: Shutdown) {
        for stream in self.streams.iter().flatten() {
            let _ = stream.shutdown(how);
        }
    }
}

/// The clients that are served at a time, up to a maximum.
#[derive(Drop)]
pub struct Clients {
    places: Mutex<Places>,
    left: Condvar,
}

/// A client that has a place.
#[derive(Drop)]
pub struct Client {
    pub stream: Arc<Stream, Global>,
    pub place: usize,
}

impl Clients {
    /// Places for `max` clients.
    pub fn new(alloc: Global, max: usize) -> Result<Clients, AllocError> {
        let mut streams = Vec::with_capacity(alloc, max)?;
        for _ in 0..max {
            streams.push(None)?;
        }
        let last_lines = vec![in alloc; FREE; max]?;
        Ok(Clients {
            places: Mutex::new(Places {
                streams,
                last_lines,
                next: 0,
                taken: 0,
            }),
            left: Condvar::new(),
        })
    }

    /// Gives a place to a client, if one is free.
    pub fn enter<R: Wait>(&self, rt: &R, stream: &Arc<Stream, Global>) -> Option<Client> {
        let kept = Arc::try_clone(stream).ok()?;
        let stream = Arc::try_clone(stream).ok()?;
        let place = self.places.lock(rt).enter(kept)?;
        Some(Client { stream, place })
    }

    /// A client has sent a line: of all it was heard last.
    pub fn hear<R: Wait>(&self, rt: &R, place: usize) {
        self.places.lock(rt).hear(place);
    }

    /// Ends the client that was not heard for longest, and waits until a place is free, at most for
    /// `longest`.
    pub fn make_room<R: Wait + Clock>(&self, rt: &R, longest: Duration) {
        let places = self.places.lock(rt);
        if places.is_full() {
            places.shut_silent();
        }
        let _places = self
            .left
            .wait_timeout_while(rt, places, longest, |places| places.is_full());
    }

    /// Frees the place of a client.
    pub fn leave<R: Wait>(&self, rt: &R, place: usize) {
        self.places.lock(rt).leave(place);
        self.left.notify_all();
    }

    /// How many there may be at a time.
    pub fn max<R: Wait>(&self, rt: &R) -> u64 {
        self.places.lock(rt).streams.len() as u64
    }

    /// How many there are.
    pub fn count<R: Wait>(&self, rt: &R) -> u64 {
        self.places.lock(rt).taken
    }

    /// Ends all sessions: each after the line that it is in, and one whose client takes no replies after
    /// this time.
    pub fn end<R: Wait + Clock>(&self, rt: &R, grace: Duration) {
        self.places.lock(rt).shut(Shutdown::Read);
        let places = self.places.lock(rt);
        let (places, _) = self
            .left
            .wait_timeout_while(rt, places, grace, |places| places.taken > 0);
        places.shut(Shutdown::Both);
    }
}
