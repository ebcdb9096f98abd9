// Gates that count, stop, edit or wait.
use crate::values::{Scene, record};
use sipl_book::Edit;
use sipl_records::Record;
use sipl_service::{Gate, Go, Pass, Service, Who};
use std::process::Abort;
use std::sync::atomic::{AtomicU64, Ordering};
use std::sync::{Mutex, Wait};
use std::thread;
use std::time::{Clock, Duration};

/// Counts the runs of callers, and those of the first worker, that come to their read of a number, where
/// they go on or stop.
#[derive(Drop)]
pub(crate) struct Counting {
    at: u64,
    go: Go,
    pub callers: AtomicU64,
    pub first_worker: AtomicU64,
}

impl Counting {
    pub(crate) fn new(at: u64, go: Go) -> Self {
        Counting {
            at,
            go,
            callers: AtomicU64::new(0),
            first_worker: AtomicU64::new(0),
        }
    }
}

impl Gate for Counting {
    fn turn<R: Wait>(&self, _rt: &R, who: Who, reads: u64) -> Go {
        if reads != self.at {
            return Go::On;
        }
        match who {
            Who::Caller => self.callers.fetch_add(1, Ordering::SeqCst),
            Who::Repair(0) => self.first_worker.fetch_add(1, Ordering::SeqCst),
            Who::Repair(_) => 0,
        };
        self.go
    }
}

/// Adds a record as the first run comes to its read of a number, which goes on or stops. Later runs go on.
#[derive(Drop)]
pub(crate) struct Editing<'a> {
    service: &'a Service,
    pass: Mutex<Pass>,
    record: Mutex<Option<Record>>,
    at: u64,
    go: Go,
    pub later: AtomicU64,
}

impl<'a> Editing<'a> {
    pub(crate) fn new<R: Abort>(scene: &Scene<'a, R>, text: &[u8], at: u64, go: Go) -> Self {
        Editing {
            service: scene.service,
            pass: Mutex::new(scene.service.pass()),
            record: Mutex::new(Some(record(scene.rt, scene.alloc, text))),
            at,
            go,
            later: AtomicU64::new(0),
        }
    }

    // Adds the record that is left, if one is. Whether one was.
    fn adds<R: Wait>(&self, rt: &R) -> bool {
        match self.taken(rt) {
            Some(record) => {
                let mut pass = self.pass.lock(rt);
                let _ = self.service.edit(rt, &mut pass, Edit::Add(record));
                true
            }
            None => false,
        }
    }

    fn taken<R: Wait>(&self, rt: &R) -> Option<Record> {
        self.record.lock(rt).take()
    }
}

impl Gate for Editing<'_> {
    fn turn<R: Wait>(&self, rt: &R, _who: Who, reads: u64) -> Go {
        if reads != self.at {
            return Go::On;
        }
        if self.adds(rt) {
            return self.go;
        }
        self.later.store(1, Ordering::SeqCst);
        Go::On
    }
}

/// Waits until a number is not 0, for ten seconds at most. Whether it is.
pub(crate) fn comes(clock: &impl Clock, number: &AtomicU64) -> bool {
    for _ in 0..1000 {
        if number.load(Ordering::SeqCst) != 0 {
            return true;
        }
        rest(clock);
    }
    false
}

/// A turn of waiting: 10 ms.
pub(crate) fn rest(clock: &impl Clock) {
    thread::sleep(clock, Duration::from_millis(10));
}

/// Holds a run after its first read until another lookup is answered; stops it where none is.
#[derive(Drop)]
pub(crate) struct Waiting<'a, C> {
    pub clock: &'a C,
    pub is_held: AtomicU64,
    pub is_answered: AtomicU64,
}

impl<C: Clock> Gate for Waiting<'_, C> {
    fn turn<R: Wait>(&self, _rt: &R, _who: Who, reads: u64) -> Go {
        if reads > 1 {
            return Go::On;
        }
        self.is_held.store(1, Ordering::SeqCst);
        if comes(self.clock, &self.is_answered) {
            Go::On
        } else {
            Go::Stop
        }
    }
}
