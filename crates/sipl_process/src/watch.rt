use sipl_listen::Stop;
use std::alloc::Global;
use std::io::{ErrorKind, Input, Read};
use std::sync::{Arc, Condvar, Mutex, Wait};

// How many octets of standard input are read at a time.
const CHUNK: usize = 1_024;

/// What the thread of a program waits for that reads standard input to its end: for which daemon it is to.
/// No scope may have that thread, since nothing ends a read of standard input, and the process is not to
/// wait for it.
#[derive(Drop)]
pub struct InputWatch {
    stop: Mutex<Option<Arc<Stop, Global>>>,
    begun: Condvar,
}

impl InputWatch {
    /// Standard input is not to be read yet.
    pub fn new() -> InputWatch {
        InputWatch {
            stop: Mutex::new(None),
            begun: Condvar::new(),
        }
    }

    /// Has the thread read standard input, and ask for this stop at its end.
    pub fn begin<R: Wait>(&self, rt: &R, stop: Arc<Stop, Global>) {
        drop(self.stop.lock(rt).replace(stop));
        self.begun.notify_all();
    }

    /// Waits until it is to, reads standard input to its end, and asks for the stop.
    pub fn run<R: Input + Wait>(&self, rt: &R) {
        if let Some(stop) = self.begun_stop(rt) {
            read_to_end(rt);
            stop.ask(rt);
        }
    }

    // Waits for the stop that is to be asked for.
    fn begun_stop<R: Wait>(&self, rt: &R) -> Option<Arc<Stop, Global>> {
        let mut stop = self
            .begun
            .wait_while(rt, self.stop.lock(rt), |stop| stop.is_none());
        stop.take()
    }
}

// Reads standard input to its end, or up to a fault.
fn read_to_end<R: Input>(rt: &R) {
    let mut reader = rt.reader();
    let mut chunk = [0; CHUNK];
    for _ in 0..u64::MAX {
        match reader.read(&mut chunk) {
            Ok(0) => break,
            Ok(_) => {}
            Err(error) if error.kind() == ErrorKind::Interrupted => {}
            Err(_) => break,
        }
    }
}
