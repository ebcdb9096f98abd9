//! A locator of SIP servers (RFC 3263) that a proxy runs for months: sessions over TCP and Unix sockets.
#![tactic(auto)]

use sipl_daemon::start;
use sipl_log::Log;
use sipl_process::InputWatch;
use std::alloc::{AllocError, Global};
use std::fs::File;
use std::marker::PhantomData;
use std::net::{TcpListener, TcpStream};
use std::process::ExitCode;
use std::rt::Files;
use std::sync::Arc;
use std::thread;

// The types that the host's handle stands for. The proof of `main` knows those alone that its values have.
type HostTypes = PhantomData<(TcpListener, TcpStream, File, <HostRuntime as Files>::Dir)>;

fn main(rt: HostRuntime) -> ExitCode {
    match Shared::new(rt.alloc()) {
        Ok(shared) => {
            let Shared {
                input,
                watched,
                log,
                written,
            } = shared;
            let _watching = thread::spawn(&rt, move || watched.run(&rt));
            let writing = thread::spawn(&rt, move || written.run(&rt));
            if writing.is_ok() {
                log.expect_writer(&rt);
            }
            let _types: HostTypes = PhantomData;
            start(&rt, &rt, &input, &log)
        }
        Err(AllocError) => {
            let _ = eprintln!(rt; "siplocd: out of memory");
            ExitCode::FAILURE
        }
    }
}

// What the process shares with its threads: one reads standard input, and one writes the log.
#[derive(Drop)]
struct Shared {
    input: Arc<InputWatch, Global>,
    watched: Arc<InputWatch, Global>,
    log: Arc<Log, Global>,
    written: Arc<Log, Global>,
}

impl Shared {
    fn new(alloc: Global) -> Result<Shared, AllocError> {
        let input = Arc::new(alloc, InputWatch::new())?;
        let log = Arc::new(alloc, Log::new(alloc))?;
        let watched = Arc::try_clone(&input)?;
        let written = Arc::try_clone(&log)?;
        Ok(Shared {
            input,
            watched,
            log,
            written,
        })
    }
}
