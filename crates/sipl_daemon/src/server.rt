//! The threads of a daemon.
use crate::control::serve_control;
use crate::daemon::Daemon;
use crate::journal::claimer::claim_pages;
use crate::journal::claims::Claims;
use crate::journal::mender::mend_changes;
use crate::scrapes::{accept_scrapers, end_scrapes};
use crate::session::serve_client;
use sipl_listen::{
    Accepted, Client, ConnectionFault, Listener, next_client, next_client_making_room,
};
use sipl_log::Level;
use sipl_observed::Cause;
use sipl_process::{Host, Listeners};
use sipl_service::OpenGate;
use sipl_settings::OnFailure;
use std::thread;
use std::time::Duration;

// How often the clock is moved while an endpoint is held, in milliseconds.
const TICK: u64 = 100;

// How long a session may write its last replies, in milliseconds.
const GRACE: u64 = 1_000;

/// Runs the threads that serve the clients of all listeners and control lines, and those beside them, until
/// the daemon is to stop. Then ends the sessions.
pub(crate) fn run_threads<H: Host>(
    host: &H,
    daemon: &Daemon,
    claims: &mut Claims,
    listeners: &Listeners,
    workers: u64,
) {
    thread::scope(thread::scope_env(), host, |scope| {
        let _ = scope.spawn(move || daemon.source.service.run_workers(host, workers, &OpenGate));
        if scope
            .spawn(move || claim_pages(host, daemon, claims))
            .is_err()
        {
            daemon.lack_thread(host);
        }
        if scope.spawn(move || run_clock(host, daemon)).is_err() {
            daemon.lack_thread(host);
        }
        if daemon.on_failure == OnFailure::Read
            && scope.spawn(move || mend_changes(host, daemon)).is_err()
        {
            daemon.lack_thread(host);
        }
        for listener in &listeners.clients {
            if scope
                .spawn(move || accept_clients(host, daemon, listener, false))
                .is_err()
            {
                daemon.lack_thread(host);
            }
        }
        for listener in &listeners.find {
            if scope
                .spawn(move || accept_clients(host, daemon, listener, true))
                .is_err()
            {
                daemon.lack_thread(host);
            }
        }
        if let Some(listener) = &listeners.control {
            if scope
                .spawn(move || accept_control(host, daemon, listener))
                .is_err()
            {
                daemon.lack_thread(host);
            }
        }
        if let Some(listener) = &listeners.metrics {
            if scope
                .spawn(move || accept_scrapers(host, daemon, listener))
                .is_err()
            {
                daemon.lack_thread(host);
            }
        }
        daemon.stop.wait(host);
        daemon.observed.tell(host, Level::Info, "stopping");
        end_all(host, daemon, listeners);
    });
    daemon.end_moves(host);
}

// Ends all accepts and all sessions: each after the line that it is in.
fn end_all<H: Host>(host: &H, daemon: &Daemon, listeners: &Listeners) {
    listeners.close();
    daemon.clients.end(host, Duration::from_millis(GRACE));
    daemon.controls.end(host, Duration::from_millis(0));
    if let Some(listener) = &listeners.metrics {
        end_scrapes(host, daemon, listener);
    }
    daemon.source.service.stop(host);
}

// Moves the clock until the daemon is to stop.
fn run_clock<H: Host>(host: &H, daemon: &Daemon) {
    for _ in host.forever() {
        if daemon.stop.is_asked() {
            break;
        }
        daemon.move_clock(host);
        daemon.stop.pause(host, Duration::from_millis(TICK));
    }
}

// Accepts clients until the daemon is to stop, and serves each in a thread: whether they may only ask depends
// on the listener. Returns when their sessions have ended.
fn accept_clients<H: Host>(host: &H, daemon: &Daemon, listener: &Listener, asks_only: bool) {
    thread::scope(thread::scope_env(), host, |scope| {
        for _ in host.forever() {
            if daemon.stop.is_asked() {
                break;
            }
            let Some(client) = accept_client(host, daemon, listener) else {
                continue;
            };
            let place = client.place;
            if scope
                .spawn(move || serve_client(host, daemon, client, asks_only))
                .is_err()
            {
                daemon.clients.leave(host, place);
                daemon
                    .observed
                    .refuse(host, Cause::Threads, listener.address());
            }
        }
    })
}

// Accepts a client, if there is a place for it. One that is refused is told of, and so is an accept that
// failed.
fn accept_client<H: Host>(host: &H, daemon: &Daemon, listener: &Listener) -> Option<Client> {
    let (alloc, clients) = (daemon.alloc, &daemon.clients);
    match next_client(host, alloc, &daemon.stop, listener, clients) {
        Accepted::Client(client) => Some(client),
        Accepted::Refused(ConnectionFault::Busy) => {
            daemon
                .observed
                .refuse(host, Cause::Busy, listener.address());
            None
        }
        Accepted::Failed(error) => {
            if !daemon.stop.is_asked() {
                daemon
                    .observed
                    .tell_unaccepted(host, listener.address(), &error);
            }
            None
        }
    }
}

// Accepts control connections until the daemon is to stop, and serves each in a thread. Returns when they
// have ended.
fn accept_control<H: Host>(host: &H, daemon: &Daemon, listener: &Listener) {
    thread::scope(thread::scope_env(), host, |scope| {
        let mut is_told = false;
        for _ in host.forever() {
            if daemon.stop.is_asked() {
                break;
            }
            let Some(client) = accept_operator(host, daemon, listener, &mut is_told) else {
                continue;
            };
            let place = client.place;
            if scope
                .spawn(move || serve_control(host, daemon, client))
                .is_err()
            {
                daemon.controls.leave(host, place);
            }
        }
    })
}

// Accepts a control connection, if there is a place for it. Of accepts that fail in a row the first is told
// of.
fn accept_operator<H: Host>(
    host: &H,
    daemon: &Daemon,
    listener: &Listener,
    is_told: &mut bool,
) -> Option<Client> {
    let (alloc, controls) = (daemon.alloc, &daemon.controls);
    match next_client_making_room(host, alloc, &daemon.stop, listener, controls) {
        Accepted::Client(client) => {
            *is_told = false;
            Some(client)
        }
        Accepted::Refused(_) => None,
        Accepted::Failed(error) => {
            if !*is_told && !daemon.stop.is_asked() {
                *is_told = true;
                daemon
                    .observed
                    .tell_failed_accept(host, listener.address(), &error);
            }
            None
        }
    }
}
