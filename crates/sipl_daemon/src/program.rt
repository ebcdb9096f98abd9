//! The program: its arguments, its settings, and the daemon from its start to its end.
use crate::check::check_files;
use crate::daemon::Daemon;
use crate::fault::state_fault;
use crate::journal::claims::Claims;
use crate::server::run_threads;
use crate::session::desk::SessionDesk;
use sipl_listen::{Stop, take_lock, take_lock_there};
use sipl_log::{Level, Log};
use sipl_process::{
    Fault, Host, InputWatch, Listeners, begin, check_settings, expect_state, open_archive,
    open_closed, print_replay, read_call, status_of, tell,
};
use sipl_settings::{Call, DaemonSettings, Given, OnFailure};
use sipl_state::{Restored, StateFault, real_path, restore};
use std::alloc::Global;
use std::fs::File;
use std::io::ErrorKind;
use std::process::ExitCode;
use std::rt::{Env, Files};
use std::sync::Arc;
use std::sync::atomic::AtomicU64;
use std::time::{Duration, Instant};
use std::{io, mem};

// How long the end waits for the log to be written, in milliseconds.
const LAST_LINES: u64 = 3_000;

/// Does what the arguments of a process ask for. The status is 0, 1 after a fault, or where a line that
/// was told is refused, or 2 where the arguments are wrong; for a fault and for 2 standard error has the
/// reason. The thread that writes the log is the caller's.
pub fn start<R, H>(rt: &R, host: &H, input: &InputWatch, log: &Arc<Log, Global>) -> ExitCode
where
    R: Env + Print + Eprint + AllocGlobal,
    H: Host + Eprint,
{
    let opened = open_closed(host, rt.alloc());
    let status = start_over(rt, host, input, log);
    drop(opened);
    status
}

// Does what the arguments ask for, over standard streams that are open.
fn start_over<R, H>(rt: &R, host: &H, input: &InputWatch, log: &Arc<Log, Global>) -> ExitCode
where
    R: Env + Print + Eprint + AllocGlobal,
    H: Host + Eprint,
{
    let status = match read_call(rt, host, log) {
        Ok(call) => status_of(rt, host, log, perform(rt, host, input, log, call)),
        Err(status) => status,
    };
    log.end(host, Duration::from_millis(LAST_LINES));
    status
}

// Does what the arguments ask for. Returns whether a line that was told is not refused.
fn perform<R, H>(
    rt: &R,
    host: &H,
    input: &InputWatch,
    log: &Arc<Log, Global>,
    call: Call,
) -> Result<bool, Fault>
where
    R: Env + Print + AllocGlobal,
    H: Host,
{
    match call {
        Call::Check(path) => check_settings(rt, host, path)?,
        Call::Tell(address, line) => return tell(rt, host, address.as_str(), line.as_str()),
        Call::Replay(folder) => print_replay(rt, host, folder.as_str())?,
        Call::CheckState(path) => check_files(rt, host, log, path.as_str())?,
        Call::Serve(given) => serve(rt, host, input, log, given)?,
    }
    Ok(true)
}

// Serves with the settings that are given until the daemon is to stop, claims all pages, and prints how many
// events there were.
fn serve<R, H>(
    rt: &R,
    host: &H,
    input: &InputWatch,
    log: &Arc<Log, Global>,
    given: Given,
) -> Result<(), Fault>
where
    R: Env + Print + AllocGlobal,
    H: Host,
{
    let settings = begin(rt, host, log, given)?;
    let events = run_daemon(rt, host, input, &settings, log)?;
    log.push(host, log.line(Level::Info, "end").number("events", events));
    println!(rt; "closed {events}")?;
    Ok(())
}

// Runs a daemon with these settings until it is to stop, and claims all pages. Returns how many events there
// were.
fn run_daemon<R, H>(
    rt: &R,
    host: &H,
    input: &InputWatch,
    settings: &DaemonSettings,
    log: &Arc<Log, Global>,
) -> Result<u64, Fault>
where
    R: Print + AllocGlobal,
    H: Host,
{
    let stop = Arc::new(rt.alloc(), Stop::new())?;
    let mut daemon = Daemon::new(host, rt.alloc(), settings, &stop, log)?;
    let mut claims = Claims::new(rt.alloc());
    match run_until_stop(rt, host, input, settings, &mut daemon, &mut claims, stop) {
        Ok(()) => close(host, daemon, claims),
        Err(fault) => {
            drop_pages(host, &daemon);
            drop(daemon);
            drop(claims);
            Err(fault)
        }
    }
}

// Removes the pages of a start that does not go on from the archive, if there is one.
fn drop_pages<H: Host>(host: &H, daemon: &Daemon) {
    if let Some(archive) = &daemon.archive {
        archive.remove_run(host);
    }
}

// Claims all pages of a daemon. Returns how many events there were. One that ended for want of a thread has
// failed.
fn close<H: Host>(host: &H, daemon: Box<Daemon>, claims: Claims) -> Result<u64, Fault> {
    let mut claims = claims;
    let lacks_thread = daemon.lacks_thread();
    let events = Box::into_inner(daemon).close(host, &mut claims);
    drop(claims);
    let events = events?;
    if lacks_thread {
        return Err(Fault::Stream(io::Error::new(ErrorKind::WouldBlock, "no thread can be made")));
    }
    Ok(events)
}

// Goes on from the state, if there is one, listens at the addresses of the settings, and runs the daemon's
// threads until it is to stop.
fn run_until_stop<R, H>(
    rt: &R,
    host: &H,
    input: &InputWatch,
    settings: &DaemonSettings,
    daemon: &mut Daemon,
    claims: &mut Claims,
    stop: Arc<Stop, Global>,
) -> Result<(), Fault>
where
    R: Print + AllocGlobal,
    H: Host,
{
    daemon.tell_fewer_clients(host, settings.clients);
    go_on(rt, host, settings, daemon, claims)?;
    let listeners = Listeners::open(rt, host, settings, &daemon.observed)?;
    if settings.ends_with_input {
        input.begin(host, stop);
    }
    run_threads(
        host,
        daemon,
        claims,
        &listeners,
        settings.service.workers as u64,
    );
    listeners.remove(host);
    Ok(())
}

// Opens the archive and the state of the settings, if they have them, and goes on from the state.
fn go_on<R, H>(
    rt: &R,
    host: &H,
    settings: &DaemonSettings,
    daemon: &mut Daemon,
    claims: &mut Claims,
) -> Result<(), Fault>
where
    R: AllocGlobal,
    H: Host,
{
    let archive = open_archive(host, rt.alloc(), settings)?;
    drop(mem::replace(&mut daemon.archive, archive));
    if let Some(path) = &settings.state {
        let real = real_path(host, rt.alloc(), path.as_str());
        expect_state(host, rt.alloc(), path.as_str(), real)?;
        let begun = Instant::now(host).ok();
        let Restored { changes, found } = open_state(
            host,
            rt.alloc(),
            settings,
            daemon,
            claims,
            path.as_str(),
        )?;
        daemon.put_changes(changes);
        if let Some(octet) = found.torn {
            daemon.observed.tell_torn(host, path.as_str(), octet)?;
        }
        daemon.restart_time(host)?;
        daemon.tell_read(host, &found, begun);
    }
    Ok(())
}

// The changes after the state of a path, from which the daemon goes on. All addresses are tried before it is
// read: pages of what is read go to the archive, which a start that can't listen would leave there, each time
// that it is tried.
fn open_state<H: Host>(
    host: &H,
    alloc: Global,
    settings: &DaemonSettings,
    daemon: &Daemon,
    claims: &mut Claims,
    path: &str,
) -> Result<Restored, Fault> {
    let goes_on = settings.on_failure == OnFailure::Read;
    let (real, lock) = match lock_state(host, alloc, path, goes_on) {
        Ok(locked) => locked,
        Err(error) => return Err(Fault::State(String::from_str(alloc, path)?, error)),
    };
    Listeners::check(host, alloc, settings)?;
    match restore_at(host, alloc, daemon, claims, real.as_str(), lock, goes_on) {
        Ok(restored) => Ok(restored),
        Err(fault) => Err(state_fault(alloc, path, fault)?),
    }
}

// Takes the lock of a state. Returns where it is, too: a symbolic link has the lock of the file to which it
// leads.
fn lock_state<R: Files<File = File>>(
    rt: &R,
    alloc: Global,
    path: &str,
    goes_on: bool,
) -> io::Result<(String, File)> {
    let path = real_path(rt, alloc, path)?;
    let at = format!(in alloc; "{path}.lock")?;
    let lock = match take_lock(rt, at.as_str()) {
        Err(error) if goes_on && error.kind() == ErrorKind::ReadOnlyFilesystem => {
            take_lock_there(rt, at.as_str())?
        }
        lock => lock?,
    };
    Ok((path, lock))
}

// Reads the state of a path, of which this file has the lock.
fn restore_at<H: Host>(
    host: &H,
    alloc: Global,
    daemon: &Daemon,
    claims: &mut Claims,
    path: &str,
    lock: File,
    goes_on: bool,
) -> Result<Restored, StateFault> {
    let place = AtomicU64::new(0);
    let mut desk = SessionDesk::restoring(host, daemon, &place, claims);
    let restored = restore(host, alloc, path, lock, goes_on, &mut desk);
    desk.end();
    restored
}
