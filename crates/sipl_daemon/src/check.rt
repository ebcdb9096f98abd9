//! A check of the files of a state, without a daemon that goes on from them.
use crate::daemon::Daemon;
use crate::fault::state_fault;
use crate::journal::claims::Claims;
use crate::session::desk::SessionDesk;
use sipl_listen::Stop;
use sipl_log::Log;
use sipl_process::{Fault, Host, expect_state};
use sipl_settings::DaemonSettings;
use sipl_state::{FoundFiles, StateFault, check_state, real_path};
use std::alloc::Global;
use std::io;
use std::io::ErrorKind;
use std::sync::Arc;
use std::sync::atomic::AtomicU64;

/// Reads the files of a state as a start does, and prints what they have. Writes no file.
pub(crate) fn check_files<R, H>(
    rt: &R,
    host: &H,
    log: &Arc<Log, Global>,
    path: &str,
) -> Result<(), Fault>
where
    R: Print + AllocGlobal,
    H: Host,
{
    let alloc = rt.alloc();
    let real = real_path(host, alloc, path);
    expect_state(host, alloc, path, real)?;
    let settings = Box::new(alloc, DaemonSettings::from_toml(alloc, "")?)?;
    let stop = Arc::new(alloc, Stop::new())?;
    let daemon = Daemon::new(host, alloc, &settings, &stop, log)?;
    let mut claims = Claims::new(alloc);
    let checked = check_with(rt, host, &daemon, &mut claims, path);
    drop(claims);
    drop(daemon);
    checked
}

// Makes what the files have at a daemon that has nothing, and prints it.
fn check_with<R, H>(
    rt: &R,
    host: &H,
    daemon: &Daemon,
    claims: &mut Claims,
    path: &str,
) -> Result<(), Fault>
where
    R: Print + AllocGlobal,
    H: Host,
{
    let found = match check_at(host, rt.alloc(), daemon, claims, path) {
        Ok(found) => found,
        Err(fault) => return Err(state_fault(rt.alloc(), path, fault)?),
    };
    if let Some(octet) = found.torn {
        daemon.observed.tell_torn(host, path, octet)?;
    }
    print_found(rt, host, daemon, &found)
}

fn check_at<H: Host>(
    host: &H,
    alloc: Global,
    daemon: &Daemon,
    claims: &mut Claims,
    path: &str,
) -> Result<FoundFiles, StateFault> {
    let path = real_path(host, alloc, path)?;
    let place = AtomicU64::new(0);
    let mut desk = SessionDesk::restoring(host, daemon, &place, claims);
    let found = check_state(host, alloc, path.as_str(), &mut desk);
    desk.end();
    match found {
        Ok(found) if !found.are_there => {
            Err(StateFault::File(io::Error::from(ErrorKind::NotFound)))
        }
        found => found,
    }
}

fn print_found<R: Print, H: Host>(
    rt: &R,
    host: &H,
    daemon: &Daemon,
    found: &FoundFiles,
) -> Result<(), Fault> {
    let tally = daemon.source.tally.lock(host);
    let format = if found.are_first { 1 } else { 2 };
    println!(rt; "format {format}")?;
    println!(rt; "zones {}", tally.zones().len())?;
    println!(rt; "records {}", tally.records())?;
    println!(rt; "held {}", daemon.source.service.held_endpoints(host))?;
    println!(rt; "commits {}", found.commits)?;
    println!(rt; "ok state")?;
    Ok(())
}
