//! What the arguments of the process ask for, the settings that they give, and the status with which it ends.
use crate::fault::Fault;
use crate::host::Host;
use crate::paths::expect_settings;
use sipl_log::{Level, Log};
use sipl_observed::tell_start;
use sipl_settings::{Call, DaemonSettings, Given, Unread, read_arguments, read_given};
use std::env;
use std::process::ExitCode;
use std::rt::Env;

// The status of a call with wrong arguments.
const WRONG_ARGUMENTS: u8 = 2;

/// What the arguments of the process ask for. Where that is no call, the status with which it ends: they ask
/// for a text, which is printed, or are wrong, and standard error has the reason.
pub fn read_call<R, H>(rt: &R, host: &H, log: &Log) -> Result<Call, ExitCode>
where
    R: Env + Print + Eprint + AllocGlobal,
    H: Host,
{
    match read_arguments(rt) {
        Ok(call) => Ok(call),
        Err(unread) => {
            let status = unread_status(rt, host, log, &unread);
            drop(unread);
            Err(status)
        }
    }
}

fn unread_status<R, H>(rt: &R, host: &H, log: &Log, unread: &Unread) -> ExitCode
where
    R: Print + Eprint + AllocGlobal,
    H: Host,
{
    if unread.is_wrong() {
        unread.report(rt);
        return ExitCode::from(WRONG_ARGUMENTS);
    }
    let outcome = match unread {
        Unread::Memory => Err(Fault::Memory),
        unread => match unread.print(rt) {
            Ok(()) => Ok(true),
            Err(error) => Err(Fault::Stream(error)),
        },
    };
    status_of(rt, host, log, outcome)
}

/// The settings that are given. With them the log begins, which has them first.
pub fn begin<R, H>(rt: &R, host: &H, log: &Log, given: Given) -> Result<Box<DaemonSettings>, Fault>
where
    R: Env + AllocGlobal,
    H: Host,
{
    if let Given::File(path) = &given {
        expect_settings(host, rt.alloc(), path.as_str())?;
    }
    let (text, settings) = read_given(host, rt.alloc(), given)?;
    // systemd has its journal read standard error.
    let is_journal = env::var(rt, "JOURNAL_STREAM").is_ok();
    log.begin(host, settings.log, is_journal);
    let told = tell_start(host, rt.alloc(), log, text.as_str());
    drop(text);
    match told {
        Ok(()) => Ok(settings),
        Err(_) => {
            drop(settings);
            Err(Fault::Memory)
        }
    }
}

/// Checks the settings of a file, and prints that they are right.
pub fn check_settings<R, H>(rt: &R, host: &H, path: String) -> Result<(), Fault>
where
    R: Print + AllocGlobal,
    H: Host,
{
    expect_settings(host, rt.alloc(), path.as_str())?;
    let settings = read_given(host, rt.alloc(), Given::File(path))?;
    drop(settings);
    println!(rt; "ok")?;
    Ok(())
}

/// The status of what was done. A fault is written on standard error, after the lines of the log that are
/// there.
pub fn status_of<R, H>(rt: &R, host: &H, log: &Log, outcome: Result<bool, Fault>) -> ExitCode
where
    R: Eprint + AllocGlobal,
    H: Host,
{
    match outcome {
        Ok(true) => ExitCode::SUCCESS,
        Ok(false) => ExitCode::FAILURE,
        Err(fault) => {
            report(rt, host, log, &fault);
            drop(fault);
            ExitCode::FAILURE
        }
    }
}

fn report<R, H>(rt: &R, host: &H, log: &Log, fault: &Fault)
where
    R: Eprint + AllocGlobal,
    H: Host,
{
    let mut text = String::new(rt.alloc());
    let is_written = fault.write(&mut text).is_ok();
    if !is_written || !log.push_message(host, Level::Error, text.as_str()) {
        let _ = eprintln!(rt; "siplocd: out of memory");
    }
}
