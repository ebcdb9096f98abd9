//! The program: its settings, and what it does on its standard streams.
ghost use Rattle.std.specs.Prelude.{IfOk};
ghost use Rattle.sipl_lines.specs.Settings.{IsWithinLimits};

use crate::arguments::{Call, Given, Unread, read_arguments};
use crate::serve::{ServerFault, serve_connections};
use sipl_book::Book;
use sipl_config::{bad_value, service_keys, service_row, text_fault, unknown_key};
use sipl_lines::{
    Ended, ServeFault, Settings, SettingsFault, Tapped, check_zone, play_script, serve_book,
};
use sipl_names::Name;
use std::alloc::{AllocError, Global};
use std::io::Input;
use std::net::{Net, TcpListener, TcpStream};
use std::process::ExitCode;
use std::rt::{Env, Files};
use std::sync::Wait;
use std::thread::Threads;
use std::{fs, io};

// The status of a call with wrong arguments.
const WRONG_ARGUMENTS: u8 = 2;

const USAGE: &str =
    "usage: siploc run [SETTINGS] | check APEX | world [SETTINGS] | serve [SETTINGS]";

// Why a call failed.
#[derive(Drop)]
enum Fault {
    // The settings of a text are refused.
    Settings(SettingsFault),
    // The file of the settings can't be read.
    File(String, io::Error),
    // The settings of a file are refused: where, and why.
    InFile(String),
    // A stream failed, or an allocation.
    Serve(ServeFault),
    // It cannot listen, or a connection was not accepted.
    Listen,
    // What closing a service is refused for: its code.
    Close(&'static str),
}

impl From<ServeFault> for Fault {
    fn from(fault: ServeFault) -> Fault {
        Fault::Serve(fault)
    }
}

impl From<SettingsFault> for Fault {
    fn from(fault: SettingsFault) -> Fault {
        match fault {
            SettingsFault::Memory => Fault::Serve(ServeFault::Memory),
            fault => Fault::Settings(fault),
        }
    }
}

impl From<ServerFault> for Fault {
    fn from(fault: ServerFault) -> Fault {
        match fault {
            ServerFault::Listen => Fault::Listen,
            ServerFault::Close(fault) => Fault::Close(fault.code()),
            ServerFault::Claim(fault) => Fault::Close(fault.code()),
            ServerFault::Memory => Fault::Serve(ServeFault::Memory),
        }
    }
}

/// Does what the arguments of a process ask for, with the threads and the network of a host. The status
/// is 0, 1 after a fault or for a text that is not a zone, or 2 where the arguments are wrong; for a fault
/// and for 2 standard error has the reason.
pub fn start<R, H>(rt: &R, host: &H) -> ExitCode
where
    R: Env + Files + Input + Print + Eprint + AllocGlobal,
    H: Net<Listener = TcpListener, Stream = TcpStream> + Threads + Wait + Sync,
{
    let outcome = match read_arguments(rt) {
        Ok(call) => perform(rt, host, call),
        Err(Unread::Memory) => Err(Fault::Serve(ServeFault::Memory)),
        Err(Unread::Told(error)) if !error.use_stderr() => print_told(rt, &error),
        Err(unread) => {
            report_wrong(rt, &unread);
            return ExitCode::from(WRONG_ARGUMENTS);
        }
    };
    match outcome {
        Ok(true) => ExitCode::SUCCESS,
        Ok(false) => ExitCode::FAILURE,
        Err(fault) => {
            report(rt, &fault);
            ExitCode::FAILURE
        }
    }
}

// Prints the usage or the version, which the arguments ask for.
fn print_told<R: Print + Eprint>(rt: &R, error: &clap::Error) -> Result<bool, Fault> {
    match error.print(rt) {
        Ok(()) => Ok(true),
        Err(_) => Err(Fault::Serve(ServeFault::Write)),
    }
}

// Writes on standard error what is wrong with the arguments, where there is more to say than the usage, and
// that.
fn report_wrong<R: Print + Eprint>(rt: &R, unread: &Unread) {
    if let Unread::Told(error) = unread {
        let _ = error.print(rt);
    }
    let _ = eprintln!(rt; "{USAGE}");
}

// Writes a fault on standard error: its code, and the key where it is of one of the settings.
fn report<R: Eprint>(rt: &R, fault: &Fault) {
    let _ = match fault {
        Fault::Serve(fault) => eprintln!(rt; "fault {}", fault.code()),
        Fault::File(path, error) => eprintln!(rt; "fault settings {path}: {error}"),
        Fault::InFile(told) => eprintln!(rt; "{told}"),
        Fault::Listen => eprintln!(rt; "fault listen"),
        Fault::Close(code) => eprintln!(rt; "fault close {code}"),
        Fault::Settings(fault) => match fault {
            SettingsFault::UnknownKey(key) | SettingsFault::BadValue(key) => {
                eprintln!(rt; "fault settings {} {key}", fault.code())
            }
            _ => eprintln!(rt; "fault settings {}", fault.code()),
        },
    };
}

// Does what the arguments ask for. Returns whether a zone that was checked is one.
fn perform<R, H>(rt: &R, host: &H, call: Call) -> Result<bool, Fault>
where
    R: Files + Input + Print + AllocGlobal,
    H: Net<Listener = TcpListener, Stream = TcpStream> + Threads + Wait + Sync,
{
    match call {
        Call::Run(given) => run(rt, given),
        Call::World(given) => play(rt, given),
        Call::Serve(given) => serve(rt, host, given),
        Call::Check(apex) => Ok(check_streams(rt, &apex)?),
    }
}

// The settings that are given, as a text or as a file. What is wrong in a file is told with its line.
fn read_given<R: Files + AllocGlobal>(rt: &R, given: Given) -> Result<Settings, Fault>
    ensures { IfOk result (λ settings. IsWithinLimits settings) }
{
    match given {
        Given::Text(text) => Ok(Settings::from_toml(rt.alloc(), text.as_str())?),
        Given::File(path) => read_file(rt, path),
    }
}

// The settings of a file.
fn read_file<R: Files + AllocGlobal>(rt: &R, path: String) -> Result<Settings, Fault>
    ensures { IfOk result (λ settings. IsWithinLimits settings) }
{
    let alloc = rt.alloc();
    let text = match fs::read_to_string(rt, path.as_str()) {
        Ok(text) => text,
        Err(error) => return Err(Fault::File(path, error)),
    };
    match Settings::from_toml(alloc, text.as_str()) {
        Ok(settings) => Ok(settings),
        Err(SettingsFault::Memory) => Err(Fault::Serve(ServeFault::Memory)),
        Err(fault) => match told(alloc, path.as_str(), text.as_str(), &fault) {
            Ok(told) => Err(Fault::InFile(told)),
            Err(_) => Err(Fault::Serve(ServeFault::Memory)),
        },
    }
}

// What is said of a fault in the text of a file: where it is, and what is allowed there.
fn told(
    alloc: Global,
    path: &str,
    text: &str,
    fault: &SettingsFault,
) -> Result<String, AllocError> {
    match fault {
        SettingsFault::UnknownKey(key) => {
            let keys = service_keys(alloc)?;
            unknown_key(alloc, path, text, key.as_str(), keys.as_str())
        }
        SettingsFault::BadValue(key) => {
            bad_value(alloc, path, text, key.as_str(), service_row(key.as_str()))
        }
        _ => text_fault(alloc, path, text),
    }
}

// Serves a session with the settings that are given.
fn run<R: Files + Input + Print + AllocGlobal>(rt: &R, given: Given) -> Result<bool, Fault> {
    let settings = read_given(rt, given)?;
    serve_new_book(rt, settings)?;
    Ok(true)
}

// Plays a script with the settings that are given.
fn play<R: Files + Input + Print + AllocGlobal>(rt: &R, given: Given) -> Result<bool, Fault> {
    let settings = read_given(rt, given)?;
    play_streams(rt, settings)?;
    Ok(true)
}

// Serves sessions over TCP with the settings that are given, and prints how many events there were.
fn serve<R, H>(rt: &R, host: &H, given: Given) -> Result<bool, Fault>
where
    R: Files + Print + AllocGlobal,
    H: Net<Listener = TcpListener, Stream = TcpStream> + Threads + Wait + Sync,
{
    let settings = read_given(rt, given)?;
    let events = serve_connections(rt.alloc(), host, settings)?;
    match println!(rt; "closed {events}") {
        Ok(()) => Ok(true),
        Err(_) => Err(Fault::Serve(ServeFault::Write)),
    }
}

// Serves a session over a new book on standard input and output.
fn serve_new_book<R: Input + Print + AllocGlobal>(
    rt: &R,
    settings: Settings,
) -> Result<Ended, ServeFault>
    requires { IsWithinLimits settings }
{
    let limits = settings.limits();
    let mut book = Book::new(rt.alloc(), settings.abilities, &limits, settings.held);
    let ended = serve_streams(rt, &mut book);
    drop(book);
    ended
}

// Serves a session at a book on standard input and output.
fn serve_streams<R: Input + Print + AllocGlobal>(
    rt: &R,
    book: &mut Book,
) -> Result<Ended, ServeFault> {
    let mut reader = Tapped::new(rt.reader());
    let mut writer = Tapped::new(io::writer(rt));
    serve_book(rt.alloc(), &mut reader, &mut writer, book)
}

// Plays a script on standard input and output.
fn play_streams<R: Input + Print + AllocGlobal>(
    rt: &R,
    settings: Settings,
) -> Result<Ended, ServeFault>
    requires { IsWithinLimits settings }
{
    let mut reader = Tapped::new(rt.reader());
    let mut writer = Tapped::new(io::writer(rt));
    play_script(rt.alloc(), &mut reader, &mut writer, settings)
}

// Checks the zone on standard input, and reports on standard output. Returns whether it is a zone.
fn check_streams<R: Input + Print + AllocGlobal>(rt: &R, apex: &Name) -> Result<bool, ServeFault> {
    let mut reader = Tapped::new(rt.reader());
    let mut writer = Tapped::new(io::writer(rt));
    check_zone(rt.alloc(), &mut reader, &mut writer, apex)
}
