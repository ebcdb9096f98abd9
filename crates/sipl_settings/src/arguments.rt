//! The arguments of the program.
use clap::error::ErrorKind;
use clap::{Arg, ArgMatches, Command, Error};
use sipl_config::VERSION;
use std::alloc::{AllocError, Global};
use std::rt::Env;
use std::{env, io};

const ABOUT: &str =
    "A locator of SIP servers (RFC 3263): serves sessions until it is told to stop.";

const USAGE: &str = "Usage: siplocd [OPTIONS] [SETTINGS]\n       siplocd <COMMAND>";

const AFTER: &str = "Settings and their defaults: siplocd.toml(5). Without any, the defaults.";

/// What the arguments ask for.
#[derive(Drop)]
pub enum Call {
    /// To serve with these settings.
    Serve(Given),
    /// To check the settings of the file of this path.
    Check(String),
    /// To send to this control address this line.
    Tell(String, String),
    /// To check the pages of the archive of this path.
    Replay(String),
    /// To read the files of the state of this path.
    CheckState(String),
}

/// Where the settings are.
#[derive(Drop)]
pub enum Given {
    /// They are this text.
    Text(String),
    /// They are in the file of this path.
    File(String),
}

/// Why the arguments ask for nothing that is done.
#[derive(Drop)]
pub enum Unread {
    /// One is not UTF-8.
    NotText,
    /// They are wrong, or ask for the usage or the version: what is to be printed.
    Told(Error),
    /// An allocation failed.
    Memory,
}

impl Unread {
    /// Whether the arguments are wrong.
    pub fn is_wrong(&self) -> bool {
        match self {
            Unread::NotText => true,
            Unread::Told(error) => error.use_stderr(),
            Unread::Memory => false,
        }
    }

    /// Prints what the arguments ask for: the usage or the version.
    pub fn print<R: Print + Eprint>(&self, rt: &R) -> io::Result<()> {
        match self {
            Unread::Told(error) => error.print(rt),
            _ => Ok(()),
        }
    }

    /// Writes on standard error what is wrong with the arguments, and the usage.
    pub fn report<R: Print + Eprint + AllocGlobal>(&self, rt: &R) {
        match self {
            Unread::NotText => {
                let _ = eprintln!(rt; "error: an argument is not UTF-8\n\n{USAGE}");
            }
            Unread::Told(error) => report_error(rt, error),
            Unread::Memory => {}
        }
    }
}

// Writes an error on standard error, and the usage, if it does not have that.
fn report_error<R: Print + Eprint + AllocGlobal>(rt: &R, error: &Error) {
    let _ = error.print(rt);
    if let Ok(text) = format!(in rt.alloc(); "{error}") {
        if !text.as_str().contains("Usage:") {
            let _ = eprintln!(rt; "{USAGE}");
        }
    }
}

impl From<io::Error> for Unread {
    fn from(error: io::Error) -> Unread {
        match error.kind() {
            io::ErrorKind::OutOfMemory => Unread::Memory,
            _ => Unread::NotText,
        }
    }
}

impl From<AllocError> for Unread {
    fn from(_: AllocError) -> Unread {
        Unread::Memory
    }
}

impl From<Error> for Unread {
    fn from(error: Error) -> Unread {
        match error.kind() {
            ErrorKind::OutOfMemory => Unread::Memory,
            _ => Unread::Told(error),
        }
    }
}

/// What the arguments of a process ask for.
pub fn read_arguments<R: Env + AllocGlobal>(rt: &R) -> Result<Call, Unread> {
    let alloc = rt.alloc();
    let mut words = Vec::new(alloc);
    for word in env::args(rt)? {
        if words.push(word).is_err() {
            return Err(Unread::Memory);
        }
    }
    let matches = command(alloc)?.try_get_matches_from(words.as_slice())?;
    Ok(call_of(alloc, &matches)?)
}

// What the words of a call that is right ask for.
fn call_of(alloc: Global, matches: &ArgMatches<'_>) -> Result<Call, AllocError> {
    match matches.subcommand() {
        Some(("check", words)) => Ok(Call::Check(owned(alloc, words, "FILE")?)),
        Some(("tell", words)) => Ok(Call::Tell(
            owned(alloc, words, "ADDRESS")?,
            owned(alloc, words, "LINE")?,
        )),
        Some(("check-state", words)) => Ok(Call::CheckState(owned(alloc, words, "FILE")?)),
        Some((_, words)) => Ok(Call::Replay(owned(alloc, words, "FOLDER")?)),
        None if matches.contains_id("FILE") => {
            Ok(Call::Serve(Given::File(owned(alloc, matches, "FILE")?)))
        }
        None => Ok(Call::Serve(Given::Text(owned(alloc, matches, "SETTINGS")?))),
    }
}

// The value of an argument; empty where it is not given.
fn owned(alloc: Global, words: &ArgMatches<'_>, name: &str) -> Result<String, AllocError> {
    String::from_str(alloc, words.get_str(name).unwrap_or(""))
}

// The arguments of the program, and its commands.
fn command<'a>(alloc: Global) -> Result<Command<'a>, AllocError> {
    let config = config(alloc).conflicts_with("SETTINGS")?;
    let program = Command::new(alloc, "siplocd")
        .version(VERSION)
        .about(ABOUT)
        .after_help(AFTER)
        .args_conflicts_with_subcommands(true)
        .disable_help_subcommand(true)
        .arg(config)?
        .bin_name("siplocd")?
        .arg(text(alloc))?;
    let program = with_command(program, check(alloc))?;
    let program = with_command(program, tell(alloc))?;
    let program = with_command(program, replay(alloc))?;
    with_command(program, check_state(alloc))
}

// The program with a command more, if that could be made.
fn with_command<'a>(
    program: Command<'a>,
    made: Result<Command<'a>, AllocError>,
) -> Result<Command<'a>, AllocError> {
    program.subcommand(made?)
}

fn config<'a>(alloc: Global) -> Arg<'a> {
    Arg::new(alloc, "FILE")
        .long("config")
        .value_name("FILE")
        .help("Reads the settings from this file")
}

fn text<'a>(alloc: Global) -> Arg<'a> {
    Arg::new(alloc, "SETTINGS").help("The text of the settings, a TOML document")
}

fn check<'a>(alloc: Global) -> Result<Command<'a>, AllocError> {
    Command::new(alloc, "check")
        .about("Checks the settings of a file: prints `ok`, or what is wrong at which line")
        .arg(config(alloc).required(true))
}

fn tell<'a>(alloc: Global) -> Result<Command<'a>, AllocError> {
    Command::new(alloc, "tell")
        .about("Sends a line to the daemon's control address, and prints the reply")
        .arg(required(alloc, "ADDRESS", "The daemon's `control`"))?
        .arg(line(alloc))
}

fn line<'a>(alloc: Global) -> Arg<'a> {
    required(
        alloc,
        "LINE",
        "Such as `stats`, `zones`, `holds`, `now`, `page` or `stop`",
    )
    .allow_hyphen_values(true)
}

fn replay<'a>(alloc: Global) -> Result<Command<'a>, AllocError> {
    Command::new(alloc, "replay")
        .about("Checks the pages of an archive, and prints how many events they have")
        .arg(required(alloc, "FOLDER", "The daemon's `archive`"))
}

fn check_state<'a>(alloc: Global) -> Result<Command<'a>, AllocError> {
    Command::new(alloc, "check-state")
        .about("Reads the files of a state as a start does, and prints what they have")
        .arg(required(alloc, "FILE", "The daemon's `state`"))
}

// An argument that is to be given.
fn required<'a>(alloc: Global, name: &'a str, help: &'a str) -> Arg<'a> {
    Arg::new(alloc, name).required(true).help(help)
}
