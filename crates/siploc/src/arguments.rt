//! The arguments of the program.
use clap::error::ErrorKind;
use clap::{Arg, ArgMatches, Command, Error};
use sipl_config::VERSION;
use sipl_names::{Name, NameFault};
use std::alloc::{AllocError, Global};
use std::rt::Env;
use std::{env, io};

const ABOUT: &str = "Finds where a SIP request goes (RFC 3263, 4): targets of URIs, from zones.";

/// What the arguments ask for.
#[derive(Drop)]
pub(crate) enum Call {
    // `run [SETTINGS]`: serves a session.
    Run(Given),
    // `check APEX`: checks a zone's text.
    Check(Name),
    // `world [SETTINGS]`: plays a script.
    World(Given),
    // `serve [SETTINGS]`: serves sessions over TCP.
    Serve(Given),
}

/// Where the settings are.
#[derive(Drop)]
pub(crate) enum Given {
    Text(String),
    File(String),
}

/// Why the arguments ask for nothing that is done.
#[derive(Drop)]
pub(crate) enum Unread {
    /// They are wrong, and there is no more to say than the usage.
    Wrong,
    /// They are wrong, or ask for the usage or the version: what is to be printed.
    Told(Error),
    /// An allocation failed.
    Memory,
}

impl From<io::Error> for Unread {
    fn from(error: io::Error) -> Unread {
        match error.kind() {
            io::ErrorKind::OutOfMemory => Unread::Memory,
            _ => Unread::Wrong,
        }
    }
}

impl From<AllocError> for Unread {
    fn from(_: AllocError) -> Unread {
        Unread::Memory
    }
}

/// What the arguments ask for.
pub(crate) fn read_arguments<R: Env + AllocGlobal>(rt: &R) -> Result<Call, Unread> {
    let alloc = rt.alloc();
    let mut words = Vec::new(alloc);
    for word in env::args(rt)? {
        if words.push(word).is_err() {
            return Err(Unread::Memory);
        }
    }
    match command(alloc)?.try_get_matches_from(words.as_slice()) {
        Ok(matches) => call_of(alloc, &matches),
        Err(error) => Err(reason_of(&words, error)),
    }
}

// Why the words ask for nothing that is done. Where there is no option, the usage says it all.
fn reason_of(words: &[String], error: Error) -> Unread {
    if error.kind() == ErrorKind::OutOfMemory {
        return Unread::Memory;
    }
    let has_option = words
        .iter()
        .skip(1)
        .any(|word| word.as_str().starts_with('-'));
    if has_option {
        Unread::Told(error)
    } else {
        Unread::Wrong
    }
}

// What the words of a call ask for, if they are right.
fn call_of(alloc: Global, matches: &ArgMatches<'_>) -> Result<Call, Unread> {
    match matches.subcommand() {
        Some(("run", words)) => Ok(Call::Run(settings_of(alloc, words)?)),
        Some(("world", words)) => Ok(Call::World(settings_of(alloc, words)?)),
        Some(("serve", words)) => Ok(Call::Serve(settings_of(alloc, words)?)),
        Some((_, words)) => read_apex(alloc, words.get_str("APEX").unwrap_or("")),
        None => Err(Unread::Wrong),
    }
}

// The settings that a command has.
fn settings_of(alloc: Global, words: &ArgMatches<'_>) -> Result<Given, AllocError> {
    match words.get_str("FILE") {
        Some(path) => Ok(Given::File(String::from_str(alloc, path)?)),
        None => Ok(Given::Text(String::from_str(alloc, words.get_str("SETTINGS").unwrap_or(""))?)),
    }
}

// The zone of this name, which is relative to the root, if it is one.
fn read_apex(alloc: Global, text: &str) -> Result<Call, Unread> {
    match Name::from_text(alloc, text.as_bytes(), &Name::root(alloc)) {
        Ok(apex) => Ok(Call::Check(apex)),
        Err(NameFault::Invalid(_)) => Err(Unread::Wrong),
        Err(NameFault::Memory) => Err(Unread::Memory),
    }
}

// The commands of the program.
fn command<'a>(alloc: Global) -> Result<Command<'a>, AllocError> {
    let program = Command::new(alloc, "siploc")
        .bin_name("siploc")?
        .version(VERSION)
        .about(ABOUT)
        .subcommand_required(true)
        .disable_help_subcommand(true);
    let run = with_settings(
        alloc,
        "run",
        "Serves a session on standard input and output",
    );
    let program = with_command(program, run)?;
    let program = with_command(program, check(alloc))?;
    let world = with_settings(
        alloc,
        "world",
        "Plays a script on standard input and output",
    );
    let program = with_command(program, world)?;
    with_command(
        program,
        with_settings(alloc, "serve", "Serves sessions over TCP"),
    )
}

// The program with a command more, if that could be made.
fn with_command<'a>(
    program: Command<'a>,
    made: Result<Command<'a>, AllocError>,
) -> Result<Command<'a>, AllocError> {
    program.subcommand(made?)
}

fn check<'a>(alloc: Global) -> Result<Command<'a>, AllocError> {
    let apex = Arg::new(alloc, "APEX")
        .required(true)
        .allow_hyphen_values(true)
        .help("The zone's name");
    Command::new(alloc, "check")
        .about("Checks the zone on standard input")
        .arg(apex)
}

// A command that has settings.
fn with_settings<'a>(
    alloc: Global,
    name: &'a str,
    about: &'a str,
) -> Result<Command<'a>, AllocError> {
    let config = config(alloc)?;
    Command::new(alloc, name)
        .about(about)
        .arg(config)?
        .arg(text(alloc))
}

fn config<'a>(alloc: Global) -> Result<Arg<'a>, AllocError> {
    Arg::new(alloc, "FILE")
        .long("config")
        .value_name("FILE")
        .help("Reads the settings from this file")
        .conflicts_with("SETTINGS")
}

fn text<'a>(alloc: Global) -> Arg<'a> {
    Arg::new(alloc, "SETTINGS")
        .allow_hyphen_values(true)
        .help("The text of the settings, a TOML document")
}
