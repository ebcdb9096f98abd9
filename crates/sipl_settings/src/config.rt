//! The settings that the arguments give, as a text or as a file.
use crate::arguments::Given;
use crate::settings::DaemonSettings;
use sipl_config::{bad_value, daemon_keys, daemon_row, text_fault, unknown_key};
use sipl_lines::SettingsFault;
use std::alloc::{AllocError, AllocFailed, Global};
use std::fmt::Write as _;
use std::rt::Files;
use std::{fs, io};

/// Why the settings that are given can't be read.
#[derive(Drop)]
pub enum GivenFault {
    /// Those of a text are refused.
    Settings(SettingsFault),
    /// The file of this path can't be read.
    File(String, io::Error),
    /// Those of a file are refused: where, and why.
    InFile(String),
    /// An allocation failed.
    Memory,
}

impl GivenFault {
    /// Appends what is said of it on standard error.
    pub fn write(&self, out: &mut String) -> Result<(), AllocError> {
        match self {
            GivenFault::Settings(SettingsFault::UnknownKey(key)) => {
                write!(out, "siplocd: settings G2 {key}")
            }
            GivenFault::Settings(SettingsFault::BadValue(key)) => {
                write!(out, "siplocd: settings G3 {key}")
            }
            GivenFault::Settings(fault) => write!(out, "siplocd: settings {}", fault.code()),
            GivenFault::File(path, error) => write!(out, "siplocd: settings {path}: {error}"),
            GivenFault::InFile(text) => out.push_str(text.as_str()),
            GivenFault::Memory => out.push_str("siplocd: out of memory"),
        }
    }
}

impl From<SettingsFault> for GivenFault {
    fn from(fault: SettingsFault) -> GivenFault {
        GivenFault::Settings(fault)
    }
}

impl From<AllocError> for GivenFault {
    fn from(_: AllocError) -> GivenFault {
        GivenFault::Memory
    }
}

impl<T: Drop> From<AllocFailed<T>> for GivenFault {
    fn from(_: AllocFailed<T>) -> GivenFault {
        GivenFault::Memory
    }
}

/// The text of the settings that are given, and what it says. What is wrong in a file is told with its line.
pub fn read_given<R: Files>(
    rt: &R,
    alloc: Global,
    given: Given,
) -> Result<(String, Box<DaemonSettings>), GivenFault> {
    match given {
        Given::Text(text) => {
            let settings = DaemonSettings::from_toml(alloc, text.as_str())?;
            Ok((text, Box::new(alloc, settings)?))
        }
        Given::File(path) => read_file(rt, alloc, path),
    }
}

// The text of a file, and the settings in it.
fn read_file<R: Files>(
    rt: &R,
    alloc: Global,
    path: String,
) -> Result<(String, Box<DaemonSettings>), GivenFault> {
    let text = match fs::read_to_string(&(rt, alloc), path.as_str()) {
        Ok(text) => text,
        Err(error) => return Err(GivenFault::File(path, error)),
    };
    match DaemonSettings::from_toml(alloc, text.as_str()) {
        Ok(settings) => Ok((text, Box::new(alloc, settings)?)),
        Err(SettingsFault::Memory) => Err(GivenFault::Memory),
        Err(fault) => Err(GivenFault::InFile(told(alloc, path.as_str(), text.as_str(), &fault)?)),
    }
}

// What is said of a fault in the text of a file: where it is, and what is allowed there.
fn told(
    alloc: Global,
    path: &str,
    text: &str,
    fault: &SettingsFault,
) -> Result<String, AllocError> {
    match fault {
        SettingsFault::UnknownKey(key) => {
            let keys = daemon_keys(alloc)?;
            unknown_key(alloc, path, text, key.as_str(), keys.as_str())
        }
        SettingsFault::BadValue(key) => {
            bad_value(alloc, path, text, key.as_str(), daemon_row(key.as_str()))
        }
        _ => text_fault(alloc, path, text),
    }
}
