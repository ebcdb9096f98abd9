//! The settings and the arguments of the daemon.
#![tactic(auto)]

mod arguments;
mod config;
mod settings;

pub use arguments::{Call, Given, Unread, read_arguments};
pub use config::{GivenFault, read_given};
pub use settings::{Clocks, DaemonSettings, Entrance, OnFailure};
