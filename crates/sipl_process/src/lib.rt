//! The process of a daemon without its service: its faults and standard streams, what is at its paths, its
//! sockets, and the calls that serve nobody.
#![tactic(auto)]

mod archive;
mod arguments;
mod control_line;
mod fault;
mod host;
mod listeners;
mod paths;
mod places;
mod streams;
mod watch;

pub use archive::{open_archive, print_replay};
pub use arguments::{begin, check_settings, read_call, status_of};
pub use control_line::tell;
pub use fault::{CloseFault, Fault};
pub use host::Host;
pub use listeners::Listeners;
pub use paths::expect_state;
pub use places::Places;
pub use streams::open_closed;
pub use watch::InputWatch;
