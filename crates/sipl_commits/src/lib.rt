//! The files of a daemon's state: a state, and a log of the changes since then, in commits. What is read of
//! either is what was written, or a refusal at its place.
#![tactic(auto)]

mod commit;
mod fault;
pub mod laws;
mod log;
mod point;
mod seal;
mod state;
mod tail;

pub use commit::{Commit, write_commit};
pub use fault::{LogFault, StateFault};
pub use log::{Log, log_of, read_log, write_head};
pub use point::Point;
pub use state::{State, read_state, write_state};
