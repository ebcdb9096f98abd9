//! A log of one line an event on standard error, which stops and slows no one: lines wait in a queue of
//! bounded length, and a thread of the program writes them.
#![tactic(auto)]

mod level;
mod line;
mod log;
mod queue;
mod repeats;

pub use level::{Level, Verbosity};
pub use line::Line;
pub use log::Log;
