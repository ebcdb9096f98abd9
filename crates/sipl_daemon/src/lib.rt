//! The daemon: sessions without end over TCP and Unix sockets, at one service, until it is told to stop.
#![tactic(auto)]

mod check;
mod control;
mod daemon;
mod edits;
mod fault;
mod journal;
mod program;
mod scrapes;
mod server;
mod session;

pub use fault::DeskFault;
pub use program::start;
