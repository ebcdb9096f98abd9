//! The client transactions of SIP (RFC 3261, section 17.1) as a state machine without input or
//! output: the caller reports responses, transport errors and the time, and carries out the acts
//! that each call returns.
//!
//! Times are in milliseconds, from any origin, and at most 2^52. No call allocates.
#![tactic(auto)]

mod client;
mod fault;
pub mod laws;
mod parts;
mod timers;

pub use client::ClientTx;
pub use fault::TxFault;
pub use parts::{Acts, Kind, Report, State};
pub use timers::{T1, T2, T4, TIMEOUT, TIMER_D};
