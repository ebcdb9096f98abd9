//! The failover of one SIP request over a list of targets (RFC 3263, 4.3) as a state machine
//! without input or output: the caller reports responses, transport errors and the time, and
//! carries out the steps that each call returns.
//!
//! Times are in milliseconds, from any origin, and at most 2^52. A list has at most 2,048 targets.
#![tactic(auto)]

mod branch;
mod failover;
mod fault;
pub mod laws;
mod step;

pub use failover::Failover;
pub use fault::FailoverFault;
pub use step::{Step, Steps};
