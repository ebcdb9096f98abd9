//! Holds and the clock: endpoints that are left out, or tried last, for a time after they failed
//! (RFC 3263, 4.3), and the present time.
//!
//! Times are milliseconds that the caller passes in, from 0 to 2^52. Only a hold of an endpoint
//! that is not held allocates.
#![tactic(auto)]

mod board;
mod fault;
mod held;
pub mod laws;
mod shared;

pub use board::{Board, MAX_HOLDS, MAX_TIME};
pub use fault::BoardFault;
pub use held::Held;
pub use shared::{ShareableBoard, SharedBoard};
