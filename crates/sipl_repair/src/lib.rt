//! The repair queue: ids of entries whose evidence an edit changed, first in first out, and the
//! leases under which workers look them up again.
//!
//! An id is idle, queued once, or leased. `Queue::mark` queues an idle id, `Queue::lease` leases
//! the first one, and the lease is spent by `Queue::settle`, `Queue::requeue` or
//! `Queue::give_back`. Only `Queue::reserve` allocates.
#![tactic(auto)]

mod fault;
mod id_set;
pub mod laws;
mod lease;
mod queue;
mod stale_places;

pub use fault::QueueFault;
pub use lease::Lease;
pub use queue::Queue;
