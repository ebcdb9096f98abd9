//! Interleavings: a book with workers that look up questions side by side, in which the steps are
//! made one after the other in any order.
#![tactic(auto)]

mod act;
mod fault;
pub mod laws;
mod reply;
mod step;
mod worker;
mod workers;
mod world;

pub use fault::WorldFault;
pub use reply::Reply;
pub use step::Step;
pub use world::{MAX_WORKERS, World, play};
