//! What is reported of the daemon while it runs, in its log, and what is counted of it.
#![tactic(auto)]

mod cause;
mod counts;
mod edits;
mod figures;
mod observed;
mod states;

pub use cause::Cause;
pub use counts::Counts;
pub use edits::Story;
pub use figures::{Figures, resident};
pub use observed::{ClientCounts, Observed, tell_start, with_time};
