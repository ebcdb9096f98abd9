//! Plans: the targets of a question, in the order in which they are tried (RFC 3263, 4).
#![tactic(auto)]

mod answer;
mod direct;
mod finding;
pub mod laws;
mod layout;
mod look;
mod plan;
mod reading;
mod route;
mod run;
mod serving;
mod sets;
mod shared;
mod stage;
mod unique;

pub use answer::{Answer, Reason};
pub use direct::locate;
pub use finding::Finding;
pub use layout::{Layout, Source, draw};
pub use plan::plan_of;
pub use run::{MAX_SETS, Run, Unfinished};
pub use sets::Sets;
pub use shared::SharedSequence;
