//! Evidence: the record sets that a lookup read, and walks over aliases that read them one at a
//! time; and the index from record sets to the entries whose evidence has them.
#![tactic(auto)]

mod code;
mod dependents;
mod evidence;
mod fault;
mod item;
pub mod laws;
mod linked;
mod lists;
mod places;
mod reach;
mod spot;
mod visit;
mod walk;
mod walk_place;

pub use dependents::Dependents;
pub use evidence::{Evidence, Refused};
pub use fault::EvidenceFault;
pub use item::{Item, dup_data};
pub use visit::first_target;
pub use walk::{MAX_ALIASES, Reached, Walk};
