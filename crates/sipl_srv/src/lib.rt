//! Service records (RFC 2782): what a set of SRV data offers, and the weighted random order in
//! which a client tries the targets.
#![tactic(auto)]

mod draws;
mod fault;
pub mod laws;
mod offers;
mod order;
mod pick;
mod rank;

pub use draws::Draws;
pub use fault::DrawsFault;
pub use offers::offer;
pub use order::{arrange, first_of_two};
pub use pick::{Offer, Pick};
pub use rank::Ranked;
