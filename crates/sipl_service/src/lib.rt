//! A locator that threads share: a book under a lock (RFC 3263, 4).
//!
//! A caller has a pass. Each answer that it receives, and each change that it makes, is an event of
//! the book's journal, and the pass has the receipt for it. The journal is returned page by page, the
//! last page as the service is closed. Then `claim` checks that all pages follow one another, and that the
//! receipts of all passes are their events: each event was reported to a caller, as the journal has it.
//!
//! Calls that take a runtime may wait for the lock. None of them holds it while a gate is called.
#![tactic(auto)]

mod answered;
mod answers;
mod asked;
mod changes;
mod checks;
mod claims;
mod due;
mod fault;
mod gap;
mod gate;
mod latest_versions;
pub mod laws;
mod ledger;
mod lookups;
mod pass;
mod receipt;
mod receipts;
mod repairs;
mod service;
mod shared;
mod spaces;
mod told;
mod versions;

pub use claims::claim;
pub use fault::{ClaimFault, ServiceFault};
pub use gate::{Gate, Go, OpenGate, Who};
pub use ledger::Ledger;
pub use pass::Pass;
pub use receipt::Receipt;
pub use receipts::Receipts;
pub use service::{EntryCounts, MAX_TRIES, Service};
pub use told::Told;
pub use versions::{AreSets, Versions};
