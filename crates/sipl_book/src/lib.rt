//! The book: the zones, the holds and the clock of a locator, a journal of all that happened, page by
//! page, and an entry for each question whose answer was committed (RFC 3263, 4).
//!
//! Each call is one step. What a caller computes between two calls is checked when it is committed.
//! Times are milliseconds that the caller passes in, from 0 to 2^52.
#![tactic(auto)]

mod book;
mod cache;
mod checks;
mod commits;
mod edit;
mod entries;
mod entry;
mod event;
mod fault;
mod few_words;
mod indexed;
pub mod laws;
mod limits;
mod lookups;
mod outcome;
mod outdating;
mod page;
mod pages;
mod settlement;
mod shared_draws;
mod state;

pub use book::Book;
pub use edit::Edit;
pub use entry::Entry;
pub use event::Event;
pub use fault::BookFault;
pub use limits::{Limits, MAX_ENTRIES, MAX_EVENTS};
pub use outcome::{Done, Extent, Handed, Recorded, Uncommitted};
pub use page::Page;
pub use pages::MAX_FIRST;
pub use shared_draws::SharedDraws;
pub use state::State;
