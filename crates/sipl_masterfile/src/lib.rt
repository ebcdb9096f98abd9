//! Master files (RFC 1035, 5.1): zones and single records in text.
#![tactic(auto)]

mod by_owner;
mod entries;
mod fault;
mod intake;
pub mod laws;
mod rdata;
mod reader;
mod reading;
mod record;
mod statement;
mod tokens;
mod ttl;
mod zone;

pub use fault::{ZoneCause, ZoneFault};
pub use record::{read_record, write_record};
pub use zone::{ZoneText, read_zone};
