//! What both programs share before they begin: their version, the settings of a file, and what is said of a
//! fault in it.
#![tactic(auto)]

mod changed;
mod keys;
mod place;
mod refused;
pub mod rows;

pub use changed::changed_settings;
pub use keys::{daemon_keys, daemon_row, service_keys, service_row};
pub use place::text_fault;
pub use refused::{bad_value, unknown_key};
pub use rows::{DefaultValue, Row, Values};

/// The version of both programs.
pub const VERSION: &str = "0.6";
