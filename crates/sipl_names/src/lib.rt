//! Domain names (RFC 1034, RFC 1035): their text in master files and as hostnames, their wire form, and
//! which names are within which.
#![tactic(auto)]

mod escape;
mod fault;
mod hostname;
pub mod laws;
mod long;
mod name;
mod print;
mod shared;
mod short;
mod text;
mod wire;

pub use escape::read_escape;
pub use fault::{InvalidName, NameFault};
pub use hostname::{begins_with_letter, is_hostname_octet};
pub use name::Name;

/// The maximum number of octets of a label (RFC 1035, 2.3.4).
pub const MAX_LABEL_LEN: usize = 63;

/// The maximum number of octets of a name's wire form, with that of the root (RFC 1035, 2.3.4).
pub const MAX_NAME_LEN: usize = 255;

/// The maximum number of octets of a name's text, as `Name::write` appends it.
pub const MAX_NAME_TEXT_LEN: usize = 1004;
