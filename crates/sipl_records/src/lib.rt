//! Resource records: owners, data, kinds, and the sets that they form; and what the text formats
//! share: addresses, numbers, fields, and a text split at a separator.
#![tactic(auto)]

mod address;
mod address4;
mod address6;
mod boxed;
mod code;
mod data;
mod fault;
mod field;
mod ipv6_address;
mod kind;
pub mod laws;
mod number;
mod octets;
mod record;
mod sequence;
mod split;

pub use address::{Address, MAX_ADDRESS_TEXT_LEN, read_ipv4, read_ipv6};
pub use boxed::Boxed;
pub use code::name_code;
pub use data::Data;
pub use fault::AddressFault;
pub use field::{is_wsp, next_field, trim_start};
pub use ipv6_address::Ipv6Address;
pub use kind::Kind;
pub use number::read_number;
pub use octets::are_digits;
pub use record::{Key, MAX_SET_LEN, Record};
pub use sequence::Sequence;
pub use split::split_once;
