//! What a client chooses from (RFC 3263, 4): transports, endpoints, families of addresses, the
//! names of services, and the abilities of a client; and the NAPTR record that decides the
//! transport (RFC 3263, 4.1).
#![tactic(auto)]

mod abilities;
mod endpoint;
mod families;
mod fault;
mod pointer;
mod service;
mod transport;

pub use abilities::Abilities;
pub use endpoint::Endpoint;
pub use families::Families;
pub use fault::AbilitiesFault;
pub use pointer::{choose_pointer, chosen_service};
pub use service::service_name;
pub use transport::{SIP_PORT, SIPS_PORT, Transport, default_port};
