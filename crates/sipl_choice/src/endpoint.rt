use crate::transport::Transport;
use sipl_records::Address;

/// Where a request can be sent.
#[derive(Clone, Copy, Debug, PartialEq, Eq, Hash)]
pub struct Endpoint {
    pub transport: Transport,
    pub address: Address,
    pub port: u16,
}
