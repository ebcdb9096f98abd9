ghost use Rattle.std.specs.Prelude.{◌≡◌, IsSome, IfOk, OnErr};
ghost use Rattle.sipl_choice.specs.ServiceNames.{service_name_of};

use crate::transport::Transport;
use sipl_names::{Name, NameFault};
use std::alloc::{AllocError, Global};

/// The name of the SRV records of a target over a transport, such as `_sip._udp.example.com.`: the
/// service and the protocol before the target (RFC 2782, "Name"; RFC 3263, 4.1). `None` where it
/// would have more than 255 octets; this does not allocate.
pub fn service_name(
    alloc: Global,
    target: &Name,
    transport: Transport,
) -> Result<Option<Name>, AllocError>
    ensures name { IfOk result (λ name. name ≡ service_name_of target.now transport) }
    ensures memory { OnErr result (IsSome (service_name_of target.now transport)) }
{
    let (service, protocol) = match transport {
        Transport::Udp => (b"_sip".as_slice(), b"_udp".as_slice()),
        Transport::Tcp => (b"_sip".as_slice(), b"_tcp".as_slice()),
        Transport::Tls => (b"_sips".as_slice(), b"_tcp".as_slice()),
        Transport::Sctp => (b"_sip".as_slice(), b"_sctp".as_slice()),
    };
    match target.prefixed(alloc, &[service, protocol]) {
        Ok(name) => Ok(Some(name)),
        Err(NameFault::Invalid(_)) => Ok(None),
        Err(NameFault::Memory) => Err(AllocError),
    }
}
