ghost use Rattle.std.specs.Prelude.{◌≡◌};
ghost use Rattle.sipl_uri.specs.UriFault.{code_of};

use std::alloc::AllocError;
use thiserror::Error;

/// Why a text is not a URI that asks a question.
#[derive(Clone, Copy, Debug, PartialEq, Eq, Hash, Error)]
pub enum UriFault {
    /// U1: the scheme is neither `sip` nor `sips`.
    #[error("the scheme is neither sip nor sips")]
    Scheme,
    /// U2: a host, or the value of `maddr`, is neither an address nor a hostname.
    #[error("a host is neither an address nor a hostname")]
    Host,
    /// U3: the port is not a number from 1 to 65,535.
    #[error("the port is not a number from 1 to 65535")]
    Port,
    /// U4: the value of `transport` is not `udp`, `tcp`, `sctp` or `tls`.
    #[error("the transport is not udp, tcp, sctp or tls")]
    Transport,
    /// U5: a parameter is given twice.
    #[error("a parameter is given twice")]
    Repeated,
    /// U6: `sips` over UDP or SCTP.
    #[error("sips is not possible over this transport")]
    SipsTransport,
    /// U7: an octet that is not allowed in a URI, a second `@`, or a parameter without a name.
    #[error("an octet is not allowed, or a parameter has no name")]
    Characters,
    /// An allocation failed.
    #[error("out of memory")]
    Memory,
}

impl UriFault {
    /// The error's code in replies, such as `U1`.
    pub fn code(self) -> &'static str
        ensures { result.now ≡ code_of self }
    {
        match self {
            UriFault::Scheme => "U1",
            UriFault::Host => "U2",
            UriFault::Port => "U3",
            UriFault::Transport => "U4",
            UriFault::Repeated => "U5",
            UriFault::SipsTransport => "U6",
            UriFault::Characters => "U7",
            UriFault::Memory => "Memory",
        }
    }
}

impl From<AllocError> for UriFault {
    ghost use Rattle.std.specs.Prelude.{◌≡◌};
    ghost use Rattle.sipl_uri.specs.declared.fault.UriFault.TheVariants.{Memory};

    ghost from_gives = { λ _ fault. fault ≡ Memory };

    fn from(_: AllocError) -> UriFault {
        UriFault::Memory
    }
}
