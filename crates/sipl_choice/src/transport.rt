ghost use Rattle.std.specs.Prelude.{◌≡◌, Some};
ghost use Rattle.std.specs.Str.{str_to_ascii_lowercase};
ghost use Rattle.sipl_choice.specs.Transports.{default_port, transport_named, transport_text};

use std::fmt;

/// The port of SIP where none is given (RFC 3261, 19.1.2).
pub const SIP_PORT: u16 = 5060;

/// The port of SIP over TLS where none is given (RFC 3261, 19.1.2).
pub const SIPS_PORT: u16 = 5061;

/// A transport of SIP messages (RFC 3261, 18; SCTP: RFC 4168).
#[derive(Clone, Copy, Debug, PartialEq, Eq, Hash)]
pub enum Transport {
    Udp,
    Tcp,
    /// TLS over TCP.
    Tls,
    Sctp,
}

/// The port where none is given: 5061 for TLS, else 5060 (RFC 3261, 19.1.2).
pub fn default_port(transport: Transport) -> u16
    ensures { result ≡ default_port transport }
{
    match transport {
        Transport::Tls => SIPS_PORT,
        Transport::Udp | Transport::Tcp | Transport::Sctp => SIP_PORT,
    }
}

impl Transport {
    /// The transport's name in replies and in a URI's `transport` parameter (RFC 3261, 19.1.1).
    pub fn name(self) -> &'static str
        ensures { result.now ≡ transport_text self }
    {
        match self {
            Transport::Udp => "udp",
            Transport::Tcp => "tcp",
            Transport::Tls => "tls",
            Transport::Sctp => "sctp",
        }
    }

    /// The transport of a name in lower case: `udp`, `tcp`, `tls` or `sctp`.
    pub fn from_name(name: &[u8]) -> Option<Self>
        ensures { result ≡ transport_named name.now }
    {
        match name {
            b"udp" => Some(Transport::Udp),
            b"tcp" => Some(Transport::Tcp),
            b"tls" => Some(Transport::Tls),
            b"sctp" => Some(Transport::Sctp),
            _ => None,
        }
    }

    /// The transport of a name in either case, as URIs have it (RFC 3261, 19.1.4).
    pub fn from_name_ignore_case(name: &[u8]) -> Option<Self>
        ensures { result ≡ transport_named (str_to_ascii_lowercase name.now) }
    {
        if name.eq_ignore_ascii_case(b"udp") {
            Some(Transport::Udp)
        } else if name.eq_ignore_ascii_case(b"tcp") {
            Some(Transport::Tcp)
        } else if name.eq_ignore_ascii_case(b"tls") {
            Some(Transport::Tls)
        } else if name.eq_ignore_ascii_case(b"sctp") {
            Some(Transport::Sctp)
        } else {
            None
        }
    }
}

impl fmt::Display for Transport {
    ghost output = { λ transport. Some (transport_text transport) };

    fn fmt<W: fmt::Write>(&self, f: &mut fmt::Formatter<W>) -> fmt::Result {
        f.write_str(self.name())
    }
}
