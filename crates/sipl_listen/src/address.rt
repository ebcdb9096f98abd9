//! Where clients connect.
ghost use Rattle.std.specs.Prelude.{◌≡◌, IfNone, IfOk, IfSome};
ghost use Rattle.sipl_listen.specs.Addresses.{IsAddressText, address_text, descriptors_of};

use std::alloc::{AllocError, Global};
use std::fmt;
use std::net::SocketAddr;

/// The maximum length in octets of the path of a Unix socket, which the system sets.
pub(crate) const MAX_PATH_LEN: usize = 107;

/// Where clients connect.
#[derive(Drop)]
pub enum Address {
    /// TCP on the machine itself: 127.0.0.0/8 or ::1.
    Tcp(SocketAddr),
    /// The path of a Unix socket.
    Unix(String),
}

impl Address {
    /// Reads an address such as `127.0.0.1:5099`, `[::1]:5099` or `unix:/run/siplocd.sock`. `None` where
    /// it is neither, of another machine, or a path that has no octets, more than 107, or a NUL.
    pub fn from_text(alloc: Global, text: &str) -> Result<Option<Address>, AllocError>
        ensures found { IfOk result (λ found. IfSome found (IsAddressText text.now)) }
        ensures none { IfOk result (λ found. IfNone found
            ((address : Address) → ¬ (IsAddressText text.now address))) }
    {
        if let Some(path) = text.strip_prefix("unix:") {
            if path.is_empty() || path.len() > MAX_PATH_LEN || path.contains('\0') {
                return Ok(None);
            }
            return Ok(Some(Address::Unix(String::from_str(alloc, path)?)));
        }
        match text.parse::<SocketAddr>() {
            Ok(address) if address.ip().is_loopback() => Ok(Some(Address::Tcp(address))),
            _ => Ok(None),
        }
    }

    /// How many descriptors a listener there has: the socket, the stream that ends its accepts, the lock of a
    /// path, and a connection that is accepted and has no place.
    pub fn descriptors(&self) -> usize
        ensures { result ≡ descriptors_of self.now }
    {
        match self {
            Address::Tcp(_) => 3,
            Address::Unix(_) => 4,
        }
    }

    /// A copy. The only error is an allocation failure.
    pub fn dup(&self, alloc: Global) -> Result<Address, AllocError>
        ensures { IfOk result (λ copy. address_text copy ≡ address_text self.now) }
    {
        Ok(match self {
            Address::Tcp(address) => Address::Tcp(*address),
            Address::Unix(path) => Address::Unix(String::from_str(alloc, path.as_str())?),
        })
    }
}

impl fmt::Display for Address {
    ghost use Rattle.sipl_listen.specs.Addresses.{address_text};
    ghost use Rattle.std.specs.Prelude.{Some};

    ghost output = { λ address. Some (address_text address) };

    fn fmt<W: fmt::Write>(&self, f: &mut fmt::Formatter<W>) -> fmt::Result {
        match self {
            Address::Tcp(address) => write!(f, "{address}"),
            Address::Unix(path) => write!(f, "unix:{path}"),
        }
    }
}
