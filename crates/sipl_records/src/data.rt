ghost use Rattle.std.specs.Prelude.{◌≡◌, IsTrue, IfOk, OnErr};
ghost use Rattle.sipl_records.specs.Sets.{has_kind, has_name, has_same_kind, kind_of};

use crate::boxed::Boxed;
use crate::ipv6_address::Ipv6Address;
use crate::kind::Kind;
use crate::sequence::Sequence;
use sipl_names::Name;
use std::alloc::{AllocError, Global};

/// The data of a record: what it states about its owner (RFC 1035, 3.2.1). Two data are equal where
/// they are of one type and their fields are equal: names without case, since they are kept in lower
/// case, and strings octet by octet.
#[derive(Debug, PartialEq, Eq, Drop)]
pub enum Data {
    /// An IPv4 address (RFC 1035, 3.4.1), its first octet the highest of the number.
    Address4(u32),
    /// An IPv6 address (RFC 3596, 2.2).
    Address6(Ipv6Address),
    /// The canonical name of an alias (RFC 1035, 3.3.1).
    Alias(Name),
    /// A server of a service (RFC 2782).
    Service {
        priority: u16,
        weight: u16,
        port: u16,
        target: Name,
    },
    /// A pointer to a domain's services (RFC 3403, 4.1). Flags, services and regexp are character
    /// strings (RFC 1035, 3.3). They and the replacement are apart: few records are pointers, and the
    /// others are no larger for them.
    Pointer {
        order: u16,
        preference: u16,
        flags: Boxed<Sequence<u8>>,
        services: Boxed<Sequence<u8>>,
        regexp: Boxed<Sequence<u8>>,
        replacement: Boxed<Name>,
    },
    /// The data of a record of any other type, of which nothing is kept.
    Bare,
}

impl Data {
    /// The kind of the set that a record of these data is in; `None` for data of which nothing is
    /// kept.
    pub fn kind(&self) -> Option<Kind>
        ensures { result ≡ kind_of self.now }
    {
        match self {
            Data::Address4(_) => Some(Kind::Address4),
            Data::Address6(_) => Some(Kind::Address6),
            Data::Alias(_) => Some(Kind::Alias),
            Data::Service { .. } => Some(Kind::Service),
            Data::Pointer { .. } => Some(Kind::Pointer),
            Data::Bare => None,
        }
    }

    /// Whether a set of this kind can have the data. Data of which nothing is kept are those of
    /// existence.
    pub fn has_kind(&self, kind: Kind) -> bool
        ensures { result ≡ has_kind kind self.now }
    {
        self.kind().unwrap_or(Kind::Exists) == kind
    }

    /// Whether records of the two data are in sets of one kind. Data of which nothing is kept are in
    /// none.
    pub fn has_same_kind(&self, other: &Data) -> bool
        ensures { result ≡ has_same_kind self.now other.now }
    {
        self.kind().is_some_and(|kind| other.kind() == Some(kind))
    }

    /// A copy of the data. Allocates only for names and strings.
    pub fn dup(&self, alloc: Global) -> Result<Self, AllocError>
        ensures value { IfOk result (λ copy. copy ≡ self.now) }
        ensures memory { OnErr result (IsTrue (has_name self.now)) }
    {
        Ok(match self {
            Data::Address4(address) => Data::Address4(*address),
            Data::Address6(address) => Data::Address6(*address),
            Data::Alias(name) => Data::Alias(name.dup(alloc)?),
            Data::Service {
                priority,
                weight,
                port,
                target,
            } => Data::Service {
                priority: *priority,
                weight: *weight,
                port: *port,
                target: target.dup(alloc)?,
            },
            Data::Pointer {
                order,
                preference,
                flags,
                services,
                regexp,
                replacement,
            } => Data::Pointer {
                order: *order,
                preference: *preference,
                flags: flags.dup()?,
                services: services.dup()?,
                regexp: regexp.dup()?,
                replacement: replacement.dup()?,
            },
            Data::Bare => Data::Bare,
        })
    }
}
