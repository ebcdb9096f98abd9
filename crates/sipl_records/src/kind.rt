ghost use Rattle.std.specs.Prelude.{◌≡◌, ◌<◌};
ghost use Rattle.sipl_records.specs.Kinds.{index_of, kind_count, text_of_kind};

use std::fmt;

/// The kinds of record sets that a lookup reads.
#[derive(Clone, Copy, Debug, PartialEq, Eq, Hash)]
pub enum Kind {
    /// IPv4 addresses, `A` (RFC 1035, 3.4.1).
    Address4,
    /// IPv6 addresses, `AAAA` (RFC 3596, 2.1).
    Address6,
    /// The canonical name of an alias, `CNAME` (RFC 1035, 3.3.1).
    Alias,
    /// The servers of a service, `SRV` (RFC 2782).
    Service,
    /// Pointers to a domain's services, `NAPTR` (RFC 3403).
    Pointer,
    /// Whether a name exists (RFC 4592, 2.2.3): no type of records. It is last among the kinds.
    Exists,
}

impl Kind {
    /// How many kinds there are.
    pub const COUNT: usize = 6;

    /// The place of the kind among all: less than their count, and another for each kind.
    pub fn index(self) -> usize
        ensures index { result ≡ index_of self }
        ensures limit { result < kind_count }
    {
        match self {
            Kind::Address4 => 0,
            Kind::Address6 => 1,
            Kind::Alias => 2,
            Kind::Service => 3,
            Kind::Pointer => 4,
            Kind::Exists => 5,
        }
    }

    /// The mnemonic in master files, such as `AAAA` (RFC 1035, 3.2.2); `EXISTS`, which is none, for
    /// existence.
    pub fn name(self) -> &'static str
        ensures { result.now ≡ text_of_kind self }
    {
        match self {
            Kind::Address4 => "A",
            Kind::Address6 => "AAAA",
            Kind::Alias => "CNAME",
            Kind::Service => "SRV",
            Kind::Pointer => "NAPTR",
            Kind::Exists => "EXISTS",
        }
    }
}

/// Prints the kind's mnemonic.
impl fmt::Display for Kind {
    ghost use Rattle.std.specs.Prelude.{Some};

    ghost output = { λ kind. Some (text_of_kind kind) };

    fn fmt<W: fmt::Write>(&self, f: &mut fmt::Formatter<W>) -> fmt::Result {
        f.write_str(self.name())
    }
}
