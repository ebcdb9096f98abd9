ghost use Rattle.std.specs.Prelude.{◌≡◌};
ghost use Rattle.sipl_choice.specs.FamilyKinds.{address_kinds};

use sipl_records::Kind;

/// The families of addresses that a client uses, in the order in which it looks them up (RFC 3263,
/// 4.2).
#[derive(Clone, Copy, Debug, PartialEq, Eq, Hash)]
pub enum Families {
    /// Only IPv4.
    V4,
    /// Only IPv6.
    V6,
    /// IPv4, and then IPv6.
    V4ThenV6,
    /// IPv6, and then IPv4.
    V6ThenV4,
}

impl Families {
    /// The kinds of records that hold the addresses, in the order in which they are looked up.
    pub fn kinds(self) -> &'static [Kind]
        ensures { result.now ≡ address_kinds self }
    {
        match self {
            Families::V4 => &[Kind::Address4],
            Families::V6 => &[Kind::Address6],
            Families::V4ThenV6 => &[Kind::Address4, Kind::Address6],
            Families::V6ThenV4 => &[Kind::Address6, Kind::Address4],
        }
    }
}
