ghost use Rattle.std.specs.Prelude.{◌≡◌, nat_eq};
ghost use Rattle.std.specs.Cmp.{nat_eq_equiv, partial_equiv_from_equiv};

use std::marker::Model;

/// An IPv6 address (RFC 4291) in the data of a record. It is kept in halves, since a `u128` would align
/// all data to 16 octets. Contracts see its number, its first octet the highest.
#[derive(Clone, Copy, Debug)]
pub struct Ipv6Address {
    high: u64,
    low: u64,
}

impl Model for Ipv6Address {
    ghost use Rattle.std.specs.Prelude.{ℕ, ◌+◌, ◌*◌, ◌/◌, ◌%◌, ◌^◌, ◌<◌};

    ghost Value = { ℕ };

    ghost view = { λ address. address.high * 2 ^ 64 + address.low };

    ghost invariant = { λ address. address.low < 2 ^ 64 };

    ghost inverse = { λ number. record { high = number / 2 ^ 64; low = number % 2 ^ 64 } };
}

impl Ipv6Address {
    /// The address with this number.
    pub fn from_number(number: u128) -> Self
        ensures { result ≡ number }
    {
        Ipv6Address {
            high: (number / (1 << 64)) as u64,
            low: (number % (1 << 64)) as u64,
        }
    }

    /// The number of the address.
    pub fn number(self) -> u128
        ensures { result ≡ self }
    {
        u128::from(self.high) * (1 << 64) + u128::from(self.low)
    }
}

impl PartialEq for Ipv6Address {
    ghost eq = { nat_eq };

    ghost laws = { partial_equiv_from_equiv nat_eq_equiv };

    fn eq(&self, other: &Self) -> bool {
        self.high == other.high && self.low == other.low
    }
}

impl Eq for Ipv6Address {
    ghost laws = { nat_eq_equiv };
}
