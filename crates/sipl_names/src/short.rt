// A few octets in a value.
ghost use Rattle.std.specs.Prelude.{◌≡◌, ◌+◌, ◌≤◌, [], length, drop};

use std::marker::Model;

// The maximum number of octets in a value.
pub(crate) const MAX_SHORT_LEN: usize = 22;

// At most `MAX_SHORT_LEN` octets.
#[derive(Debug, Drop)]
pub(crate) struct ShortOctets {
    len: u8,
    octets: [u8; 22],
}

impl Model for ShortOctets {
    ghost use Rattle.std.specs.Prelude.{ℕ, List, ◌≤◌, take};

    ghost Value = { List ℕ };

    ghost view = { λ short. take short.len short.octets };

    ghost invariant = { λ short. short.len ≤ 22 };
}

impl ShortOctets {
    // No octets.
    pub(crate) fn none() -> Self
        ensures { result ≡ [] }
    {
        ShortOctets {
            len: 0,
            octets: [0; 22],
        }
    }

    // A copy of these octets.
    pub(crate) fn from_slice(octets: &[u8]) -> Self
        requires { length octets.now ≤ 22 }
        ensures { result ≡ octets.now }
    {
        let len = octets.len();
        let mut kept = [0; 22];
        kept[..len].copy_from_slice(octets);
        ShortOctets {
            len: len as u8,
            octets: kept,
        }
    }

    // The octets, in their order.
    pub(crate) fn as_slice(&self) -> &[u8]
        ensures value { result.now ≡ self.now }
        ensures limit { length result.now ≤ 22 }
    {
        &self.octets[..self.len as usize]
    }

    // A copy.
    pub(crate) fn dup(&self) -> Self
        ensures { result ≡ self.now }
    {
        ShortOctets {
            len: self.len,
            octets: self.octets,
        }
    }

    // Drops the first octets.
    pub(crate) fn drop_front(&mut self, count: usize)
        requires { count ≤ length self.old }
        ensures { self.new ≡ drop count self.old }
    {
        *self = ShortOctets::from_slice(&self.as_slice()[count..]);
    }
}
