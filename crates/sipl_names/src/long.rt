// Octets in memory that copies share.
ghost use Rattle.std.specs.Prelude.{◌≡◌, ◌≤◌, length, drop, IfOk};

use std::alloc::{AllocError, Global};
use std::marker::Model;
use std::sync::ArcSlice;

// The octets from a place on, of those that copies share.
#[derive(Debug, Drop)]
pub(crate) struct LongOctets {
    octets: ArcSlice<u8>,
    start: usize,
}

impl Model for LongOctets {
    ghost use Rattle.std.specs.Prelude.{ℕ, List, ◌≤◌, length, drop};
    ghost use Rattle.std.specs.Arc.{arc_slice_items};

    ghost Value = { List ℕ };

    ghost view = { λ long. drop long.start (arc_slice_items long.octets) };

    ghost invariant = { λ long. long.start ≤ length (arc_slice_items long.octets) };
}

impl LongOctets {
    // A copy of these octets.
    pub(crate) fn from_slice(alloc: Global, octets: &[u8]) -> Result<Self, AllocError>
        ensures { IfOk result (λ long. long ≡ octets.now) }
    {
        let octets = ArcSlice::from_slice(alloc, octets)?;
        Ok(LongOctets { octets, start: 0 })
    }

    // The octets, in their order.
    pub(crate) fn as_slice(&self) -> &[u8]
        ensures { result.now ≡ self.now }
    {
        &self.octets.as_slice()[self.start..]
    }

    // A copy, which shares the octets. Does not allocate.
    pub(crate) fn dup(&self) -> Result<Self, AllocError>
        ensures { IfOk result (λ copy. copy ≡ self.now) }
    {
        let octets = self.octets.clone()?;
        let start = self.start;
        Ok(LongOctets { octets, start })
    }

    // Drops the first octets, of this copy alone.
    pub(crate) fn drop_front(&mut self, count: usize)
        requires { count ≤ length self.old }
        ensures { self.new ≡ drop count self.old }
    {
        self.start += count;
    }
}
