ghost use Rattle.std.specs.Prelude.{◌≡◌, IfOk};

use crate::rank::Ranked;
use sipl_names::Name;
use sipl_records::Sequence;
use std::alloc::{AllocError, Global};

/// A server of a service, from the data of an SRV record whose target is not the root (RFC 2782).
#[derive(Debug, PartialEq, Eq, Drop)]
pub struct Pick {
    pub priority: u16,
    pub weight: u16,
    pub port: u16,
    pub target: Name,
}

impl Pick {
    /// A copy. The only error is an allocation failure.
    pub fn dup(&self, alloc: Global) -> Result<Self, AllocError>
        ensures { IfOk result (λ copy. copy ≡ self.now) }
    {
        Ok(Pick {
            priority: self.priority,
            weight: self.weight,
            port: self.port,
            target: self.target.dup(alloc)?,
        })
    }
}

impl Ranked for Pick {
    ghost use Rattle.sipl_srv.specs.Order.{rank_of};

    ghost rank = { rank_of };

    fn priority(&self) -> u16 {
        self.priority
    }

    fn weight(&self) -> u16 {
        self.weight
    }
}

/// What a set of SRV data offers (RFC 2782).
#[derive(Debug, PartialEq, Eq, Drop)]
pub enum Offer {
    /// There are no SRV data.
    Nothing,
    /// Each target is the root: the service is not available at this domain.
    Closed,
    /// The data whose target is not the root, in the order of the set. There is at least one.
    Picks(Sequence<Pick>),
}
