// Octets that copies share.
ghost use Rattle.std.specs.Prelude.{◌≡◌, ◌≤◌, [], ◌++◌, length, drop, IfOk};

use crate::long::LongOctets;
use crate::short::{MAX_SHORT_LEN, ShortOctets};
use std::alloc::{AllocError, Global};
use std::marker::Model;

// Octets of which the first can be dropped. Up to `MAX_SHORT_LEN` of them are in the value; more are
// in memory that copies share.
#[derive(Debug)]
pub(crate) struct SharedOctets {
    kept: Kept,
}

#[derive(Debug, Drop)]
enum Kept {
    Short(ShortOctets),
    Long(LongOctets),
}

impl Model for SharedOctets {
    ghost use Rattle.std.specs.Prelude.{ℕ, List};
    ghost use Rattle.sipl_names.specs.Shared.{kept_octets};

    ghost Value = { List ℕ };

    ghost view = { λ shared. kept_octets shared.kept };
}

impl SharedOctets {
    // No octets.
    pub(crate) fn none() -> Self
        ensures { result ≡ [] }
    {
        SharedOctets {
            kept: Kept::Short(ShortOctets::none()),
        }
    }

    // A copy of these octets.
    pub(crate) fn from_slice(alloc: Global, octets: &[u8]) -> Result<Self, AllocError>
        ensures { IfOk result (λ shared. shared ≡ octets.now) }
    {
        if octets.len() <= MAX_SHORT_LEN {
            let short = ShortOctets::from_slice(octets);
            return Ok(SharedOctets {
                kept: Kept::Short(short),
            });
        }
        let long = LongOctets::from_slice(alloc, octets)?;
        Ok(SharedOctets {
            kept: Kept::Long(long),
        })
    }

    // The octets, in their order.
    pub(crate) fn as_slice(&self) -> &[u8]
        ensures value { result.now ≡ self.now }
        ensures len { length result.now ≡ length self.now }
    {
        match &self.kept {
            Kept::Short(octets) => octets.as_slice(),
            Kept::Long(octets) => octets.as_slice(),
        }
    }

    // A copy, which shares the octets or has them in itself. Does not allocate.
    pub(crate) fn dup(&self) -> Result<Self, AllocError>
        ensures { IfOk result (λ copy. copy ≡ self.now) }
    {
        match &self.kept {
            Kept::Short(octets) => Ok(SharedOctets {
                kept: Kept::Short(octets.dup()),
            }),
            Kept::Long(octets) => {
                let octets = octets.dup()?;
                Ok(SharedOctets {
                    kept: Kept::Long(octets),
                })
            }
        }
    }

    // Drops the first octets, of this copy alone.
    pub(crate) fn drop_front(&mut self, count: usize)
        requires { count ≤ length self.old }
        ensures { self.new ≡ drop count self.old }
    {
        match &mut self.kept {
            Kept::Short(octets) => octets.drop_front(count),
            Kept::Long(octets) => octets.drop_front(count),
        }
    }
}

// By hand, so that the proofs above see one call, and not a case for each way to keep octets.
impl Drop for SharedOctets {
    fn drop(self) {
        let SharedOctets { kept } = self;
        match kept {
            Kept::Short(_) => {}
            Kept::Long(octets) => drop(octets),
        }
    }
}
