ghost use Rattle.std.specs.Prelude.{◌≡◌};
ghost use Rattle.sipl_zonestore.specs.StoreFault.{code_of};

use std::alloc::{AllocError, AllocFailed};
use thiserror::Error;

/// Why an edit of the store fails. The store is then unchanged.
#[derive(Clone, Copy, Debug, PartialEq, Eq, Hash, Error)]
pub enum StoreFault {
    /// S1: a loaded zone is strictly above the apex or strictly below it.
    #[error("a loaded zone is above or below the apex")]
    Overlap,
    /// S2: no zone of this apex is loaded, or the owner is in no loaded zone.
    #[error("no such zone is loaded")]
    NoZone,
    /// S3: the record is in the store already.
    #[error("the record is in the store already")]
    Duplicate,
    /// S4: no such record is in the store.
    #[error("the record is not in the store")]
    Absent,
    /// S5: an alias would have other data beside it (RFC 1034, 3.6.2; RFC 2181, 10.1).
    #[error("an alias has no other data beside it")]
    AliasBesideData,
    /// S6: the record's set has 32 records.
    #[error("the record's set is full")]
    SetFull,
    /// S7: the records would exceed the store's maximum.
    #[error("the store is full")]
    StoreFull,
    /// S8: fewer set numbers up to 2^52 are left than the edit needs.
    #[error("no numbers are left")]
    NumberSpent,
    /// S9: the apex is a wildcard domain name, whose first label is `*` (RFC 4592, 2.1.1 and 4.1).
    #[error("a zone's apex is no wildcard")]
    WildApex,
    /// An allocation failed.
    #[error("out of memory")]
    Memory,
}

impl StoreFault {
    /// The error's code in replies, such as `S1`.
    pub fn code(self) -> &'static str
        ensures { result.now ≡ code_of self }
    {
        match self {
            StoreFault::Overlap => "S1",
            StoreFault::NoZone => "S2",
            StoreFault::Duplicate => "S3",
            StoreFault::Absent => "S4",
            StoreFault::AliasBesideData => "S5",
            StoreFault::SetFull => "S6",
            StoreFault::StoreFull => "S7",
            StoreFault::NumberSpent => "S8",
            StoreFault::WildApex => "S9",
            StoreFault::Memory => "Memory",
        }
    }
}

impl From<AllocError> for StoreFault {
    ghost use Rattle.std.specs.Prelude.{◌≡◌};
    ghost use Rattle.sipl_zonestore.specs.declared.fault.StoreFault.TheVariants.{Memory};

    ghost from_gives = { λ _ fault. fault ≡ Memory };

    fn from(_: AllocError) -> StoreFault {
        StoreFault::Memory
    }
}

impl<T: Drop> From<AllocFailed<T>> for StoreFault {
    ghost use Rattle.std.specs.Prelude.{◌≡◌};
    ghost use Rattle.sipl_zonestore.specs.declared.fault.StoreFault.TheVariants.{Memory};

    ghost from_gives = { λ _ fault. fault ≡ Memory };

    fn from(_: AllocFailed<T>) -> StoreFault {
        StoreFault::Memory
    }
}
