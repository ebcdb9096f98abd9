ghost use Rattle.std.specs.Prelude.{◌≡◌};
ghost use Rattle.sipl_service.specs.Faults.{claim_code, service_code};

use sipl_book::BookFault;
use sipl_records::Key;
use std::alloc::{AllocError, AllocFailed};
use thiserror::Error;

/// Why a call of a service is refused.
#[derive(Debug, Drop, Error)]
pub enum ServiceFault {
    /// L1: in each of the tries a record set changed between its reading and the commit. The key of
    /// the first such set of the last try.
    #[error("a record set changed in each try")]
    Contended(Key),
    /// L2: the pass has seen an event that the service has not. The number of the service's next event,
    /// and the pass's front.
    #[error("the pass has seen the events before {front}, and the next one is {next}")]
    PassAhead { next: u64, front: u64 },
    /// L6: the service was stopped, or the gate stopped the lookup.
    #[error("the service is stopped")]
    Stopped,
    /// L7: the book is for a client of other abilities, or for another policy on held endpoints.
    #[error("the book is for another client or policy")]
    OtherBook,
    /// A fault of the book.
    #[error(transparent)]
    Book(BookFault),
    /// An allocation failed.
    #[error("out of memory")]
    Memory,
}

impl ServiceFault {
    /// The error's code in replies, such as `L1`.
    pub fn code(&self) -> &'static str
        ensures { result.now ≡ service_code self.now }
    {
        match self {
            ServiceFault::Contended(_) => "L1",
            ServiceFault::PassAhead { .. } => "L2",
            ServiceFault::Stopped => "L6",
            ServiceFault::OtherBook => "L7",
            ServiceFault::Book(fault) => fault.code(),
            ServiceFault::Memory => "Memory",
        }
    }
}

impl From<BookFault> for ServiceFault {
    ghost use Rattle.std.specs.Prelude.{◌≡◌};
    ghost use Rattle.sipl_service.specs.Faults.{of_book};

    ghost from_gives = { λ cause fault. fault ≡ of_book cause };

    fn from(fault: BookFault) -> ServiceFault {
        match fault {
            BookFault::Memory => ServiceFault::Memory,
            fault => ServiceFault::Book(fault),
        }
    }
}

impl From<AllocError> for ServiceFault {
    ghost use Rattle.std.specs.Prelude.{◌≡◌};
    ghost use Rattle.sipl_service.specs.declared.fault.ServiceFault.TheVariants.{Memory};

    ghost from_gives = { λ _ fault. fault ≡ Memory };

    fn from(_: AllocError) -> ServiceFault {
        ServiceFault::Memory
    }
}

impl<T: Drop> From<AllocFailed<T>> for ServiceFault {
    ghost use Rattle.std.specs.Prelude.{◌≡◌};
    ghost use Rattle.sipl_service.specs.declared.fault.ServiceFault.TheVariants.{Memory};

    ghost from_gives = { λ _ fault. fault ≡ Memory };

    fn from(_: AllocFailed<T>) -> ServiceFault {
        ServiceFault::Memory
    }
}

/// Why the events of some pages are not the union of the receipts of some passes, or a page is not
/// claimed by a ledger.
#[derive(Clone, Copy, Debug, PartialEq, Eq, Hash, Error)]
pub enum ClaimFault {
    /// L3: no receipt has the number of this event, the least such number.
    #[error("no receipt has event {0}")]
    Unclaimed(u64),
    /// L4: a receipt has this number, and the pages have no such event, or another one there.
    #[error("the pages have another event {0}, or none")]
    NotOurs(u64),
    /// L5: an earlier receipt has this number too, or a ledger has claimed it.
    #[error("two receipts have event {0}")]
    Doubled(u64),
    /// L8: the page at this place, from 0, does not follow the one before it; the least such place. Of a
    /// ledger, the page with this first number does not follow what was claimed.
    #[error("page {0} does not follow the one before it")]
    Gap(u64),
    /// An allocation failed.
    #[error("out of memory")]
    Memory,
}

impl ClaimFault {
    /// The error's code in replies, such as `L3`.
    pub fn code(self) -> &'static str
        ensures { result.now ≡ claim_code self }
    {
        match self {
            ClaimFault::Unclaimed(_) => "L3",
            ClaimFault::NotOurs(_) => "L4",
            ClaimFault::Doubled(_) => "L5",
            ClaimFault::Gap(_) => "L8",
            ClaimFault::Memory => "Memory",
        }
    }
}
