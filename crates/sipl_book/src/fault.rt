ghost use Rattle.std.specs.Prelude.{◌≡◌};
ghost use Rattle.sipl_book.specs.BookFault.{code_of};

use sipl_outages::BoardFault;
use sipl_repair::QueueFault;
use sipl_zonestore::StoreFault;
use std::alloc::{AllocError, AllocFailed};
use thiserror::Error;

/// Why a call of a book fails.
#[derive(Clone, Copy, Debug, PartialEq, Eq, Hash, Error)]
pub enum BookFault {
    /// B3: the journal has as many events as its maximum.
    #[error("the journal is full")]
    JournalFull,
    /// B1: the question has no current entry.
    #[error("the question has no current entry")]
    NotCurrent,
    /// B2: a record set is no longer as it was read. The place of the first such item in the
    /// evidence, from 0.
    #[error("a record set has changed since it was read")]
    Stale(usize),
    /// B4: the question has no entry.
    #[error("the question has no entry")]
    Unknown,
    /// B5: the question has no entry with the lease's id, or that is not leased, such as where it was
    /// forgotten.
    #[error("the lease is not one of the question's entry")]
    Gone,
    /// B6: the number of the next page's first event is over 2^52 - 2^20.
    #[error("no number is left for another page")]
    PagesSpent,
    /// A fault of the queue: no entry is queued (Q1).
    #[error(transparent)]
    Queue(QueueFault),
    /// A fault of the zones.
    #[error(transparent)]
    Store(StoreFault),
    /// A fault of the holds or the clock.
    #[error(transparent)]
    Board(BoardFault),
    /// An allocation failed.
    #[error("out of memory")]
    Memory,
}

impl BookFault {
    /// The error's code in replies, such as `B2`.
    pub fn code(self) -> &'static str
        ensures { result.now ≡ code_of self }
    {
        match self {
            BookFault::JournalFull => "B3",
            BookFault::NotCurrent => "B1",
            BookFault::Stale(_) => "B2",
            BookFault::Unknown => "B4",
            BookFault::Gone => "B5",
            BookFault::PagesSpent => "B6",
            BookFault::Queue(fault) => fault.code(),
            BookFault::Store(fault) => fault.code(),
            BookFault::Board(fault) => fault.code(),
            BookFault::Memory => "Memory",
        }
    }
}

impl From<StoreFault> for BookFault {
    ghost use Rattle.std.specs.Prelude.{◌≡◌};
    ghost use Rattle.sipl_book.specs.BookFault.{of_store};

    ghost from_gives = { λ cause fault. fault ≡ of_store cause };

    fn from(fault: StoreFault) -> BookFault {
        match fault {
            StoreFault::Memory => BookFault::Memory,
            fault => BookFault::Store(fault),
        }
    }
}

impl From<BoardFault> for BookFault {
    ghost use Rattle.std.specs.Prelude.{◌≡◌};
    ghost use Rattle.sipl_book.specs.BookFault.{of_board};

    ghost from_gives = { λ cause fault. fault ≡ of_board cause };

    fn from(fault: BoardFault) -> BookFault {
        match fault {
            BoardFault::Memory => BookFault::Memory,
            fault => BookFault::Board(fault),
        }
    }
}

impl From<QueueFault> for BookFault {
    ghost use Rattle.std.specs.Prelude.{◌≡◌};
    ghost use Rattle.sipl_book.specs.declared.fault.BookFault.TheVariants.{Queue};

    ghost from_gives = { λ cause fault. fault ≡ Queue cause };

    fn from(fault: QueueFault) -> BookFault {
        BookFault::Queue(fault)
    }
}

impl From<AllocError> for BookFault {
    ghost use Rattle.std.specs.Prelude.{◌≡◌};
    ghost use Rattle.sipl_book.specs.declared.fault.BookFault.TheVariants.{Memory};

    ghost from_gives = { λ _ fault. fault ≡ Memory };

    fn from(_: AllocError) -> BookFault {
        BookFault::Memory
    }
}

impl<T: Drop> From<AllocFailed<T>> for BookFault {
    ghost use Rattle.std.specs.Prelude.{◌≡◌};
    ghost use Rattle.sipl_book.specs.declared.fault.BookFault.TheVariants.{Memory};

    ghost from_gives = { λ _ fault. fault ≡ Memory };

    fn from(_: AllocFailed<T>) -> BookFault {
        BookFault::Memory
    }
}
