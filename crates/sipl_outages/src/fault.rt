ghost use Rattle.std.specs.Prelude.{◌≡◌};
ghost use Rattle.sipl_outages.specs.BoardFault.{code_of};

use std::alloc::{AllocError, AllocFailed};
use thiserror::Error;

/// Why a change of the holds or of the clock fails. The board is then unchanged.
#[derive(Clone, Copy, Debug, PartialEq, Eq, Hash, Error)]
pub enum BoardFault {
    /// O1: the time is before the present one.
    #[error("the time is before the present time")]
    ClockBack,
    /// O2: the time, or the end of the hold, is after 2^52.
    #[error("the time is after 2^52")]
    TooFar,
    /// O3: the endpoint is not held.
    #[error("the endpoint is not held")]
    NotHeld,
    /// O4: the held endpoints would exceed the board's maximum.
    #[error("the board is full")]
    BoardFull,
    /// An allocation failed.
    #[error("out of memory")]
    Memory,
}

impl BoardFault {
    /// The error's code in replies, such as `O1`.
    pub fn code(self) -> &'static str
        ensures { result.now ≡ code_of self }
    {
        match self {
            BoardFault::ClockBack => "O1",
            BoardFault::TooFar => "O2",
            BoardFault::NotHeld => "O3",
            BoardFault::BoardFull => "O4",
            BoardFault::Memory => "Memory",
        }
    }
}

impl From<AllocError> for BoardFault {
    ghost use Rattle.std.specs.Prelude.{◌≡◌};
    ghost use Rattle.sipl_outages.specs.declared.fault.BoardFault.TheVariants.{Memory};

    ghost from_gives = { λ _ fault. fault ≡ Memory };

    fn from(_: AllocError) -> BoardFault {
        BoardFault::Memory
    }
}

impl<T: Drop> From<AllocFailed<T>> for BoardFault {
    ghost use Rattle.std.specs.Prelude.{◌≡◌};
    ghost use Rattle.sipl_outages.specs.declared.fault.BoardFault.TheVariants.{Memory};

    ghost from_gives = { λ _ fault. fault ≡ Memory };

    fn from(_: AllocFailed<T>) -> BoardFault {
        BoardFault::Memory
    }
}
