ghost use Rattle.std.specs.Prelude.{◌≡◌};
ghost use Rattle.sipl_failover.specs.FailoverFault.{code_of};

use sipl_tx::TxFault;
use std::alloc::AllocError;
use thiserror::Error;

/// Why a call was refused. A refused call leaves the failover as it was.
#[derive(Clone, Copy, Debug, PartialEq, Eq, Hash, Error)]
pub enum FailoverFault {
    /// F1: the list of targets is empty.
    #[error("the list of targets is empty")]
    NoTargets,
    /// F2: the failover has ended.
    #[error("the failover has ended")]
    Ended,
    /// F3: no attempt of this number was sent.
    #[error("no such attempt was sent")]
    NoAttempt,
    /// X1: the time is before that of the last tick.
    #[error("the time is before that of the last tick")]
    ClockBack,
    /// X2: the status code is not within 100 to 699.
    #[error("the status code is not within 100 to 699")]
    BadCode,
    /// An allocation failed.
    #[error("out of memory")]
    Memory,
}

impl FailoverFault {
    /// The error's code in replies, such as `F1`.
    pub fn code(self) -> &'static str
        ensures { result.now ≡ code_of self }
    {
        match self {
            FailoverFault::NoTargets => "F1",
            FailoverFault::Ended => "F2",
            FailoverFault::NoAttempt => "F3",
            FailoverFault::ClockBack => "X1",
            FailoverFault::BadCode => "X2",
            FailoverFault::Memory => "Memory",
        }
    }
}

impl From<AllocError> for FailoverFault {
    ghost use Rattle.sipl_failover.specs.declared.fault.FailoverFault.TheVariants.{Memory};

    ghost from_gives = { λ _ fault. fault ≡ Memory };

    fn from(_: AllocError) -> Self {
        FailoverFault::Memory
    }
}

impl From<TxFault> for FailoverFault {
    ghost use Rattle.sipl_failover.specs.FailoverFault.{of_tx_fault};

    ghost from_gives = { λ fault result. result ≡ of_tx_fault fault };

    fn from(fault: TxFault) -> Self {
        match fault {
            TxFault::ClockBack => FailoverFault::ClockBack,
            TxFault::BadCode => FailoverFault::BadCode,
            TxFault::Ended => FailoverFault::Ended,
        }
    }
}
