ghost use Rattle.std.specs.Prelude.{◌≡◌};
ghost use Rattle.sipl_tx.specs.TxFault.{code_of};

use thiserror::Error;

/// Why a call was refused. A refused call leaves the transaction as it was.
#[derive(Clone, Copy, Debug, PartialEq, Eq, Hash, Error)]
pub enum TxFault {
    /// X1: the time is before that of the last tick.
    #[error("the time is before that of the last tick")]
    ClockBack,
    /// X2: the status code is not within 100 to 699.
    #[error("the status code is not within 100 to 699")]
    BadCode,
    /// X3: the transaction has ended.
    #[error("the transaction has ended")]
    Ended,
}

impl TxFault {
    /// The error's code in replies, such as `X1`.
    pub fn code(self) -> &'static str
        ensures { result.now ≡ code_of self }
    {
        match self {
            TxFault::ClockBack => "X1",
            TxFault::BadCode => "X2",
            TxFault::Ended => "X3",
        }
    }
}
