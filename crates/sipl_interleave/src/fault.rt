ghost use Rattle.std.specs.Prelude.{◌≡◌};
ghost use Rattle.sipl_interleave.specs.WorldFault.{code_of};

use sipl_book::BookFault;
use thiserror::Error;

/// Why a step of a world is refused.
#[derive(Clone, Copy, Debug, PartialEq, Eq, Hash, Error)]
pub enum WorldFault {
    /// I1: there is no worker of this number.
    #[error("there is no such worker")]
    NoWorker,
    /// I2: the worker has a run.
    #[error("the worker has a run")]
    Busy,
    /// I3: the worker has no run, or its run is under a lease and is to be committed, or is not and
    /// is to be settled.
    #[error("the worker has no such run")]
    Idle,
    /// I4: the run still wants a set, or is to be given one and wants none.
    #[error("the run is not ready")]
    NotReady,
    /// A fault of the book.
    #[error(transparent)]
    Book(BookFault),
}

impl WorldFault {
    /// The error's code in replies, such as `I1`.
    pub fn code(self) -> &'static str
        ensures { result.now ≡ code_of self }
    {
        match self {
            WorldFault::NoWorker => "I1",
            WorldFault::Busy => "I2",
            WorldFault::Idle => "I3",
            WorldFault::NotReady => "I4",
            WorldFault::Book(fault) => fault.code(),
        }
    }
}

impl From<BookFault> for WorldFault {
    ghost use Rattle.std.specs.Prelude.{◌≡◌};
    ghost use Rattle.sipl_interleave.specs.declared.fault.WorldFault.TheVariants.{Book};

    ghost from_gives = { λ cause fault. fault ≡ Book cause };

    fn from(fault: BookFault) -> WorldFault {
        WorldFault::Book(fault)
    }
}
