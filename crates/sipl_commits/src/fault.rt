use std::alloc::AllocError;
use thiserror::Error;

/// Why a state is not read.
#[derive(Clone, Copy, Debug, PartialEq, Eq, Error)]
pub enum StateFault {
    /// It has the first format, which has no digest.
    #[error("the first format")]
    FirstFormat,
    /// Its first line is another one.
    #[error("line 1")]
    Format,
    /// Its last line is not the digest of what is before it.
    #[error("its digest is another one")]
    Digest,
    /// An allocation failed.
    #[error("out of memory")]
    Memory,
}

impl From<AllocError> for StateFault {
    ghost use Rattle.std.specs.Prelude.{◌≡◌};
    ghost use Rattle.sipl_commits.specs.declared.fault.StateFault.TheVariants.{Memory};

    ghost from_gives = { λ _ fault. fault ≡ Memory };

    fn from(_: AllocError) -> StateFault {
        StateFault::Memory
    }
}

/// Why a log is not read.
#[derive(Clone, Copy, Debug, PartialEq, Eq, Error)]
pub enum LogFault {
    /// It has the first format, which has no digests.
    #[error("the first format")]
    FirstFormat,
    /// Its first line is not whole, or another one.
    #[error("line 1")]
    Head,
    /// It is whole so far, and of another state.
    #[error("not of this state")]
    OtherState,
    /// The commit at this place is not as it was written: commits come after it.
    #[error("octet {0}")]
    Commit(usize),
    /// An allocation failed.
    #[error("out of memory")]
    Memory,
}

impl From<AllocError> for LogFault {
    ghost use Rattle.std.specs.Prelude.{◌≡◌};
    ghost use Rattle.sipl_commits.specs.declared.fault.LogFault.TheVariants.{Memory};

    ghost from_gives = { λ _ fault. fault ≡ Memory };

    fn from(_: AllocError) -> LogFault {
        LogFault::Memory
    }
}
