ghost use Rattle.std.specs.Prelude.{◌≡◌};
ghost use Rattle.sipl_evidence.specs.EvidenceFault.{code_of};

use std::alloc::AllocError;
use thiserror::Error;

/// Why an item is not appended to evidence. The evidence is then unchanged.
#[derive(Clone, Copy, Debug, PartialEq, Eq, Hash, Error)]
pub enum EvidenceFault {
    /// E1: the evidence has an item of the key already.
    #[error("the set is read already")]
    AlreadyRead,
    /// An allocation failed.
    #[error("out of memory")]
    Memory,
}

impl EvidenceFault {
    /// The error's code in replies, such as `E1`.
    pub fn code(self) -> &'static str
        ensures { result.now ≡ code_of self }
    {
        match self {
            EvidenceFault::AlreadyRead => "E1",
            EvidenceFault::Memory => "Memory",
        }
    }
}

impl From<AllocError> for EvidenceFault {
    ghost use Rattle.std.specs.Prelude.{◌≡◌};
    ghost use Rattle.sipl_evidence.specs.declared.fault.EvidenceFault.TheVariants.{Memory};

    ghost from_gives = { λ _ fault. fault ≡ Memory };

    fn from(_: AllocError) -> EvidenceFault {
        EvidenceFault::Memory
    }
}
