ghost use Rattle.std.specs.Prelude.{◌≡◌};
ghost use Rattle.sipl_names.specs.InvalidName.{code_of as invalid_code_of};
ghost use Rattle.sipl_names.specs.NameFault.{code_of};

use std::alloc::AllocError;
use thiserror::Error;

/// Why a text or a list of labels is not a name.
#[derive(Clone, Copy, Debug, PartialEq, Eq, Hash, Error)]
pub enum InvalidName {
    /// N1: a label without octets, or an empty text.
    #[error("a label is empty")]
    EmptyLabel,
    /// N2: a label of more than 63 octets (RFC 1035, 2.3.4).
    #[error("a label has more than 63 octets")]
    LabelTooLong,
    /// N3: a wire form of more than 255 octets (RFC 1035, 2.3.4).
    #[error("the name has more than 255 octets")]
    NameTooLong,
    /// N4: a backslash that begins no escape (RFC 1035, 5.1).
    #[error("a backslash begins no escape")]
    BadEscape,
}

impl InvalidName {
    /// The error's code in replies, such as `N1`.
    pub fn code(self) -> &'static str
        ensures { result.now ≡ invalid_code_of self }
    {
        match self {
            InvalidName::EmptyLabel => "N1",
            InvalidName::LabelTooLong => "N2",
            InvalidName::NameTooLong => "N3",
            InvalidName::BadEscape => "N4",
        }
    }
}

/// Why a call that makes a name failed.
#[derive(Clone, Copy, Debug, PartialEq, Eq, Hash, Error)]
pub enum NameFault {
    /// What was given is not a name.
    #[error("{0}")]
    Invalid(InvalidName),
    /// An allocation failed.
    #[error("out of memory")]
    Memory,
}

impl NameFault {
    /// The error's code in replies, such as `N1`.
    pub fn code(self) -> &'static str
        ensures { result.now ≡ code_of self }
    {
        match self {
            NameFault::Invalid(invalid) => invalid.code(),
            NameFault::Memory => "Memory",
        }
    }
}

impl From<InvalidName> for NameFault {
    ghost use Rattle.std.specs.Prelude.{◌≡◌};
    ghost use Rattle.sipl_names.specs.declared.fault.NameFault.TheVariants.{Invalid};

    ghost from_gives = { λ invalid fault. fault ≡ Invalid invalid };

    fn from(invalid: InvalidName) -> NameFault {
        NameFault::Invalid(invalid)
    }
}

impl From<AllocError> for NameFault {
    ghost use Rattle.std.specs.Prelude.{◌≡◌};
    ghost use Rattle.sipl_names.specs.declared.fault.NameFault.TheVariants.{Memory};

    ghost from_gives = { λ _ fault. fault ≡ Memory };

    fn from(_: AllocError) -> NameFault {
        NameFault::Memory
    }
}
