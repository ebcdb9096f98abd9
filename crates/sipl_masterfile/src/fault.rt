ghost use Rattle.std.specs.Prelude.{◌≡◌};

use sipl_names::{InvalidName, NameFault};
use sipl_records::AddressFault;
use std::alloc::{AllocError, AllocFailed};
use thiserror::Error;

/// What is wrong with an entry of a master file.
#[derive(Clone, Copy, Debug, PartialEq, Eq, Hash, Error)]
pub enum ZoneCause {
    /// Z1: an invalid name, and its fault.
    #[error("bad name: {0}")]
    InName(InvalidName),
    /// Z2: a missing field, or one that is invalid in its place.
    #[error("a field is missing")]
    MissingField,
    /// Z3: a number or a TTL that is invalid or too large.
    #[error("a number is invalid or too large")]
    BadNumber,
    /// Z4: an invalid address.
    #[error("not an IP address")]
    BadAddress,
    /// Z5: a parenthesis that closes none, or that is not closed.
    #[error("a parenthesis does not match")]
    Parenthesis,
    /// Z6: a quote that is not closed before the line's end.
    #[error("a quote is not closed")]
    OpenQuote,
    /// Z7: a class other than `IN`.
    #[error("the class is not IN")]
    ClassNotIn,
    /// Z8: `$INCLUDE`, which is not supported.
    #[error("$INCLUDE is not supported")]
    Include,
    /// Z9: `$GENERATE`, which is not supported.
    #[error("$GENERATE is not supported")]
    Generate,
    /// Z10: a known type or its data in the generic form (RFC 3597, 5).
    #[error("a known type is in the generic form")]
    GenericForm,
    /// Z11: a string of more than 255 octets.
    #[error("a string has more than 255 octets")]
    StringTooLong,
    /// Z12: a record without an owner, before which no owner is stated.
    #[error("the record has no owner")]
    NoOwner,
    /// Z13: a further field after the last one of its entry.
    #[error("the entry has a field too many")]
    ExtraField,
    /// Z14: an alias beside other data of its owner (RFC 1034, 3.6.2).
    #[error("an alias is beside other data")]
    AliasBesideData,
    /// Z15: a 33rd record of a set.
    #[error("the record set has 32 records already")]
    SetFull,
    /// An allocation failed.
    #[error("out of memory")]
    Memory,
}

/// The first fault of a text, and the line on which its entry begins, counted from 1. An allocation
/// failure is at line 1.
#[derive(Clone, Copy, Debug, PartialEq, Eq, Hash, Error)]
#[error("line {line}: {cause}")]
pub struct ZoneFault {
    pub line: u64,
    pub cause: ZoneCause,
}

impl ZoneCause {
    ghost use Rattle.sipl_masterfile.specs.ZoneCause.{code_of};

    /// The error's code in replies, such as `Z1`.
    pub fn code(self) -> &'static str
        ensures { result.now ≡ code_of self }
    {
        match self {
            ZoneCause::InName(_) => "Z1",
            ZoneCause::MissingField => "Z2",
            ZoneCause::BadNumber => "Z3",
            ZoneCause::BadAddress => "Z4",
            ZoneCause::Parenthesis => "Z5",
            ZoneCause::OpenQuote => "Z6",
            ZoneCause::ClassNotIn => "Z7",
            ZoneCause::Include => "Z8",
            ZoneCause::Generate => "Z9",
            ZoneCause::GenericForm => "Z10",
            ZoneCause::StringTooLong => "Z11",
            ZoneCause::NoOwner => "Z12",
            ZoneCause::ExtraField => "Z13",
            ZoneCause::AliasBesideData => "Z14",
            ZoneCause::SetFull => "Z15",
            ZoneCause::Memory => "Memory",
        }
    }
}

impl ZoneFault {
    ghost use Rattle.std.specs.Prelude.{◌≢◌, ◌↔◌, true};
    ghost use Rattle.sipl_masterfile.specs.ZoneFault.{code_of};

    // The fault of an entry that begins in this line; an allocation failure is at line 1.
    pub(crate) fn at(line: u64, cause: ZoneCause) -> Self
        ensures cause { result.cause ≡ cause }
        ensures line { cause ≢ ZoneCause.Memory → result.line ≡ line }
        ensures memory { cause ≡ ZoneCause.Memory → result.line ≡ 1 }
    {
        let line = if cause == ZoneCause::Memory { 1 } else { line };
        ZoneFault { line, cause }
    }

    /// The error's code in replies, such as `Z1`.
    pub fn code(self) -> &'static str
        ensures { result.now ≡ code_of self }
    {
        self.cause.code()
    }

    /// Whether it is an allocation failure.
    pub fn is_memory(self) -> bool
        ensures { (result ≡ true) ↔ (self.cause ≡ ZoneCause.Memory) }
    {
        matches!(self.cause, ZoneCause::Memory)
    }
}

impl From<AllocError> for ZoneCause {
    ghost use Rattle.std.specs.Prelude.{◌≡◌};
    ghost use Rattle.sipl_masterfile.specs.declared.fault.ZoneCause.TheVariants.{Memory};

    ghost from_gives = { λ _ cause. cause ≡ Memory };

    fn from(_: AllocError) -> ZoneCause {
        ZoneCause::Memory
    }
}

impl From<AllocError> for ZoneFault {
    ghost use Rattle.std.specs.Prelude.{◌≡◌};
    ghost use Rattle.sipl_masterfile.specs.declared.fault.ZoneCause.TheVariants.{Memory};

    ghost from_gives = { λ _ fault. fault ≡ record { line = 1; cause = Memory } };

    fn from(_: AllocError) -> ZoneFault {
        ZoneFault {
            line: 1,
            cause: ZoneCause::Memory,
        }
    }
}

impl<T: Drop> From<AllocFailed<T>> for ZoneFault {
    ghost use Rattle.std.specs.Prelude.{◌≡◌};
    ghost use Rattle.sipl_masterfile.specs.declared.fault.ZoneCause.TheVariants.{Memory};

    ghost from_gives = { λ _ fault. fault ≡ record { line = 1; cause = Memory } };

    fn from(failed: AllocFailed<T>) -> ZoneFault {
        AllocError::from(failed).into()
    }
}

impl From<NameFault> for ZoneCause {
    ghost use Rattle.std.specs.Prelude.{◌≡◌};
    ghost use Rattle.sipl_masterfile.specs.ZoneCause.{cause_of};

    ghost from_gives = { λ fault cause. cause ≡ cause_of fault };

    fn from(fault: NameFault) -> ZoneCause {
        match fault {
            NameFault::Invalid(invalid) => ZoneCause::InName(invalid),
            NameFault::Memory => ZoneCause::Memory,
        }
    }
}

impl From<AddressFault> for ZoneCause {
    ghost use Rattle.std.specs.Prelude.{◌≡◌};
    ghost use Rattle.sipl_masterfile.specs.declared.fault.ZoneCause.TheVariants.{BadAddress};

    ghost from_gives = { λ _ cause. cause ≡ BadAddress };

    fn from(_: AddressFault) -> ZoneCause {
        ZoneCause::BadAddress
    }
}
