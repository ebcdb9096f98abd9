ghost use Rattle.std.specs.Prelude.{◌≡◌, string_bytes};
ghost use Rattle.sipl_lines.specs.SettingsFault.{code_of, fault_of, key_fault};

use sipl_choice::AbilitiesFault;
use std::alloc::{AllocError, AllocFailed};
use thiserror::Error;

/// Why the settings of a text can't be read. Keys are as in the text, without quotes.
#[derive(Debug, Drop, Error)]
pub enum SettingsFault {
    /// G1: the text is not a TOML document.
    #[error("the settings are not a TOML document")]
    NotToml,
    /// G2: the settings have no such key.
    #[error("the settings have no key `{0}`")]
    UnknownKey(String),
    /// G3: the key does not allow its value.
    #[error("the value of `{0}` is not allowed")]
    BadValue(String),
    /// An allocation failed.
    #[error("out of memory")]
    Memory,
}

impl SettingsFault {
    /// The error's code, such as `G1`.
    pub fn code(&self) -> &'static str
        ensures { result.now ≡ code_of self.now }
    {
        match self {
            SettingsFault::NotToml => "G1",
            SettingsFault::UnknownKey(_) => "G2",
            SettingsFault::BadValue(_) => "G3",
            SettingsFault::Memory => "Memory",
        }
    }
}

impl From<AllocError> for SettingsFault {
    ghost use Rattle.std.specs.Prelude.{◌≡◌};
    ghost use Rattle.sipl_lines.specs.declared.settings.fault.SettingsFault.TheVariants.{Memory};

    ghost from_gives = { λ _ fault. fault ≡ Memory };

    fn from(_: AllocError) -> SettingsFault {
        SettingsFault::Memory
    }
}

// Why a key or its value is refused.
#[derive(Clone, Copy, Debug, PartialEq, Eq)]
pub(super) enum Refusal {
    UnknownKey,
    BadValue,
    Memory,
}

impl Refusal {
    // The fault of a key that is refused.
    pub(super) fn at(self, key: String) -> SettingsFault
        ensures { fault_of result ≡ key_fault self (string_bytes key) }
    {
        match self {
            Refusal::UnknownKey => SettingsFault::UnknownKey(key),
            Refusal::BadValue => SettingsFault::BadValue(key),
            Refusal::Memory => SettingsFault::Memory,
        }
    }
}

impl From<AbilitiesFault> for Refusal {
    ghost use Rattle.std.specs.Prelude.{◌≡◌};
    ghost use Rattle.sipl_lines.specs.declared.settings.fault.Refusal.TheVariants.{BadValue};

    ghost from_gives = { λ _ refusal. refusal ≡ BadValue };

    fn from(_: AbilitiesFault) -> Refusal {
        Refusal::BadValue
    }
}

impl From<AllocError> for Refusal {
    ghost use Rattle.std.specs.Prelude.{◌≡◌};
    ghost use Rattle.sipl_lines.specs.declared.settings.fault.Refusal.TheVariants.{Memory};

    ghost from_gives = { λ _ refusal. refusal ≡ Memory };

    fn from(_: AllocError) -> Refusal {
        Refusal::Memory
    }
}

impl<T: Drop> From<AllocFailed<T>> for Refusal {
    ghost use Rattle.std.specs.Prelude.{◌≡◌};
    ghost use Rattle.sipl_lines.specs.declared.settings.fault.Refusal.TheVariants.{Memory};

    ghost from_gives = { λ _ refusal. refusal ≡ Memory };

    fn from(_: AllocFailed<T>) -> Refusal {
        Refusal::Memory
    }
}
