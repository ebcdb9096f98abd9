ghost use Rattle.std.specs.Prelude.{◌≡◌};
ghost use Rattle.sipl_records.specs.AddressFault.{code_of};

use thiserror::Error;

/// Why a text is not an IP address.
#[derive(Clone, Copy, Debug, PartialEq, Eq, Hash, Error)]
pub enum AddressFault {
    /// A1: the text is not an IP address.
    #[error("not an IP address")]
    BadAddress,
}

impl AddressFault {
    /// The error's code in replies, such as `A1`.
    pub fn code(self) -> &'static str
        ensures { result.now ≡ code_of self }
    {
        match self {
            AddressFault::BadAddress => "A1",
        }
    }
}
