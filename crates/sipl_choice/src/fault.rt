ghost use Rattle.std.specs.Prelude.{◌≡◌};
ghost use Rattle.sipl_choice.specs.AbilitiesFault.{code_of};

use thiserror::Error;

/// Why a list of transports is invalid as a client's preference.
#[derive(Clone, Copy, Debug, PartialEq, Eq, Hash, Error)]
pub enum AbilitiesFault {
    /// C1: the list is empty.
    #[error("the client has no transport")]
    EmptyAbilities,
    /// C2: a transport is listed twice.
    #[error("a transport is listed twice")]
    RepeatedTransport,
}

impl AbilitiesFault {
    /// The error's code in replies, such as `C1`.
    pub fn code(self) -> &'static str
        ensures { result.now ≡ code_of self }
    {
        match self {
            AbilitiesFault::EmptyAbilities => "C1",
            AbilitiesFault::RepeatedTransport => "C2",
        }
    }
}
