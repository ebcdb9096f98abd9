ghost use Rattle.std.specs.Prelude.{◌≡◌};
ghost use Rattle.sipl_srv.specs.DrawsFault.{code_of};

use thiserror::Error;

/// Why a list of words is invalid as draws.
#[derive(Clone, Copy, Debug, PartialEq, Eq, Hash, Error)]
pub enum DrawsFault {
    /// V1: there are more than 32 words.
    #[error("more than 32 words")]
    TooManyWords,
}

impl DrawsFault {
    /// The error's code in replies, such as `V1`.
    pub fn code(self) -> &'static str
        ensures { result.now ≡ code_of self }
    {
        match self {
            DrawsFault::TooManyWords => "V1",
        }
    }
}
