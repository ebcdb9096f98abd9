//! Why a connection is refused.
ghost use Rattle.std.specs.Prelude.{◌≡◌};
ghost use Rattle.sipl_listen.specs.Faults.{connection_code};

use thiserror::Error;

/// Why a connection has no session.
#[derive(Clone, Copy, Debug, PartialEq, Eq, Error)]
pub enum ConnectionFault {
    /// As many clients are connected as there may be at a time.
    #[error("as many clients are connected as there may be")]
    Busy,
}

impl ConnectionFault {
    /// The error's code, which is sent before the connection is closed.
    pub fn code(self) -> &'static str
        ensures { result.now ≡ connection_code self }
    {
        match self {
            ConnectionFault::Busy => "Busy",
        }
    }
}
