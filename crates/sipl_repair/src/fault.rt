ghost use Rattle.std.specs.Prelude.{◌≡◌};
ghost use Rattle.sipl_repair.specs.QueueFault.{code_of};

use thiserror::Error;

/// Why the queue returns no lease. A refused call leaves the queue as it was.
#[derive(Clone, Copy, Debug, PartialEq, Eq, Hash, Error)]
pub enum QueueFault {
    /// Q1: no id is queued.
    #[error("no id is queued")]
    Empty,
}

impl QueueFault {
    /// The error's code in replies, such as `Q1`.
    pub fn code(self) -> &'static str
        ensures { result.now ≡ code_of self }
    {
        match self {
            QueueFault::Empty => "Q1",
        }
    }
}
