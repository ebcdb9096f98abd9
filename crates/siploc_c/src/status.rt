ghost use Rattle.std.specs.Prelude.{◌≡◌};
ghost use Rattle.siploc_c.specs.Status.{number_of, status_of};

use sipl_lines::{Ended, ServeFault};

/// How a call from C ends. Its number is that of `siploc_embedded.h`.
#[derive(Clone, Copy, Debug, PartialEq, Eq)]
pub(crate) enum Status {
    // All that was asked for is done; of a whole session, it has ended.
    Done,
    // A read of the socket failed.
    Read,
    // A write to the socket failed.
    Write,
    // The session is longer than the reads that are allowed.
    TooManyTurns,
    // An allocation failed.
    Memory,
    // The settings are refused.
    Settings,
    // The replies do not fit.
    NoRoom,
}

impl Status {
    /// The number in `siploc_embedded.h`.
    pub(crate) fn number(self) -> u32
        ensures { result ≡ number_of self }
    {
        match self {
            Status::Done => 0,
            Status::Read => 1,
            Status::Write => 2,
            Status::TooManyTurns => 3,
            Status::Memory => 4,
            Status::Settings => 5,
            Status::NoRoom => 6,
        }
    }

    /// The status of a session that has ended so, or was aborted.
    pub(crate) fn of(ending: &Result<Ended, ServeFault>) -> Status
        ensures { result ≡ status_of ending.now }
    {
        match ending {
            Ok(_) => Status::Done,
            Err(ServeFault::Read) => Status::Read,
            Err(ServeFault::Write) => Status::Write,
            Err(ServeFault::TooManyTurns) => Status::TooManyTurns,
            Err(ServeFault::Memory) => Status::Memory,
        }
    }
}
