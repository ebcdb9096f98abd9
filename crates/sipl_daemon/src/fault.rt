//! Why a line is refused, and why a state can't be read.
ghost use Rattle.std.specs.Prelude.{◌≡◌};
ghost use Rattle.sipl_daemon.specs.Faults.{desk_code};

use sipl_process::Fault;
use sipl_service::ServiceFault;
use sipl_state::StateFault;
use std::alloc::{AllocError, Global};
use thiserror::Error;

/// Why a line of a session is refused.
#[derive(Debug, Drop, Error)]
pub enum DeskFault {
    /// D1: a client's `clock` line, where the time is the host's.
    #[error("the time is the host's")]
    HostTime,
    /// D2: a change or a hold, while changes can't be written to the files of the state.
    #[error("changes can't be kept at present")]
    NotKept,
    /// D3: a line that does more than to ask, at an address of `find`.
    #[error("the address is for questions only")]
    AsksOnly,
    /// A fault of the service.
    #[error(transparent)]
    Service(ServiceFault),
}

impl DeskFault {
    /// The error's code in replies, such as `D1`.
    pub fn code(&self) -> &'static str
        ensures { result.now ≡ desk_code self.now }
    {
        match self {
            DeskFault::HostTime => "D1",
            DeskFault::NotKept => "D2",
            DeskFault::AsksOnly => "D3",
            DeskFault::Service(fault) => fault.code(),
        }
    }
}

/// The fault of a state of this path that can't be read.
pub(crate) fn state_fault(
    alloc: Global,
    path: &str,
    fault: StateFault,
) -> Result<Fault, AllocError> {
    let text = match fault {
        StateFault::File(error) => return Ok(Fault::State(String::from_str(alloc, path)?, error)),
        StateFault::Log(error) => {
            return Ok(Fault::State(format!(in alloc; "{path}.log")?, error));
        }
        // (the first line of a state or of a log has no change that could be refused)
        StateFault::State(1) => format!(in alloc; "siplocd: state {path}: line 1: not a state"),
        StateFault::State(line) => format!(in alloc; "siplocd: state {path}: line {line}: refused"),
        StateFault::Digest => format!(in alloc; "siplocd: state {path}: not as it was written"),
        StateFault::Line(1) => format!(in alloc; "siplocd: state {path}.log: line 1: not a log"),
        StateFault::Line(line) => {
            format!(in alloc; "siplocd: state {path}.log: line {line}: refused")
        }
        StateFault::Octet(place) => {
            format!(in alloc; "siplocd: state {path}.log: octet {place}: not as it was written")
        }
        StateFault::Commit(number) => {
            format!(in alloc; "siplocd: state {path}.log: commit {number}: refused")
        }
        StateFault::OtherLog => format!(in alloc; "siplocd: state {path}.log: not of this state"),
    };
    Ok(Fault::InState(text?))
}
