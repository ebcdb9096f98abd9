//! Faults of the program, and what is said of them.
use sipl_archive::ReplayFault;
use sipl_lines::SettingsFault;
use sipl_listen::Address;
use sipl_service::{ClaimFault, ServiceFault};
use sipl_settings::GivenFault;
use std::alloc::{AllocError, AllocFailed};
use std::fmt::Write as _;
use std::io;

/// Why the daemon does not begin, or ends with a fault.
#[derive(Drop)]
pub enum Fault {
    /// The settings can't be read.
    Settings(GivenFault),
    /// It cannot listen there.
    Listen(Address, io::Error),
    /// Nobody is there to be told, or the connection failed.
    Tell(String, io::Error),
    /// Standard output failed, or the clock.
    Stream(io::Error),
    /// A file of the state of this path can't be read.
    State(String, io::Error),
    /// What a state has is refused: where, and why.
    InState(String),
    /// The archive of this path can't be opened.
    Archive(String, io::Error),
    /// An archive is not replayed.
    Replay(ReplayFault),
    /// It ends with a fault.
    Close(CloseFault),
    /// An allocation failed.
    Memory,
}

/// Why a daemon ends with a fault.
#[derive(Drop)]
pub enum CloseFault {
    /// The service is not closed.
    Close(ServiceFault),
    /// The events are not what callers were told.
    Claim(ClaimFault),
    /// The state, or its changes, are not written.
    State(io::Error),
    /// A page is not archived.
    Archive(io::Error),
}

impl From<ClaimFault> for CloseFault {
    fn from(fault: ClaimFault) -> CloseFault {
        CloseFault::Claim(fault)
    }
}

impl From<AllocError> for CloseFault {
    fn from(_: AllocError) -> CloseFault {
        CloseFault::Claim(ClaimFault::Memory)
    }
}

impl From<GivenFault> for Fault {
    fn from(fault: GivenFault) -> Fault {
        Fault::Settings(fault)
    }
}

impl From<SettingsFault> for Fault {
    fn from(fault: SettingsFault) -> Fault {
        Fault::Settings(GivenFault::Settings(fault))
    }
}

impl From<AllocError> for Fault {
    fn from(_: AllocError) -> Fault {
        Fault::Memory
    }
}

impl<T: Drop> From<AllocFailed<T>> for Fault {
    fn from(_: AllocFailed<T>) -> Fault {
        Fault::Memory
    }
}

impl From<io::Error> for Fault {
    fn from(error: io::Error) -> Fault {
        Fault::Stream(error)
    }
}

impl From<CloseFault> for Fault {
    fn from(fault: CloseFault) -> Fault {
        Fault::Close(fault)
    }
}

impl From<ReplayFault> for Fault {
    fn from(fault: ReplayFault) -> Fault {
        match fault {
            ReplayFault::Memory => Fault::Memory,
            fault => Fault::Replay(fault),
        }
    }
}

impl Fault {
    /// Appends what is said of it on standard error.
    pub fn write(&self, out: &mut String) -> Result<(), AllocError> {
        match self {
            Fault::Settings(fault) => fault.write(out),
            Fault::Listen(address, error) => write!(out, "siplocd: listen {address}: {error}"),
            Fault::Tell(address, error) => write!(out, "siplocd: tell {address}: {error}"),
            Fault::Stream(error) => write!(out, "siplocd: {error}"),
            Fault::State(path, error) => write!(out, "siplocd: state {path}: {error}"),
            Fault::InState(text) => out.push_str(text.as_str()),
            Fault::Archive(path, error) => write!(out, "siplocd: archive {path}: {error}"),
            Fault::Replay(fault) => write_replay_fault(out, fault),
            Fault::Close(fault) => write_close_fault(out, fault),
            Fault::Memory => write!(out, "siplocd: out of memory"),
        }
    }
}

// Appends why the daemon ends with a fault.
fn write_close_fault(out: &mut String, fault: &CloseFault) -> Result<(), AllocError> {
    match fault {
        CloseFault::Close(fault) => write!(out, "siplocd: close {}", fault.code()),
        CloseFault::Claim(fault) => write!(out, "siplocd: claim {}", fault.code()),
        CloseFault::State(error) => write!(out, "siplocd: state: {error}"),
        CloseFault::Archive(error) => write!(out, "siplocd: archive: {error}"),
    }
}

// Appends why an archive is not replayed.
fn write_replay_fault(out: &mut String, fault: &ReplayFault) -> Result<(), AllocError> {
    match fault {
        ReplayFault::File(path, error) => write!(out, "siplocd: replay {path}: {error}"),
        ReplayFault::Misnamed(path) => write!(out, "siplocd: replay {path}: misnamed"),
        ReplayFault::NotPage(path) => write!(out, "siplocd: replay {path}: not a whole page"),
        ReplayFault::Changed(path) => write!(out, "siplocd: replay {path}: not as it was written"),
        ReplayFault::Gap(path) => write!(
            out,
            "siplocd: replay {path}: a page before it is missing"
        ),
        ReplayFault::OtherClient(path) => write!(out, "siplocd: replay {path}: of another client"),
        ReplayFault::Event(path, number) => write!(out, "siplocd: replay {path}: event {number}"),
        ReplayFault::Memory => write!(out, "siplocd: out of memory"),
    }
}
