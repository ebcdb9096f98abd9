ghost use Rattle.std.specs.Prelude.{◌≡◌};

use std::sync::Wait;

/// Whose run reads.
#[derive(Clone, Copy, Debug, PartialEq, Eq)]
pub enum Who {
    /// A caller of `lookup`.
    Caller,
    /// The repair worker of this number, from 0.
    Repair(u64),
}

/// Whether a run goes on.
#[derive(Clone, Copy, Debug, PartialEq, Eq)]
pub enum Go {
    On,
    Stop,
}

/// What a run passes after each set that it reads.
pub trait Gate {
    /// Is called after each read of a run, with no lock held. `reads` counts the sets that this run
    /// has read, this one included. `Stop` ends the run: a lookup is refused (L6), and a repair gives
    /// its lease back.
    fn turn<R: Wait>(&self, rt: &R, who: Who, reads: u64) -> Go;
}

/// A gate that is always open.
#[derive(Clone, Copy, Debug)]
pub struct OpenGate;

impl Gate for OpenGate {
    fn turn<R: Wait>(&self, _rt: &R, _who: Who, _reads: u64) -> Go
        ensures { result ≡ Go.On }
    {
        Go::On
    }
}
