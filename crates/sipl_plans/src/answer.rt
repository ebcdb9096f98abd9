ghost use Rattle.std.specs.Prelude.{◌≡◌, ◌≢◌, IfOk, OnErr};
ghost use Rattle.sipl_plans.specs.Reasons.{reason_text};

use crate::shared::SharedSequence;
use sipl_choice::Endpoint;
use std::alloc::{AllocError, Global};
use std::fmt;

/// Why there are no targets.
#[derive(Clone, Copy, Debug, PartialEq, Eq, Hash)]
pub enum Reason {
    /// No server has an address.
    NoAddress,
    /// The domain's SRV records say that it does not offer the service (RFC 2782).
    NotAvailable,
    /// The client does not support the transport.
    NoTransport,
    /// All endpoints are held (RFC 3263, 4.3).
    AllHeld,
}

/// The answer to a question (RFC 3263, 4).
#[derive(Debug, PartialEq, Eq, Drop)]
pub enum Answer {
    /// Where to send the request: each endpoint once, the one to try first before all others.
    Targets(SharedSequence<Endpoint>),
    /// Nowhere, and the reason.
    None(Reason),
}

impl Answer {
    /// A copy, which shares the targets. Does not allocate: the only error is that 2^63 others share
    /// them.
    pub fn dup(&self, _alloc: Global) -> Result<Self, AllocError>
        ensures value { IfOk result (λ copy. copy ≡ self.now) }
        ensures memory { OnErr result ((reason : Reason) → self.now ≢ Answer.None reason) }
    {
        match self {
            Answer::Targets(targets) => Ok(Answer::Targets(targets.dup()?)),
            Answer::None(reason) => Ok(Answer::None(*reason)),
        }
    }
}

impl Reason {
    /// The reason's name in replies, such as `NoAddress`.
    pub fn name(self) -> &'static str
        ensures { result.now ≡ reason_text self }
    {
        match self {
            Reason::NoAddress => "NoAddress",
            Reason::NotAvailable => "NotAvailable",
            Reason::NoTransport => "NoTransport",
            Reason::AllHeld => "AllHeld",
        }
    }
}

impl fmt::Display for Reason {
    ghost use Rattle.std.specs.Prelude.{Some};

    ghost output = { λ reason. Some (reason_text reason) };

    fn fmt<W: fmt::Write>(&self, f: &mut fmt::Formatter<W>) -> fmt::Result {
        f.write_str(self.name())
    }
}
