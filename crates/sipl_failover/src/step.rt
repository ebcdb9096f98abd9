ghost use Rattle.std.specs.Prelude.{◌≡◌, ◌≤◌, ◌<◌, [], ◌∷◌, ◌++◌, length};

use sipl_choice::Endpoint;
use std::marker::Model;

/// A step that the caller carries out.
#[derive(Clone, Copy, Debug, PartialEq, Eq, Hash)]
pub enum Step {
    /// Send the request to the target of this attempt, with the attempt's own branch.
    Send(u32),
    /// Send the request of the running attempt again.
    Resend,
    /// Send an ACK for the response to this attempt (RFC 3261, 17.1.1.3).
    Ack(u32),
    /// Hold the endpoint for so many milliseconds: no request goes to it meanwhile.
    Hold(Endpoint, u64),
    /// Pass a response with this status code to the user.
    Deliver(u16),
    /// Report to the user that all targets have failed.
    Exhausted,
}

/// The steps of one call, in order: at most four.
#[derive(Debug, Drop)]
pub struct Steps {
    items: [Step; 4],
    len: usize,
}

impl Model for Steps {
    ghost use Rattle.std.specs.Prelude.{◌≤◌, List, take};
    ghost use Rattle.sipl_failover.specs.declared.step.Step.{Step};

    ghost Value = { List Step };

    ghost view = { λ steps. take steps.len steps.items };

    ghost invariant = { λ steps. steps.len ≤ 4 };
}

impl Steps {
    // No step.
    pub(crate) fn new() -> Self
        ensures { result ≡ [] }
    {
        Steps {
            items: [Step::Resend; 4],
            len: 0,
        }
    }

    // Appends a step.
    pub(crate) fn push(&mut self, step: Step)
        requires { length self.old < 4 }
        ensures { self.new ≡ self.old ++ step ∷ [] }
    {
        self.items[self.len] = step;
        self.len += 1;
    }

    /// The steps, in the order in which they are carried out.
    pub fn as_slice(&self) -> &[Step]
        ensures value { result.now ≡ self.now }
        ensures limit { length self.now ≤ 4 }
    {
        &self.items[..self.len]
    }
}
