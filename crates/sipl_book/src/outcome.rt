ghost use Rattle.std.specs.Prelude.{◌≡◌};
ghost use Rattle.sipl_book.specs.BookFault.{code_of};

use crate::fault::BookFault;
use sipl_plans::{Answer, Finding};
use std::fmt;
use thiserror::Error;

/// An edit that was made.
#[derive(Clone, Copy, Debug, PartialEq, Eq)]
pub struct Done {
    /// The number of its event.
    pub number: u64,
    /// How many record sets changed, without those of existence.
    pub changed: u64,
}

/// Which events a page has.
#[derive(Clone, Copy, Debug, PartialEq, Eq)]
pub struct Extent {
    /// The number of the first event.
    pub first: u64,
    /// How many events there are.
    pub count: u64,
}

/// An answer, and the number of its event.
#[derive(Debug, Drop)]
pub struct Handed {
    /// The number of its event.
    pub number: u64,
    /// The targets, or the reason that there are none.
    pub answer: Answer,
}

/// A finding that was committed.
#[derive(Drop)]
pub struct Recorded {
    /// The number of the event of its answer.
    pub number: u64,
    /// The finding that no entry has now: the one that it replaced, or itself where it gets no entry.
    /// It is only there to be dropped, so no contract says which it is.
    pub released: Option<Finding>,
}

/// A finding that was not committed, and why.
#[derive(Drop, Error)]
#[error("{fault}")]
pub struct Uncommitted {
    pub fault: BookFault,
    pub finding: Finding,
}

impl Uncommitted {
    /// The error's code in replies, such as `B2`.
    pub fn code(&self) -> &'static str
        ensures { result.now ≡ code_of self.now.fault }
    {
        self.fault.code()
    }

    // The fault alone.
    pub(crate) fn into_fault(self) -> BookFault
        ensures { result ≡ self.fault }
    {
        let fault = self.fault;
        drop(self);
        fault
    }
}

// The finding is not shown.
impl fmt::Debug for Uncommitted {
    fn fmt<W: fmt::Write>(&self, f: &mut fmt::Formatter<W>) -> fmt::Result {
        f.write_str("Uncommitted")
    }
}
