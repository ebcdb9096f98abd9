//! The kinds, states and acts of transactions.

/// Which of the two machines of RFC 3261, section 17.1, a transaction is.
#[derive(Clone, Copy, Debug, PartialEq, Eq, Hash)]
pub enum Kind {
    /// An INVITE (section 17.1.1).
    Invite,
    /// Any other method but ACK (section 17.1.2).
    Other,
}

/// The states of RFC 3261, figures 5 and 6.
#[derive(Clone, Copy, Debug, PartialEq, Eq, Hash)]
pub enum State {
    /// An INVITE without any response yet.
    Calling,
    /// Another request without any response yet.
    Trying,
    /// A provisional response has come.
    Proceeding,
    /// A final response has come, and may come again.
    Completed,
    /// The transaction has ended.
    Terminated,
}

/// What a transaction reports to its user beside responses.
#[derive(Clone, Copy, Debug, PartialEq, Eq, Hash)]
pub enum Report {
    /// No final response came in time (timers B and F).
    Timeout,
    /// The transport failed.
    Broken,
}

/// The acts that are to be carried out after one call.
#[derive(Clone, Copy, Debug, PartialEq, Eq, Hash)]
pub struct Acts {
    /// The request is to be sent.
    pub send: bool,
    /// An ACK for the response is to be sent (RFC 3261, section 17.1.1.3).
    pub ack: bool,
    /// The status code of the response that goes to the transaction user.
    pub deliver: Option<u16>,
    /// What goes to the transaction user beside it.
    pub report: Option<Report>,
    /// This call ended the transaction.
    pub ended: bool,
}

impl Acts {
    // Nothing is to be done.
    pub(crate) const NONE: Acts = Acts {
        send: false,
        ack: false,
        deliver: None,
        report: None,
        ended: false,
    };
}
