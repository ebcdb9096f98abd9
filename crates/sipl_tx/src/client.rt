//! One client transaction.

ghost use Rattle.std.specs.Prelude.{◌≡◌, ◌≤◌, ◌^◌, None, Some, OnOk, OnErr, IfOk, IfErr, IsTrue};
ghost use Rattle.sipl_tx.specs.Transaction.{new_transaction};
ghost use Rattle.sipl_tx.specs.Transaction.Event.{Response, TransportError, Tick};
ghost use Rattle.sipl_tx.specs.Table.{send_acts};
ghost use Rattle.sipl_tx.specs.Machine.{refusal_of, after, is_expired, is_due, awaits_final};

use crate::fault::TxFault;
use crate::parts::{Acts, Kind, Report, State};
use crate::timers::{T1, ending_length, has_retransmissions, interval_after};
use std::marker::Model;

/// A client transaction of RFC 3261, section 17.1.
///
/// Times are in milliseconds, at most 2^52. The transaction's own time is that of its last `start`
/// or `tick`: an event between two ticks counts at the first of them. A refused call leaves the
/// transaction as it was, and no call allocates.
#[derive(Debug, Drop)]
pub struct ClientTx {
    kind: Kind,
    reliable: bool,
    state: State,
    /// The time of the last start or tick.
    moment: u64,
    /// The time from which timer B, F, D or K counts.
    since: u64,
    /// The time from which timer A or E counts: that of the last sending.
    sent: u64,
    /// How long timer A or E runs.
    interval: u64,
}

impl Model for ClientTx {
    ghost use Rattle.sipl_tx.specs.Timers.{AreTimely};
    ghost use Rattle.sipl_tx.specs.Transaction.{Transaction};

    ghost Value = { Transaction };

    ghost view = { λ t.
        record {
          kind = t.kind;
          reliable = t.reliable;
          state = t.state;
          moment = t.moment;
          since = t.since;
          sent = t.sent;
          interval = t.interval;
        } };

    ghost invariant = { λ t. AreTimely t.moment t.since t.sent t.interval };
}

impl ClientTx {
    /// Starts a transaction at this time: the request is to be sent (RFC 3261, 17.1.1.2 and
    /// 17.1.2.2).
    ///
    /// `reliable` says whether the transport is reliable (TCP, TLS, SCTP) or not (UDP).
    pub fn start(kind: Kind, reliable: bool, now: u64) -> (ClientTx, Acts)
        requires { now ≤ 2 ^ 52 }
        ensures transaction { result.0 ≡ new_transaction kind reliable now }
        ensures acts { result.1 ≡ send_acts }
    {
        let state = match kind {
            Kind::Invite => State::Calling,
            Kind::Other => State::Trying,
        };
        let transaction = ClientTx {
            kind,
            reliable,
            state,
            moment: now,
            since: now,
            sent: now,
            interval: T1,
        };
        (
            transaction,
            Acts {
                send: true,
                ..Acts::NONE
            },
        )
    }

    /// Receives a response with this status code (RFC 3261, 17.1.1.2 and 17.1.2.2).
    ///
    /// A final response goes to the transaction user once; an INVITE acknowledges each of 300 to
    /// 699, repeated ones too. The seconds of the Retry-After field change no transaction: they are
    /// for the layer above.
    ///
    /// # Errors
    ///
    /// X2 if the status code is not within 100 to 699, and then X3 if the transaction has ended.
    pub fn receive(&mut self, code: u16, retry_after: Option<u32>) -> Result<Acts, TxFault>
        ensures accepted { OnOk result (refusal_of self.old (Response code) ≡ None) }
        ensures next { OnOk result (self.new ≡ (after self.old (Response code)).transaction) }
        ensures acts { IfOk result (λ acts. acts ≡ (after self.old (Response code)).acts) }

        ensures refused { IfErr result (λ fault. refusal_of self.old (Response code) ≡ Some fault) }
        ensures err { OnErr result (self.new ≡ self.old) }
    {
        let _ = retry_after;
        if code < 100 || code > 699 {
            return Err(TxFault::BadCode);
        }
        if self.state == State::Terminated {
            return Err(TxFault::Ended);
        }
        if self.awaits_final() {
            return Ok(self.receive_awaited(code));
        }
        let repeated = self.kind == Kind::Invite && self.state == State::Completed && code >= 300;
        Ok(Acts {
            ack: repeated,
            ..Acts::NONE
        })
    }

    /// Ends the transaction, in any state: its transport failed (RFC 3261, 17.1.4).
    ///
    /// # Errors
    ///
    /// X3 if the transaction has ended.
    pub fn transport_error(&mut self) -> Result<Acts, TxFault>
        ensures accepted { OnOk result (refusal_of self.old TransportError ≡ None) }
        ensures next { OnOk result (self.new ≡ (after self.old TransportError).transaction) }
        ensures acts { IfOk result (λ acts. acts ≡ (after self.old TransportError).acts) }

        ensures refused { IfErr result (λ fault. refusal_of self.old TransportError ≡ Some fault) }
        ensures err { OnErr result (self.new ≡ self.old) }
    {
        if self.state == State::Terminated {
            return Err(TxFault::Ended);
        }
        self.state = State::Terminated;
        Ok(Acts {
            report: Some(Report::Broken),
            ended: true,
            ..Acts::NONE
        })
    }

    /// Moves the clock to this time.
    ///
    /// The timer that ends the transaction (B, F, D or K) comes first. Otherwise timer A or E sends
    /// the request once, however late the tick is, and its next interval counts from this tick.
    ///
    /// # Errors
    ///
    /// X1 if the time is before that of the last tick, and then X3 if the transaction has ended.
    pub fn tick(&mut self, now: u64) -> Result<Acts, TxFault>
        requires { now ≤ 2 ^ 52 }
        ensures accepted { OnOk result (refusal_of self.old (Tick now) ≡ None) }
        ensures next { OnOk result (self.new ≡ (after self.old (Tick now)).transaction) }
        ensures acts { IfOk result (λ acts. acts ≡ (after self.old (Tick now)).acts) }

        ensures refused { IfErr result (λ fault. refusal_of self.old (Tick now) ≡ Some fault) }
        ensures err { OnErr result (self.new ≡ self.old) }
    {
        if now < self.moment {
            return Err(TxFault::ClockBack);
        }
        if self.state == State::Terminated {
            return Err(TxFault::Ended);
        }
        self.moment = now;
        if self.is_expired() {
            let report = match self.state {
                State::Completed => None,
                _ => Some(Report::Timeout),
            };
            self.state = State::Terminated;
            return Ok(Acts {
                report,
                ended: true,
                ..Acts::NONE
            });
        }
        if self.is_due() {
            self.sent = now;
            self.interval = interval_after(self.kind, self.state, self.interval);
            return Ok(Acts {
                send: true,
                ..Acts::NONE
            });
        }
        Ok(Acts::NONE)
    }

    /// The state of the transaction (RFC 3261, figures 5 and 6).
    pub fn state(&self) -> State
        ensures { result ≡ self.now.state }
    {
        self.state
    }

    /// Whether the transaction awaits a final response: none has come, and it has not ended.
    pub fn awaits_final(&self) -> bool
        ensures { result ≡ awaits_final self.now.kind self.now.state }
    {
        match (self.kind, self.state) {
            (Kind::Invite, State::Calling | State::Proceeding) => true,
            (Kind::Other, State::Trying | State::Proceeding) => true,
            _ => false,
        }
    }

    /// The machine that the transaction follows.
    pub fn kind(&self) -> Kind
        ensures { result ≡ self.now.kind }
    {
        self.kind
    }

    /// The time of the last `start` or `tick`, in milliseconds.
    pub fn now(&self) -> u64
        ensures value { result ≡ self.now.moment }
        ensures limit { result ≤ 2 ^ 52 }
    {
        self.moment
    }

    // Receives a response where no final one has come yet.
    fn receive_awaited(&mut self, code: u16) -> Acts
        requires { IsTrue (awaits_final self.old.kind self.old.state) }
        ensures next { self.new ≡ (after self.old (Response code)).transaction }
        ensures acts { result ≡ (after self.old (Response code)).acts }
    {
        if code < 200 {
            self.state = State::Proceeding;
        } else if self.reliable || (self.kind == Kind::Invite && code < 300) {
            self.state = State::Terminated;
        } else {
            self.state = State::Completed;
            self.since = self.moment;
        }
        Acts {
            ack: self.kind == Kind::Invite && code >= 300,
            deliver: Some(code),
            ended: self.state == State::Terminated,
            ..Acts::NONE
        }
    }

    // Whether the timer that ends the transaction has fired.
    fn is_expired(&self) -> bool
        ensures { result ≡ is_expired self.now }
    {
        match ending_length(self.kind, self.state) {
            Some(length) => self.since + length <= self.moment,
            None => false,
        }
    }

    // Whether the request is to be sent again.
    fn is_due(&self) -> bool
        ensures { result ≡ is_due self.now }
    {
        has_retransmissions(self.kind, self.reliable, self.state)
            && self.sent + self.interval <= self.moment
    }
}
