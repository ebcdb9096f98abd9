//! The failover of one request.

ghost use Rattle.std.specs.Prelude.{◌≡◌, ◌≤◌, ◌+◌, ◌-◌, ◌^◌, ◌↔◌, ◌++◌, [], ◌∷◌, length, None, Some, Err, IsOk, IsErr, OnOk, OnErr, IfOk, IfErr, IsTrue, true, false, slice_get, vec_len, vec_capacity};
ghost use Rattle.sipl_failover.specs.declared.step.Step.TheVariants.{Send};
ghost use Rattle.sipl_failover.specs.declared.fault.FailoverFault.TheVariants.{NoTargets, Ended, NoAttempt, Memory};
ghost use Rattle.sipl_failover.specs.FailoverRun.{new_run, has_ended, is_reliable};
ghost use Rattle.sipl_failover.specs.FailoverRun.Event.{Received, TransportFailed, Ticked};
ghost use Rattle.sipl_failover.specs.Branch.{branch_of};
ghost use Rattle.sipl_failover.specs.Rules.{refusal_of, after, after_failure, was_sent, is_running, is_acknowledged, ack_steps, hold_steps, retry_ms, running_attempt};

use crate::branch::write_branch;
use crate::fault::FailoverFault;
use crate::step::{Step, Steps};
use sipl_choice::{Endpoint, Transport};
use sipl_tx::{ClientTx, Kind, Report, State};
use std::marker::Model;

/// How long an endpoint is held after a timeout or an error of its transport, in milliseconds.
const HOLD: u64 = 30_000;

/// The failover of one request over its targets (RFC 3263, 4.3).
///
/// Attempts count from 1, one for each target; the attempt sent last is the running one until the
/// failover ends. Each is a client transaction of its own, with its own branch. Times are in
/// milliseconds, at most 2^52; an event between two ticks counts at the first of them. A refused
/// call leaves the failover as it was.
#[derive(Debug, Drop)]
pub struct Failover {
    targets: Vec<Endpoint>,
    base: u64,
    /// The attempt that was sent last.
    attempt: u32,
    transaction: ClientTx,
}

impl Model for Failover {
    ghost use Rattle.sipl_failover.specs.FailoverRun.{FailoverRun, AreSent};

    ghost Value = { FailoverRun };

    ghost view = { λ f.
        record {
          targets = f.targets.items;
          base = f.base;
          attempt = f.attempt;
          transaction = f.transaction;
        } };

    ghost invariant = { λ f. AreSent f.targets.items f.attempt };
}

impl Failover {
    /// Starts a request of this kind at this time: it is to be sent to the first target. All its
    /// branches share `base`, which no other request may have. No call but `branch` allocates.
    ///
    /// # Errors
    ///
    /// F1 if there is no target.
    pub fn start(
        targets: Vec<Endpoint>,
        kind: Kind,
        base: u64,
        now: u64,
    ) -> Result<(Failover, Steps), FailoverFault>
        requires targets { length targets.items ≤ 2048 }
        requires time { now ≤ 2 ^ 52 }
        ensures run { IfOk result (λ started. started.0 ≡ new_run targets.items kind base now) }
        ensures steps { IfOk result (λ started. started.1 ≡ Send 1 ∷ []) }
        ensures no_targets { IsErr result ↔ (targets.items ≡ []) }
        ensures refused { IfErr result (λ fault. fault ≡ NoTargets) }
    {
        let Some(first) = targets.first().copied() else {
            return Err(FailoverFault::NoTargets);
        };
        let (transaction, _acts) = ClientTx::start(kind, is_reliable(first.transport), now);
        let mut steps = Steps::new();
        steps.push(Step::Send(1));
        let failover = Failover {
            targets,
            base,
            attempt: 1,
            transaction,
        };
        Ok((failover, steps))
    }

    /// Receives a response to this attempt, with its status code and the seconds of its Retry-After
    /// field.
    ///
    /// A 503 is a failure of the running attempt: its endpoint is held for the Retry-After, if that
    /// is positive, and the next target is tried. A 100 has no step, any other response goes to the
    /// user. A response to an attempt that awaits none any more is acknowledged again, if it is one
    /// of 300 to 699 to an INVITE, and has no other step.
    ///
    /// # Errors
    ///
    /// X2 if the status code is not within 100 to 699, then F3 if no such attempt was sent, and
    /// then F2 if the failover has ended and the response is not acknowledged.
    pub fn receive(
        &mut self,
        attempt: u32,
        code: u16,
        retry_after: Option<u32>,
    ) -> Result<Steps, FailoverFault>
        ensures accepted { OnOk result
            (refusal_of self.old (Received attempt code retry_after) ≡ None) }
        ensures next { OnOk result
            (self.new ≡ (after self.old (Received attempt code retry_after)).run) }
        ensures steps { IfOk result
            (λ steps. steps ≡ (after self.old (Received attempt code retry_after)).steps) }

        ensures refused { IfErr result
            (λ fault. refusal_of self.old (Received attempt code retry_after) ≡ Some fault) }
        ensures err { OnErr result (self.new ≡ self.old) }
    {
        if code < 100 || code > 699 {
            return Err(FailoverFault::BadCode);
        }
        if !self.was_sent(attempt) {
            return Err(FailoverFault::NoAttempt);
        }
        if !self.is_running(attempt) {
            return self.receive_late(attempt, code);
        }
        let acts = self.transaction.receive(code, retry_after)?;
        let mut steps = Steps::new();
        if acts.ack {
            steps.push(Step::Ack(attempt));
        }
        if code == 503 {
            self.fail_over(retry_ms(retry_after), 500, &mut steps);
        } else if code > 100 {
            steps.push(Step::Deliver(code));
        }
        Ok(steps)
    }

    /// Reports that the transport of the running attempt failed: its endpoint is held for 30
    /// seconds, and the next target is tried.
    ///
    /// # Errors
    ///
    /// F2 if the failover has ended.
    pub fn transport_error(&mut self) -> Result<Steps, FailoverFault>
        ensures accepted { OnOk result (refusal_of self.old TransportFailed ≡ None) }
        ensures next { OnOk result (self.new ≡ (after self.old TransportFailed).run) }
        ensures steps { IfOk result (λ steps. steps ≡ (after self.old TransportFailed).steps) }

        ensures refused { IfErr result (λ fault. refusal_of self.old TransportFailed ≡ Some fault) }
        ensures err { OnErr result (self.new ≡ self.old) }
    {
        if self.has_ended() {
            return Err(FailoverFault::Ended);
        }
        self.transaction.transport_error()?;
        let mut steps = Steps::new();
        self.fail_over(Some(HOLD), 500, &mut steps);
        Ok(steps)
    }

    /// Moves the clock to this time.
    ///
    /// The request is sent again where its timer A or E fires. A timeout without any response is a
    /// failure: the endpoint is held for 30 seconds, and the next target is tried. A timeout after
    /// a provisional response goes to the user as a 408.
    ///
    /// # Errors
    ///
    /// F2 if the failover has ended, and then X1 if the time is before that of the last tick.
    pub fn tick(&mut self, now: u64) -> Result<Steps, FailoverFault>
        requires { now ≤ 2 ^ 52 }
        ensures accepted { OnOk result (refusal_of self.old (Ticked now) ≡ None) }
        ensures next { OnOk result (self.new ≡ (after self.old (Ticked now)).run) }
        ensures steps { IfOk result (λ steps. steps ≡ (after self.old (Ticked now)).steps) }

        ensures refused { IfErr result (λ fault. refusal_of self.old (Ticked now) ≡ Some fault) }
        ensures err { OnErr result (self.new ≡ self.old) }
    {
        if self.has_ended() {
            return Err(FailoverFault::Ended);
        }
        let is_proceeding = self.transaction.state() == State::Proceeding;
        let acts = self.transaction.tick(now)?;
        let mut steps = Steps::new();
        if acts.report == Some(Report::Timeout) {
            if is_proceeding {
                steps.push(Step::Deliver(408));
            } else {
                self.fail_over(Some(HOLD), 408, &mut steps);
            }
        } else if acts.send {
            steps.push(Step::Resend);
        }
        Ok(steps)
    }

    /// The attempt that a CANCEL goes to (RFC 3261, 9.1): the running one, or none after the end.
    pub fn cancel_target(&self) -> Option<u32>
        ensures { result ≡ running_attempt self.now }
    {
        if self.has_ended() {
            None
        } else {
            Some(self.attempt)
        }
    }

    /// Whether the failover has ended: its last attempt awaits no final response any more.
    pub fn has_ended(&self) -> bool
        ensures { result ≡ has_ended self.now }
    {
        !self.transaction.awaits_final()
    }

    /// The target of this attempt.
    ///
    /// # Errors
    ///
    /// F3 if no such attempt was sent.
    pub fn endpoint(&self, attempt: u32) -> Result<Endpoint, FailoverFault>
        ensures target { IfOk result
            (λ target. slice_get self.now.targets (attempt - 1) ≡ Some target) }
        ensures sent { IsOk result ↔ IsTrue (was_sent self.now attempt) }
        ensures refused { IfErr result (λ fault. fault ≡ NoAttempt) }
    {
        if !self.was_sent(attempt) {
            return Err(FailoverFault::NoAttempt);
        }
        Ok(self.targets[attempt as usize - 1])
    }

    /// Appends the branch of this attempt (RFC 3261, 8.1.1.7): `z9hG4bK`, the base as 16 lower-case
    /// hexadecimal digits, a dot, and the attempt in decimal. It has at most 28 octets.
    ///
    /// # Errors
    ///
    /// F3 if no such attempt was sent, and then Memory. An `Err` leaves `out` as it was.
    #[tactic(auto, using(crate::proofs::BranchLemmas::branch_is_short))]
    pub fn branch(&self, attempt: u32, out: &mut Vec<u8>) -> Result<(), FailoverFault>
        ensures ok { OnOk result
            (out.new.items ≡ out.old.items ++ branch_of self.now.base attempt) }
        ensures err { OnErr result (out.new.items ≡ out.old.items) }
        ensures capacity { vec_capacity out.old ≤ vec_capacity out.new }

        ensures no_attempt { (was_sent self.now attempt ≡ false) ↔ (result ≡ Err NoAttempt) }
        ensures memory { IsTrue (was_sent self.now attempt) →
            IfErr result (λ fault. fault ≡ Memory) }
        ensures succeeds { IsTrue (was_sent self.now attempt) →
            vec_len out.old + length (branch_of self.now.base attempt) ≤ vec_capacity out.old →
            IsOk result }
        ensures short { IsTrue (was_sent self.now attempt) →
            length (branch_of self.now.base attempt) ≤ 28 }
    {
        if !self.was_sent(attempt) {
            return Err(FailoverFault::NoAttempt);
        }
        write_branch(self.base, attempt, out)?;
        Ok(())
    }

    // The target at this index of the list.
    fn target(&self, index: usize) -> Option<Endpoint>
        ensures { result ≡ slice_get self.now.targets index }
    {
        self.targets.get(index).copied()
    }

    // Whether an attempt of this number was sent.
    fn was_sent(&self, attempt: u32) -> bool
        ensures { result ≡ was_sent self.now attempt }
    {
        1 <= attempt && attempt <= self.attempt
    }

    // Whether this attempt awaits a final response.
    fn is_running(&self, attempt: u32) -> bool
        ensures { result ≡ is_running self.now attempt }
    {
        attempt == self.attempt && !self.has_ended()
    }

    // Receives a response to an attempt that awaits none any more.
    fn receive_late(&self, attempt: u32, code: u16) -> Result<Steps, FailoverFault>
        ensures steps { IfOk result
            (λ steps. steps ≡ ack_steps self.now.transaction.kind attempt code) }
        ensures refused { IsErr result
            ↔ ((is_acknowledged self.now.transaction.kind code ≡ false)
            × (has_ended self.now ≡ true)) }
        ensures ended { IfErr result (λ fault. fault ≡ Ended) }
    {
        let mut steps = Steps::new();
        if self.transaction.kind() == Kind::Invite && code >= 300 {
            steps.push(Step::Ack(attempt));
        } else if self.has_ended() {
            return Err(FailoverFault::Ended);
        }
        Ok(steps)
    }

    // Appends the hold of the running attempt's endpoint for so many milliseconds, if any.
    fn push_hold(&self, hold: Option<u64>, steps: &mut Steps)
        requires { length steps.old ≤ 1 }
        ensures steps { steps.new
            ≡ steps.old ++ hold_steps (slice_get self.now.targets (self.now.attempt - 1)) hold }
        ensures count { length steps.new ≤ 2 }
    {
        let endpoint = self.target(self.attempt as usize - 1);
        if let (Some(endpoint), Some(ms)) = (endpoint, hold) {
            steps.push(Step::Hold(endpoint, ms));
        }
    }

    // Goes on from the running attempt, which failed: its endpoint is held for so many
    // milliseconds, if any, and the next target is tried. Where there is none, the user gets this
    // status code.
    fn fail_over(&mut self, hold: Option<u64>, code: u16, steps: &mut Steps)
        requires { length steps.old ≤ 1 }
        ensures next { self.new ≡ (after_failure self.old hold code).run }
        ensures steps { steps.new ≡ steps.old ++ (after_failure self.old hold code).steps }
    {
        self.push_hold(hold, steps);
        match self.target(self.attempt as usize) {
            Some(target) => {
                let kind = self.transaction.kind();
                let now = self.transaction.now();
                let (transaction, _acts) = ClientTx::start(
                    kind,
                    is_reliable(target.transport),
                    now,
                );
                self.transaction = transaction;
                self.attempt += 1;
                steps.push(Step::Send(self.attempt));
            }
            None => {
                steps.push(Step::Deliver(code));
                steps.push(Step::Exhausted);
            }
        }
    }
}

// Whether the transport is reliable (RFC 3261, 17): all but UDP.
fn is_reliable(transport: Transport) -> bool
    ensures { result ≡ is_reliable transport }
{
    transport != Transport::Udp
}

// How long an endpoint is held after a 503, in milliseconds.
fn retry_ms(retry_after: Option<u32>) -> Option<u64>
    ensures { result ≡ retry_ms retry_after }
{
    match retry_after {
        Some(seconds) if seconds > 0 => Some(u64::from(seconds) * 1_000),
        _ => None,
    }
}
