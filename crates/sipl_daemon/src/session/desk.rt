//! The desk of a daemon's session.
ghost use Rattle.std.specs.Prelude.{◌≡◌, [], true, false, IfErr, IfOk, OnOk};
ghost use Rattle.sipl_daemon.specs.declared.fault.DeskFault.TheVariants.{AsksOnly, NotKept};

use crate::daemon::Daemon;
use crate::fault::DeskFault;
use crate::journal::claimer::claim_turned;
use crate::journal::claims::Claims;
use crate::journal::pages::{answer_octets, board_octets, edit_octets};
use sipl_book::{Done, Edit, Extent, Handed};
use sipl_choice::Endpoint;
use sipl_evidence::Evidence;
use sipl_lines::{Desk, ServiceDesk};
use sipl_service::Pass;
use sipl_srv::Draws;
use sipl_uri::Question;
use std::alloc::Global;
use std::fs::File;
use std::marker::Model;
use std::rt::Files;
use std::sync::Wait;
use std::sync::atomic::{AtomicU64, Ordering};
use std::time::Clock;

/// The daemon's service, as the desk of one session with a pass of its own.
#[derive(Drop)]
pub(crate) struct SessionDesk<'a, R: Files<File = File> + Wait + Clock> {
    rt: &'a R,
    daemon: &'a Daemon,
    pass: Pass,
    // Where the last change of the session ends in the file of changes.
    place: &'a AtomicU64,
    // Where the lines are those of a state, which set the time and have no limit, what claims the pages
    // that they turn: else these would wait in memory until clients are served.
    claims: Option<&'a mut Claims>,
    // Whether the session may only ask.
    asks_only: bool,
}

impl<'a, R: Files<File = File> + Wait + Clock> Model for SessionDesk<'a, R> {
    ghost use Rattle.sipl_daemon.specs.SessionDesk.{SessionState};
    ghost use Rattle.std.specs.Prelude.{[], None, Some, is_some, if◌then◌else◌};

    ghost Value = { SessionState };

    ghost view = { λ desk. record {
      caller = record {
        client = desk.daemon.now.source.service.client;
        held = desk.daemon.now.source.service.held;
        pass = desk.pass;
        pages = [];
      };
      asks_only = desk.asks_only;
      zone_octets = if is_some desk.claims then None else Some desk.daemon.now.zone_octets;
    } };
}

impl<'a, R: Files<File = File> + Wait + Clock> SessionDesk<'a, R> {
    /// The desk of a session that has had no line, and may only ask or not. `place` is where its last change
    /// ends in the file of changes.
    pub(crate) fn new(
        rt: &'a R,
        daemon: &'a Daemon,
        place: &'a AtomicU64,
        asks_only: bool,
    ) -> Self {
        SessionDesk {
            rt,
            daemon,
            pass: daemon.source.service.pass(),
            place,
            claims: None,
            asks_only,
        }
    }

    /// The same for the lines of a state, which set the time and have no limit. At each pause the pages are
    /// claimed that were turned.
    pub(crate) fn restoring(
        rt: &'a R,
        daemon: &'a Daemon,
        place: &'a AtomicU64,
        claims: &'a mut Claims,
    ) -> Self {
        SessionDesk {
            rt,
            daemon,
            pass: daemon.source.service.pass(),
            place,
            claims: Some(claims),
            asks_only: false,
        }
    }

    // Checks that the session may do more than ask.
    fn check_rights(&self) -> Result<(), DeskFault>
        ensures may { OnOk result (self.now.asks_only ≡ false) }
        ensures may_not { IfErr result (λ fault.
            (fault ≡ AsksOnly) × (self.now.asks_only ≡ true)) }
    {
        if self.asks_only {
            Err(DeskFault::AsksOnly)
        } else {
            Ok(())
        }
    }

    // Where the last change of the session ends in the file of changes.
    fn last_place(&self) -> u64 {
        self.place.load(Ordering::SeqCst)
    }

    // Checks that a change can be written to the files of the state, if there are any, where the daemon goes
    // on when it can't be.
    fn check_kept(&self) -> Result<(), DeskFault>
        ensures { IfErr result (λ fault. fault ≡ NotKept) }
    {
        if self.daemon.refuses_changes() {
            Err(DeskFault::NotKept)
        } else {
            Ok(())
        }
    }

    // Moves the book's time to that of the host, if it is the host's.
    fn set_clock(&self) {
        if self.claims.is_none() {
            self.daemon.set_clock(self.rt);
        }
    }

    /// Ends the session: hands over the receipts that the pass has. Where an allocation fails they are
    /// lost, and the daemon is to stop: no claim is made without them.
    pub(crate) fn end(mut self) {
        if !self.daemon.pages.hand_over(self.rt, &mut self.pass) {
            self.daemon.stop.ask(self.rt);
        }
    }
}

impl<'a, R: Files<File = File> + Wait + Clock> Desk for SessionDesk<'a, R> {
    ghost use Rattle.sipl_daemon.specs.SessionDesk.{session_rules};

    type Fault = DeskFault;

    ghost rules = { session_rules };

    fn find(
        &mut self,
        _alloc: Global,
        question: Question,
        draws: &Draws,
    ) -> Result<Handed, DeskFault> {
        let (rt, daemon) = (self.rt, self.daemon);
        match daemon.lookup(rt, &mut self.pass, &question, draws) {
            Ok(told) => {
                let octets = answer_octets(told.answer());
                daemon.count_event(rt, told.number(), octets, self.last_place());
                daemon.counts.count_answer(told.answer());
                Ok(Handed {
                    number: told.number(),
                    answer: told.into_answer(),
                })
            }
            Err(fault) => Err(DeskFault::Service(fault)),
        }
    }

    fn change(&mut self, edit: Edit) -> Result<Done, DeskFault> {
        if let Err(fault) = self.check_rights() {
            drop(edit);
            return Err(fault);
        }
        if let Err(fault) = self.check_kept() {
            drop(edit);
            return Err(fault);
        }
        let (rt, daemon) = (self.rt, self.daemon);
        let octets = edit_octets(&edit);
        match daemon.edit(rt, &mut self.pass, edit, self.place) {
            Ok(done) => {
                daemon.count_event(rt, done.number, octets, self.last_place());
                Ok(done)
            }
            Err(fault) => Err(DeskFault::Service(fault)),
        }
    }

    fn hold(&mut self, endpoint: &Endpoint, ms: u64) -> Result<u64, DeskFault> {
        self.check_kept()?;
        let (rt, daemon) = (self.rt, self.daemon);
        self.set_clock();
        match daemon
            .source
            .hold(rt, &mut self.pass, endpoint, ms, self.place)
        {
            Ok(number) => {
                daemon.count_event(rt, number, board_octets(), self.last_place());
                Ok(number)
            }
            Err(fault) => Err(DeskFault::Service(fault)),
        }
    }

    fn release(&mut self, endpoint: &Endpoint) -> Result<u64, DeskFault> {
        self.check_rights()?;
        self.check_kept()?;
        let (rt, daemon) = (self.rt, self.daemon);
        self.set_clock();
        match daemon
            .source
            .release(rt, &mut self.pass, endpoint, self.place)
        {
            Ok(number) => {
                daemon.count_event(rt, number, board_octets(), self.last_place());
                Ok(number)
            }
            Err(fault) => Err(DeskFault::Service(fault)),
        }
    }

    fn advance(&mut self, to: u64) -> Result<u64, DeskFault> {
        self.check_rights()?;
        let (rt, daemon) = (self.rt, self.daemon);
        if daemon.has_host_time() && self.claims.is_none() {
            return Err(DeskFault::HostTime);
        }
        self.check_kept()?;
        match daemon.source.advance(rt, &mut self.pass, to, self.place) {
            Ok(number) => {
                daemon.count_event(rt, number, board_octets(), self.last_place());
                Ok(number)
            }
            Err(fault) => Err(DeskFault::Service(fault)),
        }
    }

    fn now(&self) -> u64 {
        self.set_clock();
        self.daemon.source.service.now(self.rt)
    }

    fn zone_octets(&self) -> Option<u64> {
        if self.claims.is_some() {
            None
        } else {
            Some(self.daemon.zone_octets)
        }
    }

    fn deps(&mut self, _alloc: Global, question: Question) -> Result<Evidence, DeskFault> {
        match self.daemon.source.service.deps(self.rt, &question) {
            Ok(evidence) => Ok(evidence),
            Err(fault) => Err(DeskFault::Service(fault)),
        }
    }

    fn repair(&mut self, _alloc: Global) -> Result<(), DeskFault> {
        self.check_rights()?;
        match self.daemon.source.service.repair(self.rt) {
            Ok(()) => Ok(()),
            Err(fault) => Err(DeskFault::Service(fault)),
        }
    }

    fn page(&mut self) -> Result<Extent, DeskFault> {
        self.check_rights()?;
        match self.daemon.pages.turn_page(self.rt, &self.daemon.source) {
            Ok(extent) => Ok(extent),
            Err(fault) => Err(DeskFault::Service(fault)),
        }
    }

    fn pause(&mut self) {
        let _ = self.daemon.pages.hand_over(self.rt, &mut self.pass);
        match self.claims.take() {
            Some(claims) => {
                claim_turned(self.rt, self.daemon, claims);
                self.claims = Some(claims);
            }
            None => self.daemon.pages.keep_pace(self.rt),
        }
    }

    fn write_fault(fault: DeskFault, out: &mut Vec<u8>) {
        match fault {
            DeskFault::HostTime => out.extend_from_slice(b"err D1\n").unwrap(),
            DeskFault::NotKept => out.extend_from_slice(b"err D2\n").unwrap(),
            DeskFault::AsksOnly => out.extend_from_slice(b"err D3\n").unwrap(),
            DeskFault::Service(fault) => ServiceDesk::<'a, R>::write_fault(fault, out),
        }
    }
}
