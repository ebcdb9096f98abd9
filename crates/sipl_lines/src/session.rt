ghost use Rattle.std.specs.Prelude.{◌≡◌, ◌+◌, ◌≤◌, [], OnOk, OnErr, None, false, true, vec_len, vec_capacity};
ghost use Rattle.sipl_lines.specs.Gathering.{GathersOrLoses};
ghost use Rattle.sipl_lines.specs.Items.{Item};
ghost use Rattle.sipl_lines.specs.Replies.{AppendsReply};
ghost use Rattle.sipl_lines.specs.Requests.{meaning_of};
ghost use Rattle.sipl_lines.specs.Session.{AppendsText, MayFail, Obeys, Performs, Replies, at_desk, session_loader, session_protocol};

use crate::calls::{hear_failure, hear_response, open_call, set_clock};
use crate::command::{Command, CommandWord, read_command};
use crate::desk::Desk;
use crate::desk_commands::{
    HoldChange, MAX_SHORT_REPLY_LEN, RecordEdit, change_hold, edit_record, find, list_evidence,
    load_zone, repair, turn_page, unload_zone,
};
use crate::gather::{Gathering, write_load_fault};
use crate::reply::{write_done, write_refusal};
use sipl_failover::Failover;
use std::alloc::{AllocError, Global};

/// What is kept of a session beside its desk: the zone whose lines are being taken, the last call,
/// and whether the session has ended.
#[derive(Drop)]
pub struct Session {
    gathering: Option<Gathering>,
    call: Option<Failover>,
    ended: bool,
}

impl Session {
    /// A session that has had no line.
    pub fn new() -> Self
        ensures { result ≡ record { gathering = None; call = None; ended = false } }
    {
        Session {
            gathering: None,
            call: None,
            ended: false,
        }
    }

    /// Whether the session has ended. From then on a line has no reply.
    pub fn has_ended(&self) -> bool
        ensures { result ≡ self.now.ended }
    {
        self.ended
    }

    /// Processes a line, which has no line end, and appends its reply to `out`. A line that a
    /// `zone` command takes has no reply, unless it is the last one.
    ///
    /// Where an allocation fails, the reply is `err Memory` and nothing changes, except that an
    /// answer that can't be written has been recorded, that the call and the time have moved where the
    /// hold of a step fails, and that a `repair` may have looked some answers up; the lines that a
    /// `zone` takes are taken nevertheless. An error says that the space for a short reply could not be
    /// reserved: then nothing has changed.
    pub fn process_line<D: Desk>(
        &mut self,
        alloc: Global,
        desk: &mut D,
        line: &[u8],
        out: &mut Vec<u8>,
    ) -> Result<(), AllocError>
        ensures ok { OnOk result (AppendsReply (session_protocol D.rules)
            (at_desk desk.old self.old) (Item.line line.now)
            out.old.items (at_desk desk.new self.new) out.new.items) }
        ensures err { OnErr result (at_desk desk.new self.new ≡ at_desk desk.old self.old) }
        ensures err_out { OnErr result (out.new.items ≡ out.old.items) }
    {
        if self.has_ended() {
            return Ok(());
        }
        out.reserve(MAX_SHORT_REPLY_LEN)?;
        match self.gathering.take() {
            Some(mut gathering) => {
                gathering.push(line);
                self.gather(alloc, desk, gathering, out);
            }
            None => self.obey(alloc, desk, &read_command(line), out),
        }
        Ok(())
    }

    /// Processes the end of the input, and appends the reply of a `zone` command whose lines are
    /// fewer than it takes: they are its text.
    ///
    /// Where an allocation fails the reply is `err Memory`. An error says that the space for a
    /// short reply could not be reserved: then nothing has changed.
    pub fn finish<D: Desk>(
        &mut self,
        alloc: Global,
        desk: &mut D,
        out: &mut Vec<u8>,
    ) -> Result<(), AllocError>
        ensures ok { OnOk result (AppendsReply (session_protocol D.rules)
            (at_desk desk.old self.old) Item.end_of_input
            out.old.items (at_desk desk.new self.new) out.new.items) }
        ensures err { OnErr result (at_desk desk.new self.new ≡ at_desk desk.old self.old) }
        ensures err_out { OnErr result (out.new.items ≡ out.old.items) }
    {
        if self.has_ended() {
            return Ok(());
        }
        out.reserve(MAX_SHORT_REPLY_LEN)?;
        if let Some(mut gathering) = self.gathering.take() {
            gathering.end();
            self.gather(alloc, desk, gathering, out);
        }
        Ok(())
    }

    // Carries a command out and appends its reply.
    fn obey<D: Desk>(
        &mut self,
        alloc: Global,
        desk: &mut D,
        command: &Command<'_>,
        out: &mut Vec<u8>,
    )
        requires { vec_len out.old + MAX_SHORT_REPLY_LEN ≤ vec_capacity out.old }
        ensures { AppendsText (Obeys D.rules (meaning_of command.now)) (at_desk desk.old self.old)
            out.old.items (at_desk desk.new self.new) out.new.items }
    {
        if self.perform(alloc, desk, command, out).is_err() {
            write_refusal(out, "Memory").unwrap();
        }
    }

    // Carries a command out and appends its reply. An error says that an allocation failed: then
    // the session, its desk and `out` are as they were.
    fn perform<D: Desk>(
        &mut self,
        alloc: Global,
        desk: &mut D,
        command: &Command<'_>,
        out: &mut Vec<u8>,
    ) -> Result<(), AllocError>
        requires { vec_len out.old + MAX_SHORT_REPLY_LEN ≤ vec_capacity out.old }
        ensures replies { Replies (Performs D.rules (meaning_of command.now))
            (at_desk desk.old self.old) out.old result (at_desk desk.new self.new) out.new }
        ensures allocates { OnErr result (MayFail (meaning_of command.now)) }
    {
        match command {
            Command::Nothing => Ok(()),
            Command::Unknown => write_refusal(out, "K1"),
            Command::TooLong => write_refusal(out, "K2"),
            Command::Zone(apex, lines) => {
                let gathering = Gathering::new(alloc, apex, *lines, desk.zone_octets());
                self.gather(alloc, desk, gathering, out);
                Ok(())
            }
            Command::Drop(apex) => unload_zone(alloc, desk, apex, out),
            Command::Add(record) => edit_record(alloc, desk, RecordEdit::Add, record, out),
            Command::Del(record) => edit_record(alloc, desk, RecordEdit::Remove, record, out),
            Command::Find(uri, draws) => find(alloc, desk, uri, draws, out),
            Command::Deps(uri) => list_evidence(alloc, desk, uri, out),
            Command::Repair => {
                repair(alloc, desk, out);
                Ok(())
            }
            Command::Page => {
                turn_page(desk, out);
                Ok(())
            }
            Command::Hold(endpoint, ms) => {
                change_hold(desk, HoldChange::Hold(*ms), endpoint, out);
                Ok(())
            }
            Command::Release(endpoint) => {
                change_hold(desk, HoldChange::Release, endpoint, out);
                Ok(())
            }
            Command::Clock(to) => {
                set_clock(desk, &mut self.call, *to, out);
                Ok(())
            }
            Command::Call(kind, base, uri, draws) => {
                open_call(alloc, desk, &mut self.call, *kind, *base, uri, draws, out)
            }
            Command::Got(attempt, code, retry_after) => {
                hear_response(desk, &mut self.call, *attempt, *code, *retry_after, out);
                Ok(())
            }
            Command::Broke => {
                hear_failure(desk, &mut self.call, out);
                Ok(())
            }
            Command::Quit => {
                self.ended = true;
                write_done(out, CommandWord::Quit, &[]);
                Ok(())
            }
        }
    }

    // Takes more lines for a zone, or, where all are taken, loads it and appends the reply.
    fn gather<D: Desk>(
        &mut self,
        alloc: Global,
        desk: &mut D,
        gathering: Gathering,
        out: &mut Vec<u8>,
    )
        requires { vec_len out.old + MAX_SHORT_REPLY_LEN ≤ vec_capacity out.old }
        ensures done { AppendsText (GathersOrLoses (session_loader D.rules) gathering)
            (at_desk desk.old self.old) out.old.items (at_desk desk.new self.new) out.new.items }
        ensures capacity { vec_capacity out.old ≤ vec_capacity out.new }
    {
        if !gathering.is_complete() {
            self.gathering = Some(gathering);
            return;
        }
        self.gathering = None;
        match gathering.read(alloc) {
            Ok(zone) => load_zone(desk, zone, out),
            Err(fault) => write_load_fault(fault, out),
        }
    }
}
