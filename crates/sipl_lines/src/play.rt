//! A script once its first line has made the world: each line is a step.
ghost use Rattle.std.specs.Prelude.{◌≡◌, ◌+◌, ◌≤◌, None, OnOk, OnErr, vec_len, vec_capacity};
ghost use Rattle.sipl_lines.specs.Gathering.{GathersOrLoses};
ghost use Rattle.sipl_lines.specs.Items.{Item};
ghost use Rattle.sipl_lines.specs.Script.{InWorld, Makes, MakesStepOf, Obeys, PlaysItem, play_loader};
ghost use Rattle.sipl_lines.specs.ScriptLines.{script_request_of};
ghost use Rattle.sipl_lines.specs.ScriptMeaning.{meaning_of_line};
ghost use Rattle.sipl_lines.specs.Session.{AppendsText};

use crate::command::Command;
use crate::gather::{Gathering, write_load_fault};
use crate::reply::write_refusal;
use crate::script_line::{ScriptLine, read_script_line};
use crate::script_reply::{MAX_SCRIPT_REPLY_LEN, Shown, write_reply};
use crate::script_step::read_step;
use sipl_book::Edit;
use sipl_interleave::{Step, World};
use std::alloc::{AllocError, Global};

/// The world of a script, and the zone whose lines are being taken.
#[derive(Drop)]
pub(crate) struct Play {
    world: World,
    gathering: Option<Gathering>,
}

impl Play {
    /// A play in which no line was taken.
    pub(crate) fn new(world: World) -> Self
        ensures { result ≡ record { world = world; gathering = None } }
    {
        Play {
            world,
            gathering: None,
        }
    }

    /// Processes a line, which has no line end, and appends its reply to `out`. A line that a
    /// `zone` takes has no reply, unless it is the last one.
    ///
    /// Where an allocation fails, the reply is `err Memory` and nothing changes, except that an
    /// answer that can't be written has been recorded; the lines that a `zone` takes are taken
    /// nevertheless. An error says that the space for a reply could not be reserved: then too
    /// nothing has changed.
    pub(crate) fn process_line(
        &mut self,
        alloc: Global,
        line: &[u8],
        out: &mut Vec<u8>,
    ) -> Result<(), AllocError>
        ensures ok { OnOk result (AppendsText (PlaysItem (Item.line line.now))
            self.old out.old.items self.new out.new.items) }
        ensures err { OnErr result (self.new ≡ self.old) }
        ensures err_out { OnErr result (out.new.items ≡ out.old.items) }
    {
        out.reserve(MAX_SCRIPT_REPLY_LEN)?;
        match self.gathering.take() {
            Some(mut gathering) => {
                gathering.push(line);
                self.gather(alloc, gathering, out);
            }
            None => self.obey(alloc, line, out),
        }
        Ok(())
    }

    /// Processes the end of the input, and appends the reply of a `zone` whose lines are fewer than
    /// it takes: they are its text. An error is as with a line.
    pub(crate) fn finish(&mut self, alloc: Global, out: &mut Vec<u8>) -> Result<(), AllocError>
        ensures ok { OnOk result (AppendsText (PlaysItem Item.end_of_input)
            self.old out.old.items self.new out.new.items) }
        ensures err { OnErr result (self.new ≡ self.old) }
        ensures err_out { OnErr result (out.new.items ≡ out.old.items) }
    {
        out.reserve(MAX_SCRIPT_REPLY_LEN)?;
        if let Some(mut gathering) = self.gathering.take() {
            gathering.end();
            self.gather(alloc, gathering, out);
        }
        Ok(())
    }

    // Does what a line asks for, and appends its reply.
    fn obey(&mut self, alloc: Global, line: &[u8], out: &mut Vec<u8>)
        requires { vec_len out.old + MAX_SCRIPT_REPLY_LEN ≤ vec_capacity out.old }
        ensures { AppendsText (Obeys (script_request_of line.now))
            self.old out.old.items self.new out.new.items }
    {
        match read_script_line(line) {
            ScriptLine::Session(Command::Nothing) => {}
            ScriptLine::Session(Command::Zone(apex, lines)) => {
                self.gather(alloc, Gathering::new(alloc, apex, lines, None), out);
            }
            asked => self.make(alloc, &asked, out),
        }
    }

    // Makes the step that a line asks for, or refuses the line, and appends the reply.
    fn make(&mut self, alloc: Global, line: &ScriptLine<'_>, out: &mut Vec<u8>)
        requires { vec_len out.old + MAX_SCRIPT_REPLY_LEN ≤ vec_capacity out.old }
        ensures { AppendsText (MakesStepOf (meaning_of_line line.now))
            self.old out.old.items self.new out.new.items }
    {
        match read_step(alloc, line) {
            Ok(step) => make_step(&mut self.world, step, out),
            Err(code) => write_refusal(out, code).unwrap(),
        }
    }

    // Takes more lines for a zone, or, where all are taken, loads it and appends the reply.
    fn gather(&mut self, alloc: Global, gathering: Gathering, out: &mut Vec<u8>)
        requires { vec_len out.old + MAX_SCRIPT_REPLY_LEN ≤ vec_capacity out.old }
        ensures { AppendsText (GathersOrLoses play_loader gathering)
            self.old out.old.items self.new out.new.items }
    {
        if !gathering.is_complete() {
            self.gathering = Some(gathering);
            return;
        }
        self.gathering = None;
        match gathering.read(alloc) {
            Ok(zone) => make_step(&mut self.world, Step::Change(Edit::Load(zone)), out),
            Err(fault) => write_load_fault(fault, out),
        }
    }
}

// Makes a step, and appends the reply.
fn make_step(world: &mut World, step: Step, out: &mut Vec<u8>)
    requires { vec_len out.old + MAX_SCRIPT_REPLY_LEN ≤ vec_capacity out.old }
    ensures { AppendsText (Makes step) world.old out.old.items world.new out.new.items }
{
    let shown = Shown::of(&step);
    let reply = world.step(step);
    write_reply(shown, &reply, out);
}
