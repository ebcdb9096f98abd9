//! Scripts: the steps of a world, line by line.
ghost use Rattle.std.specs.Prelude.{◌≡◌, ◌^◌, ◌+◌, ◌≤◌, ◌++◌, OnOk, OnErr, vec_len, vec_capacity};
ghost use Rattle.sipl_names.specs.Labels.{Octets};
ghost use Rattle.sipl_lines.specs.Items.{Item};
ghost use Rattle.sipl_lines.specs.Replies.{AppendsReply};
ghost use Rattle.sipl_lines.specs.Script.{Begins, PlaysScript, has_ended, script_protocol};
ghost use Rattle.sipl_lines.specs.ScriptLines.{workers_in};
ghost use Rattle.sipl_lines.specs.Settings.{IsWithinLimits};

use crate::conversation::Conversation;
use crate::play::Play;
use crate::reply::write_refusal;
use crate::script_line::read_workers;
use crate::script_reply::MAX_SCRIPT_REPLY_LEN;
use crate::server::{Ended, MAX_READS, ServeFault, serve_conversation};
use crate::settings::Settings;
use crate::tapped::Tapped;
use sipl_interleave::World;
use std::alloc::{AllocError, Global};
use std::io::{Read, Write};
use std::marker::Model;
use std::mem;

/// Plays a script: the steps of a world, which are the lines of a reader, and writes the replies.
/// The first line is `workers COUNT`, which makes the world; the settings give its client, the policy
/// on held endpoints, and its limits. It reads at most [`MAX_READS`] times.
///
/// Where the first line is another one, its reply is `err K1`, and the script has ended. Reads,
/// writes and faults are as with [`crate::serve`].
pub fn play_script<R: Read, W: Write>(
    alloc: Global,
    reader: &mut Tapped<R>,
    writer: &mut Tapped<W>,
    settings: Settings,
) -> Result<Ended, ServeFault>
    requires { IsWithinLimits settings }
    ensures { PlaysScript settings (2 ^ 32) result R.remaining W.contents
        reader.old reader.new writer.old writer.new }
{
    play_script_within(alloc, reader, writer, settings, MAX_READS)
}

/// Plays a script as [`play_script`] does, with at most `limit` reads.
pub fn play_script_within<R: Read, W: Write>(
    alloc: Global,
    reader: &mut Tapped<R>,
    writer: &mut Tapped<W>,
    settings: Settings,
    limit: u64,
) -> Result<Ended, ServeFault>
    requires { IsWithinLimits settings }
    ensures { PlaysScript settings limit result R.remaining W.contents
        reader.old reader.new writer.old writer.new }
{
    let mut script = Script::Waiting(Opening { settings });
    serve_conversation(alloc, reader, writer, &mut (), &mut script, limit)
}

/// A script: before its first line, at play, or after a first line that was refused.
#[derive(Drop)]
pub(crate) enum Script {
    Waiting(Opening),
    Playing(Play),
    Ended,
}

/// The settings of a script before its first line.
#[derive(Drop)]
pub(crate) struct Opening {
    settings: Settings,
}

impl Model for Opening {
    ghost use Rattle.sipl_lines.specs.Settings.{IsWithinLimits};
    ghost use Rattle.sipl_lines.specs.declared.settings.Settings.{Settings};

    ghost Value = { Settings };

    ghost view = { λ o. o.settings };

    ghost invariant = { λ o. IsWithinLimits o.settings };
}

impl Opening {
    // The script after its first line, whose reply is appended.
    fn begin(self, alloc: Global, line: &[u8], out: &mut Vec<u8>) -> Script
        requires { vec_len out.old + MAX_SCRIPT_REPLY_LEN ≤ vec_capacity out.old }
        ensures { (text : Octets) × Begins self (workers_in line.now) text result
            × (out.new.items ≡ out.old.items ++ text) }
    {
        let Some(workers) = read_workers(line) else {
            write_refusal(out, "K1").unwrap();
            return Script::Ended;
        };
        let limits = self.settings.limits();
        let held = self.settings.held;
        match World::new(alloc, self.settings.abilities, &limits, workers, held) {
            Ok(world) => Script::Playing(Play::new(world)),
            Err(_) => {
                write_refusal(out, "Memory").unwrap();
                Script::Ended
            }
        }
    }
}

impl Script {
    // Whether the script has ended. From then on a line has no reply.
    fn has_ended(&self) -> bool
        ensures { result ≡ has_ended self.now }
    {
        matches!(self, Script::Ended)
    }

    // Processes a line, which has no line end, and appends its reply to `out`. An error says that
    // the space for the reply could not be reserved: then nothing has changed.
    fn process_line(
        &mut self,
        alloc: Global,
        line: &[u8],
        out: &mut Vec<u8>,
    ) -> Result<(), AllocError>
        ensures ok { OnOk result (AppendsReply script_protocol self.old (Item.line line.now)
            out.old.items self.new out.new.items) }
        ensures err { OnErr result (self.new ≡ self.old) }
        ensures err_out { OnErr result (out.new.items ≡ out.old.items) }
    {
        if let Script::Playing(play) = self {
            return play.process_line(alloc, line, out);
        }
        out.reserve(MAX_SCRIPT_REPLY_LEN)?;
        if let Script::Waiting(opening) = mem::replace(self, Script::Ended) {
            *self = opening.begin(alloc, line, out);
        }
        Ok(())
    }

    // Processes the end of the input, and appends its reply to `out`. An error is as with a line.
    fn finish(&mut self, alloc: Global, out: &mut Vec<u8>) -> Result<(), AllocError>
        ensures ok { OnOk result (AppendsReply script_protocol self.old Item.end_of_input
            out.old.items self.new out.new.items) }
        ensures err { OnErr result (self.new ≡ self.old) }
        ensures err_out { OnErr result (out.new.items ≡ out.old.items) }
    {
        match self {
            Script::Playing(play) => play.finish(alloc, out),
            Script::Waiting(_) | Script::Ended => Ok(()),
        }
    }
}

/// A script has its world itself, and acts on nothing else.
impl Conversation<()> for Script {
    ghost use Rattle.sipl_lines.specs.Script.{script_protocol};
    ghost use Rattle.sipl_lines.specs.ScriptLaws.{script_rules};

    ghost protocol = { script_protocol };

    ghost state = { λ nothing script. script };

    ghost is_line_protocol = { script_rules };

    fn has_ended(&self, _desk: &()) -> bool {
        Script::has_ended(self)
    }

    fn process_line(
        &mut self,
        alloc: Global,
        _desk: &mut (),
        line: &[u8],
        out: &mut Vec<u8>,
    ) -> Result<(), AllocError> {
        Script::process_line(self, alloc, line, out)
    }

    fn finish(
        &mut self,
        alloc: Global,
        _desk: &mut (),
        out: &mut Vec<u8>,
    ) -> Result<(), AllocError> {
        Script::finish(self, alloc, out)
    }

    fn pause(&self, _desk: &mut ()) {}
}
