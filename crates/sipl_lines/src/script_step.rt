// The step of the world that a line of a script asks for.
ghost use Rattle.std.specs.Prelude.{◌≡◌, ◌⊎◌, ◌≤◌, Ok, Err, codes, length, IfOk, IfErr, IsTrue};
ghost use Rattle.sipl_uri.specs.Uris.{has_scheme_and_octets};
ghost use Rattle.sipl_lines.specs.Requests.{meaning_of};
ghost use Rattle.sipl_lines.specs.ScriptMeaning.{meaning_of_line};
ghost use Rattle.sipl_lines.specs.ScriptSteps.{MayFail, SessionMayFail, apex_of, question_in, record_in, session_step, step_of};

use crate::command::Command;
use crate::desk_commands::{read_absolute_name, read_absolute_record, read_question};
use crate::script_line::ScriptLine;
use sipl_book::Edit;
use sipl_interleave::Step;
use sipl_names::{Name, NameFault};
use sipl_records::Record;
use sipl_uri::Question;
use std::alloc::Global;

// The step that a line asks for, or the code with which it is refused: K1 where it asks for none, else
// that of the first faulty field, or `Memory` where an allocation failed.
pub(crate) fn read_step(alloc: Global, line: &ScriptLine<'_>) -> Result<Step, &'static str>
    ensures ok { IfOk result (λ step. step_of (meaning_of_line line.now) ≡ Ok step) }
    ensures err { IfErr result (λ code. (step_of (meaning_of_line line.now) ≡ Err code.now)
        ⊎ (MayFail (meaning_of_line line.now) × (code.now ≡ codes "Memory"))) }
    ensures short { IfErr result (λ code. length code.now ≤ 6) }
{
    match line {
        ScriptLine::Session(command) => read_session_step(alloc, command),
        ScriptLine::Hand(uri, draws) => Ok(Step::Hand(read_uri(alloc, uri)?, *draws)),
        ScriptLine::HandFault(uri, fault) => {
            read_uri(alloc, uri)?;
            Err(fault.code())
        }
        ScriptLine::Start(worker, uri) => Ok(Step::Start(*worker as usize, read_uri(alloc, uri)?)),
        ScriptLine::Read(worker) => Ok(Step::Read(*worker as usize)),
        ScriptLine::Commit(worker, draws) => Ok(Step::Commit(*worker as usize, *draws)),
        ScriptLine::CommitFault(_, fault) => Err(fault.code()),
        ScriptLine::Lease(worker) => Ok(Step::Lease(*worker as usize)),
        ScriptLine::Settle(worker) => Ok(Step::Settle(*worker as usize)),
        ScriptLine::Abandon(worker) => Ok(Step::Abandon(*worker as usize)),
        ScriptLine::Forget(uri) => Ok(Step::Forget(read_uri(alloc, uri)?)),
    }
}

// The step that a session's command asks for, or the code with which it is refused: K1 where it asks
// for none, as one that scripts do not have.
fn read_session_step(alloc: Global, command: &Command<'_>) -> Result<Step, &'static str>
    ensures ok { IfOk result (λ step. session_step (meaning_of command.now) ≡ Ok step) }
    ensures err { IfErr result (λ code. (session_step (meaning_of command.now) ≡ Err code.now)
        ⊎ (SessionMayFail (meaning_of command.now) × (code.now ≡ codes "Memory"))) }
    ensures short { IfErr result (λ code. length code.now ≤ 6) }
{
    match command {
        Command::Drop(apex) => Ok(Step::Change(Edit::Unload(read_apex(alloc, apex)?))),
        Command::Add(text) => Ok(Step::Change(Edit::Add(read_record(alloc, text)?))),
        Command::Del(text) => Ok(Step::Change(Edit::Remove(read_record(alloc, text)?))),
        Command::Hold(Ok(endpoint), ms) => Ok(Step::Hold(*endpoint, *ms)),
        Command::Release(Ok(endpoint)) => Ok(Step::Release(*endpoint)),
        Command::Hold(Err(fault), _) | Command::Release(Err(fault)) => Err(fault.code()),
        Command::Clock(to) => Ok(Step::Advance(*to)),
        Command::Page => Ok(Step::Page),
        Command::TooLong => Err("K2"),
        _ => Err("K1"),
    }
}

// The name of a text, which is relative to the root, or the code of its fault.
fn read_apex(alloc: Global, text: &[u8]) -> Result<Name, &'static str>
    ensures ok { IfOk result (λ apex. apex_of text.now ≡ Ok apex) }
    ensures err { IfErr result
        (λ code. (apex_of text.now ≡ Err code.now) ⊎ (code.now ≡ codes "Memory")) }
    ensures short { IfErr result (λ code. length code.now ≤ 6) }
{
    match read_absolute_name(alloc, text) {
        Ok(apex) => Ok(apex),
        Err(NameFault::Invalid(invalid)) => Err(invalid.code()),
        Err(NameFault::Memory) => Err("Memory"),
    }
}

// The record of a text, whose names are relative to the root, or the code of its fault.
fn read_record(alloc: Global, text: &[u8]) -> Result<Record, &'static str>
    ensures ok { IfOk result (λ r. record_in text.now ≡ Ok r) }
    ensures err { IfErr result
        (λ code. (record_in text.now ≡ Err code.now) ⊎ (code.now ≡ codes "Memory")) }
    ensures short { IfErr result (λ code. length code.now ≤ 6) }
{
    match read_absolute_record(alloc, text) {
        Ok(Ok(record)) => Ok(record),
        Ok(Err(fault)) => Err(fault.code()),
        Err(_) => Err("Memory"),
    }
}

// The question of a URI, or the code of its fault.
fn read_uri(alloc: Global, uri: &[u8]) -> Result<Question, &'static str>
    ensures ok { IfOk result (λ question. question_in uri.now ≡ Ok question) }
    ensures err { IfErr result (λ code. (question_in uri.now ≡ Err code.now)
        ⊎ (IsTrue (has_scheme_and_octets uri.now) × (code.now ≡ codes "Memory"))) }
    ensures short { IfErr result (λ code. length code.now ≤ 6) }
{
    match read_question(alloc, uri) {
        Ok(Ok(question)) => Ok(question),
        Ok(Err(fault)) => Err(fault.code()),
        Err(_) => Err("Memory"),
    }
}
