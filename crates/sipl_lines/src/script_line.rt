// What a line of a script asks for.
ghost use Rattle.std.specs.Prelude.{◌≡◌, ◌≤◌, IfSome};
ghost use Rattle.sipl_records.specs.Fields.{fields_of};
ghost use Rattle.sipl_records.specs.Numbers.{number_of};
ghost use Rattle.sipl_lines.specs.Requests.{request_of};
ghost use Rattle.sipl_lines.specs.ScriptLines.{ScriptRequest, commit_request, forget_request, hand_request, only_worker, script_request_of, some_workers, start_request, step_request, worker_request, workers_in};
ghost use Rattle.sipl_lines.specs.ScriptMeaning.{meaning_if_read, meaning_of_line};

use crate::command::{Command, MAX_LINE_LEN, read_command};
use crate::draws_field::read_draws;
use sipl_interleave::MAX_WORKERS;
use sipl_records::{next_field, read_number};
use sipl_srv::{Draws, DrawsFault};

// A line of a script, once there is a world, with its fields as they are in the line. Workers are
// numbered from 0.
#[derive(Clone, Copy)]
pub(crate) enum ScriptLine<'a> {
    // A line as of a session. A command that scripts do not have is refused as an unknown one: K1.
    Session(Command<'a>),
    // `hand URI DRAWS`: asks for the kept answer to a URI, for these random words.
    Hand(&'a [u8], Draws),
    // `hand URI DRAWS` with faulty random words.
    HandFault(&'a [u8], DrawsFault),
    // `start W URI`: a worker begins to look up a URI.
    Start(u64, &'a [u8]),
    // `read W`: a worker reads the record set that its run wants.
    Read(u64),
    // `commit W DRAWS`: a worker commits what it found, for these random words.
    Commit(u64, Draws),
    // `commit W DRAWS` with faulty random words.
    CommitFault(u64, DrawsFault),
    // `lease W`: a worker leases a result that an edit outdated, and begins to look it up.
    Lease(u64),
    // `settle W`: a worker settles its lease with what it found.
    Settle(u64),
    // `abandon W`: a worker ends its run.
    Abandon(u64),
    // `forget URI`: forgets the kept answer to a URI.
    Forget(&'a [u8]),
}

// What a line asks for, which has no line end. Command words are in lower case.
pub(crate) fn read_script_line(line: &[u8]) -> ScriptLine<'_>
    ensures { meaning_of_line result ≡ script_request_of line.now }
{
    if line.len() > MAX_LINE_LEN {
        return ScriptLine::Session(Command::TooLong);
    }
    let Some((word, rest)) = next_field(line) else {
        return ScriptLine::Session(read_command(line));
    };
    match read_step_fields(word, rest, line) {
        Some(line) => line,
        None => ScriptLine::Session(Command::Unknown),
    }
}

// What the command word and the fields after it ask for, or the line as one of a session. `None` where
// the fields are not as the word takes them.
fn read_step_fields<'a>(word: &[u8], rest: &'a [u8], line: &'a [u8]) -> Option<ScriptLine<'a>>
    ensures { meaning_if_read result
        ≡ step_request word.now (fields_of rest.now) (request_of line.now) }
{
    if word == b"hand".as_slice() {
        hand_line(rest)
    } else if word == b"start".as_slice() {
        start_line(rest)
    } else if word == b"read".as_slice() {
        read_line(rest)
    } else if word == b"commit".as_slice() {
        commit_line(rest)
    } else if word == b"lease".as_slice() {
        lease_line(rest)
    } else if word == b"settle".as_slice() {
        settle_line(rest)
    } else if word == b"abandon".as_slice() {
        abandon_line(rest)
    } else if word == b"forget".as_slice() {
        forget_line(rest)
    } else {
        Some(ScriptLine::Session(read_command(line)))
    }
}

// `hand URI DRAWS`.
fn hand_line(rest: &[u8]) -> Option<ScriptLine<'_>>
    ensures { meaning_if_read result ≡ hand_request (fields_of rest.now) }
{
    let (uri, rest) = next_field(rest)?;
    match read_draws(rest)? {
        Ok(draws) => Some(ScriptLine::Hand(uri, draws)),
        Err(fault) => Some(ScriptLine::HandFault(uri, fault)),
    }
}

// `start W URI`.
fn start_line(rest: &[u8]) -> Option<ScriptLine<'_>>
    ensures { meaning_if_read result ≡ start_request (fields_of rest.now) }
{
    let (worker, rest) = next_field(rest)?;
    let (uri, rest) = next_field(rest)?;
    if next_field(rest).is_some() {
        return None;
    }
    Some(ScriptLine::Start(read_number(worker, u64::MAX)?, uri))
}

// `commit W DRAWS`.
fn commit_line(rest: &[u8]) -> Option<ScriptLine<'_>>
    ensures { meaning_if_read result ≡ commit_request (fields_of rest.now) }
{
    let (worker, rest) = next_field(rest)?;
    let worker = read_number(worker, u64::MAX)?;
    match read_draws(rest)? {
        Ok(draws) => Some(ScriptLine::Commit(worker, draws)),
        Err(fault) => Some(ScriptLine::CommitFault(worker, fault)),
    }
}

// `forget URI`.
fn forget_line(rest: &[u8]) -> Option<ScriptLine<'_>>
    ensures { meaning_if_read result ≡ forget_request (fields_of rest.now) }
{
    let (uri, rest) = next_field(rest)?;
    if next_field(rest).is_some() {
        return None;
    }
    Some(ScriptLine::Forget(uri))
}

// `read W`.
fn read_line(rest: &[u8]) -> Option<ScriptLine<'_>>
    ensures { meaning_if_read result ≡ worker_request ScriptRequest.read (fields_of rest.now) }
{
    Some(ScriptLine::Read(read_worker(rest)?))
}

// `lease W`.
fn lease_line(rest: &[u8]) -> Option<ScriptLine<'_>>
    ensures { meaning_if_read result ≡ worker_request ScriptRequest.lease (fields_of rest.now) }
{
    Some(ScriptLine::Lease(read_worker(rest)?))
}

// `settle W`.
fn settle_line(rest: &[u8]) -> Option<ScriptLine<'_>>
    ensures { meaning_if_read result ≡ worker_request ScriptRequest.settle (fields_of rest.now) }
{
    Some(ScriptLine::Settle(read_worker(rest)?))
}

// `abandon W`.
fn abandon_line(rest: &[u8]) -> Option<ScriptLine<'_>>
    ensures { meaning_if_read result ≡ worker_request ScriptRequest.abandon (fields_of rest.now) }
{
    Some(ScriptLine::Abandon(read_worker(rest)?))
}

// The number of a worker, if it is the only field.
fn read_worker(rest: &[u8]) -> Option<u64>
    ensures { result ≡ only_worker (fields_of rest.now) }
{
    match next_field(rest) {
        Some((worker, rest)) if next_field(rest).is_none() => read_number(worker, u64::MAX),
        _ => None,
    }
}

// How many workers the first line of a script asks for: `workers COUNT`, from 1 to 64.
pub(crate) fn read_workers(line: &[u8]) -> Option<usize>
    ensures workers { result ≡ workers_in line.now }
    ensures some { IfSome result (λ workers. (1 ≤ workers) × (workers ≤ 64)) }
{
    if line.len() > MAX_LINE_LEN {
        return None;
    }
    let (word, rest) = next_field(line)?;
    let (count, rest) = next_field(rest)?;
    if next_field(rest).is_some() {
        return None;
    }
    if word == b"workers".as_slice() {
        read_count(count)
    } else {
        None
    }
}

// A number of workers, if it is one.
fn read_count(count: &[u8]) -> Option<usize>
    ensures workers { result ≡ some_workers (number_of count.now 64) }
    ensures some { IfSome result (λ workers. (1 ≤ workers) × (workers ≤ 64)) }
{
    match read_number(count, MAX_WORKERS as u64) {
        None | Some(0) => None,
        Some(workers) => Some(workers as usize),
    }
}
