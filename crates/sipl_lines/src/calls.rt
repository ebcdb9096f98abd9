// What `call`, `got`, `broke` and `clock` do with a session's call, and their replies.
ghost use Rattle.std.specs.Prelude.{◌≡◌, ◌+◌, ◌^◌, ◌≤◌, [], ◌∷◌, length, take, Some, IsTrue, OnErr, vec_len, vec_capacity};
ghost use Rattle.sipl_uri.specs.Uris.{has_scheme_and_octets, question_of};
ghost use Rattle.sipl_failover.specs.FailoverRun.{Event};
ghost use Rattle.sipl_failover.specs.Rules.{refusal_of};
ghost use Rattle.sipl_lines.specs.Calls.{CallsUri, GoesOn, HearsOf, Opens, OpensOver, Reports, SetsClock, is_open, with_call};
ghost use Rattle.sipl_lines.specs.Requests.{ok_words};
ghost use Rattle.sipl_lines.specs.declared.command.CommandWord.TheVariants as command;
ghost use Rattle.sipl_lines.specs.ReplyText.{counts_line};
ghost use Rattle.sipl_lines.specs.Session.{AppendsText, Replies};

use crate::command::CommandWord;
use crate::desk::Desk;
use crate::desk_commands::{MAX_SHORT_REPLY_LEN, read_question, reply_moved};
use crate::reply::{write_answer, write_done, write_refusal};
use crate::step_lines::{hold_of, write_steps};
use sipl_choice::Endpoint;
use sipl_failover::{Failover, Steps};
use sipl_plans::Answer;
use sipl_srv::{Draws, DrawsFault};
use sipl_tx::Kind;
use std::alloc::{AllocError, Global};

// The maximum number of targets of a call. An answer of a book has no more.
const MAX_TARGETS: usize = 2_048;

// `call invite|other BASE URI DRAWS`: opens a call to a URI's targets for these random words, and
// appends its first step, or why there is none.
#[tactic(auto, using(crate::proofs::Askable::asked_octets))]
pub(crate) fn open_call<D: Desk>(
    alloc: Global,
    desk: &mut D,
    call: &mut Option<Failover>,
    kind: Kind,
    base: u64,
    uri: &[u8],
    draws: &Result<Draws, DrawsFault>,
    out: &mut Vec<u8>,
) -> Result<(), AllocError>
    requires space { vec_len out.old + MAX_SHORT_REPLY_LEN ≤ vec_capacity out.old }
    ensures replies { Replies (CallsUri D.rules kind base (question_of uri.now) draws.now)
        (with_call desk.old call.old) out.old result (with_call desk.new call.new) out.new }
    ensures allocates { OnErr result (IsTrue (has_scheme_and_octets uri.now)) }
{
    let question = match read_question(alloc, uri)? {
        Ok(question) => question,
        Err(fault) => return write_refusal(out, fault.code()),
    };
    let draws = match draws {
        Ok(draws) => draws,
        Err(fault) => return write_refusal(out, fault.code()),
    };
    if is_open(call) {
        return write_refusal(out, "K4");
    }
    let space = Vec::with_capacity(alloc, MAX_TARGETS)?;
    match desk.find(alloc, question, draws) {
        Ok(handed) => open_to(call, kind, base, desk.now(), &handed.answer, space, out),
        Err(fault) => D::write_fault(fault, out),
    }
    Ok(())
}

// Whether there is a call that has not ended.
fn is_open(call: &Option<Failover>) -> bool
    ensures { result ≡ is_open call.now }
{
    match call {
        Some(failover) => !failover.has_ended(),
        None => false,
    }
}

// Opens a call to the targets of an answer, which are copied into the space, and appends its first
// step, or why there are none.
fn open_to(
    call: &mut Option<Failover>,
    kind: Kind,
    base: u64,
    now: u64,
    answer: &Answer,
    space: Vec<Endpoint>,
    out: &mut Vec<u8>,
)
    requires space { vec_len out.old + MAX_SHORT_REPLY_LEN ≤ vec_capacity out.old }
    requires time { now ≤ 2 ^ 52 }
    requires empty { space.items ≡ [] }
    requires capacity { 2048 ≤ vec_capacity space }
    ensures done { AppendsText (Opens kind base now answer.now)
        call.old out.old.items call.new out.new.items }
    ensures capacity { vec_capacity out.old ≤ vec_capacity out.new }
{
    match answer {
        Answer::Targets(targets) => start(call, kind, base, now, targets.as_slice(), space, out),
        Answer::None(_) => write_answer(out, answer).unwrap(),
    }
}

// Starts a call to these targets, which are copied into the space, and appends its first step, or the
// fault.
fn start(
    call: &mut Option<Failover>,
    kind: Kind,
    base: u64,
    now: u64,
    targets: &[Endpoint],
    space: Vec<Endpoint>,
    out: &mut Vec<u8>,
)
    requires space { vec_len out.old + MAX_SHORT_REPLY_LEN ≤ vec_capacity out.old }
    requires time { now ≤ 2 ^ 52 }
    requires empty { space.items ≡ [] }
    requires capacity { 2048 ≤ vec_capacity space }
    ensures done { AppendsText (OpensOver kind base now targets.now)
        call.old out.old.items call.new out.new.items }
    ensures capacity { vec_capacity out.old ≤ vec_capacity out.new }
{
    match Failover::start(first_targets(targets, space), kind, base, now) {
        Ok((failover, steps)) => {
            write_steps(out, &failover, steps.as_slice());
            write_done(out, CommandWord::Call, &[]);
            *call = Some(failover);
        }
        Err(fault) => write_refusal(out, fault.code()).unwrap(),
    }
}

// A copy of the first targets, in a vector that has space for them.
#[tactic(auto, using(std::proofs::lemmas::List::take_min))]
fn first_targets(targets: &[Endpoint], mut copy: Vec<Endpoint>) -> Vec<Endpoint>
    requires empty { copy.items ≡ [] }
    requires capacity { 2048 ≤ vec_capacity copy }
    ensures { result.items ≡ take 2048 targets.now }
{
    let len = MAX_TARGETS.min(targets.len());
    copy.extend_from_slice(&targets[..len]).unwrap();
    copy.shrink_to_fit();
    copy
}

// `got ATTEMPT CODE [retry SECONDS]`: the response to an attempt of the call. Appends the steps
// and the reply.
pub(crate) fn hear_response<D: Desk>(
    desk: &mut D,
    call: &mut Option<Failover>,
    attempt: u32,
    code: u16,
    retry_after: Option<u32>,
    out: &mut Vec<u8>,
)
    requires space { vec_len out.old + MAX_SHORT_REPLY_LEN ≤ vec_capacity out.old }
    ensures done { AppendsText
        (HearsOf D.rules (ok_words command.Got) (Event.Received attempt code retry_after))
        (with_call desk.old call.old) out.old.items (with_call desk.new call.new) out.new.items }
    ensures capacity { vec_capacity out.old ≤ vec_capacity out.new }
{
    let Some(failover) = call else {
        return write_refusal(out, "K3").unwrap();
    };
    match failover.receive(attempt, code, retry_after) {
        Ok(steps) => report(desk, failover, &steps, CommandWord::Got, &[], out),
        Err(fault) => write_refusal(out, fault.code()).unwrap(),
    }
}

// `broke`: the transport of the call's running attempt has failed. Appends the steps and the reply.
pub(crate) fn hear_failure<D: Desk>(desk: &mut D, call: &mut Option<Failover>, out: &mut Vec<u8>)
    requires space { vec_len out.old + MAX_SHORT_REPLY_LEN ≤ vec_capacity out.old }
    ensures done { AppendsText (HearsOf D.rules (ok_words command.Broke) Event.TransportFailed)
        (with_call desk.old call.old) out.old.items (with_call desk.new call.new) out.new.items }
    ensures capacity { vec_capacity out.old ≤ vec_capacity out.new }
{
    let Some(failover) = call else {
        return write_refusal(out, "K3").unwrap();
    };
    match failover.transport_error() {
        Ok(steps) => report(desk, failover, &steps, CommandWord::Broke, &[], out),
        Err(fault) => write_refusal(out, fault.code()).unwrap(),
    }
}

// `clock MS`: sets the time, also of a call that has not ended. Appends the steps and the
// reply.
pub(crate) fn set_clock<D: Desk>(
    desk: &mut D,
    call: &mut Option<Failover>,
    to: u64,
    out: &mut Vec<u8>,
)
    requires space { vec_len out.old + MAX_SHORT_REPLY_LEN ≤ vec_capacity out.old }
    ensures done { AppendsText (SetsClock D.rules to)
        (with_call desk.old call.old) out.old.items (with_call desk.new call.new) out.new.items }
    ensures capacity { vec_capacity out.old ≤ vec_capacity out.new }
{
    if let Err(fault) = desk.advance(to) {
        return D::write_fault(fault, out);
    }
    match call {
        Some(failover) if !failover.has_ended() => tick(desk, failover, to, out),
        _ => write_done(out, CommandWord::Clock, &[to]),
    }
}

// Tells a call the time. Appends the steps and the reply to `clock`.
fn tick<D: Desk>(desk: &mut D, failover: &mut Failover, to: u64, out: &mut Vec<u8>)
    requires space { vec_len out.old + MAX_SHORT_REPLY_LEN ≤ vec_capacity out.old }
    requires time { to ≤ 2 ^ 52 }
    ensures done { AppendsText (GoesOn D.rules (counts_line (ok_words command.Clock) (to ∷ []))
        failover.old (Event.Ticked to) (refusal_of failover.old (Event.Ticked to)))
        (with_call desk.old (Some failover.old)) out.old.items
        (with_call desk.new (Some failover.new)) out.new.items }
    ensures capacity { vec_capacity out.old ≤ vec_capacity out.new }
{
    match failover.tick(to) {
        Ok(steps) => report(desk, failover, &steps, CommandWord::Clock, &[to], out),
        Err(fault) => write_refusal(out, fault.code()).unwrap(),
    }
}

// Appends the lines of a call's steps, makes the hold among them, and appends the last line: that
// the command is accepted, with numbers, or why the hold was refused.
#[tactic(auto, using(crate::proofs::Lengths::words_are_short))]
fn report<D: Desk>(
    desk: &mut D,
    failover: &Failover,
    steps: &Steps,
    word: CommandWord,
    numbers: &[u64],
    out: &mut Vec<u8>,
)
    requires space { vec_len out.old + MAX_SHORT_REPLY_LEN ≤ vec_capacity out.old }
    requires numbers { length numbers.now ≤ 1 }
    ensures done { AppendsText (Reports D.rules (counts_line (ok_words word) numbers.now)
        failover.now steps.now) desk.old out.old.items desk.new out.new.items }
    ensures capacity { vec_capacity out.old ≤ vec_capacity out.new }
{
    let steps = steps.as_slice();
    write_steps(out, failover, steps);
    match hold_of(steps) {
        Some((endpoint, ms)) => reply_moved::<D>(desk.hold(&endpoint, ms), word, numbers, out),
        None => write_done(out, word, numbers),
    }
}
