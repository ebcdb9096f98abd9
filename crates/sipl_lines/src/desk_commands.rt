// What each command asks of a desk, and its reply.
ghost use Rattle.std.specs.Prelude.{◌≡◌, ◌⊎◌, ◌+◌, ◌≤◌, [], ◌++◌, Ok, Err, length, codes, IfOk, IfErr, IsTrue, OnErr, vec_len, vec_capacity};
ghost use Rattle.sipl_masterfile.specs.RecordText.{record_of};
ghost use Rattle.sipl_names.specs.NameFault.{IfInvalid};
ghost use Rattle.sipl_names.specs.NameText.{name_of};
ghost use Rattle.sipl_uri.specs.Uris.{has_scheme_and_octets, question_of};
ghost use Rattle.sipl_lines.specs.Requests.{ok_words};
ghost use Rattle.sipl_lines.specs.Commands.{AnswersUri, Asks, ChangesHold, Edits, EditsRecord, ListsUri, Repairs, TurnsPage, Unloads, handed_text, result_text, zone_asked};
ghost use Rattle.sipl_lines.specs.ReplyText.{HasTargets, counts_line, evidence_text, refusal_line};
ghost use Rattle.sipl_lines.specs.Session.{AppendsText, Replies};

use crate::command::CommandWord;
use crate::desk::{Desk, MAX_REFUSAL_LEN};
use crate::reply::{write_answer, write_done, write_evidence, write_page, write_refusal};
use sipl_book::{Edit, Handed};
use sipl_choice::Endpoint;
use sipl_evidence::Evidence;
use sipl_masterfile::{ZoneFault, ZoneText, read_record};
use sipl_names::{Name, NameFault};
use sipl_records::{AddressFault, Record};
use sipl_srv::{Draws, DrawsFault};
use sipl_uri::{Question, Uri, UriFault};
use std::alloc::{AllocError, Global};

// The maximum length of a short reply in octets: the lines of four steps of a call, each of at most
// 128, and a last line, which is no longer than a refusal. Space for one is reserved before each
// command.
pub(crate) const MAX_SHORT_REPLY_LEN: usize = 1_552;

// Loads a zone, and appends the reply.
pub(crate) fn load_zone<D: Desk>(desk: &mut D, zone: ZoneText, out: &mut Vec<u8>)
    requires space { vec_len out.old + MAX_SHORT_REPLY_LEN ≤ vec_capacity out.old }
    ensures done { AppendsText (Asks D.rules (zone_asked zone))
        desk.old out.old.items desk.new out.new.items }
    ensures capacity { vec_capacity out.old ≤ vec_capacity out.new }
{
    let records = zone.records().len() as u64;
    let counts = [records, zone.outside(), zone.repeated()];
    match desk.change(Edit::Load(zone)) {
        Ok(done) => {
            let [records, outside, repeated] = counts;
            write_done(
                out,
                CommandWord::Zone,
                &[records, outside, repeated, done.changed],
            );
        }
        Err(fault) => D::write_fault(fault, out),
    }
}

// `drop APEX`: unloads a zone, and appends the reply.
pub(crate) fn unload_zone<D: Desk>(
    alloc: Global,
    desk: &mut D,
    apex: &[u8],
    out: &mut Vec<u8>,
) -> Result<(), AllocError>
    requires space { vec_len out.old + MAX_SHORT_REPLY_LEN ≤ vec_capacity out.old }
    ensures { Replies (Unloads D.rules (name_of apex.now []))
        desk.old out.old result desk.new out.new }
{
    match read_absolute_name(alloc, apex) {
        Ok(apex) => edit(desk, Edit::Unload(apex), CommandWord::Drop, out),
        Err(NameFault::Invalid(invalid)) => write_refusal(out, invalid.code()),
        Err(NameFault::Memory) => Err(AllocError),
    }
}

// An edit of one record.
#[derive(Clone, Copy)]
pub(crate) enum RecordEdit {
    Add,
    Remove,
}

// `add RECORD` or `del RECORD`: adds or removes a record, and appends the reply.
pub(crate) fn edit_record<D: Desk>(
    alloc: Global,
    desk: &mut D,
    kind: RecordEdit,
    text: &[u8],
    out: &mut Vec<u8>,
) -> Result<(), AllocError>
    requires space { vec_len out.old + MAX_SHORT_REPLY_LEN ≤ vec_capacity out.old }
    ensures { Replies (EditsRecord D.rules kind (record_of text.now []))
        desk.old out.old result desk.new out.new }
{
    match read_absolute_record(alloc, text)? {
        Ok(record) => match kind {
            RecordEdit::Add => edit(desk, Edit::Add(record), CommandWord::Add, out),
            RecordEdit::Remove => edit(desk, Edit::Remove(record), CommandWord::Del, out),
        },
        Err(fault) => write_refusal(out, fault.code()),
    }
}

// Makes the edit of a command, and appends the reply: how many sets of records changed.
#[tactic(auto, using(crate::proofs::Lengths::words_are_short))]
fn edit<D: Desk>(
    desk: &mut D,
    edit: Edit,
    word: CommandWord,
    out: &mut Vec<u8>,
) -> Result<(), AllocError>
    requires space { vec_len out.old + MAX_SHORT_REPLY_LEN ≤ vec_capacity out.old }
    ensures { Replies (Edits D.rules (ok_words word) [] edit)
        desk.old out.old result desk.new out.new }
{
    match desk.change(edit) {
        Ok(done) => write_done(out, word, &[done.changed]),
        Err(fault) => D::write_fault(fault, out),
    }
    Ok(())
}

// `find URI DRAWS`: appends a URI's targets for these random words, or why there are none.
pub(crate) fn find<D: Desk>(
    alloc: Global,
    desk: &mut D,
    uri: &[u8],
    draws: &Result<Draws, DrawsFault>,
    out: &mut Vec<u8>,
) -> Result<(), AllocError>
    requires space { vec_len out.old + MAX_SHORT_REPLY_LEN ≤ vec_capacity out.old }
    ensures replies { Replies (AnswersUri D.rules (question_of uri.now) draws.now)
        desk.old out.old result desk.new out.new }
    ensures allocates { OnErr result (IsTrue (has_scheme_and_octets uri.now)) }
{
    let question = match Uri::parse(alloc, uri) {
        Ok(question) => question,
        Err(UriFault::Memory) => return Err(AllocError),
        Err(fault) => return write_refusal(out, fault.code()),
    };
    let draws = match draws {
        Ok(draws) => draws,
        Err(fault) => return write_refusal(out, fault.code()),
    };
    match desk.find(alloc, question, draws) {
        Ok(handed) => reply_handed(&handed, out),
        Err(fault) => D::write_fault(fault, out),
    }
    Ok(())
}

// Appends the reply to a question, or `err Memory` where there is no space for its targets.
pub(crate) fn reply_handed(handed: &Handed, out: &mut Vec<u8>)
    requires space { vec_len out.old + MAX_REFUSAL_LEN ≤ vec_capacity out.old }
    ensures text { (out.new.items ≡ out.old.items ++ handed_text handed.now)
        ⊎ (HasTargets handed.now.answer
        × (out.new.items ≡ out.old.items ++ refusal_line (codes "Memory"))) }
    ensures capacity { vec_capacity out.old ≤ vec_capacity out.new }
{
    if write_answer(out, &handed.answer).is_err() {
        write_refusal(out, "Memory").unwrap();
    }
}

// `deps URI`: appends the record sets that a URI's targets depend on.
pub(crate) fn list_evidence<D: Desk>(
    alloc: Global,
    desk: &mut D,
    uri: &[u8],
    out: &mut Vec<u8>,
) -> Result<(), AllocError>
    requires space { vec_len out.old + MAX_SHORT_REPLY_LEN ≤ vec_capacity out.old }
    ensures replies { Replies (ListsUri D.rules (question_of uri.now))
        desk.old out.old result desk.new out.new }
    ensures allocates { OnErr result (IsTrue (has_scheme_and_octets uri.now)) }
{
    let question = match read_question(alloc, uri)? {
        Ok(question) => question,
        Err(fault) => return write_refusal(out, fault.code()),
    };
    match desk.deps(alloc, question) {
        Ok(evidence) => reply_evidence(&evidence, out),
        Err(fault) => D::write_fault(fault, out),
    }
    Ok(())
}

// Appends the record sets of evidence, or `err Memory` where there is no space for them.
fn reply_evidence(evidence: &Evidence, out: &mut Vec<u8>)
    requires space { vec_len out.old + MAX_REFUSAL_LEN ≤ vec_capacity out.old }
    ensures text { (out.new.items ≡ out.old.items ++ evidence_text evidence.now)
        ⊎ (out.new.items ≡ out.old.items ++ refusal_line (codes "Memory")) }
    ensures capacity { vec_capacity out.old ≤ vec_capacity out.new }
{
    if write_evidence(out, evidence.items()).is_err() {
        write_refusal(out, "Memory").unwrap();
    }
}

// `repair`: looks up again what edits have changed, and appends the reply.
pub(crate) fn repair<D: Desk>(alloc: Global, desk: &mut D, out: &mut Vec<u8>)
    requires space { vec_len out.old + MAX_SHORT_REPLY_LEN ≤ vec_capacity out.old }
    ensures done { AppendsText (Repairs D.rules)
        desk.old out.old.items desk.new out.new.items }
    ensures capacity { vec_capacity out.old ≤ vec_capacity out.new }
{
    match desk.repair(alloc) {
        Ok(()) => write_done(out, CommandWord::Repair, &[]),
        Err(fault) => D::write_fault(fault, out),
    }
}

// `page`: turns the page of the journal, and appends the reply.
pub(crate) fn turn_page<D: Desk>(desk: &mut D, out: &mut Vec<u8>)
    requires space { vec_len out.old + MAX_SHORT_REPLY_LEN ≤ vec_capacity out.old }
    ensures done { AppendsText (TurnsPage D.rules)
        desk.old out.old.items desk.new out.new.items }
    ensures capacity { vec_capacity out.old ≤ vec_capacity out.new }
{
    match desk.page() {
        Ok(extent) => write_page(out, extent),
        Err(fault) => D::write_fault(fault, out),
    }
}

// A change of an endpoint's hold: it is held for this number of milliseconds, or its hold ends.
#[derive(Clone, Copy)]
pub(crate) enum HoldChange {
    Hold(u64),
    Release,
}

// `hold TRANSPORT ADDRESS PORT MS` or `release TRANSPORT ADDRESS PORT`: holds an endpoint or ends its
// hold, and appends the reply.
pub(crate) fn change_hold<D: Desk>(
    desk: &mut D,
    change: HoldChange,
    endpoint: &Result<Endpoint, AddressFault>,
    out: &mut Vec<u8>,
)
    requires space { vec_len out.old + MAX_SHORT_REPLY_LEN ≤ vec_capacity out.old }
    ensures done { AppendsText (ChangesHold D.rules change endpoint.now)
        desk.old out.old.items desk.new out.new.items }
    ensures capacity { vec_capacity out.old ≤ vec_capacity out.new }
{
    let endpoint = match endpoint {
        Ok(endpoint) => endpoint,
        Err(fault) => return write_refusal(out, fault.code()).unwrap(),
    };
    match change {
        HoldChange::Hold(ms) => reply_moved::<D>(
            desk.hold(endpoint, ms),
            CommandWord::Hold,
            &[],
            out,
        ),
        HoldChange::Release => reply_moved::<D>(
            desk.release(endpoint),
            CommandWord::Release,
            &[],
            out,
        ),
    }
}

// Appends the reply to a command that holds, releases or moves the clock: numbers, or its fault.
#[tactic(auto, using(crate::proofs::Lengths::words_are_short))]
pub(crate) fn reply_moved<D: Desk>(
    outcome: Result<u64, D::Fault>,
    word: CommandWord,
    numbers: &[u64],
    out: &mut Vec<u8>,
)
    requires space { vec_len out.old + MAX_REFUSAL_LEN ≤ vec_capacity out.old }
    requires numbers { length numbers.now ≤ 1 }
    ensures done { out.new.items ≡ out.old.items
        ++ result_text D.rules (λ number. counts_line (ok_words word) numbers.now) outcome }
    ensures capacity { vec_capacity out.old ≤ vec_capacity out.new }
{
    match outcome {
        Ok(_) => write_done(out, word, numbers),
        Err(fault) => D::write_fault(fault, out),
    }
}

// The name of a text that is relative to the root, or its fault.
pub(crate) fn read_absolute_name(alloc: Global, text: &[u8]) -> Result<Name, NameFault>
    ensures read { IfOk result (λ name. name_of text.now [] ≡ Ok name) }
    ensures refused { IfErr result
        (λ fault. IfInvalid fault (λ invalid. name_of text.now [] ≡ Err invalid)) }
{
    Name::from_text(alloc, text, &Name::root(alloc))
}

// The record of a text whose names are relative to the root, or its fault. An error says that an
// allocation failed.
pub(crate) fn read_absolute_record(
    alloc: Global,
    text: &[u8],
) -> Result<Result<Record, ZoneFault>, AllocError>
    ensures { IfOk result (λ read. read ≡ record_of text.now []) }
{
    match read_record(alloc, text, &Name::root(alloc)) {
        Err(fault) if fault.is_memory() => Err(AllocError),
        read => Ok(read),
    }
}

// The question of a URI, or its fault. An error says that an allocation failed.
pub(crate) fn read_question(
    alloc: Global,
    uri: &[u8],
) -> Result<Result<Question, UriFault>, AllocError>
    ensures read { IfOk result (λ read. read ≡ question_of uri.now) }
    ensures memory { OnErr result (IsTrue (has_scheme_and_octets uri.now)) }
{
    match Uri::parse(alloc, uri) {
        Err(UriFault::Memory) => Err(AllocError),
        read => Ok(read),
    }
}
