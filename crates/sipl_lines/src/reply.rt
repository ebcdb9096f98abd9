// How replies are written.
ghost use Rattle.std.specs.Prelude.{◌≡◌, ◌+◌, ◌*◌, ◌≤◌, [], ◌∷◌, ◌++◌, length, take, IsOk, OnOk, OnErr, vec_len, vec_capacity};
ghost use Rattle.sipl_lines.specs.Requests.{ok_words};
ghost use Rattle.sipl_lines.specs.declared.command.CommandWord.TheVariants as command;
ghost use Rattle.sipl_lines.specs.Commands.{page_text};
ghost use Rattle.sipl_lines.specs.ReplyText.{answer_text, evidence_line, evidence_text, max_answer_len, counts_line, refusal_line, text_fault_line, number_field, target_line, target_lines, word_field};
ghost use Rattle.sipl_names.specs.NamePrint.{text_of};
ghost use Rattle.sipl_records.specs.Kinds.{text_of_kind};

use crate::command::CommandWord;
use itoa::Buffer;
use sipl_book::Extent;
use sipl_choice::Endpoint;
use sipl_evidence::Item;
use sipl_names::Name;
use sipl_plans::Answer;
use sipl_records::{Key, Kind};
use std::alloc::AllocError;

// The maximum length in octets of a number below 2^64 with a space before it.
pub(crate) const MAX_NUMBER_FIELD_LEN: usize = 21;

// The maximum length in octets of a target's line: `target`, its number, the transport's name of at
// most four octets, the address's text of at most 39, and the port.
const MAX_TARGET_LINE_LEN: usize = 94;

// The maximum length in octets of the line that counts the targets, or the record sets.
const MAX_COUNT_LINE_LEN: usize = 29;

// The maximum length in octets of what follows the owner in a record set's line: the word of a kind,
// of at most six octets, and a number.
const MAX_KIND_AND_COUNT_LEN: usize = 29;

// Appends words, numbers with a space before each, and the end of the line, to space that is
// reserved: it does not allocate.
pub(crate) fn write_counts(out: &mut Vec<u8>, words: &[u8], numbers: &[u64])
    requires { vec_len out.old + length words.now + MAX_NUMBER_FIELD_LEN * length numbers.now + 1
        ≤ vec_capacity out.old }
    ensures ok { out.new.items ≡ out.old.items ++ counts_line words.now numbers.now }
    ensures capacity { vec_capacity out.old ≤ vec_capacity out.new }
{
    out.extend_from_slice(words).unwrap();
    for number in numbers {
        write_number(out, *number);
    }
    out.push_reserved(b'\n');
}

// Appends the reply to a command that is accepted, with numbers, to space that is reserved.
pub(crate) fn write_done(out: &mut Vec<u8>, word: CommandWord, numbers: &[u64])
    requires { vec_len out.old + length (ok_words word) + MAX_NUMBER_FIELD_LEN * length numbers.now + 1
        ≤ vec_capacity out.old }
    ensures ok { out.new.items ≡ out.old.items ++ counts_line (ok_words word) numbers.now }
    ensures capacity { vec_capacity out.old ≤ vec_capacity out.new }
{
    write_counts(out, word.ok_words(), numbers);
}

// Appends a space and a number to space that is reserved.
pub(crate) fn write_number(out: &mut Vec<u8>, number: u64)
    requires { vec_len out.old + MAX_NUMBER_FIELD_LEN ≤ vec_capacity out.old }
    ensures ok { out.new.items ≡ out.old.items ++ number_field number }
    ensures len { vec_len out.new ≤ vec_len out.old + MAX_NUMBER_FIELD_LEN }
    ensures capacity { vec_capacity out.old ≤ vec_capacity out.new }
{
    out.push_reserved(b' ');
    if number < 10 {
        out.push_reserved(b'0' + number as u8);
        return;
    }
    let mut buffer = Buffer::new();
    out.extend_from_slice(buffer.format(number).as_bytes())
        .unwrap();
}

// Appends a space and a word to space that is reserved.
pub(crate) fn write_word(out: &mut Vec<u8>, word: &[u8])
    requires { vec_len out.old + 1 + length word.now ≤ vec_capacity out.old }
    ensures ok { out.new.items ≡ out.old.items ++ word_field word.now }
    ensures len { vec_len out.new ≡ vec_len out.old + 1 + length word.now }
    ensures capacity { vec_capacity out.old ≤ vec_capacity out.new }
{
    out.push_reserved(b' ');
    out.extend_from_slice(word).unwrap();
}

// Appends a space, an owner, a space and a kind to space that is reserved.
#[tactic(auto, using(crate::proofs::Lengths::kind_text_is_short))]
pub(crate) fn write_key(out: &mut Vec<u8>, key: &Key)
    requires { vec_len out.old + 1_028 ≤ vec_capacity out.old }
    ensures ok { out.new.items ≡ out.old.items
        ++ (word_field (text_of key.now.name) ++ word_field (text_of_kind key.now.kind)) }
    ensures len { vec_len out.new ≤ vec_len out.old + 1_028 }
    ensures capacity { vec_capacity out.old ≤ vec_capacity out.new }
{
    write_name(out, &key.name);
    write_word(out, key.kind.name().as_bytes());
}

// Appends a space and a name to space that is reserved.
#[tactic(auto, using(crate::proofs::Lengths::name_text_is_short))]
pub(crate) fn write_name(out: &mut Vec<u8>, name: &Name)
    requires { vec_len out.old + 1_021 ≤ vec_capacity out.old }
    ensures ok { out.new.items ≡ out.old.items ++ word_field (text_of name.now) }
    ensures len { vec_len out.new ≤ vec_len out.old + 1_021 }
    ensures capacity { vec_capacity out.old ≤ vec_capacity out.new }
{
    out.push_reserved(b' ');
    // each octet of the wire form is printed in at most four
    out.reserve(4 * name.wire_len()).unwrap();
    name.write(out).unwrap();
}

// Appends the reply to an accepted page to space that is reserved.
pub(crate) fn write_page(out: &mut Vec<u8>, extent: Extent)
    requires { vec_len out.old + 50 ≤ vec_capacity out.old }
    ensures ok { out.new.items ≡ out.old.items ++ page_text extent }
    ensures capacity { vec_capacity out.old ≤ vec_capacity out.new }
{
    write_done(out, CommandWord::Page, &[extent.first, extent.count]);
}

// Appends the reply to a command that is refused. An error leaves `out` as it was.
pub(crate) fn write_refusal(out: &mut Vec<u8>, code: &str) -> Result<(), AllocError>
    ensures ok { OnOk result (out.new.items ≡ out.old.items ++ refusal_line code.now) }
    ensures err { OnErr result (out.new.items ≡ out.old.items) }
    ensures capacity { vec_capacity out.old ≤ vec_capacity out.new }
    ensures succeeds { vec_len out.old + length (refusal_line code.now) ≤ vec_capacity out.old
        → IsOk result }
{
    write_line(out, b"err ", code.as_bytes())
}

// Appends words, the line on which a faulty entry of a zone's text begins, and the fault's code. An
// error leaves `out` as it was.
pub(crate) fn write_text_fault(
    out: &mut Vec<u8>,
    words: &[u8],
    line: u64,
    code: &str,
) -> Result<(), AllocError>
    ensures ok { OnOk result
        (out.new.items ≡ out.old.items ++ text_fault_line words.now line code.now) }
    ensures err { OnErr result (out.new.items ≡ out.old.items) }
    ensures capacity { vec_capacity out.old ≤ vec_capacity out.new }
    ensures succeeds { vec_len out.old + length words.now + MAX_NUMBER_FIELD_LEN
        + length code.now + 2 ≤ vec_capacity out.old → IsOk result }
{
    let tail_len = MAX_NUMBER_FIELD_LEN + code.len() + 2;
    out.reserve(words.len().saturating_add(tail_len))?;
    out.extend_from_slice(words).unwrap();
    write_number(out, line);
    write_word(out, code.as_bytes());
    out.push_reserved(b'\n');
    Ok(())
}

// Appends a word, a text and the end of the line. An error leaves `out` as it was.
fn write_line(out: &mut Vec<u8>, word: &[u8], text: &[u8]) -> Result<(), AllocError>
    ensures ok { OnOk result (out.new.items ≡ out.old.items ++ (word.now ++ text.now ++ 10 ∷ [])) }
    ensures err { OnErr result (out.new.items ≡ out.old.items) }
    ensures capacity { vec_capacity out.old ≤ vec_capacity out.new }
    ensures succeeds { vec_len out.old + length (word.now ++ text.now ++ 10 ∷ [])
        ≤ vec_capacity out.old → IsOk result }
{
    out.reserve(word.len() + text.len() + 1)?;
    out.extend_from_slice(word).unwrap();
    out.extend_from_slice(text).unwrap();
    out.push_reserved(b'\n');
    Ok(())
}

// Appends the reply to a question. An error leaves `out` as it was.
pub(crate) fn write_answer(out: &mut Vec<u8>, answer: &Answer) -> Result<(), AllocError>
    ensures ok { OnOk result (out.new.items ≡ out.old.items ++ answer_text answer.now) }
    ensures err { OnErr result (out.new.items ≡ out.old.items) }
    ensures capacity { vec_capacity out.old ≤ vec_capacity out.new }
    ensures succeeds { vec_len out.old + max_answer_len answer.now ≤ vec_capacity out.old
        → IsOk result }
{
    match answer {
        Answer::Targets(targets) => write_targets(out, targets.as_slice()),
        Answer::None(reason) => write_line(out, b"none ", reason.name().as_bytes()),
    }
}

// Appends a line for each target, and the line that counts them. An error leaves `out` as it was.
fn write_targets(out: &mut Vec<u8>, targets: &[Endpoint]) -> Result<(), AllocError>
    ensures ok { OnOk result (out.new.items
        ≡ out.old.items ++ (target_lines 1 targets.now
        ++ counts_line (ok_words command.Find) (length targets.now ∷ []))) }
    ensures err { OnErr result (out.new.items ≡ out.old.items) }
    ensures capacity { vec_capacity out.old ≤ vec_capacity out.new }
    ensures succeeds { vec_len out.old + 94 * length targets.now + 29 ≤ vec_capacity out.old
        → IsOk result }
{
    let lines_len = targets.len().saturating_mul(MAX_TARGET_LINE_LEN);
    out.reserve(lines_len.saturating_add(MAX_COUNT_LINE_LEN))?;
    let mut number = 1;
    for target in targets {
        write_target(out, number, target);
        number += 1;
    }
    write_done(out, CommandWord::Find, &[targets.len() as u64]);
    Ok(())
}

// Appends the line of a target to space that is reserved.
fn write_target(out: &mut Vec<u8>, number: u64, target: &Endpoint)
    requires { vec_len out.old + MAX_TARGET_LINE_LEN ≤ vec_capacity out.old }
    ensures ok { out.new.items ≡ out.old.items ++ target_line number target.now }
    ensures len { vec_len out.new ≤ vec_len out.old + MAX_TARGET_LINE_LEN }
    ensures capacity { vec_capacity out.old ≤ vec_capacity out.new }
{
    out.extend_from_slice(b"target").unwrap();
    write_number(out, number);
    write_word(out, target.transport.name().as_bytes());
    out.push_reserved(b' ');
    target.address.write(out).unwrap();
    write_number(out, u64::from(target.port));
    out.push_reserved(b'\n');
}

// Appends a line for each record set, and the line that counts them. An error leaves `out` as it was.
pub(crate) fn write_evidence(out: &mut Vec<u8>, items: &[Item]) -> Result<(), AllocError>
    ensures ok { OnOk result (out.new.items ≡ out.old.items ++ evidence_text items.now) }
    ensures err { OnErr result (out.new.items ≡ out.old.items) }
    ensures capacity { vec_capacity out.old ≤ vec_capacity out.new }
{
    let len = out.len();
    let written = append_evidence(out, items);
    if written.is_err() {
        out.truncate(len);
    }
    written
}

// Appends a line for each record set, and the line that counts them. An error leaves what was in
// `out` before.
fn append_evidence(out: &mut Vec<u8>, items: &[Item]) -> Result<(), AllocError>
    ensures ok { OnOk result (out.new.items ≡ out.old.items ++ evidence_text items.now) }
    ensures err { OnErr result (take (vec_len out.old) out.new.items ≡ out.old.items) }
    ensures capacity { vec_capacity out.old ≤ vec_capacity out.new }
{
    for item in items {
        write_set(out, item)?;
    }
    out.reserve(MAX_COUNT_LINE_LEN)?;
    write_done(out, CommandWord::Deps, &[items.len() as u64]);
    Ok(())
}

// Appends the line of a record set. An error leaves `out` as it was.
#[tactic(auto, using(crate::proofs::Lengths::name_text_is_short))]
fn write_set(out: &mut Vec<u8>, item: &Item) -> Result<(), AllocError>
    ensures ok { OnOk result (out.new.items ≡ out.old.items ++ evidence_line item.now) }
    ensures err { OnErr result (out.new.items ≡ out.old.items) }
    ensures capacity { vec_capacity out.old ≤ vec_capacity out.new }
{
    let key = item.key();
    // each octet of the owner's wire form is printed in at most four
    out.reserve(4 + 4 * key.name.wire_len() + MAX_KIND_AND_COUNT_LEN)?;
    out.extend_from_slice(b"dep ").unwrap();
    key.name.write(out).unwrap();
    write_kind_and_count(out, key.kind, item.content().len() as u64);
    Ok(())
}

// Appends a kind, a number and the end of the line to space that is reserved.
#[tactic(auto, using(crate::proofs::Lengths::kind_text_is_short))]
fn write_kind_and_count(out: &mut Vec<u8>, kind: Kind, count: u64)
    requires { vec_len out.old + MAX_KIND_AND_COUNT_LEN ≤ vec_capacity out.old }
    ensures ok { out.new.items ≡ out.old.items
        ++ (word_field (text_of_kind kind) ++ number_field count ++ 10 ∷ []) }
    ensures capacity { vec_capacity out.old ≤ vec_capacity out.new }
{
    write_word(out, kind.name().as_bytes());
    write_number(out, count);
    out.push_reserved(b'\n');
}
