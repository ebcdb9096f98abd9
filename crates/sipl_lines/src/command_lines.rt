// Which lines of a text are one command or one reply, and which commands are changes.
ghost use Rattle.std.specs.Prelude.{◌≡◌, ◌<◌, ◌≤◌, ◌+◌, [], drop, length, None, Some, IfSome, MatchOption, unwrap_or};
ghost use Rattle.sipl_records.specs.Fields.{fields_of};
ghost use Rattle.sipl_lines.specs.CommandLines.{after_command, after_line, after_reply, edits, first_line, is_change, is_end, is_find, moves, taken_by, zone_count};

use crate::command::{CommandWord, MAX_LINE_LEN, MAX_ZONE_LINES};
use crate::lines::trim_cr;
use memchr::memchr;
use sipl_records::{next_field, read_number};

/// The first line of a text, without its end, and the rest; the whole and nothing where no line ends.
pub fn split_line(text: &[u8]) -> (&[u8], &[u8])
    ensures line { result.0.now ≡ first_line text.now }
    ensures rest { result.1.now ≡ unwrap_or (after_line text.now) [] }
{
    match memchr(b'\n', text) {
        Some(end) => (&text[..end], &text[end + 1..]),
        None => (text, &[]),
    }
}

// How many octets the first line of a text has, with its LF, if there is one.
fn line_len(text: &[u8]) -> Option<usize>
    ensures { MatchOption result (after_line text.now ≡ None) (λ len. (0 < len)
        × (len ≤ length text.now) × (after_line text.now ≡ Some (drop len text.now))) }
{
    Some(memchr(b'\n', text)? + 1)
}

/// How many octets and lines the first command of a text has: a line, and after a `zone` line those that
/// it takes. `None` where it is not whole.
pub fn item_of(text: &[u8]) -> Option<(usize, u64)>
    ensures octets { MatchOption result (after_command text.now ≡ None) (λ item. (0 < item.0)
        × (item.0 ≤ length text.now) × (after_command text.now ≡ Some (drop item.0 text.now))) }
    ensures lines { IfSome result (λ item. item.1 ≡ taken_by (first_line text.now) + 1) }
{
    let count = taken_by(split_line(text).0);
    let mut len = line_len(text)?;
    for _ in 0..count {
        len += line_len(&text[len..])?;
    }
    Some((len, count + 1))
}

/// How many lines after it a line takes, which has no LF: those of a zone's text after `zone APEX COUNT`,
/// and else none.
pub fn taken_by(line: &[u8]) -> u64
    ensures { result ≡ taken_by line.now }
{
    let line = trim_cr(line);
    if line.len() > MAX_LINE_LEN {
        return 0;
    }
    match next_field(line) {
        Some((word, rest)) if CommandWord::Zone.is(word) => zone_lines(rest).unwrap_or(0),
        _ => 0,
    }
}

// The count of `APEX COUNT`.
fn zone_lines(fields: &[u8]) -> Option<u64>
    ensures { result ≡ zone_count (fields_of fields.now) }
{
    let (_apex, rest) = next_field(fields)?;
    let (count, rest) = next_field(rest)?;
    if next_field(rest).is_some() {
        return None;
    }
    read_number(count, MAX_ZONE_LINES)
}

/// Whether a line is that of a change: an edit, a hold, a release, or a move of the clock.
pub fn is_change(line: &[u8]) -> bool
    ensures { result ≡ is_change line.now }
{
    match next_field(line) {
        Some((word, _)) => is_edit(word) || is_move(word),
        None => false,
    }
}

// Whether a word is that of an edit.
fn is_edit(word: &[u8]) -> bool
    ensures { result ≡ edits word.now }
{
    CommandWord::Zone.is(word)
        || CommandWord::Drop.is(word)
        || CommandWord::Add.is(word)
        || CommandWord::Del.is(word)
}

// Whether a word is that of a hold, a release, or a move of the clock.
fn is_move(word: &[u8]) -> bool
    ensures { result ≡ moves word.now }
{
    CommandWord::Hold.is(word) || CommandWord::Release.is(word) || CommandWord::Clock.is(word)
}

/// Whether a line is that of a question.
pub fn is_find(line: &[u8]) -> bool
    ensures { result ≡ is_find line.now }
{
    match next_field(line) {
        Some((word, _)) => CommandWord::Find.is(word),
        None => false,
    }
}

// Whether a line is the last one of a reply.
fn is_end(line: &[u8]) -> bool
    ensures { result ≡ is_end line.now }
{
    match next_field(line) {
        Some((word, _)) => matches!(word, b"ok" | b"none" | b"err"),
        None => false,
    }
}

/// How many octets the first reply of a text has: its lines up to the one that ends it. `None` where it is
/// not whole.
pub fn reply_of(text: &[u8]) -> Option<usize>
    ensures { MatchOption result (after_reply text.now ≡ None) (λ len. (len ≤ length text.now)
        × (after_reply text.now ≡ Some (drop len text.now))) }
{
    let mut len = 0;
    for _ in 0..text.len() {
        let line = split_line(&text[len..]).0;
        len += line_len(&text[len..])?;
        if is_end(line) {
            return Some(len);
        }
    }
    None
}
