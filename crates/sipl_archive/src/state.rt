//! The text of a state, and the changes after it.
ghost use Rattle.std.specs.Prelude.{◌≡◌, ◌≤◌, ◌++◌, drop, length, None, Some, IfOk, IfSome, MatchOption, OnOk};
ghost use Rattle.sipl_archive.specs.Commands.{HasCheckpoint, IsWhole, LacksCheckpoint, checkpoint_in};
ghost use Rattle.sipl_archive.specs.Restoring.{IsMade, after_made};
ghost use Rattle.sipl_archive.specs.Text.{checkpoint_line, hold_lines, state_head, state_text};

use crate::zones::write_zones;
use sipl_book::State;
use sipl_lines::{is_change, item_of, reply_of, split_line, write_clock, write_hold, write_number};
use sipl_outages::Board;
use sipl_records::read_number;
use std::alloc::{AllocError, Global};

/// The text of a state: its checkpoint, the time, unless that is 0, the zones with their records, and the
/// holds with their remaining milliseconds. The only error is an allocation failure.
pub fn state_text(alloc: Global, checkpoint: u64, state: &State) -> Result<Vec<u8>, AllocError>
    ensures { IfOk result (λ text. text.items ≡ state_text checkpoint state.now) }
{
    let mut text = Vec::new(alloc);
    write_state(alloc, &mut text, checkpoint, state)?;
    Ok(text)
}

// Appends the text of a state.
fn write_state(
    alloc: Global,
    out: &mut Vec<u8>,
    checkpoint: u64,
    state: &State,
) -> Result<(), AllocError>
    ensures { OnOk result (out.new.items ≡ out.old.items ++ state_text checkpoint state.now) }
{
    let Some(board) = state.board() else {
        write_head(out, checkpoint, 0)?;
        return write_zones(alloc, out, state.apexes(), state.records());
    };
    write_head(out, checkpoint, board.now())?;
    write_zones(alloc, out, state.apexes(), state.records())?;
    write_holds(out, board)
}

/// The line of a checkpoint. The only error is an allocation failure.
pub fn checkpoint_text(alloc: Global, checkpoint: u64) -> Result<Vec<u8>, AllocError>
    ensures { IfOk result (λ text. text.items ≡ checkpoint_line checkpoint) }
{
    let mut out = Vec::new(alloc);
    write_checkpoint(&mut out, checkpoint)?;
    Ok(out)
}

// Appends the first lines of a state: its checkpoint, and the time, unless that is 0.
fn write_head(out: &mut Vec<u8>, checkpoint: u64, now: u64) -> Result<(), AllocError>
    ensures { OnOk result (out.new.items ≡ out.old.items ++ state_head checkpoint now) }
{
    write_checkpoint(out, checkpoint)?;
    if now > 0 {
        return write_clock(out, now);
    }
    Ok(())
}

// Appends the line of a checkpoint.
fn write_checkpoint(out: &mut Vec<u8>, checkpoint: u64) -> Result<(), AllocError>
    ensures { OnOk result (out.new.items ≡ out.old.items ++ checkpoint_line checkpoint) }
{
    out.extend_from_slice(b"# page")?;
    write_number(out, checkpoint)?;
    out.push(b'\n')?;
    Ok(())
}

// Appends a line for each endpoint that is held, with the milliseconds that are left of its hold.
fn write_holds(out: &mut Vec<u8>, board: &Board) -> Result<(), AllocError>
    ensures { OnOk result (out.new.items
        ≡ out.old.items ++ hold_lines board.now.holds.now board.now.holds.ends) }
{
    let now = board.now();
    for (endpoint, end) in board.ends() {
        write_hold(out, endpoint, end.saturating_sub(now))?;
    }
    Ok(())
}

/// The result of the changes of a text: the length in octets of those that were made, their number of lines,
/// the last checkpoint among them, and whether the next one was refused. No contract has the lines.
#[derive(Clone, Copy)]
pub struct Made {
    pub octets: usize,
    pub lines: u64,
    pub checkpoint: Option<u64>,
    pub is_refused: bool,
}

/// The length in octets of the complete commands of a text: the last one may be cut off.
pub fn whole_len(text: &[u8]) -> usize
    ensures within { result ≤ length text.now }
    ensures whole { IsWhole text.now result }
{
    let mut octets = 0;
    while let Some((len, _)) = item_of(&text[octets..]) {
        octets += len;
    }
    octets
}

/// The result of the changes of a text, by the replies to them: checkpoints have none, and each change that
/// was made has one that begins with `ok `.
pub fn made_of(text: &[u8], replies: &[u8]) -> Made
    ensures { IsMade text.now replies.now result }
{
    let mut made = Made {
        octets: 0,
        lines: 0,
        checkpoint: None,
        is_refused: false,
    };
    let mut rest = replies;
    while let Some((len, lines)) = item_of(&text[made.octets..]) {
        let line = split_line(&text[made.octets..]).0;
        let Some(reply_len) = made_reply_of(line, rest) else {
            made.is_refused = true;
            return made;
        };
        rest = &rest[reply_len..];
        made.checkpoint = checkpoint_of(line).or(made.checkpoint);
        made.octets += len;
        made.lines = made.lines.saturating_add(lines);
    }
    made
}

// How many octets the reply to the command of a line has, which is the first of a text, if it was made: a
// checkpoint has none.
fn made_reply_of(line: &[u8], replies: &[u8]) -> Option<usize>
    ensures { MatchOption result (after_made line.now replies.now ≡ None)
        (λ len. (len ≤ length replies.now)
        × (after_made line.now replies.now ≡ Some (drop len replies.now))) }
{
    if checkpoint_of(line).is_some() {
        return Some(0);
    }
    if is_change(line) && replies.starts_with(b"ok ") {
        reply_of(replies)
    } else {
        None
    }
}

/// The length in octets of the complete commands of a text up to the first checkpoint of this number, with
/// it, and their number of lines, which no contract has. `None` where none of the complete commands is that
/// checkpoint.
pub fn find_checkpoint(text: &[u8], checkpoint: u64) -> Option<(usize, u64)>
    ensures within { IfSome result (λ found. found.0 ≤ length text.now) }
    ensures found { MatchOption result (LacksCheckpoint checkpoint text.now)
        (λ found. HasCheckpoint checkpoint text.now (drop found.0 text.now)) }
{
    let mut octets = 0;
    let mut lines = 0u64;
    while let Some((len, count)) = item_of(&text[octets..]) {
        let is_checkpoint = checkpoint_of(split_line(&text[octets..]).0) == Some(checkpoint);
        octets += len;
        lines = lines.saturating_add(count);
        if is_checkpoint {
            return Some((octets, lines));
        }
    }
    None
}

/// The number of a checkpoint, by its line without the end.
pub fn checkpoint_of(line: &[u8]) -> Option<u64>
    ensures { result ≡ checkpoint_in line.now }
{
    read_number(line.strip_prefix(b"# page ".as_slice())?, u64::MAX)
}
