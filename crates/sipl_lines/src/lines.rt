ghost use Rattle.std.specs.Prelude.{◌≡◌, ◌≢◌, ℕ, ◌<◌, ◌≤◌, List, [], ◌∷◌, ◌++◌, length, take, drop, MatchOption, IfOk, IfErr, OnOk, OnErr};
ghost use Rattle.sipl_lines.specs.Lines.{without_cr};
ghost use Rattle.sipl_lines.specs.Items.{Item};
ghost use Rattle.sipl_lines.specs.Replies.{AppendsReplies, AppendsFirstReplies, Waits};
ghost use Rattle.sipl_lines.specs.Takes.{Takes, TakesFirst};
ghost use Rattle.sipl_lines.specs.Machine.{items_from, pending_after, kept_prefix, last_items, read_items, EndsNoLine, EndsLine};

use crate::command::MAX_LINE_LEN;
use crate::conversation::Conversation;
use memchr::memchr;
use std::alloc::{AllocError, Global};
use std::marker::Model;
use thiserror::Error;

/// An allocation failed while octets were taken.
#[derive(Clone, Copy, Debug, PartialEq, Eq, Error)]
#[error("out of memory")]
pub struct OutOfMemory {
    /// How many of the octets were taken before, up to the end of a line.
    pub taken: usize,
}

// The maximum number of octets that are kept of a line. A line of so many is too long, with a CR at
// its end too.
const MAX_KEPT_LEN: usize = MAX_LINE_LEN + 2;

// How many lines there are at most between two pauses.
const LINES_BETWEEN_PAUSES: u32 = 1_024;

// The octets of a line whose end has not been read: the first 65,538 of them, on which its reply
// depends.
#[derive(Drop)]
pub(crate) struct Pending {
    kept: Vec<u8>,
}

impl Model for Pending {
    ghost use Rattle.std.specs.Prelude.{ℕ, ◌≤◌, List, vec_len, vec_capacity};

    ghost Value = { List ℕ };

    ghost view = { λ p. p.kept.items };

    ghost invariant = { λ p. (vec_len p.kept ≤ 65538) × (65538 ≤ vec_capacity p.kept) };
}

impl Pending {
    // No octets, with space for all that are ever kept.
    pub(crate) fn new(alloc: Global) -> Result<Self, AllocError>
        ensures { IfOk result (λ pending. pending ≡ []) }
    {
        let kept = Vec::with_capacity(alloc, MAX_KEPT_LEN)?;
        Ok(Pending { kept })
    }
}

impl Pending {
    // Keeps a piece of the line after what is kept.
    fn keep(&mut self, piece: &[u8])
        ensures kept { self.new ≡ kept_prefix (self.old ++ piece.now) }
        ensures limit { length self.old ≤ 65538 }
    {
        let space = MAX_KEPT_LEN - self.kept.len();
        let count = space.min(piece.len());
        self.kept.extend_from_slice(&piece[..count]).unwrap();
    }

    // Processes the line that ends after the piece. An error leaves all as it was.
    fn end_line<D, C: Conversation<D>>(
        &mut self,
        alloc: Global,
        desk: &mut D,
        piece: &[u8],
        conversation: &mut C,
        out: &mut Vec<u8>,
    ) -> Result<(), AllocError>
        ensures ok { OnOk result (AppendsReplies C.protocol
            (C.state desk.old conversation.old)
            (Item.line (without_cr (self.old ++ piece.now)) ∷ [])
            out.old.items (C.state desk.new conversation.new) out.new.items) }
        ensures emptied { OnOk result (self.new ≡ []) }
        ensures err { OnErr result
            (C.state desk.new conversation.new ≡ C.state desk.old conversation.old) }
        ensures err_out { OnErr result (out.new.items ≡ out.old.items) }
        ensures err_kept { OnErr result (self.new ≡ self.old) }
        ensures limit { length self.old ≤ 65538 }
    {
        if self.kept.is_empty() {
            return conversation.process_line(alloc, desk, trim_cr(piece), out);
        }
        let before = self.kept.len();
        self.keep(piece);
        if let Err(fault) = conversation.process_line(alloc, desk, trim_cr(&self.kept), out) {
            self.kept.truncate(before);
            return Err(fault);
        }
        self.kept.clear();
        Ok(())
    }

    // Processes what a read gave, and appends the replies: each line that ends in it, or at the
    // end of the input, where a read returns nothing, the octets that are left, which are a line if
    // there are any. The octets after the last line end are kept. An error says that the space for
    // a reply could not be reserved: the lines before have theirs.
    pub(crate) fn process<D, C: Conversation<D>>(
        &mut self,
        alloc: Global,
        desk: &mut D,
        octets: &[u8],
        conversation: &mut C,
        out: &mut Vec<u8>,
    ) -> Result<(), AllocError>
        ensures ok { OnOk result (AppendsReplies C.protocol
            (C.state desk.old conversation.old) (read_items self.old octets.now)
            out.old.items (C.state desk.new conversation.new) out.new.items) }
        ensures rest { OnOk result (octets.now ≢ []
            → self.new ≡ kept_prefix (pending_after self.old octets.now)) }
        ensures err { OnErr result (AppendsFirstReplies C.protocol
            (C.state desk.old conversation.old) (read_items self.old octets.now)
            out.old.items (C.state desk.new conversation.new) out.new.items) }
    {
        if octets.is_empty() {
            return self.finish(alloc, desk, conversation, out);
        }
        match self.feed(alloc, desk, octets, conversation, out) {
            Ok(()) => Ok(()),
            Err(_) => Err(AllocError),
        }
    }

    // Processes each line that ends in a chunk, and keeps the octets after the last. An error says how
    // many octets were taken, up to the end of a line: nothing of the next line has been done.
    pub(crate) fn feed<D, C: Conversation<D>>(
        &mut self,
        alloc: Global,
        desk: &mut D,
        chunk: &[u8],
        conversation: &mut C,
        out: &mut Vec<u8>,
    ) -> Result<(), OutOfMemory>
        ensures ok { OnOk result (Takes C.protocol (C.state desk.old conversation.old)
            self.old chunk.now out.old.items
            (C.state desk.new conversation.new) self.new out.new.items) }
        ensures err { IfErr result (λ fault. TakesFirst C.protocol fault.taken
            (C.state desk.old conversation.old) self.old chunk.now out.old.items
            (C.state desk.new conversation.new) self.new out.new.items) }
    {
        let mut rest = chunk;
        let mut lines = 0;
        while let Some((piece, tail)) = split_line(rest) {
            if self
                .end_line(alloc, desk, piece, conversation, out)
                .is_err()
            {
                let taken = chunk.len() - rest.len();
                return Err(OutOfMemory { taken });
            }
            rest = tail;
            lines = count_line(lines, desk, conversation);
        }
        self.keep(rest);
        Ok(())
    }

    // Processes the octets that are left, and then the end of the input.
    #[tactic(auto, using(crate::proofs::Replies::first_none))]
    fn finish<D, C: Conversation<D>>(
        &self,
        alloc: Global,
        desk: &mut D,
        conversation: &mut C,
        out: &mut Vec<u8>,
    ) -> Result<(), AllocError>
        ensures ok { OnOk result (AppendsReplies C.protocol
            (C.state desk.old conversation.old) (last_items self.now)
            out.old.items (C.state desk.new conversation.new) out.new.items) }
        ensures err { OnErr result (AppendsFirstReplies C.protocol
            (C.state desk.old conversation.old) (last_items self.now)
            out.old.items (C.state desk.new conversation.new) out.new.items) }
    {
        if self.kept.is_empty() {
            return conversation.finish(alloc, desk, out);
        }
        conversation.process_line(alloc, desk, &self.kept, out)?;
        conversation.finish(alloc, desk, out)
    }
}

// Counts a line, and after each 1,024 has a pause. Returns how many lines there were since.
#[tactic(auto, using(crate::proofs::Replies::waits_none, crate::proofs::Replies::waits_once))]
fn count_line<D, C: Conversation<D>>(lines: u32, desk: &mut D, conversation: &C) -> u32
    ensures { Waits C.protocol
        (C.state desk.old conversation.now) (C.state desk.new conversation.now) }
{
    if lines < LINES_BETWEEN_PAUSES - 1 {
        return lines + 1;
    }
    conversation.pause(desk);
    0
}

// The octets before the first LF and those after it, where there is one.
fn split_line(chunk: &[u8]) -> Option<(&[u8], &[u8])>
    ensures { MatchOption result (EndsNoLine chunk.now)
        (λ parts. EndsLine chunk.now parts.0.now parts.1.now) }
{
    let end = memchr(b'\n', chunk)?;
    Some((&chunk[..end], &chunk[end + 1..]))
}

// A line without the CR at its end.
pub(crate) fn trim_cr(line: &[u8]) -> &[u8]
    ensures { result.now ≡ without_cr line.now }
{
    let count = line.len();
    if count > 0 && line[count - 1] == b'\r' {
        &line[..count - 1]
    } else {
        line
    }
}
