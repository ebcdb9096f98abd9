ghost use Rattle.std.specs.Prelude.{◌≡◌, ℕ, ◌+◌, ◌-◌, ◌^◌, ◌||◌, ◌↔◌, min, List, [], is_err, not, IsTrue, IfOk, IfErr};
ghost use Rattle.std.specs.Bool.{OnTrue, OnFalse};
ghost use Rattle.std.specs.Io.KnownBytes.{Appends};
ghost use Rattle.sipl_lines.specs.Tapped.{tapped_inner, has_failed, read_count};
ghost use Rattle.sipl_lines.specs.ServeFault.{code_of, is_read_fault, is_write_fault};
ghost use Rattle.sipl_lines.specs.Serving.{ServesDesk, ServesWithin};
ghost use Rattle.sipl_lines.specs.Turns.{AppendsPrefix, CompletesTurn, FailsTurn};

use crate::conversation::Conversation;
use crate::desk::Desk;
use crate::lines::Pending;
use crate::session::Session;
use crate::tapped::Tapped;
use std::alloc::{AllocError, Global};
use std::io::{Read, Write};
use std::marker::Model;
use thiserror::Error;

/// The maximum number of reads of one call of [`serve`].
pub const MAX_READS: u64 = 1 << 32;

// The maximum length of a read in octets.
const CHUNK_LEN: usize = 16 * 1024;

/// How a session ends.
#[derive(Clone, Copy, Debug, PartialEq, Eq)]
pub enum Ended {
    /// A command ended it.
    Quit,
    /// The input has no more.
    EndOfInput,
}

/// Why a session was aborted.
#[derive(Clone, Copy, Debug, PartialEq, Eq, Hash, Error)]
pub enum ServeFault {
    /// The reader returned an error.
    #[error("a read failed")]
    Read,
    /// The writer returned an error, or wrote nothing of a text.
    #[error("a write failed, or wrote nothing")]
    Write,
    /// The reads that are allowed were made, and the session had not ended.
    #[error("the session is longer than the reads that are allowed")]
    TooManyTurns,
    /// An allocation failed.
    #[error("out of memory")]
    Memory,
}

impl ServeFault {
    /// The error's code on standard error, such as `read`.
    pub fn code(self) -> &'static str
        ensures { result.now ≡ code_of self }
    {
        match self {
            ServeFault::Read => "read",
            ServeFault::Write => "write",
            ServeFault::TooManyTurns => "turns",
            ServeFault::Memory => "memory",
        }
    }
}

impl From<AllocError> for ServeFault {
    ghost use Rattle.std.specs.Prelude.{◌≡◌};
    ghost use Rattle.sipl_lines.specs.declared.server.ServeFault.TheVariants.{Memory};

    ghost from_gives = { λ _ fault. fault ≡ Memory };

    fn from(_: AllocError) -> ServeFault {
        ServeFault::Memory
    }
}

/// Serves a session at a desk: processes the lines of a reader and writes the replies, with at most
/// [`MAX_READS`] reads.
///
/// After each read the replies to all complete lines are written and flushed before the next read.
/// [`ServeFault::Read`] and [`ServeFault::TooManyTurns`] are only of a session that has not ended. An error
/// of the reader or the writer is not tried again; what the desk has accepted stays. The desk has a pause
/// before each read, and after each 1,024 lines of a read.
pub fn serve<R: Read, W: Write, D: Desk>(
    alloc: Global,
    reader: &mut Tapped<R>,
    writer: &mut Tapped<W>,
    desk: &mut D,
) -> Result<Ended, ServeFault>
    ensures { ServesDesk D.rules (2 ^ 32) result R.remaining W.contents
        desk.old desk.new reader.old reader.new writer.old writer.new }
{
    serve_within(alloc, reader, writer, desk, MAX_READS)
}

/// Serves as [`serve`] does, with at most `limit` reads.
pub fn serve_within<R: Read, W: Write, D: Desk>(
    alloc: Global,
    reader: &mut Tapped<R>,
    writer: &mut Tapped<W>,
    desk: &mut D,
    limit: u64,
) -> Result<Ended, ServeFault>
    ensures { ServesDesk D.rules limit result R.remaining W.contents
        desk.old desk.new reader.old reader.new writer.old writer.new }
{
    serve_conversation(alloc, reader, writer, desk, &mut Session::new(), limit)
}

// Serves a conversation that has begun, with at most `limit` reads.
pub(crate) fn serve_conversation<R: Read, W: Write, D, C: Conversation<D>>(
    alloc: Global,
    reader: &mut Tapped<R>,
    writer: &mut Tapped<W>,
    desk: &mut D,
    conversation: &mut C,
    limit: u64,
) -> Result<Ended, ServeFault>
    ensures { ServesWithin C.protocol limit result R.remaining W.contents
        (C.state desk.old conversation.old) (C.state desk.new conversation.new)
        reader.old reader.new writer.old writer.new }
{
    let mut server = Server::new(alloc)?;
    let _reads = reader.reads();
    for _made in 0..limit {
        if conversation.has_ended(desk) {
            return Ok(Ended::Quit);
        }
        conversation.pause(desk);
        if !server.turn(alloc, reader, writer, desk, conversation)? {
            return Ok(end_of(desk, conversation));
        }
    }
    if conversation.has_ended(desk) {
        return Ok(Ended::Quit);
    }
    Err(ServeFault::TooManyTurns)
}

// How a conversation ends whose input has no more.
fn end_of<D, C: Conversation<D>>(desk: &D, conversation: &C) -> Ended
    ensures { (result ≡ Ended.Quit)
        ↔ IsTrue (C.protocol.has_ended (C.state desk.now conversation.now)) }
{
    if conversation.has_ended(desk) {
        Ended::Quit
    } else {
        Ended::EndOfInput
    }
}

// What is kept from one read to the next.
#[derive(Drop)]
struct Server {
    pending: Pending,
    chunk: Vec<u8>,
    replies: Vec<u8>,
}

impl Model for Server {
    ghost use Rattle.std.specs.Prelude.{ℕ, ◌<◌, List, vec_len};

    ghost Value = { List ℕ };

    ghost view = { λ s. s.pending };

    ghost invariant = { λ s. 0 < vec_len s.chunk };
}

impl Server {
    fn new(alloc: Global) -> Result<Self, AllocError>
        ensures { IfOk result (λ server. server ≡ []) }
    {
        Ok(Server {
            pending: Pending::new(alloc)?,
            chunk: vec![in alloc; 0; CHUNK_LEN]?,
            replies: Vec::new(alloc),
        })
    }

    // Reads once, processes the lines that are complete, and writes the replies. Returns whether
    // there may be more to read.
    fn turn<R: Read, W: Write, D, C: Conversation<D>>(
        &mut self,
        alloc: Global,
        reader: &mut Tapped<R>,
        writer: &mut Tapped<W>,
        desk: &mut D,
        conversation: &mut C,
    ) -> Result<bool, ServeFault>
        ensures ok { IfOk result (λ more. CompletesTurn C.protocol more
            (C.state desk.old conversation.old) self.old
            (R.remaining (tapped_inner reader.old)) (R.remaining (tapped_inner reader.new))
            (W.contents (tapped_inner writer.old)) (C.state desk.new conversation.new) self.new
            (W.contents (tapped_inner writer.new))) }
        ensures err { IfErr result (λ fault. FailsTurn fault C.protocol
            (C.state desk.old conversation.old) self.old
            (R.remaining (tapped_inner reader.old)) (R.remaining (tapped_inner reader.new))
            (W.contents (tapped_inner writer.old)) (C.state desk.new conversation.new)
            (W.contents (tapped_inner writer.new))) }
        ensures reader_failed { has_failed reader.new
            ≡ (has_failed reader.old || is_read_fault result) }
        ensures writer_failed { has_failed writer.new
            ≡ (has_failed writer.old || is_write_fault result) }
        ensures counted { read_count reader.new ≡ min (read_count reader.old + 1) (2 ^ 64 - 1) }
    {
        let count = match reader.read(&mut self.chunk) {
            Ok(count) => count,
            Err(_) => return Err(ServeFault::Read),
        };
        self.replies.clear();
        let processed = self.pending.process(
            alloc,
            desk,
            &self.chunk[..count],
            conversation,
            &mut self.replies,
        );
        if !send(writer, &self.replies) {
            return Err(ServeFault::Write);
        }
        match processed {
            Ok(()) => {}
            Err(_) => return Err(ServeFault::Memory),
        }
        Ok(count > 0)
    }
}

// Writes all of a text, if it has any, and flushes the writer. Returns whether that succeeded.
pub(crate) fn send<W: Write>(writer: &mut Tapped<W>, text: &[u8]) -> bool
    ensures sent { OnTrue result (Appends (W.contents (tapped_inner writer.old))
        (W.contents (tapped_inner writer.new)) text.now) }
    ensures prefix { OnFalse result (AppendsPrefix (W.contents (tapped_inner writer.old))
        (W.contents (tapped_inner writer.new)) text.now) }
    ensures failed { has_failed writer.new ≡ (has_failed writer.old || not result) }
{
    let mut rest = text;
    while !rest.is_empty() {
        match writer.write(rest) {
            Ok(0) => return false,
            Ok(count) => rest = &rest[count..],
            Err(_) => return false,
        }
    }
    text.is_empty() || writer.flush().is_ok()
}
