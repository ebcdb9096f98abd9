//! The changes that are not in their file yet.
ghost use Rattle.std.specs.Prelude.{◌≡◌, ◌<◌, ◌≤◌, ◌+◌, ◌++◌, ◌↔◌, [], if◌then◌else◌, length, nat_lt};
ghost use Rattle.std.specs.Prelude.{IfOk, IsTrue, OnErr, OnOk, vec_len, vec_capacity};
ghost use Rattle.sipl_lines.specs.CommandText.{clock_line};
ghost use Rattle.sipl_archive.specs.Text.{checkpoint_line};
ghost use Rattle.sipl_state.specs.Places.{long_end, number_after, place_after};

use sipl_archive::checkpoint_text;
use sipl_lines::clock_text;
use std::alloc::{AllocError, Global};
use std::mem;

// A state is written where the file of changes is longer than this, and longer than the state.
const MIN_LEN: u64 = 1 << 20;

/// Where the changes after a state begin in their file: its number, and the place after it.
#[derive(Clone, Copy)]
pub struct Checkpoint {
    pub(crate) number: u64,
    pub(crate) begin: u64,
}

/// The changes that are not in the file yet. All places are counted in octets from the first one that was
/// ever appended.
#[derive(Drop)]
pub(crate) struct Pending {
    alloc: Global,
    text: Vec<u8>,
    // The place after the last octet.
    end: u64,
    // The number of the last checkpoint, and the place after it.
    checkpoint: u64,
    begin: u64,
    // How long the last state was.
    state_len: u64,
    // The time that the changes lead to, in milliseconds.
    time: u64,
}

impl Pending {
    /// Nothing, after a state and changes of so many octets, of which the last checkpoint is this one, and
    /// which lead to this time.
    pub(crate) fn new(
        alloc: Global,
        state_len: u64,
        len: u64,
        checkpoint: u64,
        time: u64,
    ) -> Pending
        ensures text { result.text.items ≡ [] }
        ensures others { result ≡ record {
          alloc = alloc;
          text = result.text;
          end = len;
          checkpoint = checkpoint;
          begin = 0;
          state_len = state_len;
          time = time;
        } }
    {
        Pending {
            alloc,
            text: Vec::new(alloc),
            end: len,
            checkpoint,
            begin: 0,
            state_len,
            time,
        }
    }

    /// The text of a change that is made at a time, in milliseconds: the line of that time comes before it
    /// where the changes lead to an earlier one. The only error is an allocation failure.
    pub(crate) fn text_at(&self, time: u64, change: &[u8]) -> Result<Vec<u8>, AllocError>
        ensures { IfOk result (λ text. text.items
            ≡ (if nat_lt self.now.time time then clock_line time else []) ++ change.now) }
    {
        let mut text = if self.time < time {
            clock_text(self.alloc, time)?
        } else {
            Vec::new(self.alloc)
        };
        text.extend_from_slice(change)?;
        Ok(text)
    }

    /// How many octets are not in the file yet.
    pub(crate) fn len(&self) -> usize
        ensures { result ≡ vec_len self.now.text }
    {
        self.text.len()
    }

    /// Reserves the space of a text. The only error is an allocation failure.
    pub(crate) fn reserve(&mut self, len: usize) -> Result<(), AllocError>
        ensures space { OnOk result
            (vec_len self.new.text + len ≤ vec_capacity self.new.text) }
        ensures text { self.new.text.items ≡ self.old.text.items }
        ensures others { self.new ≡ record self.old { text = self.new.text } }
    {
        self.text.reserve(len)
    }

    /// Appends the text of a change, to space that is reserved, and returns the place after it. So a
    /// change that was made is not lost.
    pub(crate) fn push(&mut self, text: &[u8]) -> u64
        requires space { vec_len self.old.text + length text.now ≤ vec_capacity self.old.text }
        ensures text { self.new.text.items ≡ self.old.text.items ++ text.now }
        ensures place { result ≡ place_after self.old.end text.now }
        ensures others { self.new ≡ record self.old { text = self.new.text; end = result } }
    {
        self.text.extend_from_slice(text).unwrap();
        self.end = self.end.saturating_add(text.len() as u64);
        self.end
    }

    /// Appends the text of a change that is made at a time, as `push` does.
    pub(crate) fn push_at(&mut self, time: u64, text: &[u8]) -> u64
        requires space { vec_len self.old.text + length text.now ≤ vec_capacity self.old.text }
        ensures text { self.new.text.items ≡ self.old.text.items ++ text.now }
        ensures place { result ≡ place_after self.old.end text.now }
        ensures others { self.new
            ≡ record self.old { text = self.new.text; end = result; time = time } }
    {
        let end = self.push(text);
        self.time = time;
        end
    }

    /// How long the state is that was written.
    pub(crate) fn set_state_len(&mut self, len: u64)
        ensures { self.new ≡ record self.old { state_len = len } }
    {
        self.state_len = len;
    }

    /// Whether a state is to be written.
    pub(crate) fn is_long(&self) -> bool
        ensures { IsTrue result ↔ (long_end self.now.begin self.now.state_len < self.now.end) }
    {
        self.end > self.long_at()
    }

    /// The place after which a state is to be written.
    pub(crate) fn long_at(&self) -> u64
        ensures { result ≡ long_end self.now.begin self.now.state_len }
    {
        long_after(self.begin, self.state_len)
    }

    /// Appends a checkpoint. Returns its number, and the place after it.
    pub(crate) fn push_checkpoint(&mut self) -> Result<Checkpoint, AllocError>
        ensures number { IfOk result (λ checkpoint. checkpoint.number ≡ number_after self.old.checkpoint) }
        ensures text { IfOk result
            (λ checkpoint. self.new.text.items
            ≡ self.old.text.items ++ checkpoint_line checkpoint.number) }
        ensures place { IfOk result
            (λ checkpoint. checkpoint.begin
            ≡ place_after self.old.end (checkpoint_line checkpoint.number)) }
        ensures others { IfOk result (λ checkpoint. self.new ≡ record self.old {
          text = self.new.text;
          end = checkpoint.begin;
          begin = checkpoint.begin;
          checkpoint = checkpoint.number;
        }) }
        ensures refused { OnErr result (self.new.text.items ≡ self.old.text.items) }
        ensures same { OnErr result (self.new ≡ record self.old { text = self.new.text }) }
    {
        let checkpoint = self.checkpoint.saturating_add(1);
        let text = checkpoint_text(self.alloc, checkpoint)?;
        self.reserve(text.len())?;
        self.begin = self.push(&text);
        self.checkpoint = checkpoint;
        Ok(Checkpoint {
            number: checkpoint,
            begin: self.begin,
        })
    }

    /// Takes the octets that are not in the file. Returns them, and the place after them.
    pub(crate) fn take(&mut self) -> (Vec<u8>, u64)
        ensures text { result.0.items ≡ self.old.text.items }
        ensures place { result.1 ≡ self.old.end }
        ensures empty { self.new.text.items ≡ [] }
        ensures others { self.new ≡ record self.old { text = self.new.text } }
    {
        (mem::replace(&mut self.text, Vec::new(self.alloc)), self.end)
    }
}

/// The place after which a state is to be written, where the changes after the last checkpoint begin at this
/// place, and the last state has so many octets.
pub(crate) fn long_after(begin: u64, state_len: u64) -> u64
    ensures { result ≡ long_end begin state_len }
{
    begin.saturating_add(state_len.max(MIN_LEN))
}
