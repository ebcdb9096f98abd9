//! Files of the first format, which have no digests: a state, and the lines of the changes since then. They
//! are read once, and written in the second.
use crate::restoring::StateFault;
use sipl_archive::{checkpoint_of, checkpoint_text, find_checkpoint, whole_len};
use sipl_lines::split_line;
use std::alloc::Global;

/// What files of the first format have: the lines of a state, and those of the whole changes after it.
#[derive(Drop)]
pub(crate) struct FirstFormat {
    pub(crate) body: Vec<u8>,
    // How many lines the state has, and the log up to its checkpoint.
    state_lines: u64,
    log_lines: u64,
}

impl FirstFormat {
    /// Reads a state, which may be missing, and its log, if there is one.
    pub(crate) fn read(
        alloc: Global,
        state: &[u8],
        log: Option<&[u8]>,
    ) -> Result<FirstFormat, StateFault> {
        let mut first = FirstFormat {
            body: if state.is_empty() {
                checkpoint_text(alloc, 0)?
            } else {
                Vec::from_slice(alloc, state)?
            },
            state_lines: count_lines(state),
            log_lines: 0,
        };
        if let Some(log) = log {
            first.push_changes(log)?;
        }
        Ok(first)
    }

    // Appends the whole changes of a log after the checkpoint of the state.
    fn push_changes(&mut self, log: &[u8]) -> Result<(), StateFault> {
        let Some(checkpoint) = checkpoint_of(split_line(&self.body).0) else {
            return Err(StateFault::State(1));
        };
        let Some((begin, lines)) = find_checkpoint(log, checkpoint) else {
            return Err(StateFault::OtherLog);
        };
        let changes = log.get(begin..).unwrap_or(&[]);
        self.body
            .extend_from_slice(changes.get(..whole_len(changes)).unwrap_or(&[]))?;
        self.log_lines = lines;
        Ok(())
    }

    /// Why a line of the body is refused: it is one of the state or of the log.
    pub(crate) fn fault_at(&self, line: u64) -> StateFault {
        if line <= self.state_lines {
            StateFault::State(line)
        } else {
            StateFault::Line(
                line.saturating_sub(self.state_lines)
                    .saturating_add(self.log_lines),
            )
        }
    }
}

fn count_lines(text: &[u8]) -> u64 {
    text.iter().filter(|octet| **octet == b'\n').count() as u64
}
