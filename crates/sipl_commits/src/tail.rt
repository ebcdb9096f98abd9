//! What is after the last whole commit.
ghost use Rattle.std.specs.Prelude.{◌<◌, length, IfOk};
ghost use Rattle.std.specs.Bool.{Decides};
ghost use Rattle.sipl_commits.specs.Tails.{HasOther, IsOtherAt};

use crate::commit::{LINE_START, TEXT_LEN, line_start};
use crate::seal::has_line;
use std::alloc::{AllocError, Global};

/// Whether a text has the line of another commit than of the one after this number.
pub(crate) fn has_other(alloc: Global, text: &[u8], number: u64) -> Result<bool, AllocError>
    ensures { IfOk result (λ has. Decides has (HasOther number text.now)) }
{
    for place in 0..text.len() {
        if is_other_at(alloc, text, place, number)? {
            return Ok(true);
        }
    }
    Ok(false)
}

// Whether a text has such a line at a place.
fn is_other_at(alloc: Global, text: &[u8], place: usize, number: u64) -> Result<bool, AllocError>
    requires { place < length text.now }
    ensures { IfOk result (λ is_so. Decides is_so (IsOtherAt number text.now place)) }
{
    if !has_line(alloc, &text[place..], LINE_START, TEXT_LEN)? {
        return Ok(false);
    }
    if place > 0 {
        return Ok(true);
    }
    let next = line_start(alloc, number.saturating_add(1))?;
    Ok(!text.starts_with(&next))
}
