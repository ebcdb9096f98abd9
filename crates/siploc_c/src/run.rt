ghost use Rattle.sipl_lines.specs.PlainDesk.{plain_of};
ghost use Rattle.sipl_lines.specs.Settings.{IsWithinLimits};
ghost use Rattle.siploc_c.specs.Whole.{HasReplies, RunsWith, WritesText};

use crate::status::Status;
use sipl_book::Book;
use sipl_lines::{Ended, ServeFault, Settings, Tapped, serve_book};
use std::alloc::Global;

/// Serves a session on octets at a new book, and writes the replies where they fit.
pub(crate) fn run_lines(
    alloc: Global,
    settings: Settings,
    lines: &[u8],
    replies: &mut [u8],
    count: &mut usize,
) -> u32
    requires { IsWithinLimits settings }
    ensures { RunsWith settings lines.now replies.old result replies.new count.new }
{
    let limits = settings.limits();
    let mut book = Book::new(alloc, settings.abilities, &limits, settings.held);
    let (ending, text) = replies_to(alloc, lines, &mut book);
    drop(book);
    *count = text.len();
    write_text(&text, replies, Status::of(&ending)).number()
}

// Serves a session on octets at a book. Returns how it ended, and the replies.
fn replies_to(alloc: Global, lines: &[u8], book: &mut Book) -> (Result<Ended, ServeFault>, Vec<u8>)
    ensures { HasReplies (plain_of book.old) (plain_of book.new) lines.now result.0 result.1.items }
{
    let mut reader = Tapped::new(lines);
    let mut writer = Tapped::new(Vec::new(alloc));
    let ending = serve_book(alloc, &mut reader, &mut writer, book);
    (ending, writer.into_inner())
}

// Writes a text over the first octets of `room`, if it fits. Returns the status of a call that then ends
// as `ending`.
fn write_text(text: &[u8], room: &mut [u8], ending: Status) -> Status
    ensures { WritesText text.now room.old room.new ending result }
{
    if text.len() > room.len() {
        return Status::NoRoom;
    }
    let (front, _rest) = room.split_at_mut(text.len());
    front.copy_from_slice(text);
    ending
}
