//! The events of a page, and the replies of a session to a text.
ghost use Rattle.std.specs.Prelude.{◌≡◌, ◌≤◌, drop, length, None, Some, IfSome, MatchOption};
ghost use Rattle.sipl_archive.specs.Commands.{HasEvent, HasNoEvent, after_kept_reply};
ghost use Rattle.sipl_archive.specs.Replies.{AreReplies};

use memchr::memmem;
use sipl_lines::{Desk, Tapped, is_change, is_find, item_of, reply_of, serve, split_line};
use std::alloc::Global;

/// How many octets the command of the first event of a text has, and of a question how many its reply after
/// it has.
pub(crate) fn event_of(text: &[u8]) -> Option<(usize, usize)>
    ensures { MatchOption result (HasNoEvent text.now) (λ lens. HasEvent text.now lens.0 lens.1) }
{
    let (len, _) = item_of(text)?;
    let reply_len = kept_reply_of(split_line(text).0, &text[len..])?;
    Some((len, reply_len))
}

// How many octets the reply has that a page has to the command of a line. `None` where it is not whole, or
// the command is no event.
fn kept_reply_of(line: &[u8], text: &[u8]) -> Option<usize>
    ensures { MatchOption result (after_kept_reply line.now text.now ≡ None)
        (λ len. (len ≤ length text.now)
        × (after_kept_reply line.now text.now ≡ Some (drop len text.now))) }
{
    if is_change(line) {
        return Some(0);
    }
    if is_find(line) { reply_of(text) } else { None }
}

/// Serves a session on a text, and returns the replies. `None` where an allocation fails, or a reply says
/// that one did.
pub fn replies_to<D: Desk>(alloc: Global, desk: &mut D, text: &[u8]) -> Option<Vec<u8>>
    ensures { IfSome result
        (λ replies. AreReplies D.rules text.now desk.old desk.new replies.items) }
{
    let mut reader = Tapped::new(text);
    let mut writer = Tapped::new(Vec::new(alloc));
    match serve(alloc, &mut reader, &mut writer, desk) {
        Ok(_) => unless_short(writer.into_inner()),
        Err(_) => None,
    }
}

// Replies, unless one of them says that an allocation failed.
fn unless_short(replies: Vec<u8>) -> Option<Vec<u8>>
    ensures same { IfSome result (λ told. told ≡ replies) }
{
    if replies.starts_with(b"err Memory") || memmem::find(&replies, b"\nerr Memory").is_some() {
        drop(replies);
        return None;
    }
    Some(replies)
}
