//! Sessions for C, in the process of the caller: as a handle, on octets, and on a socket that the caller
//! made.
//!
//! A text is passed as the address of its first octet and its length. Neither is null: the C side sees to
//! that (`clients/c/embedded`).
#![tactic(auto)]

ghost use Rattle.std.specs.Prelude.{◌≡◌};
ghost use Rattle.sipl_lines.specs.Desk.{book_rules};
ghost use Rattle.sipl_lines.specs.PlainDesk.{plain_of, plain_rules};
ghost use Rattle.siploc_c.specs.Embedded.{Opens, PutsCounted, TakesReplies, whole};
ghost use Rattle.siploc_c.specs.Whole.{RunsLines};

mod embedded;
mod handle;
mod open;
mod run;
mod settings;
mod socket;
mod status;

use crate::handle::{Handle, Room};
use crate::open::open_session;
use crate::run::run_lines;
use crate::settings::read_settings;
use crate::socket::serve_socket;
use crate::status::Status;
use std::alloc::Global;

/// Serves a whole session on octets: its lines, on a book with these settings that has no zones, holds or
/// events. Writes the replies, where they fit, and their length to `count`, also where they do not.
///
/// The result is the number of a [`Status`]. The replies to a session that was aborted are a prefix.
#[unsafe(no_mangle)]
pub extern "C" fn siploc_c_run(
    alloc: Global,
    settings: &[u8],
    lines: &[u8],
    replies: &mut [u8],
    count: &mut usize,
) -> u32
    ensures { RunsLines settings.now lines.now replies.old result replies.new count.new }
{
    match read_settings(alloc, settings) {
        Ok(settings) => run_lines(alloc, settings, lines, replies, count),
        Err(status) => {
            *count = 0;
            status.number()
        }
    }
}

/// Serves a session on a stream socket, in the caller's thread, until it ends, and closes the socket: also
/// where the settings are refused. A negative descriptor is a failed read.
///
/// The result is the number of a [`Status`].
#[unsafe(no_mangle)]
pub extern "C" fn siploc_c_serve(alloc: Global, descriptor: i32, settings: &[u8]) -> u32 {
    serve_socket(alloc, descriptor, settings).number()
}

/// Opens a session that had no octets, on a book with these settings that has no zones, holds or events.
/// Writes its address to `room`, which is a handle then; else `room` stays as it is.
///
/// The result is the number of a [`Status`]: done, memory or settings.
#[unsafe(no_mangle)]
pub extern "C" fn siploc_c_open(alloc: Global, settings: &[u8], room: &mut Room) -> u32
    ensures { Opens settings.now room.old.value result room.new.value }
{
    match read_settings(alloc, settings) {
        Ok(settings) => open_session(alloc, settings, room).number(),
        Err(status) => status.number(),
    }
}

/// Puts octets into a session: lines, in any pieces. The reply to each line that ends in them, which is that
/// of the plain machine, is kept until it is taken. Writes to `taken` how many of the octets were taken.
///
/// The result is the number of a [`Status`]: done, with all octets taken, or memory. Then the octets up to
/// the end of the line before the one for whose reply there was no space were taken, nothing of that line
/// has been done, and the rest can be put again.
#[unsafe(no_mangle)]
pub extern "C" fn siploc_c_put(
    alloc: Global,
    session: &mut Handle,
    octets: &[u8],
    taken: &mut usize,
) -> u32
    ensures plain { PutsCounted plain_rules plain_of session.old.value octets.now session.new.value
        result taken.new }
    ensures book { PutsCounted book_rules whole session.old.value octets.now session.new.value
        result taken.new }
{
    match session.embedded().put(alloc, octets) {
        Ok(()) => {
            *taken = octets.len();
            Status::Done.number()
        }
        Err(fault) => {
            *taken = fault.taken;
            Status::Memory.number()
        }
    }
}

/// Takes the next octets of a session's replies, so many as `room` has space for, and returns how many. The
/// others wait.
#[unsafe(no_mangle)]
pub extern "C" fn siploc_c_take(session: &mut Handle, room: &mut [u8]) -> usize
    ensures { TakesReplies session.old.value room.old session.new.value room.new result }
{
    session.embedded().take(room)
}

/// Whether a session has ended: from then on a line has no reply.
#[unsafe(no_mangle)]
pub extern "C" fn siploc_c_has_ended(session: &mut Handle) -> bool
    ensures ended { result ≡ session.old.value.talk.session.ended }
    ensures kept { session.new.value ≡ session.old.value }
{
    session.embedded().has_ended()
}

/// Closes a session, and frees what it has. No handle of it may be used from then on.
#[unsafe(no_mangle)]
pub extern "C" fn siploc_c_close(alloc: Global, session: Handle) {
    drop(session.into_box(alloc));
}
