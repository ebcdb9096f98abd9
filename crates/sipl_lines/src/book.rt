ghost use Rattle.std.specs.Prelude.{◌^◌};
ghost use Rattle.sipl_lines.specs.Desk.{book_rules};
ghost use Rattle.sipl_lines.specs.PlainDesk.{plain_of, plain_rules};
ghost use Rattle.sipl_lines.specs.Serving.{ServesDesk};

use crate::server::{Ended, MAX_READS, ServeFault, serve_within};
use crate::tapped::Tapped;
use sipl_book::Book;
use std::alloc::Global;
use std::io::{Read, Write};

/// Serves a session at a book, as [`serve`] does.
///
/// The octets that are written are the replies of the plain machine. It has the client's
/// abilities, the policy on held endpoints, the zones, the holds with the time, the maxima of
/// records, holds and events, the number of the first event since the last page, a count of the events
/// since then, and the next number of a set; and no kept answer, queue or lease. So each `find` has the
/// targets of RFC 3263, computed from scratch on the records and the holds of that time, and each other
/// command its effect on them, or its first fault.
///
/// Where an allocation fails the reply to a command may be `err Memory`, and then the machine's state
/// is as it was; but the answer to a `find` whose text can't be written has been an event, and where
/// the hold of a step fails, the call and the time have moved.
pub fn serve_book<R: Read, W: Write>(
    alloc: Global,
    reader: &mut Tapped<R>,
    writer: &mut Tapped<W>,
    book: &mut Book,
) -> Result<Ended, ServeFault>
    ensures plain { ServesDesk plain_rules (2 ^ 32) result R.remaining W.contents
        (plain_of book.old) (plain_of book.new) reader.old reader.new writer.old writer.new }
    ensures book { ServesDesk book_rules (2 ^ 32) result R.remaining W.contents
        book.old book.new reader.old reader.new writer.old writer.new }
{
    serve_book_within(alloc, reader, writer, book, MAX_READS)
}

/// Serves as [`serve_book`] does, with at most `limit` reads.
pub fn serve_book_within<R: Read, W: Write>(
    alloc: Global,
    reader: &mut Tapped<R>,
    writer: &mut Tapped<W>,
    book: &mut Book,
    limit: u64,
) -> Result<Ended, ServeFault>
    ensures plain { ServesDesk plain_rules limit result R.remaining W.contents
        (plain_of book.old) (plain_of book.new) reader.old reader.new writer.old writer.new }
    ensures book { ServesDesk book_rules limit result R.remaining W.contents
        book.old book.new reader.old reader.new writer.old writer.new }
{
    serve_within(alloc, reader, writer, book, limit)
}
