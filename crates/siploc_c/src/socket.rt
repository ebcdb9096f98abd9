ghost use Rattle.sipl_lines.specs.Settings.{IsWithinLimits};

use crate::settings::read_settings;
use crate::status::Status;
use os::FromRawFd;
use sipl_book::Book;
use sipl_lines::{Settings, Tapped, serve_book};
use std::alloc::Global;
use std::io::{Read, Write};
use std::os::unix::net::UnixStream;

/// Serves a session on a stream socket at a new book, and closes the socket.
pub(crate) fn serve_socket(alloc: Global, descriptor: i32, settings: &[u8]) -> Status {
    if descriptor < 0 {
        return Status::Read;
    }
    let stream = unsafe { UnixStream::from_raw_fd(descriptor) };
    match read_settings(alloc, settings) {
        Ok(settings) => serve_stream(alloc, &stream, settings),
        Err(status) => status,
    }
}

// Serves a session on a stream at a new book.
fn serve_stream(alloc: Global, stream: &UnixStream, settings: Settings) -> Status
    requires { IsWithinLimits settings }
{
    let limits = settings.limits();
    let mut book = Book::new(alloc, settings.abilities, &limits, settings.held);
    let status = serve_between(alloc, stream, stream, &mut book);
    drop(book);
    status
}

// Serves a session at a book between a reader and a writer.
fn serve_between<A: Read + Drop, B: Write + Drop>(
    alloc: Global,
    reader: A,
    writer: B,
    book: &mut Book,
) -> Status {
    let mut reader = Tapped::new(reader);
    let mut writer = Tapped::new(writer);
    Status::of(&serve_book(alloc, &mut reader, &mut writer, book))
}
