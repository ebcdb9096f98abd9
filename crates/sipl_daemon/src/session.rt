//! A client's session.
pub(crate) mod desk;
mod output;

use crate::daemon::Daemon;
use crate::session::desk::SessionDesk;
use crate::session::output::{Output, set_patience};
use sipl_input::{Asking, Course, Input};
use sipl_lines::{Tapped, serve};
use sipl_listen::{Client, Stream};
use std::fs::File;
use std::rt::Files;
use std::sync::Wait;
use std::time::Clock;

/// Serves the session of a client, which may only ask or not, hands its receipts over, and frees its place. A
/// fault ends only this session.
pub(crate) fn serve_client<R: Files<File = File> + Wait + Clock>(
    rt: &R,
    daemon: &Daemon,
    client: Client,
    asks_only: bool,
) {
    let Client { stream, place } = client;
    daemon.observed.count_accepted();
    let course = Course::new();
    let mut desk = SessionDesk::new(rt, daemon, &course.place, asks_only);
    if set_patience(daemon, &stream).is_ok() {
        run_session(rt, daemon, &stream, &course, &mut desk, asks_only);
    }
    drop(stream);
    desk.end();
    course.end_batch(&daemon.observed);
    daemon.observed.close(rt, course.cause());
    daemon.clients.leave(rt, place);
}

// Runs a session on a stream, at its desk.
fn run_session<R: Files<File = File> + Wait + Clock>(
    rt: &R,
    daemon: &Daemon,
    stream: &Stream,
    course: &Course,
    desk: &mut SessionDesk<'_, R>,
    asks_only: bool,
) {
    let alloc = daemon.alloc;
    let input = Input::new(rt, alloc, stream, course, &daemon.stop, &daemon.observed);
    let mut writer = Tapped::new(Output::new(rt, daemon, stream, course));
    if asks_only {
        if let Ok(asking) = Asking::new(alloc, input) {
            let mut reader = Tapped::new(asking);
            drop(serve(alloc, &mut reader, &mut writer, desk));
            drop(reader);
        }
    } else {
        let mut reader = Tapped::new(input);
        drop(serve(alloc, &mut reader, &mut writer, desk));
        drop(reader);
    }
}
