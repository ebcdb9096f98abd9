//! Control lines: what an operator asks of the daemon, beside its clients.
use crate::daemon::Daemon;
use sipl_input::begins_request;
use sipl_lines::hold_text;
use sipl_listen::{Client, Stream};
use sipl_names::Name;
use sipl_outages::Board;
use sipl_process::Host;
use sipl_state::Tally;
use std::alloc::{AllocError, Global};
use std::fmt::Write as _;
use std::io::{BufRead, BufReader, Read, Write};
use std::sync::Wait;
use std::time::Duration;
use std::{io, mem};

// How many octets one connection may send.
const MAX_LEN: u64 = 65_536;

// For how many seconds a connection may send nothing, or take no reply.
const PATIENCE: u64 = 30;

// Whether a connection goes on.
#[derive(Clone, Copy)]
enum Go {
    On,
    Stop,
}

/// Serves the control lines of a connection, and frees its place. The connection that asked for the stop
/// stays open until the process ends.
pub(crate) fn serve_control<H: Host>(host: &H, daemon: &Daemon, client: Client) {
    let is_to_stop = asks_for_stop(host, daemon, &client);
    let Client { stream, place } = client;
    daemon.controls.leave(host, place);
    if is_to_stop {
        // (it has said its last line before the connection ends)
        mem::forget(stream);
        daemon.stop.ask(host);
    }
}

// Serves the lines of a connection. Returns whether one of them asks for the stop.
fn asks_for_stop<H: Host>(host: &H, daemon: &Daemon, client: &Client) -> bool {
    let patience = Some(Duration::from_secs(PATIENCE));
    if daemon.stop.is_asked() || client.stream.set_timeouts(patience, patience).is_err() {
        return false;
    }
    matches!(serve_lines(host, daemon, client), Ok(Go::Stop))
}

// Replies to each line until the connection ends, or a line asks for the stop.
fn serve_lines<H: Host>(host: &H, daemon: &Daemon, client: &Client) -> io::Result<Go> {
    let stream: &Stream = &client.stream;
    let mut reader = BufReader::new(daemon.alloc, stream.take(MAX_LEN))?;
    reply_to_all(host, daemon, &mut reader, client)
}

fn reply_to_all<H: Host, B: BufRead>(
    host: &H,
    daemon: &Daemon,
    reader: &mut B,
    client: &Client,
) -> io::Result<Go> {
    for number in 0..MAX_LEN {
        match reply_to_next(host, daemon, reader, client, number == 0)? {
            Some(Go::On) => {}
            Some(Go::Stop) => return Ok(Go::Stop),
            None => break,
        }
    }
    Ok(Go::On)
}

// Replies to the next line, if there is a whole one. Where the first is of a request of HTTP, there is none.
fn reply_to_next<H: Host, B: BufRead>(
    host: &H,
    daemon: &Daemon,
    reader: &mut B,
    client: &Client,
    is_first: bool,
) -> io::Result<Option<Go>> {
    let mut line = Vec::new(daemon.alloc);
    reader.read_until(b'\n', &mut line)?;
    if !line.ends_with(b"\n") {
        return Ok(None);
    }
    daemon.controls.hear(host, client.place);
    if is_first && begins_request(&line) {
        return Ok(None);
    }
    // (no command has a `?`)
    let text = str::from_utf8(&line).unwrap_or("?");
    Ok(Some(reply_to(host, daemon, text.trim(), &client.stream)?))
}

// Replies to a line. One that asks for the stop need not wait for the reply.
fn reply_to<H: Host>(host: &H, daemon: &Daemon, line: &str, stream: &Stream) -> io::Result<Go> {
    let mut reply = String::new(daemon.alloc);
    let go = obey(host, daemon, line, &mut reply)?;
    let mut writer = stream;
    match go {
        Go::On => writer.write_all(reply.as_bytes())?,
        Go::Stop => {
            let _ = writer.write_all(reply.as_bytes());
        }
    }
    Ok(go)
}

// Carries out a line and appends its reply.
fn obey<H: Host>(
    host: &H,
    daemon: &Daemon,
    line: &str,
    reply: &mut String,
) -> Result<Go, AllocError> {
    match line {
        "stats" => daemon.figures(host).write_stats(&daemon.counts, reply)?,
        "now" => writeln!(reply, "ok now {}", daemon.source.service.now(host))?,
        "zones" => write_zones(host, daemon, reply)?,
        "holds" => write_holds(host, daemon, reply)?,
        "page" => turn_page(host, daemon, reply)?,
        "stop" => {
            reply.push_str("ok stop\n")?;
            return Ok(Go::Stop);
        }
        "" => {}
        _ => reply.push_str("err K1\n")?,
    }
    Ok(Go::On)
}

fn turn_page<H: Host>(host: &H, daemon: &Daemon, reply: &mut String) -> Result<(), AllocError> {
    match daemon.pages.turn_page(host, &daemon.source) {
        Ok(extent) => writeln!(reply, "ok page {} {}", extent.first, extent.count),
        Err(fault) => writeln!(reply, "err {}", fault.code()),
    }
}

// The zones, and how many records each has.
fn write_zones<H: Host>(host: &H, daemon: &Daemon, reply: &mut String) -> Result<(), AllocError> {
    let tally = daemon.source.tally.lock(host);
    write_tally_zones(daemon.alloc, &tally, reply)
}

fn write_tally_zones(alloc: Global, tally: &Tally, reply: &mut String) -> Result<(), AllocError> {
    for (apex, count) in tally.zones() {
        write_zone(alloc, apex, *count, reply)?;
    }
    writeln!(reply, "ok zones {}", tally.zones().len())
}

fn write_zone(
    alloc: Global,
    apex: &Name,
    count: u64,
    reply: &mut String,
) -> Result<(), AllocError> {
    let mut text = Vec::new(alloc);
    apex.write(&mut text)?;
    let apex = str::from_utf8(&text).unwrap_or("");
    writeln!(reply, "zone {apex} {count}")
}

// The held endpoints, and for how many milliseconds each is held yet.
fn write_holds<H: Host>(host: &H, daemon: &Daemon, reply: &mut String) -> Result<(), AllocError> {
    daemon.move_clock(host);
    let shared = daemon.source.service.share_board(host)?;
    write_board(daemon.alloc, shared.get(), reply)
}

fn write_board(alloc: Global, board: &Board, reply: &mut String) -> Result<(), AllocError> {
    let now = board.now();
    for (endpoint, end) in board.ends() {
        let text = hold_text(alloc, endpoint, end.saturating_sub(now))?;
        reply.push_str(str::from_utf8(&text).unwrap_or(""))?;
    }
    writeln!(reply, "ok holds {}", board.len())
}
