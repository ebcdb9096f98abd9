//! Those who read the metrics, over HTTP: one request a connection, and ten seconds for it.
use crate::daemon::Daemon;
use sipl_listen::{Client, Listener, Stream, next_stream};
use sipl_metrics::{Asked, read_head, read_rest, write_all, write_reply};
use sipl_process::Host;
use std::alloc::AllocError;
use std::sync::Arc;
use std::time::{Duration, Instant};
use std::{io, thread};

// The type of a text for people, and that of metrics.
const PLAIN: &str = "text/plain; charset=utf-8";

const EXPOSITION: &str = "text/plain; version=0.0.4; charset=utf-8";

/// Accepts who reads the metrics, until the sessions have ended, and serves each in a thread: one for whom
/// there is no place is closed. Returns when they have ended.
pub(crate) fn accept_scrapers<H: Host>(host: &H, daemon: &Daemon, listener: &Listener) {
    thread::scope(thread::scope_env(), host, |scope| {
        let mut is_told = false;
        for _ in host.forever() {
            if daemon.scrapes_end.is_asked() {
                break;
            }
            let Some(client) = accept_scraper(host, daemon, listener, &mut is_told) else {
                continue;
            };
            let place = client.place;
            if scope
                .spawn(move || serve_scraper(host, daemon, client))
                .is_err()
            {
                daemon.scrapers.leave(host, place);
            }
        }
    })
}

/// Ends all of this.
pub(crate) fn end_scrapes<H: Host>(host: &H, daemon: &Daemon, listener: &Listener) {
    daemon.scrapes_end.ask(host);
    listener.close();
    daemon.scrapers.end(host, Duration::from_millis(0));
}

// Accepts one who reads the metrics, if there is a place. Of accepts that fail in a row the first is told of.
fn accept_scraper<H: Host>(
    host: &H,
    daemon: &Daemon,
    listener: &Listener,
    is_told: &mut bool,
) -> Option<Client> {
    let stream = match next_stream(host, &daemon.scrapes_end, listener) {
        Ok(stream) => stream,
        Err(error) => {
            if !*is_told && !daemon.scrapes_end.is_asked() {
                *is_told = true;
                daemon
                    .observed
                    .tell_failed_accept(host, listener.address(), &error);
            }
            return None;
        }
    };
    *is_told = false;
    let stream = Arc::new(daemon.alloc, stream).ok()?;
    daemon.scrapers.enter(host, &stream)
}

// Serves a connection, and frees its place.
fn serve_scraper<H: Host>(host: &H, daemon: &Daemon, client: Client) {
    let Client { stream, place } = client;
    if let Ok(begun) = Instant::now(host) {
        let _ = reply_to(host, daemon, &stream, begun);
    }
    drop(stream);
    daemon.scrapers.leave(host, place);
}

// Replies to the request of a connection that has begun at a time.
fn reply_to<H: Host>(host: &H, daemon: &Daemon, stream: &Stream, begun: Instant) -> io::Result<()> {
    let asked = read_head(host, daemon.alloc, stream, begun)?;
    let reply = reply_text(host, daemon, asked)?;
    write_all(host, stream, begun, reply.as_bytes())?;
    match asked {
        Asked::Metrics | Asked::Health => Ok(()),
        _ => read_rest(host, stream, begun),
    }
}

// The reply to a request.
fn reply_text<H: Host>(host: &H, daemon: &Daemon, asked: Asked) -> Result<String, AllocError> {
    let mut reply = String::new(daemon.alloc);
    match asked {
        Asked::Metrics => {
            let figures = daemon.figures(host);
            let metrics = figures.exposition(host, &daemon.counts, &daemon.observed)?;
            write_reply(&mut reply, "200 OK", EXPOSITION, metrics.as_str())?;
        }
        Asked::Health if daemon.stop.is_asked() => {
            write_reply(&mut reply, "503 Service Unavailable", PLAIN, "stopping\n")?;
        }
        Asked::Health => write_reply(&mut reply, "200 OK", PLAIN, "ok\n")?,
        Asked::Missing => write_reply(&mut reply, "404 Not Found", PLAIN, "not found\n")?,
        Asked::WrongMethod => {
            write_reply(&mut reply, "405 Method Not Allowed", PLAIN, "only GET\n")?;
        }
        Asked::Bad => write_reply(&mut reply, "400 Bad Request", PLAIN, "bad request\n")?,
    }
    Ok(reply)
}
