//! What is reported of the daemon while it runs: its log, and what is counted for its metrics.
use crate::cause::Cause;
use sipl_config::{VERSION, changed_settings};
use sipl_listen::Address;
use sipl_log::{Level, Line, Log};
use sipl_metrics::Histogram;
use sipl_settings::DaemonSettings;
use std::alloc::{AllocError, Global};
use std::io;
use std::sync::atomic::{AtomicBool, AtomicU64, Ordering};
use std::sync::{Arc, Wait};
use std::time::{Clock, Instant, SystemTime};

/// How many clients there were, and how many had no session, or not any more, for which cause.
#[derive(Drop)]
pub struct ClientCounts {
    /// How many had a session.
    pub accepted: AtomicU64,
    /// How many accepts failed.
    pub unaccepted: AtomicU64,
    busy: AtomicU64,
    threads: AtomicU64,
    idle: AtomicU64,
    slow: AtomicU64,
    http: AtomicU64,
}

impl ClientCounts {
    fn new() -> ClientCounts {
        ClientCounts {
            accepted: AtomicU64::new(0),
            unaccepted: AtomicU64::new(0),
            busy: AtomicU64::new(0),
            threads: AtomicU64::new(0),
            idle: AtomicU64::new(0),
            slow: AtomicU64::new(0),
            http: AtomicU64::new(0),
        }
    }

    /// The count of a cause.
    pub fn of(&self, cause: Cause) -> &AtomicU64 {
        match cause {
            Cause::Busy => &self.busy,
            Cause::Threads => &self.threads,
            Cause::Idle => &self.idle,
            Cause::Slow => &self.slow,
            Cause::Http => &self.http,
        }
    }
}

/// What is reported of the daemon while it runs.
#[derive(Drop)]
pub struct Observed {
    /// The allocator of its lines.
    pub alloc: Global,
    /// The log.
    pub log: Arc<Log, Global>,
    // The Unix time of the start, in seconds; 0 where the clock can't be read.
    pub(crate) started: u64,
    /// How many clients there were.
    pub clients: ClientCounts,
    /// From the read of a batch to its replies written, where there are metrics.
    pub batches: Option<Histogram>,
    // Whether the state was read: edits before are not reported one by one.
    is_open: AtomicBool,
    // How many pages waited when that was last reported.
    waiting: AtomicU64,
    // Whether an accept failed, and no client had a session since.
    accepts_fail: AtomicBool,
    // The path of the state, if there is one.
    pub(crate) state: Option<String>,
}

impl Observed {
    /// Nothing was reported yet.
    pub fn new<R: Clock>(
        rt: &R,
        alloc: Global,
        settings: &DaemonSettings,
        log: &Arc<Log, Global>,
    ) -> Result<Observed, AllocError> {
        let state = match &settings.state {
            Some(path) => Some(String::from_str(alloc, path.as_str())?),
            None => None,
        };
        let batches = match &settings.metrics {
            Some(_) => Some(Histogram::new(alloc)?),
            None => None,
        };
        let log = Arc::try_clone(log)?;
        Ok(Observed {
            alloc,
            log,
            started: unix_time(rt),
            clients: ClientCounts::new(),
            batches,
            is_open: AtomicBool::new(false),
            waiting: AtomicU64::new(0),
            accepts_fail: AtomicBool::new(false),
            state,
        })
    }

    /// The beginning of a line of an event.
    pub fn line(&self, level: Level, event: &str) -> Line {
        Line::new(self.alloc, level, event)
    }

    /// From now on edits are reported: the state was read.
    pub fn open(&self) {
        self.is_open.store(true, Ordering::SeqCst);
    }

    /// Whether edits are reported.
    pub fn tells_edits(&self) -> bool {
        self.is_open.load(Ordering::SeqCst) && self.log.allows(Level::Warn)
    }

    /// Counts a client that has a session.
    pub fn count_accepted(&self) {
        self.clients.accepted.fetch_add(1, Ordering::SeqCst);
        self.accepts_fail.store(false, Ordering::SeqCst);
    }

    /// Reports an accept of a client that failed at an address, and why: once until a client has a session.
    pub fn tell_unaccepted<R: Wait + Clock>(&self, rt: &R, at: &Address, error: &io::Error) {
        self.clients.unaccepted.fetch_add(1, Ordering::SeqCst);
        if self.accepts_fail.load(Ordering::SeqCst) {
            return;
        }
        self.accepts_fail.store(true, Ordering::SeqCst);
        self.tell_failed_accept(rt, at, error);
    }

    /// Reports an accept that failed at an address, and why.
    pub fn tell_failed_accept<R: Wait + Clock>(&self, rt: &R, at: &Address, error: &io::Error) {
        let line = self.line(Level::Warn, "failed").text("what", "accept");
        let line = self.with_address(line, at);
        self.log.push(rt, self.with_cause(line, error));
    }

    /// Reports a client that is refused at an address.
    pub fn refuse<R: Wait + Clock>(&self, rt: &R, cause: Cause, at: &Address) {
        self.clients.of(cause).fetch_add(1, Ordering::SeqCst);
        let line = self
            .line(Level::Warn, "refused")
            .text("cause", cause.name());
        self.log.push(rt, self.with_address(line, at));
    }

    /// Reports a client whose session has ended, and why, where that is the daemon's doing.
    pub fn close<R: Wait + Clock>(&self, rt: &R, cause: Option<Cause>) {
        match cause {
            Some(cause) => {
                self.clients.of(cause).fetch_add(1, Ordering::SeqCst);
                let line = self.line(Level::Info, "closed").text("cause", cause.name());
                self.log.push(rt, line);
            }
            None if self.log.allows(Level::Debug) => {
                let line = self.line(Level::Debug, "closed").text("cause", "end");
                self.log.push(rt, line);
            }
            None => {}
        }
    }

    /// Reports where it listens, for whom.
    pub fn tell_ready<R: Wait + Clock>(&self, rt: &R, whom: &str, at: &Address) {
        let line = self.line(Level::Info, "ready").text("for", whom);
        self.log.push(rt, self.with_address(line, at));
    }

    /// Reports that there may be fewer clients at a time than the settings have: the system's limit of
    /// descriptors allows no more.
    pub fn tell_fewer_clients<R: Wait + Clock>(&self, rt: &R, wanted: u64, allowed: u64) {
        let line = self
            .line(Level::Warn, "lowered")
            .text("what", "clients")
            .number("from", wanted)
            .number("to", allowed);
        self.log.push(rt, line);
    }

    /// Reports an event.
    pub fn tell<R: Wait + Clock>(&self, rt: &R, level: Level, event: &str) {
        self.log.push(rt, self.line(level, event));
    }

    // The line with an address more.
    fn with_address(&self, line: Line, at: &Address) -> Line {
        match format!(in self.alloc; "{at}") {
            Ok(text) => line.text("at", text.as_str()),
            Err(_) => line,
        }
    }

    // The line with the cause of a failure more.
    pub(crate) fn with_cause(&self, line: Line, error: &io::Error) -> Line {
        match format!(in self.alloc; "{error}") {
            Ok(text) => line.text("cause", text.as_str()),
            Err(_) => line,
        }
    }

    /// Reports how many pages were claimed and wait, where four wait at least, and twice as many as when that
    /// was last.
    pub fn tell_pages<R: Wait + Clock>(&self, rt: &R, claimed: u64, waiting: u64) {
        if waiting == 0 {
            self.waiting.store(0, Ordering::SeqCst);
        }
        let told = self.waiting.load(Ordering::SeqCst);
        if waiting < told.saturating_mul(2).max(4) {
            return;
        }
        self.waiting.store(waiting, Ordering::SeqCst);
        let line = self
            .line(Level::Info, "pages")
            .number("claimed", claimed)
            .number("waiting", waiting);
        self.log.push(rt, line);
    }
}

// The Unix time, in seconds; 0 where the clock can't be read.
fn unix_time<R: Clock>(rt: &R) -> u64 {
    let Ok(now) = SystemTime::now(rt) else {
        return 0;
    };
    match now.duration_since(SystemTime::UNIX_EPOCH) {
        Ok(passed) => passed.as_secs(),
        Err(_) => 0,
    }
}

/// Reports that a daemon starts with the settings of a text.
pub fn tell_start<R: Wait + Clock>(
    rt: &R,
    alloc: Global,
    log: &Log,
    settings: &str,
) -> Result<(), AllocError> {
    let mut line = Line::new(alloc, Level::Info, "start").text("version", VERSION);
    for (key, value) in changed_settings(alloc, settings)? {
        line = line.text(key.as_str(), value.as_str());
    }
    log.push(rt, line);
    Ok(())
}

/// The line with the milliseconds since a time, where the clock can be read.
pub fn with_time<R: Clock>(rt: &R, line: Line, begun: Option<Instant>) -> Line {
    let Some(begun) = begun else {
        return line;
    };
    match begun.elapsed(rt) {
        Ok(passed) => line.millis("ms", u64::try_from(passed.as_micros()).unwrap_or(u64::MAX)),
        Err(_) => line,
    }
}
