//! What is counted of a daemon, as it is at a time: for the line `stats`, and for who reads the metrics.
use crate::cause::Cause;
use crate::counts::Counts;
use crate::observed::Observed;
use sipl_config::VERSION;
use sipl_metrics::Exposition;
use sipl_service::EntryCounts;
use std::alloc::{AllocError, Global};
use std::fmt::Write as _;
use std::fs;
use std::rt::Files;
use std::sync::Wait;
use std::sync::atomic::{AtomicU64, Ordering};

/// What is counted of a daemon beside its [`Counts`], as it is at a time.
#[derive(Clone, Copy)]
pub struct Figures {
    /// How many answers are kept.
    pub entries: EntryCounts,
    /// How many zones are loaded.
    pub zones: u64,
    /// How many records they have.
    pub records: u64,
    /// How many endpoints are held.
    pub held: u64,
    /// How many clients are connected.
    pub clients: u64,
    /// How many pages were claimed.
    pub claimed: u64,
    /// How many pages wait to be claimed.
    pub waiting: u64,
    /// How many octets of the process are in memory.
    pub resident: u64,
    /// Whether changes are refused, since they can't be written.
    pub refuses_changes: bool,
}

impl Figures {
    /// Appends the reply to `stats`.
    pub fn write_stats(&self, counts: &Counts, reply: &mut String) -> Result<(), AllocError> {
        let stats = [
            ("events", count(&counts.events)),
            ("targets", count(&counts.targets)),
            ("NoAddress", count(&counts.no_address)),
            ("NotAvailable", count(&counts.not_available)),
            ("NoTransport", count(&counts.no_transport)),
            ("AllHeld", count(&counts.all_held)),
            ("kept", self.entries.kept),
            ("current", self.entries.current),
            ("queued", self.entries.queued),
            ("records", self.records),
            ("held", self.held),
            ("clients", self.clients),
            ("pages", self.claimed),
            ("waiting", self.waiting),
            ("resident", self.resident),
        ];
        write_each(reply, &stats)?;
        reply.push_str("ok stats\n")
    }

    /// The metrics.
    pub fn exposition<R: Wait>(
        &self,
        rt: &R,
        counts: &Counts,
        observed: &Observed,
    ) -> Result<Exposition, AllocError> {
        let mut out = Exposition::new(observed.alloc);
        self.write_metrics(rt, counts, observed, &mut out)?;
        Ok(out)
    }

    fn write_metrics<R: Wait>(
        &self,
        rt: &R,
        counts: &Counts,
        observed: &Observed,
        out: &mut Exposition,
    ) -> Result<(), AllocError> {
        out.begin("siploc_build_info", "gauge", "The version of the daemon.")?;
        out.labelled("siploc_build_info", "version", VERSION, 1)?;
        write_answers(counts, observed, out)?;
        self.write_zones(out)?;
        self.write_clients(observed, out)?;
        self.write_pages(counts, out)?;
        self.write_process(observed, out)?;
        out.counter(
            "siploc_log_lines_dropped_total",
            "Lines of the log that were not written.",
            observed.log.dropped(rt),
        )
    }

    // What is loaded, held and kept.
    fn write_zones(&self, out: &mut Exposition) -> Result<(), AllocError> {
        out.gauge("siploc_zones", "Zones that are loaded.", self.zones)?;
        out.gauge("siploc_records", "Records of all zones.", self.records)?;
        out.gauge(
            "siploc_held_endpoints",
            "Endpoints that are held.",
            self.held,
        )?;
        out.gauge(
            "siploc_kept_answers",
            "Questions whose answer is kept.",
            self.entries.kept,
        )?;
        out.gauge(
            "siploc_current_answers",
            "Questions whose answer is kept and current.",
            self.entries.current,
        )?;
        out.gauge(
            "siploc_queued_questions",
            "Questions that are to be looked up again.",
            self.entries.queued,
        )
    }

    // The clients, and why some have no session, or not any more.
    fn write_clients(&self, observed: &Observed, out: &mut Exposition) -> Result<(), AllocError> {
        let clients = &observed.clients;
        out.gauge(
            "siploc_clients",
            "Clients that are connected.",
            self.clients,
        )?;
        out.counter(
            "siploc_accepted_clients_total",
            "Clients that had a session.",
            count(&clients.accepted),
        )?;
        out.counter(
            "siploc_failed_accepts_total",
            "Accepts of clients that failed.",
            count(&clients.unaccepted),
        )?;
        let name = "siploc_refused_clients_total";
        out.begin(
            name,
            "counter",
            "Clients that had no session, by the cause.",
        )?;
        for cause in [Cause::Busy, Cause::Threads] {
            out.labelled(name, "cause", cause.name(), count(clients.of(cause)))?;
        }
        let name = "siploc_closed_clients_total";
        out.begin(
            name,
            "counter",
            "Clients whose session the daemon has ended, by the cause.",
        )?;
        for cause in [Cause::Idle, Cause::Slow, Cause::Http] {
            out.labelled(name, "cause", cause.name(), count(clients.of(cause)))?;
        }
        Ok(())
    }

    // The journal.
    fn write_pages(&self, counts: &Counts, out: &mut Exposition) -> Result<(), AllocError> {
        out.counter(
            "siploc_events_total",
            "Events of the journal.",
            count(&counts.events),
        )?;
        out.counter(
            "siploc_pages_claimed_total",
            "Pages of the journal that were claimed.",
            self.claimed,
        )?;
        out.gauge(
            "siploc_pages_waiting",
            "Pages of the journal that wait to be claimed.",
            self.waiting,
        )?;
        out.gauge(
            "siploc_changes_refused",
            "1 while changes are refused, since they can't be written.",
            u64::from(self.refuses_changes),
        )
    }

    // The process.
    fn write_process(&self, observed: &Observed, out: &mut Exposition) -> Result<(), AllocError> {
        out.gauge(
            "siploc_start_time_seconds",
            "Unix time of the start, in seconds.",
            observed.started,
        )?;
        out.gauge(
            "siploc_resident_bytes",
            "Octets of the process in memory.",
            self.resident,
        )
    }
}

// Lines of a name and a number.
fn write_each(reply: &mut String, stats: &[(&str, u64)]) -> Result<(), AllocError> {
    for (name, number) in stats {
        writeln!(reply, "{name} {number}")?;
    }
    Ok(())
}

// The answers, by their ends, and the time that batches take.
fn write_answers(
    counts: &Counts,
    observed: &Observed,
    out: &mut Exposition,
) -> Result<(), AllocError> {
    let ends = [
        ("targets", &counts.targets),
        ("no_address", &counts.no_address),
        ("not_available", &counts.not_available),
        ("no_transport", &counts.no_transport),
        ("all_held", &counts.all_held),
    ];
    let name = "siploc_finds_total";
    out.begin(
        name,
        "counter",
        "Questions that were answered, by the end of the answer.",
    )?;
    for (end, found) in &ends {
        out.labelled(name, "end", end, count(found))?;
    }
    match &observed.batches {
        Some(batches) => batches.write(
            "siploc_batch_seconds",
            "The time from a batch of lines read to its replies written.",
            out,
        ),
        None => Ok(()),
    }
}

fn count(count: &AtomicU64) -> u64 {
    count.load(Ordering::SeqCst)
}

/// How many octets of the process are in memory; 0 where that can't be read.
pub fn resident<R: Files>(rt: &R, alloc: Global) -> u64 {
    match fs::read_to_string(&(rt, alloc), "/proc/self/statm") {
        Ok(text) => resident_in(text.as_str()).unwrap_or(0),
        Err(_) => 0,
    }
}

fn resident_in(statm: &str) -> Option<u64> {
    let pages = statm.split(' ').nth(1)?.parse::<u64>().ok()?;
    Some(pages.saturating_mul(4096))
}
