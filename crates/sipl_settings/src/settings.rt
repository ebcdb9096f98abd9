//! The settings of the daemon, read from a TOML document.
ghost use Rattle.std.specs.Prelude.{IfOk};
ghost use Rattle.sipl_lines.specs.Settings.{IsWithinLimits};

mod document;
mod values;

use document::Document;
use sipl_config::rows;
use sipl_lines::{Settings, SettingsFault};
use sipl_listen::Address;
use sipl_log::Verbosity;
use std::alloc::Global;

// How many may read the metrics at a time.
const MAX_SCRAPERS: usize = 8;

/// The settings of the daemon: those of a server of sessions, and its own, each by the name of its key. Their
/// limits and their defaults are in [`sipl_config::rows`].
#[derive(Drop)]
pub struct DaemonSettings {
    /// The folder of the pages that were claimed, if there is one.
    pub archive: Option<String>,
    /// The greatest number of clients at a time.
    pub clients: usize,
    /// What the time is: the host's, or what clients set it to.
    pub clock: Clocks,
    /// Where control lines are accepted, if they are.
    pub control: Option<Entrance>,
    /// Where clients connect that may only ask.
    pub find: Vec<Entrance>,
    /// For how many seconds a client may send nothing, if not for ever.
    pub idle: Option<u64>,
    /// Where clients connect.
    pub listen: Vec<Entrance>,
    /// Which lines of the log are written.
    pub log: Verbosity,
    /// Where metrics are read, if they are.
    pub metrics: Option<Entrance>,
    /// The permissions of the files of Unix sockets that have none of their own.
    pub mode: u32,
    /// What it does where changes can't be written to the files of `state`, or pages to `archive`.
    pub on_failure: OnFailure,
    /// How many octets of memory the events of a page may take.
    pub page_octets: u64,
    /// The file of the zones and the holds, if there is one.
    pub state: Option<String>,
    /// Whether the end of standard input ends the daemon: `stdin`.
    pub ends_with_input: bool,
    /// How many octets the lines of a zone may have.
    pub zone_octets: u64,
    /// Those that `serve` has too. What it has of `sessions` and `listen` is not used.
    pub service: Settings,
    pub ghost within_limits: { IsWithinLimits service },
}

/// Where it listens.
#[derive(Drop)]
pub struct Entrance {
    /// The address.
    pub address: Address,
    /// The permissions of the file of a Unix socket, where it has its own.
    pub mode: Option<u32>,
}

/// What moves the time of holds.
#[derive(Clone, Copy, Debug, PartialEq, Eq)]
pub enum Clocks {
    /// The clock of the machine.
    Host,
    /// The `clock` lines of clients.
    Lines,
}

/// What a daemon does where changes can't be written to the files of its state, or pages to its archive.
#[derive(Clone, Copy, Debug, PartialEq, Eq)]
pub enum OnFailure {
    /// It ends.
    End,
    /// It goes on to answer, refuses changes (D2) or has pages wait, and tries again each second.
    Read,
}

impl DaemonSettings {
    /// Reads the settings from a TOML document: the rows of [`sipl_config::rows`] say which keys it may have,
    /// and with which values. An address is a text, or a table of it, `at`, and of a Unix socket's `mode`. A
    /// missing key has its default.
    ///
    /// The fault is G1 where the text is not a TOML document. Otherwise it is that of the first of the
    /// daemon's own keys, in the order of their octets, that does not allow its value (G3); or else that
    /// of the other keys (G2, G3).
    pub fn from_toml(alloc: Global, text: &str) -> Result<DaemonSettings, SettingsFault> {
        let mut document = Document::from_toml(alloc, text)?;
        // (in the order of their octets, which is that of faults: the first is what `take_service` returns)
        Ok(DaemonSettings {
            archive: document.take_if_any(&rows::ARCHIVE),
            clients: document.take(&rows::CLIENTS),
            clock: document.take(&rows::CLOCK),
            control: document.take_if_any(&rows::CONTROL),
            find: document.take(&rows::FIND),
            idle: document.take_if_any(&rows::IDLE),
            listen: document.take(&rows::LISTEN),
            log: document.take(&rows::LOG),
            metrics: document.take_if_any(&rows::METRICS),
            mode: document.take(&rows::MODE),
            on_failure: document.take(&rows::ON_FAILURE),
            page_octets: document.take(&rows::PAGE_OCTETS),
            state: document.take_if_any(&rows::STATE),
            ends_with_input: document.take(&rows::STDIN),
            zone_octets: document.take(&rows::ZONE_OCTETS),
            service: document.take_service()?,
        })
    }

    /// How many may read the metrics at a time.
    pub fn max_scrapers(&self) -> usize {
        if self.metrics.is_some() {
            MAX_SCRAPERS
        } else {
            0
        }
    }

    /// How many descriptors the listeners have, and those who read the metrics.
    pub fn descriptors(&self) -> usize {
        descriptors_at(&self.control)
            .saturating_add(descriptors_at(&self.metrics))
            .saturating_add(self.max_scrapers())
            .saturating_add(descriptors_of(&self.listen))
            .saturating_add(descriptors_of(&self.find))
    }
}

fn descriptors_at(entrance: &Option<Entrance>) -> usize {
    match entrance {
        Some(entrance) => entrance.address.descriptors(),
        None => 0,
    }
}

fn descriptors_of(entrances: &[Entrance]) -> usize {
    let mut count = 0usize;
    for entrance in entrances {
        count = count.saturating_add(entrance.address.descriptors());
    }
    count
}
