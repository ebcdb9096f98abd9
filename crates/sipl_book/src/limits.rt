ghost use Rattle.std.specs.Prelude.{◌≡◌};

use sipl_outages::MAX_HOLDS;
use sipl_zonestore::MAX_RECORDS;

/// The greatest number of entries that a book keeps.
pub const MAX_ENTRIES: usize = 65_536;

/// The greatest number of events in a book's journal.
pub const MAX_EVENTS: usize = 1_048_576;

/// The maxima of a book, and the first numbers of its record sets and events.
#[derive(Clone, Copy, Debug, PartialEq, Eq)]
pub struct Limits {
    /// Records of all zones: at most 1,048,576.
    pub records: usize,
    /// Entries: at most 65,536. An answer that finds no free entry is not kept.
    pub entries: usize,
    /// Events of the journal since the last page: at most 1,048,576.
    pub journal: usize,
    /// Held endpoints: at most 4,096.
    pub holds: usize,
    /// The number of the first record set, from 1 to 2^52.
    pub next: u64,
    /// The number of the first event, from 0 to 2^52 - 2^20.
    pub first: u64,
}

impl Limits {
    /// The greatest limits, with sets numbered from 1 and events from 0.
    pub fn greatest() -> Self
        ensures { result ≡ record {
          records = 1048576;
          entries = 65536;
          journal = 1048576;
          holds = 4096;
          next = 1;
          first = 0;
        } }
    {
        Limits {
            records: MAX_RECORDS,
            entries: MAX_ENTRIES,
            journal: MAX_EVENTS,
            holds: MAX_HOLDS,
            next: 1,
            first: 0,
        }
    }
}
