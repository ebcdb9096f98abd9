//! The settings of the program, read from a TOML document.
ghost use Rattle.std.specs.Prelude.{◌≡◌, ◌≢◌, None, Some, Ok, Err, IfOk, IfErr, IfSome};
ghost use Rattle.toml.specs.Parse.{parse_document};
ghost use Rattle.toml.specs.View.{table_view, view};
ghost use Rattle.sipl_lines.specs.SettingsFault.{fault_of};
ghost use Rattle.sipl_lines.specs.Settings.{defaults, IsWithinLimits, limits_of, SetsKey, settings_of, settings_of_members};

mod fault;
mod values;

use fault::Refusal;
pub use fault::SettingsFault;
use sipl_book::{Limits, MAX_ENTRIES, MAX_EVENTS};
use sipl_choice::{Abilities, Families, Transport};
use sipl_outages::{Held, MAX_HOLDS};
use sipl_zonestore::MAX_RECORDS;
use std::alloc::{AllocError, Global};
use std::net::{Ipv4Addr, SocketAddrV4};
use toml::{Table, Value};

/// The settings of the program, each by the name of its key, but for `abilities`.
#[derive(Debug, Drop)]
pub struct Settings {
    /// What the client can do: `transports`, by default UDP and then TCP, and `families`, by
    /// default IPv4 only.
    pub abilities: Abilities,
    /// The policy on held endpoints, by default [`Held::Out`].
    pub held: Held,
    /// The maximum number of records in all zones: 0 to 1,048,576, which is the default.
    pub records: usize,
    /// The maximum number of kept results: 0 to 65,536, which is the default.
    pub entries: usize,
    /// The maximum number of events in the journal since the last page: 1 to 1,048,576, which is the
    /// default.
    pub journal: usize,
    /// The maximum number of held endpoints: 0 to 4,096, which is the default.
    pub holds: usize,
    /// The maximum number of tries of a lookup to commit: 1 to 16, by default 4.
    pub tries: usize,
    /// The number of threads that repair results: 0 to 64, by default 1.
    pub workers: usize,
    /// The number of connections that are served: 1 to 1,000,000, by default 1.
    pub sessions: usize,
    /// Where connections are accepted: an address in 127.0.0.0/8 and a port from 1 to 65,535, by
    /// default 127.0.0.1:5099.
    pub listen: SocketAddrV4,
}

impl Settings {
    /// Reads the program's settings from a TOML document. Its keys are the fields, with
    /// `transports` and `families` in place of `abilities`. A missing key has its default.
    ///
    /// `transports` is a list of `"udp"`, `"tcp"`, `"tls"` and `"sctp"`, not empty and none twice.
    /// `families` is `"v4"`, `"v6"`, `"v4v6"` or `"v6v4"`, in the order of look-ups. `held` is `"out"`
    /// or `"last"`. `listen` is an IPv4 address, a colon and a port. The others are integers. Their
    /// limits are at the fields.
    ///
    /// The fault is G1 where the text is not a TOML document. Otherwise it is that of the first key, in
    /// the order of the keys' octets, that is unknown (G2) or does not allow its value (G3).
    pub fn from_toml(alloc: Global, text: &str) -> Result<Self, SettingsFault>
        ensures read { IfOk result (λ settings. settings_of text.now ≡ Ok settings) }
        ensures limits { IfOk result (λ settings. IsWithinLimits settings) }
        ensures refused { IfErr result (λ fault. IfSome (fault_of fault)
            (λ fault. settings_of text.now ≡ Err fault)) }
    {
        Settings::from_table(alloc, read_table(alloc, text)?)
    }

    /// Reads the program's settings from the table of a TOML document, as [`Settings::from_toml`] does from
    /// its text. A fault is G2 or G3.
    pub fn from_table(alloc: Global, table: Table) -> Result<Self, SettingsFault>
        ensures read { IfOk result (λ settings.
            settings_of_members (table_view table) ≡ Ok settings) }
        ensures limits { IfOk result (λ settings. IsWithinLimits settings) }
        ensures refused { IfErr result (λ fault. IfSome (fault_of fault)
            (λ fault. settings_of_members (table_view table) ≡ Err fault)) }
    {
        let mut settings = Settings::defaults(alloc)?;
        for (key, value) in table {
            if let Err(refusal) = settings.set(alloc, key.as_str(), &value) {
                return Err(refusal.at(key));
            }
        }
        Ok(settings)
    }

    /// The limits of a book with these settings; its record sets are numbered from 1, its events from 0.
    pub fn limits(&self) -> Limits
        ensures { result ≡ limits_of self.now }
    {
        Limits {
            records: self.records,
            entries: self.entries,
            journal: self.journal,
            holds: self.holds,
            next: 1,
            first: 0,
        }
    }

    // The settings of an empty document.
    fn defaults(alloc: Global) -> Result<Self, AllocError>
        ensures { IfOk result (λ settings. settings ≡ defaults) }
    {
        let preference = Vec::from_slice(alloc, &[Transport::Udp, Transport::Tcp])?;
        Ok(Settings {
            abilities: Abilities::new(preference, Families::V4).unwrap(),
            held: Held::Out,
            records: MAX_RECORDS,
            entries: MAX_ENTRIES,
            journal: MAX_EVENTS,
            holds: MAX_HOLDS,
            tries: 4,
            workers: 1,
            sessions: 1,
            listen: SocketAddrV4::new(Ipv4Addr::new(127, 0, 0, 1), 5099),
        })
    }

    // Sets the fields that are a key's.
    fn set(&mut self, alloc: Global, key: &str, value: &Value) -> Result<(), Refusal>
        ensures set { SetsKey key.now (view value.now) self.old result self.new }
        ensures limits { IsWithinLimits self.old → IsWithinLimits self.new }
    {
        match key {
            "transports" => {
                let transports = values::transports(alloc, value)?;
                self.abilities = Abilities::new(transports, self.abilities.families())?;
            }
            "families" => {
                let transports = Vec::from_slice(alloc, self.abilities.preference())?;
                self.abilities = Abilities::new(transports, values::families(value)?)?;
            }
            "held" => self.held = values::held(value)?,
            "records" => self.records = values::number(value, 0, MAX_RECORDS)?,
            "entries" => self.entries = values::number(value, 0, MAX_ENTRIES)?,
            "journal" => self.journal = values::number(value, 1, MAX_EVENTS)?,
            "holds" => self.holds = values::number(value, 0, MAX_HOLDS)?,
            "tries" => self.tries = values::number(value, 1, 16)?,
            "workers" => self.workers = values::number(value, 0, 64)?,
            "sessions" => self.sessions = values::number(value, 1, 1_000_000)?,
            "listen" => self.listen = values::loopback(value)?,
            _ => return Err(Refusal::UnknownKey),
        }
        Ok(())
    }
}

/// The table of a TOML document. The fault is G1 where the text is not one.
pub fn read_table(alloc: Global, text: &str) -> Result<Table, SettingsFault>
    ensures read { IfOk result (λ table. parse_document text.now ≡ Some (table_view table)) }
    ensures refused { IfErr result (λ fault. fault ≢ SettingsFault.Memory
        → (fault ≡ SettingsFault.NotToml) × (parse_document text.now ≡ None)) }
{
    match toml::table_from_str(alloc, text) {
        Ok(table) => Ok(table),
        Err(error) if error.is_memory() => Err(SettingsFault::Memory),
        Err(_) => Err(SettingsFault::NotToml),
    }
}
