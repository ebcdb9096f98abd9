//! The settings of both programs, each as a row: what it does, its key, what its value may be, and its
//! default. The tables of docs/use/FORMATS.md and the list in examples/siplocd.toml are written from them:
//! the first paragraph above a row is what the setting does, the second what there is to know of it.
ghost use Rattle.std.specs.Prelude.{◌≡◌, IfOk, map, option_map, string_bytes};
ghost use Rattle.toml.specs.Data.{string};
ghost use Rattle.toml.specs.View.{view};
ghost use Rattle.sipl_config.specs.Rows.{allowed_words, default_data, least_length, number_within};

use std::alloc::{AllocError, Global};
use toml::Value;

/// A setting.
#[derive(Clone, Copy)]
pub struct Row {
    /// Its key in a document.
    pub key: &'static str,
    /// What its value may be.
    pub values: Values,
    /// Its value in a document that does not have the key.
    pub default: DefaultValue,
}

/// What the value of a setting may be.
#[derive(Clone, Copy)]
pub enum Values {
    /// An integer that is at least the first, and at most the second.
    Numbers(u64, u64),
    /// A list of so many values at least, which these words describe.
    List(usize, &'static str),
    /// What these words describe.
    Words(&'static str),
}

/// The value of a setting in a document that does not have its key.
#[derive(Clone, Copy)]
pub enum DefaultValue {
    /// No value.
    Nothing,
    /// An integer.
    Number(u32),
    /// A text.
    Text(&'static str),
    /// A list of texts.
    Texts(&'static [&'static str]),
}

impl Row {
    /// What its value may be, in words.
    pub fn allowed(&self, alloc: Global) -> Result<String, AllocError>
        ensures { IfOk result (λ told. string_bytes told ≡ allowed_words self.now.values) }
    {
        match self.values {
            Values::Numbers(min, max) => format!(in alloc; "{min} to {max}"),
            Values::List(_, words) => String::from_str(alloc, words),
            Values::Words(words) => String::from_str(alloc, words),
        }
    }

    /// The integer of a value, if it is one and is allowed.
    pub fn number(&self, value: &Value) -> Option<u64>
        ensures { result ≡ number_within self.now.values (view value.now) }
    {
        let Values::Numbers(min, max) = self.values else {
            return None;
        };
        match u64::try_from(value.as_integer()?) {
            Ok(number) if min <= number && number <= max => Some(number),
            _ => None,
        }
    }

    /// How many values its list has at least.
    pub fn least(&self) -> usize
        ensures { result ≡ least_length self.now.values }
    {
        match self.values {
            Values::List(least, _) => least,
            _ => 0,
        }
    }

    /// Its value in a document that does not have the key, if it has one then.
    pub fn default_value(&self, alloc: Global) -> Result<Option<Value>, AllocError>
        ensures { IfOk result (λ value. option_map view value ≡ default_data self.now.default) }
    {
        match self.default {
            DefaultValue::Nothing => Ok(None),
            DefaultValue::Number(number) => Ok(Some(Value::from(number))),
            DefaultValue::Text(text) => Ok(Some(Value::string(alloc, text)?)),
            DefaultValue::Texts(texts) => Ok(Some(Value::Array(text_values(alloc, texts)?))),
        }
    }
}

// Texts as the values of a list.
fn text_values(alloc: Global, texts: &[&str]) -> Result<Vec<Value>, AllocError>
    ensures { IfOk result (λ values. map view values.items ≡ map (λ text. string text.now) texts.now) }
{
    let mut values = Vec::new(alloc);
    for text in texts {
        values.push(Value::string(alloc, text)?)?;
    }
    Ok(values)
}

/// The settings of `run`, `world` and `serve`, in the order of their keys' octets.
pub const SERVICE: [Row; 11] = [
    ENTRIES,
    FAMILIES,
    HELD,
    HOLDS,
    JOURNAL,
    SERVE_LISTEN,
    RECORDS,
    SESSIONS,
    TRANSPORTS,
    TRIES,
    WORKERS,
];

/// The settings of the daemon, in the order of their keys' octets.
pub const DAEMON: [Row; 24] = [
    ARCHIVE,
    CLIENTS,
    CLOCK,
    CONTROL,
    ENTRIES,
    FAMILIES,
    FIND,
    HELD,
    HOLDS,
    IDLE,
    JOURNAL,
    LISTEN,
    LOG,
    METRICS,
    MODE,
    ON_FAILURE,
    PAGE_OCTETS,
    RECORDS,
    STATE,
    STDIN,
    TRANSPORTS,
    TRIES,
    WORKERS,
    ZONE_OCTETS,
];

/// Claimed pages are stored in it; it has to be there.
///
/// Without it pages are dropped once they are claimed.
pub const ARCHIVE: Row = Row {
    key: "archive",
    values: Values::Words("the path of a folder"),
    default: DefaultValue::Nothing,
};

/// The greatest number of clients at a time. It is at most 32 below the system's limit of descriptors, or 20,
/// three for each TCP address and four for each Unix socket, and eight with `metrics`, where these are more.
///
/// To raise the limit: `ulimit -n`, or `LimitNOFILE` of systemd.
pub const CLIENTS: Row = Row {
    key: "clients",
    values: Values::Numbers(1, 65_536),
    default: DefaultValue::Number(512),
};

/// What moves the time of holds.
///
/// With `"host"` the time of a call does not move, so nothing is resent; its answer may be up to 100 ms old
/// in its holds.
pub const CLOCK: Row = Row {
    key: "clock",
    values: Values::Words("\"host\" or \"lines\""),
    default: DefaultValue::Text("host"),
};

/// Where control lines are accepted.
///
/// Whoever may connect may `stop`; over TCP that is everyone on the machine.
pub const CONTROL: Row = Row {
    key: "control",
    values: Values::Words(
        "an address of the loopback or a Unix socket, as \"unix:/run/siplocd/control\" or \"127.0.0.1:5098\"",
    ),
    default: DefaultValue::Nothing,
};

/// The maximum of kept results; with all places taken an answer is not kept.
///
/// An absent name's answer has evidence of each ancestor, so with many labels it is large: lower it, or set
/// 0, where others choose the names.
pub const ENTRIES: Row = Row {
    key: "entries",
    values: Values::Numbers(0, 65_536),
    default: DefaultValue::Number(65_536),
};

/// The families of addresses, in the order of look-ups.
///
/// IPv6 has to be named.
pub const FAMILIES: Row = Row {
    key: "families",
    values: Values::Words("\"v4\", \"v6\", \"v4v6\" or \"v6v4\""),
    default: DefaultValue::Text("v4"),
};

/// Where clients connect that may only ask.
///
/// Their calls hold what they find failing: use another daemon for those whom you don't trust.
pub const FIND: Row = Row {
    key: "find",
    values: Values::List(
        0,
        "a list of addresses of the loopback or Unix sockets, as [\"127.0.0.1:5097\"]",
    ),
    default: DefaultValue::Texts(&[]),
};

/// Held endpoints are left out of answers, or tried last.
///
/// With `"last"` a call goes out though all servers are held.
pub const HELD: Row = Row {
    key: "held",
    values: Values::Words("\"out\" or \"last\""),
    default: DefaultValue::Text("out"),
};

/// The maximum of held endpoints.
///
/// The first lookup after each hold, release or move of the clock copies all of them under the lock.
pub const HOLDS: Row = Row {
    key: "holds",
    values: Values::Numbers(0, 4096),
    default: DefaultValue::Number(4096),
};

/// For how many seconds a client may send nothing, without it for ever.
///
/// It frees the places of clients that are silent.
pub const IDLE: Row = Row {
    key: "idle",
    values: Values::Numbers(1, 86_400),
    default: DefaultValue::Nothing,
};

/// The maximum of events in a page.
///
/// It limits events, not octets: an answer of its own takes 64 octets a target, a load 80 a record unless it
/// shares those before. A daemon claims and archives nothing before seven eighths of it, or `page_octets`.
pub const JOURNAL: Row = Row {
    key: "journal",
    values: Values::Numbers(1, 1_048_576),
    default: DefaultValue::Number(1_048_576),
};

/// Where clients connect.
///
/// Whoever can connect may edit.
pub const LISTEN: Row = Row {
    key: "listen",
    values: Values::List(
        1,
        "a list, not empty, of addresses of the loopback or Unix sockets, \
        as [\"127.0.0.1:5099\", \"unix:/run/siplocd/lines\"]",
    ),
    default: DefaultValue::Texts(&["127.0.0.1:5099"]),
};

/// Which lines of the log are written, those of this level and of those before it.
///
/// At `"debug"` each record that is added or removed.
pub const LOG: Row = Row {
    key: "log",
    values: Values::Words("\"off\", \"error\", \"warn\", \"info\" or \"debug\""),
    default: DefaultValue::Text("info"),
};

/// Metrics for Prometheus are read there.
///
/// Also `GET /healthz`.
pub const METRICS: Row = Row {
    key: "metrics",
    values: Values::Words("an address of the loopback or a Unix socket, as \"127.0.0.1:9464\""),
    default: DefaultValue::Nothing,
};

/// The permissions of the files of Unix sockets that have none of their own.
///
/// It says who may connect.
pub const MODE: Row = Row {
    key: "mode",
    values: Values::Words("0 to 511, as 0o660"),
    default: DefaultValue::Number(0o600),
};

/// What it does where changes can't be written to the files of `state`, or pages to `archive`.
///
/// With `"read"` it goes on to answer, refuses changes and holds (D2), and tries each second to write the log
/// anew; a page that can't be archived waits, and seven others at most.
pub const ON_FAILURE: Row = Row {
    key: "on_failure",
    values: Values::Words("\"end\" or \"read\""),
    default: DefaultValue::Text("end"),
};

/// A page is turned too when its events take more octets of memory, by an estimate.
///
/// 280 an event with its receipt, 64 for each target of an answer, 100 for each record of a load.
pub const PAGE_OCTETS: Row = Row {
    key: "page_octets",
    values: Values::Numbers(1, 1_099_511_627_776),
    default: DefaultValue::Number(67_108_864),
};

/// The maximum of records in all zones.
pub const RECORDS: Row = Row {
    key: "records",
    values: Values::Numbers(0, 1_048_576),
    default: DefaultValue::Number(1_048_576),
};

/// Where `serve` listens.
pub const SERVE_LISTEN: Row = Row {
    key: "listen",
    values: Values::Words("an address of 127.0.0.0/8, a colon and a port from 1 to 65535"),
    default: DefaultValue::Text("127.0.0.1:5099"),
};

/// Connections of `serve`.
///
/// A port that is probed counts as one.
pub const SESSIONS: Row = Row {
    key: "sessions",
    values: Values::Numbers(1, 1_000_000),
    default: DefaultValue::Number(1),
};

/// Zones and holds outlast the process in it; it need not be there.
///
/// On a disk of its own: with `on_failure = "end"` a write that fails ends the daemon, for lookups too.
pub const STATE: Row = Row {
    key: "state",
    values: Values::Words("the path of a file"),
    default: DefaultValue::Nothing,
};

/// Whether the end of standard input ends the daemon.
///
/// An orderly end without a control address.
pub const STDIN: Row = Row {
    key: "stdin",
    values: Values::Words("\"stop\" or \"ignore\""),
    default: DefaultValue::Text("ignore"),
};

/// What the client has, in its order of preference.
///
/// TLS and SCTP have to be named.
pub const TRANSPORTS: Row = Row {
    key: "transports",
    values: Values::List(
        1,
        "a list of \"udp\", \"tcp\", \"tls\" and \"sctp\", not empty, and none twice",
    ),
    default: DefaultValue::Texts(&["udp", "tcp"]),
};

/// How often a `find` of `serve` tries to commit.
///
/// More of them where L1 is met.
pub const TRIES: Row = Row {
    key: "tries",
    values: Values::Numbers(1, 16),
    default: DefaultValue::Number(4),
};

/// Repair workers of `serve`.
///
/// Each lease reserves space for the longest evidence, of 80,648 sets, and keeps it.
pub const WORKERS: Row = Row {
    key: "workers",
    values: Values::Numbers(0, 64),
    default: DefaultValue::Number(1),
};

/// How many octets the lines of a zone may have, without their ends.
///
/// Each client may take as much at a time.
pub const ZONE_OCTETS: Row = Row {
    key: "zone_octets",
    values: Values::Numbers(0, 1_099_511_627_776),
    default: DefaultValue::Number(268_435_456),
};
