// The settings of texts whose numbers and address no line shows. The others are in `tests/sessions/settings`.
use super::assertions::expects_at;
use sipl_choice::{Families, Transport};
use sipl_lines::Settings;
use sipl_outages::Held;
use std::alloc::Global;
use std::net::{Ipv4Addr, SocketAddrV4};
use std::process::Abort;

// A text, and its settings: the client, the policy, the numbers of records, entries, events, holds, tries,
// workers and sessions, and the address.
#[derive(Clone, Copy)]
struct Row {
    text: &'static str,
    transports: &'static [Transport],
    families: Families,
    held: Held,
    numbers: [usize; 7],
    listen: ([u8; 4], u16),
}

const DEFAULTS: Row = Row {
    text: "",
    transports: &[Transport::Udp, Transport::Tcp],
    families: Families::V4,
    held: Held::Out,
    numbers: [1_048_576, 65_536, 1_048_576, 4096, 4, 1, 1],
    listen: ([127, 0, 0, 1], 5099),
};

const ROWS: &[Row] = &[
    // An empty text has the defaults.
    DEFAULTS,
    Row {
        text: " # nothing\r\n",
        ..DEFAULTS
    },
    // Each key sets its field.
    Row {
        text: "workers = 0\ntries = 16\ntransports = [\"tls\", 'sctp']\nsessions = 2\n\
            records = 3\nlisten = \"127.1.2.3:4\"\njournal = 5\nholds = 6\nfamilies = \"v6\"\n\
            entries = 7\nheld = \"last\"\n",
        transports: &[Transport::Tls, Transport::Sctp],
        families: Families::V6,
        held: Held::Last,
        numbers: [3, 7, 5, 6, 16, 0, 2],
        listen: ([127, 1, 2, 3], 4),
    },
    // `listen` is a loopback address and a port.
    Row {
        text: "listen = \"127.0.0.0:1\"",
        listen: ([127, 0, 0, 0], 1),
        ..DEFAULTS
    },
    Row {
        text: "listen = \"127.255.255.255:65535\"",
        listen: ([127, 255, 255, 255], 65_535),
        ..DEFAULTS
    },
    Row {
        text: "listen = \"127.000.000.001:00080\"",
        listen: ([127, 0, 0, 1], 80),
        ..DEFAULTS
    },
];

fn numbers(settings: &Settings) -> [usize; 7] {
    [
        settings.records,
        settings.entries,
        settings.journal,
        settings.holds,
        settings.tries,
        settings.workers,
        settings.sessions,
    ]
}

fn are_settings(settings: &Settings, row: &Row) -> bool {
    let (ip, port) = row.listen;
    settings.abilities.preference() == row.transports
        && settings.abilities.families() == row.families
        && settings.held == row.held
        && numbers(settings) == row.numbers
        && settings.listen == SocketAddrV4::new(Ipv4Addr::from_octets(ip), port)
}

// Whether the text of a row has its settings.
fn is_row(alloc: Global, row: &Row) -> bool {
    let settings = Settings::from_toml(alloc, row.text);
    let is_so = match &settings {
        Ok(settings) => are_settings(settings, row),
        Err(_) => false,
    };
    drop(settings);
    is_so
}

#[test]
fn texts_have_their_settings(rt: HostRuntime) {
    for row in ROWS {
        expects_at(&rt, is_row(rt.alloc(), row), "the settings of", &row.text);
    }
}
