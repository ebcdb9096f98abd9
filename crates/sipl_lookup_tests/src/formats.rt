//! What no line shows of names, records and URIs: texts with line ends or blanks in them, copies, and what is
//! not printed. `tests/sessions/names`, `records`, `masterfiles` and `uris` have the rest, and
//! `tests/campaigns/octets`.
mod names;

use crate::assertions::{expects, expects_equal_at};
use sipl_choice::Transport;
use sipl_masterfile::{ZoneFault, read_record};
use sipl_names::Name;
use sipl_records::{Address, Data, Record, read_number};
use sipl_uri::{Question, Target, Uri};
use std::alloc::{AllocError, Global};
use std::process::Abort;

fn name(alloc: Global, text: &[u8]) -> Option<Name> {
    Name::from_text(alloc, text, &Name::root(alloc)).ok()
}

// ---- records (RFC 1035, 5.1)

fn record(alloc: Global, text: &[u8]) -> Option<Result<Record, ZoneFault>> {
    Some(read_record(alloc, text, &name(alloc, b"example.com.")?))
}

// The line and the code of a text's fault.
fn fault_of(alloc: Global, text: &[u8]) -> Option<(u64, &'static str)> {
    match record(alloc, text) {
        Some(Err(fault)) => Some((fault.line, fault.code())),
        _ => None,
    }
}

fn has_faults(rt: &impl Abort, alloc: Global, rows: &[(&str, u64, &'static str)]) {
    for (text, line, code) in rows {
        let found = fault_of(alloc, text.as_bytes());
        expects_equal_at(rt, &found, &Some((*line, *code)), text);
    }
}

// Texts of several lines, without a field, and that begin with a blank.
const RECORD_FAULTS: &[(&str, u64, &str)] = &[
    ("", 1, "Z2"),
    ("\n\n; a comment", 1, "Z2"),
    ("\na", 2, "Z2"),
    ("\na A", 2, "Z2"),
    ("a A 192.0.2.1\n)", 2, "Z5"),
    ("a A 192.0.2.256\n)", 1, "Z4"),
    ("\n) a", 2, "Z5"),
    ("\n a A 192.0.2.1", 2, "Z12"),
    (" $TTL x", 1, "Z12"),
    (" 1x A", 1, "Z12"),
    ("a A 192.0.2.1\n\nb A 192.0.2.256", 3, "Z13"),
    ("a A 192.0.2.1\n$ORIGIN b", 2, "Z13"),
    ("$TTL 5\na A 192.0.2.1", 1, "Z2"),
];

fn is_address_of(found: &Record, owner: &Name) -> bool {
    found.owner == *owner && found.value == Data::Address4(0xc000_0201)
}

// Whether the text is that of 192.0.2.1 at this owner.
fn states(alloc: Global, text: &[u8], owner: &[u8]) -> bool {
    match (record(alloc, text), name(alloc, owner)) {
        (Some(Ok(found)), Some(owner)) => is_address_of(&found, &owner),
        _ => false,
    }
}

const ENTRY: &[u8] = b"\n \t\n; a comment\na A 192.0.2.1\n\n ;\n";

fn has_records(rt: &impl Abort, alloc: Global) {
    has_faults(rt, alloc, RECORD_FAULTS);
    expects(rt, states(alloc, b". A (192.0.2.1\n)", b"."), "the root");
    expects(rt, states(alloc, ENTRY, b"a.example.com."), "one entry");
}

// ---- URIs (RFC 3261, 19.1.1)

fn code_of(alloc: Global, uri: &[u8]) -> &'static str {
    match Uri::parse(alloc, uri) {
        Ok(_) => "ok",
        Err(fault) => fault.code(),
    }
}

fn has_codes(rt: &impl Abort, alloc: Global, rows: &[(&str, &'static str)]) {
    for (uri, code) in rows {
        expects_equal_at(rt, &code_of(alloc, uri.as_bytes()), code, uri);
    }
}

// With blanks and line ends; the last two of RFC 4475, 3.1.2.8 and 3.1.2.14.
const URI_CODES: &[(&str, &str)] = &[
    ("", "U1"),
    (" sip:a", "U1"),
    ("sip:a b", "U7"),
    ("sip:u b@a", "U7"),
    ("sip:a;x= ", "U7"),
    ("sip:a?\t", "U7"),
    ("sips:-:0;;\n", "U7"),
    ("sip:user@example.com; lr", "U7"),
    (" sip:t.watson@example.org ", "U1"),
];

// Appends the text of the URI's question, or the code of its fault.
fn append(alloc: Global, out: &mut Vec<u8>, uri: &[u8]) -> Result<(), AllocError> {
    match Uri::parse(alloc, uri) {
        Ok(question) => question.write(out),
        Err(fault) => out.extend_from_slice(fault.code().as_bytes()),
    }
}

fn prints(alloc: Global, uri: &[u8], text: &[u8]) -> bool {
    let mut out = Vec::new(alloc);
    match append(alloc, &mut out, uri) {
        Ok(()) => out.as_slice() == text,
        Err(_) => false,
    }
}

fn prints_each(rt: &impl Abort, alloc: Global, rows: &[(&str, &str)]) {
    for (uri, text) in rows {
        let is_printed = prints(alloc, uri.as_bytes(), text.as_bytes());
        expects_equal_at(rt, &is_printed, &true, uri);
    }
}

const WRITTEN: &[(&str, &str)] = &[
    ("sip:Example.com", "sip:example.com."),
    ("sips:example.com.:5061", "sips:example.com.:5061"),
    ("sip:a_.-.b;transport=udp", "sip:a_.-.b.;transport=udp"),
    ("sips:a;transport=tcp", "sips:a.;transport=tls"),
    (
        "sip:u@192.0.2.9:65535;transport=sctp?h",
        "sip:192.0.2.9:65535;transport=sctp",
    ),
    ("sip:010.0.0.1", "sip:10.0.0.1"),
    ("sip:[2001:DB8::1]", "sip:[2001:db8:0:0:0:0:0:1]"),
    (
        "sips:[::]:00001;transport=tls;x",
        "sips:[0:0:0:0:0:0:0:0]:1;transport=tls",
    ),
    ("sip:a;maddr=b;x", "sip:b."),
];

// Whether the text of the longest question of a target has this length and end.
fn writes(alloc: Global, target: Target, len: usize, end: &[u8]) -> bool {
    let question = Question {
        secure: true,
        target,
        port: Some(65535),
        transport: Some(Transport::Sctp),
    };
    let mut out = Vec::new(alloc);
    match question.write(&mut out) {
        Ok(()) => out.len() == len && out.ends_with(end),
        Err(_) => false,
    }
}

// Whether the question of the longest name has 1,030 octets.
fn writes_longest(alloc: Global) -> bool {
    match names::longest(alloc) {
        Some(name) => writes(alloc, Target::Domain(name), 1030, b".:65535;transport=sctp"),
        None => false,
    }
}

fn has_uris(rt: &impl Abort, alloc: Global) {
    has_codes(rt, alloc, URI_CODES);
    prints_each(rt, alloc, WRITTEN);
    expects(rt, writes_longest(alloc), "the longest question");
    let target = Target::Numeric(Address::V6(u128::MAX));
    let text = b"sips:[ffff:ffff:ffff:ffff:ffff:ffff:ffff:ffff]:65535;transport=sctp";
    expects(rt, writes(alloc, target, 67, text), "the longest address");
}

#[test]
fn texts_that_no_line_has_are_read(rt: HostRuntime) {
    has_records(&rt, rt.alloc());
    has_uris(&rt, rt.alloc());
    expects(&rt, read_number(b"0", 0) == Some(0), "0 of at most 0");
    expects(&rt, read_number(b"1", 0).is_none(), "1 of at most 0");
}
