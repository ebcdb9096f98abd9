// Names: copies, lengths, hashes, and labels that are prepended.
use super::name;
use crate::assertions::{expects, expects_equal, expects_equal_at};
use sipl_names::{Name, NameFault};
use std::alloc::{AllocError, Global};
use std::hash::{DefaultHasher, Hash, Hasher};
use std::process::Abort;

// ---- copies: what is done to one is not seen through another

// Names of few octets, and of many.
const TEXTS: &[&str] = &[
    ".",
    "www.example.com",
    "twenty-two.octets.here",
    "twenty-three.octets.now",
    "a-name-of-many-octets.in.several.labels.below.example.com",
];

fn hash_of(name: &Name) -> u64 {
    let mut hasher = DefaultHasher::new();
    name.hash(&mut hasher);
    hasher.finish()
}

// Whether the names are equal, and whether their hashes are.
fn compare(name: &Name, other: &Name) -> (bool, bool) {
    (name == other, hash_of(name) == hash_of(other))
}

fn compare_texts(alloc: Global, text: &[u8], other: &[u8]) -> Option<(bool, bool)> {
    Some(compare(&name(alloc, text)?, &name(alloc, other)?))
}

fn is_same(alloc: Global, found: &Name, text: &str) -> bool {
    match name(alloc, text.as_bytes()) {
        Some(name) => compare(found, &name) == (true, true),
        None => false,
    }
}

fn push_copies(alloc: Global, name: &Name, copies: &mut Vec<Name>) -> Result<(), AllocError> {
    for _ in 0..1000 {
        copies.push(name.dup(alloc)?)?;
    }
    Ok(())
}

// A thousand copies of a name that is gone.
fn thousand_copies(alloc: Global, text: &str) -> Option<Vec<Name>> {
    let mut copies = Vec::new(alloc);
    let owner = name(alloc, text.as_bytes())?;
    push_copies(alloc, &owner, &mut copies).ok()?;
    Some(copies)
}

// The last one of them, when all others are dropped.
fn last_of_a_thousand(alloc: Global, text: &str) -> Option<Name> {
    thousand_copies(alloc, text)?.pop()
}

fn outlives_a_thousand(alloc: Global, text: &str) -> bool {
    match last_of_a_thousand(alloc, text) {
        Some(last) => is_same(alloc, &last, text),
        None => false,
    }
}

fn drop_labels(name: &mut Name) {
    for _ in 0..8 {
        name.pop_label();
    }
}

// A name, after its copy has lost its labels, and whether that is the root then.
fn after_its_copy(alloc: Global, text: &str) -> Option<(Name, bool)> {
    let owner = name(alloc, text.as_bytes())?;
    let mut copy = owner.dup(alloc).ok()?;
    drop_labels(&mut copy);
    Some((owner, copy.is_root()))
}

fn keeps_its_labels(alloc: Global, text: &str) -> bool {
    match after_its_copy(alloc, text) {
        Some((owner, is_root)) => is_root && is_same(alloc, &owner, text),
        None => false,
    }
}

fn has_copies(rt: &impl Abort, alloc: Global) {
    for text in TEXTS {
        let found = (
            outlives_a_thousand(alloc, text),
            keeps_its_labels(alloc, text),
        );
        expects_equal_at(rt, &found, &(true, true), text);
    }
    let found = compare_texts(alloc, b"A.B", b"a.b.");
    expects_equal(rt, &found, &Some((true, true)), "the same name");
    let found = compare_texts(alloc, b"A.B", b"a\\.b.");
    expects_equal(rt, &found, &Some((false, false)), "another name");
}

// ---- lengths, the label next to the root, and the wildcard beside the root

fn length_and_root(alloc: Global, text: &[u8]) -> Option<(usize, bool)> {
    let name = name(alloc, text)?;
    Some((name.wire_len(), name.is_root()))
}

fn has_top_label(alloc: Global, text: &[u8], expected: Option<&[u8]>) -> bool {
    match name(alloc, text) {
        Some(name) => name.top_label() == expected,
        None => false,
    }
}

fn wildcard_of(alloc: Global, text: &[u8]) -> Option<Name> {
    name(alloc, text)?.wildcard_beside(alloc).ok()
}

fn root_is_beside_itself(alloc: Global) -> bool {
    match wildcard_of(alloc, b".") {
        Some(wildcard) => wildcard.is_root(),
        None => false,
    }
}

fn has_lengths(rt: &impl Abort, alloc: Global) {
    let found = length_and_root(alloc, b"example.com");
    expects_equal(rt, &found, &Some((13, false)), "a length");
    let found = length_and_root(alloc, b".");
    expects_equal(rt, &found, &Some((1, true)), "that of the root");
    let is_com = has_top_label(alloc, b"example.com", Some(b"com"));
    expects(rt, is_com, "the label next to the root");
    expects(rt, has_top_label(alloc, b".", None), "a label of the root");
    expects(rt, root_is_beside_itself(alloc), "the wildcard of the root");
}

// ---- labels that are prepended

// Appends labels of these lengths, of the same octets each.
fn push_labels(out: &mut Vec<u8>, octet: &[u8], lengths: &[usize]) -> Result<(), AllocError> {
    for length in lengths {
        push_times(out, octet, *length)?;
        out.extend_from_slice(b".")?;
    }
    Ok(())
}

fn push_times(out: &mut Vec<u8>, octets: &[u8], times: usize) -> Result<(), AllocError> {
    for _ in 0..times {
        out.extend_from_slice(octets)?;
    }
    Ok(())
}

// The name of labels of these lengths.
fn name_of(alloc: Global, octet: &[u8], lengths: &[usize]) -> Option<Name> {
    let mut text = Vec::new(alloc);
    push_labels(&mut text, octet, lengths).ok()?;
    name(alloc, &text)
}

// The name of 250 octets that are each printed as four.
pub(super) fn longest(alloc: Global) -> Option<Name> {
    name_of(alloc, b"\\000", &[63, 63, 63, 61])
}

fn code_of(made: Result<Name, NameFault>) -> &'static str {
    match made {
        Ok(_) => "ok",
        Err(fault) => fault.code(),
    }
}

fn code_of_prefixed(alloc: Global, labels: &[&[u8]]) -> &'static str {
    match name_of(alloc, b"a", &[63, 63, 63, 59]) {
        Some(full) => code_of(full.prefixed(alloc, labels)),
        None => "no name",
    }
}

// A label that is too long.
const LONG: &[u8] = &[b'a'; 64];

const PREFIXES: &[([&[u8]; 2], &str)] = &[
    ([b"b", b"b"], "N3"),
    ([b"bb", b""], "N1"),
    ([LONG, b""], "N2"),
    ([b"", LONG], "N1"),
];

fn has_codes(rt: &impl Abort, alloc: Global, rows: &[([&[u8]; 2], &'static str)]) {
    for (labels, code) in rows {
        expects_equal(
            rt,
            &code_of_prefixed(alloc, labels),
            code,
            "the first fault",
        );
    }
}

fn service_of(alloc: Global, text: &[u8]) -> Option<Name> {
    let labels: [&[u8]; 2] = [b"_sip", b"_UDP"];
    name(alloc, text)?.prefixed(alloc, &labels).ok()
}

fn has_service(alloc: Global) -> bool {
    match service_of(alloc, b"example.com.") {
        Some(service) => is_same(alloc, &service, "_sip._udp.example.com."),
        None => false,
    }
}

#[test]
fn copies_of_names_are_apart(rt: HostRuntime) {
    has_copies(&rt, rt.alloc());
    has_lengths(&rt, rt.alloc());
    has_codes(&rt, rt.alloc(), PREFIXES);
    expects(&rt, has_service(rt.alloc()), "the name of a service");
}
