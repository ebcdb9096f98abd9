// Calls that read texts.
use crate::call::{Outcome, outcome_again, outcome_of, refused};
use crate::values::{ZONE, apex, zone};
use sipl_masterfile::{ZoneFault, ZoneText, read_zone};
use sipl_names::Name;
use sipl_uri::{Question, Uri, UriFault};
use std::alloc::Global;

// A URI with a longer name than one that is kept without an allocation.
const LONG: &[u8] = b"sip:bob@server-of-many-octets.example.com";

fn is_zone(read: &Result<ZoneText, ZoneFault>, expected: &ZoneText) -> Option<bool> {
    match read {
        Ok(zone) => Some(*zone == *expected),
        Err(fault) => refused(fault.code(), true),
    }
}

fn reads(alloc: Global, apex: &Name, expected: &ZoneText) -> Option<bool> {
    let read = read_zone(alloc, ZONE, apex);
    let made = is_zone(&read, expected);
    drop(read);
    made
}

fn reads_twice(alloc: Global, apex: &Name, expected: &ZoneText) -> Outcome {
    match reads(alloc, apex, expected) {
        Some(is_right) => outcome_of(is_right),
        None => outcome_again(reads(alloc, apex, expected)),
    }
}

pub(crate) fn read_zone_call(alloc: Global) -> Option<Outcome> {
    let zone = zone(alloc)?;
    let outcome = reads_as(alloc, &zone);
    drop(zone);
    outcome
}

fn reads_as(alloc: Global, expected: &ZoneText) -> Option<Outcome> {
    let apex = apex(alloc)?;
    let outcome = reads_twice(alloc, &apex, expected);
    drop(apex);
    Some(outcome)
}

fn is_question(parsed: &Result<Question, UriFault>, expected: &Question) -> Option<bool> {
    match parsed {
        Ok(question) => Some(*question == *expected),
        Err(fault) => refused(fault.code(), true),
    }
}

fn parses(alloc: Global, expected: &Question) -> Option<bool> {
    let parsed = Uri::parse(alloc, LONG);
    let made = is_question(&parsed, expected);
    drop(parsed);
    made
}

fn parses_twice(alloc: Global, expected: &Question) -> Outcome {
    match parses(alloc, expected) {
        Some(is_right) => outcome_of(is_right),
        None => outcome_again(parses(alloc, expected)),
    }
}

pub(crate) fn parse_call(alloc: Global) -> Option<Outcome> {
    let question = Uri::parse(alloc, LONG).ok()?;
    let outcome = parses_twice(alloc, &question);
    drop(question);
    Some(outcome)
}
