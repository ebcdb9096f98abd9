//! What no line shows of a store: the keys that an edit changes, in their order, the numbers that their sets
//! take, the order of all records, and the looks. `tests/sessions/zones` has the rest.
mod plays;

ghost use Rattle.std.specs.Prelude.{◌^◌, ◌≤◌};

use crate::assertions::{expects, expects_at, expects_equal, expects_equal_at};
use sipl_masterfile::{ZoneText, read_record, read_zone};
use sipl_names::Name;
use sipl_records::{Data, Key, Kind, Record};
use sipl_zonestore::{Changed, StoreFault, ZoneStore};
use std::alloc::Global;
use std::process::Abort;

const A: Kind = Kind::Address4;

// The names that begin to exist with the first record of `example.com.`, at `server1`.
const FIRST_NAMES: Names = &["server1", "@", "com.", "."];

// The text of a zone without records.
const EMPTY: &str = "; nothing";

// Record sets, by their owners and kinds.
type Sets = &'static [(&'static str, Kind)];

type Names = &'static [&'static str];

// An edit. Names are relative to `example.com.`, and records are lines of its master file.
#[derive(Clone, Copy)]
enum Edit {
    // The apex, and the text of its zone.
    Load(&'static str, &'static str),
    Unload(&'static str),
    Add(&'static str),
    // A record of this owner whose data are not kept.
    AddBare(&'static str),
    Remove(&'static str),
}

#[derive(Clone, Copy)]
enum Step {
    // The zone `example.com.` is loaded, and three records of two owners are added.
    Starts,
    // The edit changes the sets of these owners and kinds, and no name begins or ceases to exist.
    Changes(Edit, Sets),
    // The edit changes the sets of these owners and kinds, and then whether these names exist.
    ChangesNames(Edit, Sets, Names),
    Refuses(Edit, StoreFault),
    HasApexes(&'static [&'static str]),
    HasRecords(&'static [&'static str]),
    HasNumbers(&'static [(&'static str, Kind, u64)]),
    // A set has a number, and the data of these records.
    HasSet(&'static str, Kind, u64, &'static [&'static str]),
    HasLooks(u64),
}

// Takes the steps with a new store. It alone owns a store: at each exit the proof owes what becomes
// of one.
fn play(rt: &impl Abort, alloc: Global, next: u64, max_records: u64, steps: &[Step])
    requires first { 1 ≤ next }
    requires last { next ≤ 2 ^ 52 }
    requires limit { max_records ≤ 1048576 }
{
    let mut store = ZoneStore::with(alloc, next, max_records);
    take_each(rt, alloc, &mut store, steps);
    drop(store);
}

fn take_each(rt: &impl Abort, alloc: Global, store: &mut ZoneStore, steps: &[Step]) {
    for step in steps {
        take(rt, alloc, store, *step);
    }
}

fn take(rt: &impl Abort, alloc: Global, store: &mut ZoneStore, step: Step) {
    match step {
        Step::Starts => start(rt, alloc, store),
        Step::Changes(edit, sets) => changes(rt, alloc, store, edit, sets, &[]),
        Step::ChangesNames(edit, sets, names) => changes(rt, alloc, store, edit, sets, names),
        Step::Refuses(edit, fault) => refuses(rt, alloc, store, edit, fault),
        Step::HasApexes(apexes) => has_apexes(rt, alloc, store, apexes),
        Step::HasRecords(lines) => has_records(rt, alloc, store, lines),
        Step::HasNumbers(numbers) => has_numbers(rt, alloc, store, numbers),
        Step::HasSet(owner, kind, number, lines) => {
            has_set(rt, alloc, store, owner, kind, number, lines);
        }
        Step::HasLooks(looks) => expects_equal(rt, &store.looks(), &looks, "the looks"),
    }
}

// The edits of the step `Starts`, with the sets that each changes and the names that begin to exist.
const START: &[(Edit, Sets, Names)] = &[
    (Edit::Load("example.com.", EMPTY), &[], &[]),
    (
        Edit::Add("server1 A 192.0.2.1"),
        &[("server1", A)],
        FIRST_NAMES,
    ),
    (
        Edit::Add("server2 A 192.0.2.2"),
        &[("server2", A)],
        &["server2"],
    ),
    (Edit::Add("SERVER1 A 192.0.2.3"), &[("server1", A)], &[]),
];

fn start(rt: &impl Abort, alloc: Global, store: &mut ZoneStore) {
    for (edit, sets, names) in START {
        changes(rt, alloc, store, *edit, sets, names);
    }
}

fn changes(
    rt: &impl Abort,
    alloc: Global,
    store: &mut ZoneStore,
    edit: Edit,
    sets: &[(&str, Kind)],
    names: &[&str],
) {
    let changed = match apply(rt, alloc, store, edit) {
        Ok(changed) => is_changed(rt, alloc, &changed, sets, names),
        Err(_) => false,
    };
    expects(rt, changed, "other sets changed, or the edit was refused");
}

fn refuses(rt: &impl Abort, alloc: Global, store: &mut ZoneStore, edit: Edit, fault: StoreFault) {
    let found = apply(rt, alloc, store, edit).err();
    expects_equal(rt, &found, &Some(fault), "the fault");
}

fn apply(
    rt: &impl Abort,
    alloc: Global,
    store: &mut ZoneStore,
    edit: Edit,
) -> Result<Changed, StoreFault> {
    match edit {
        Edit::Load(apex, text) => load(rt, alloc, store, apex, text),
        Edit::Unload(apex) => unload(rt, alloc, store, apex),
        Edit::Add(line) => add(rt, alloc, store, line),
        Edit::AddBare(owner) => add_data(rt, alloc, store, owner, Data::Bare),
        Edit::Remove(line) => remove(rt, alloc, store, line),
    }
}

fn load(
    rt: &impl Abort,
    alloc: Global,
    store: &mut ZoneStore,
    apex: &str,
    text: &str,
) -> Result<Changed, StoreFault> {
    store.load(&zone(rt, alloc, apex, text))
}

fn unload(
    rt: &impl Abort,
    alloc: Global,
    store: &mut ZoneStore,
    apex: &str,
) -> Result<Changed, StoreFault> {
    store.unload(&name(rt, alloc, apex))
}

fn add(
    rt: &impl Abort,
    alloc: Global,
    store: &mut ZoneStore,
    line: &str,
) -> Result<Changed, StoreFault> {
    store.add(&record(rt, alloc, line))
}

fn add_data(
    rt: &impl Abort,
    alloc: Global,
    store: &mut ZoneStore,
    owner: &str,
    value: Data,
) -> Result<Changed, StoreFault> {
    store.add(&Record {
        owner: name(rt, alloc, owner),
        value,
    })
}

fn remove(
    rt: &impl Abort,
    alloc: Global,
    store: &mut ZoneStore,
    line: &str,
) -> Result<Changed, StoreFault> {
    store.remove(&record(rt, alloc, line))
}

fn name(rt: &impl Abort, alloc: Global, text: &str) -> Name {
    let origin = origin(rt, alloc);
    Name::from_text(alloc, text.as_bytes(), &origin).expect(rt, "a name")
}

fn origin(rt: &impl Abort, alloc: Global) -> Name {
    Name::from_text(alloc, b"example.com.", &Name::root(alloc)).expect(rt, "a name")
}

fn zone(rt: &impl Abort, alloc: Global, apex: &str, text: &str) -> ZoneText {
    read_zone(alloc, text.as_bytes(), &name(rt, alloc, apex)).expect(rt, "a zone")
}

fn record(rt: &impl Abort, alloc: Global, line: &str) -> Record {
    read_record(alloc, line.as_bytes(), &origin(rt, alloc)).expect(rt, "a record")
}

fn key(rt: &impl Abort, alloc: Global, owner: &str, kind: Kind) -> Key {
    Key {
        name: name(rt, alloc, owner),
        kind,
    }
}

// Whether the changed keys are those of these sets, and then those of the existence of these names.
fn is_changed(
    rt: &impl Abort,
    alloc: Global,
    changed: &Changed,
    sets: &[(&str, Kind)],
    names: &[&str],
) -> bool {
    let keys = changed.keys.as_slice();
    let (of_sets, of_names) = keys.split_at(changed.sets.min(keys.len()));
    are_keys(rt, alloc, of_sets, sets) && are_existence(rt, alloc, of_names, names)
}

fn are_keys(rt: &impl Abort, alloc: Global, keys: &[Key], sets: &[(&str, Kind)]) -> bool {
    for (found, set) in keys.iter().zip(sets.iter()) {
        if *found != key(rt, alloc, set.0, set.1) {
            return false;
        }
    }
    keys.len() == sets.len()
}

fn are_existence(rt: &impl Abort, alloc: Global, keys: &[Key], names: &[&str]) -> bool {
    for (found, name) in keys.iter().zip(names.iter()) {
        if *found != key(rt, alloc, name, Kind::Exists) {
            return false;
        }
    }
    keys.len() == names.len()
}

fn is_record(rt: &impl Abort, alloc: Global, found: &Record, line: &str) -> bool {
    let expected = record(rt, alloc, line);
    let is_equal = *found == expected;
    drop(expected);
    is_equal
}

fn is_datum(rt: &impl Abort, alloc: Global, found: &Data, line: &str) -> bool {
    let expected = record(rt, alloc, line);
    let is_equal = *found == expected.value;
    drop(expected);
    is_equal
}

// Whether the records are those of the lines.
fn are_records(rt: &impl Abort, alloc: Global, records: &[Record], lines: &[&str]) -> bool {
    for (found, line) in records.iter().zip(lines.iter()) {
        if !is_record(rt, alloc, found, line) {
            return false;
        }
    }
    records.len() == lines.len()
}

// Whether the data are those of the lines.
fn are_data(rt: &impl Abort, alloc: Global, data: &[Data], lines: &[&str]) -> bool {
    for (found, line) in data.iter().zip(lines.iter()) {
        if !is_datum(rt, alloc, found, line) {
            return false;
        }
    }
    data.len() == lines.len()
}

// Whether the apexes are these names.
fn are_apexes(rt: &impl Abort, alloc: Global, apexes: &[Name], names: &[&str]) -> bool {
    for (found, text) in apexes.iter().zip(names.iter()) {
        if *found != name(rt, alloc, text) {
            return false;
        }
    }
    apexes.len() == names.len()
}

fn has_apexes(rt: &impl Abort, alloc: Global, store: &ZoneStore, names: &[&str]) {
    let are_as_expected = are_apexes(rt, alloc, store.apexes(), names);
    expects(rt, are_as_expected, "other apexes");
}

fn has_records(rt: &impl Abort, alloc: Global, store: &mut ZoneStore, lines: &[&str]) {
    let are_as_expected = are_records(rt, alloc, store.records(), lines);
    expects(rt, are_as_expected, "other records");
}

fn has_numbers(rt: &impl Abort, alloc: Global, store: &ZoneStore, numbers: &[(&str, Kind, u64)]) {
    for (owner, kind, number) in numbers {
        let found = number_of(rt, alloc, store, owner, *kind);
        expects_equal_at(rt, &found, number, owner);
    }
}

fn number_of(rt: &impl Abort, alloc: Global, store: &ZoneStore, owner: &str, kind: Kind) -> u64 {
    store.number(&key(rt, alloc, owner, kind))
}

fn has_set(
    rt: &impl Abort,
    alloc: Global,
    store: &mut ZoneStore,
    owner: &str,
    kind: Kind,
    number: u64,
    lines: &[&str],
) {
    let is_as_expected = is_set(rt, alloc, store, owner, kind, number, lines);
    expects_at(rt, is_as_expected, "another set at", &owner);
}

fn is_set(
    rt: &impl Abort,
    alloc: Global,
    store: &mut ZoneStore,
    owner: &str,
    kind: Kind,
    number: u64,
    lines: &[&str],
) -> bool {
    let (found, data) = store.set(&key(rt, alloc, owner, kind));
    found == number && are_data(rt, alloc, data, lines)
}
