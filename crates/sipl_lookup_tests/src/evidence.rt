//! What no line shows of the evidence of a look-up: places, copies and the removal of what was
//! read, a set that is read twice, and walks that begin anew or over sets that no store has. The
//! rest is in `tests/sessions/dependencies/` and `tests/sessions/wildcards/`.
use crate::assertions::{expects, expects_equal};
use sipl_evidence::{Evidence, EvidenceFault, Item, Walk};
use sipl_names::Name;
use sipl_records::{Data, Key, Kind, Sequence};
use std::alloc::Global;
use std::process::Abort;

const A: Kind = Kind::Address4;

// A set as it is read.
#[derive(Clone, Copy)]
enum Set {
    Empty(&'static str, Kind),
    // The existence of a name that exists.
    Exists(&'static str),
    // The owner's address, and the number of its set.
    Address(&'static str, u32, u64),
    // The owner's alias and its target.
    Alias(&'static str, &'static str),
}

fn name(rt: &impl Abort, alloc: Global, text: &str) -> Name {
    Name::from_text(alloc, text.as_bytes(), &Name::root(alloc)).expect(rt, "a name")
}

fn key(rt: &impl Abort, alloc: Global, owner: &str, kind: Kind) -> Key {
    Key {
        name: name(rt, alloc, owner),
        kind,
    }
}

fn item(rt: &impl Abort, alloc: Global, set: Set) -> Item {
    match set {
        Set::Empty(owner, kind) => Item::new(
            key(rt, alloc, owner, kind),
            0,
            Sequence::from_vec(Vec::new(alloc)),
        ),
        Set::Exists(owner) => single(
            rt,
            key(rt, alloc, owner, Kind::Exists),
            1,
            Sequence::from_vec(only(rt, alloc, Data::Bare)),
        ),
        Set::Address(owner, address, number) => single(
            rt,
            key(rt, alloc, owner, A),
            number,
            Sequence::from_vec(only(rt, alloc, Data::Address4(address))),
        ),
        Set::Alias(owner, target) => single(
            rt,
            key(rt, alloc, owner, Kind::Alias),
            1,
            Sequence::from_vec(only(rt, alloc, Data::Alias(name(rt, alloc, target)))),
        ),
    }
}

fn only(rt: &impl Abort, alloc: Global, datum: Data) -> Vec<Data> {
    let mut data = Vec::new(alloc);
    data.push(datum).expect(rt, "out of memory");
    data
}

// The set of a key that is not empty.
fn single(rt: &impl Abort, key: Key, number: u64, content: Sequence<Data>) -> Item {
    assert!(rt; number > 0 && !content.is_empty());
    Item::new(key, number, content)
}

// Whether the item is this set.
fn is_set(rt: &impl Abort, alloc: Global, found: &Item, set: Set) -> bool {
    is_item(found, &item(rt, alloc, set))
}

fn is_item(found: &Item, expected: &Item) -> bool {
    found.key() == expected.key()
        && found.number() == expected.number()
        && found.content() == expected.content()
}

fn are_addresses(found: &[Data], addresses: &[u32]) -> bool {
    for (datum, address) in found.iter().zip(addresses.iter()) {
        if !matches!(datum, Data::Address4(found) if found == address) {
            return false;
        }
    }
    found.len() == addresses.len()
}

// Whether there are these addresses, or no set.
fn is_content(found: Option<&[Data]>, addresses: Option<&[u32]>) -> bool {
    match (found, addresses) {
        (Some(data), Some(addresses)) => are_addresses(data, addresses),
        (None, None) => true,
        _ => false,
    }
}

fn pushes(rt: &impl Abort, alloc: Global, evidence: &mut Evidence, set: Set) {
    let is_pushed = evidence.push(item(rt, alloc, set)).is_ok();
    expects(rt, is_pushed, "the set was not pushed");
}

fn pushes_each(rt: &impl Abort, alloc: Global, evidence: &mut Evidence, sets: &[Set]) {
    for set in sets {
        pushes(rt, alloc, evidence, *set);
    }
}

// The set's key is read already, and the item is returned.
fn refuses_to_push(rt: &impl Abort, alloc: Global, evidence: &mut Evidence, set: Set) {
    let is_refused = match evidence.push(item(rt, alloc, set)) {
        Ok(()) => false,
        Err(refused) => {
            refused.fault == EvidenceFault::AlreadyRead && is_set(rt, alloc, &refused.item, set)
        }
    };
    expects(rt, is_refused, "the set was pushed, or is another one");
}

fn pops(rt: &impl Abort, alloc: Global, evidence: &mut Evidence, set: Set) {
    let is_popped = match evidence.pop() {
        Some(last) => is_set(rt, alloc, &last, set),
        None => false,
    };
    expects(rt, is_popped, "another set was popped, or none");
}

fn pops_each(rt: &impl Abort, alloc: Global, evidence: &mut Evidence, sets: &[Set]) {
    for set in sets {
        pops(rt, alloc, evidence, *set);
    }
}

// The evidence, and a copy of it, have the items of these sets in this order.
fn has_items(rt: &impl Abort, alloc: Global, evidence: &Evidence, sets: &[Set]) {
    let has_items = are_sets(rt, alloc, evidence.items(), sets);
    expects(rt, has_items, "other items");
    let copy_has_items = copy_has_items(rt, alloc, evidence, sets);
    expects(rt, copy_has_items, "other items of a copy");
    let is_empty = evidence.is_empty();
    expects_equal(rt, &is_empty, &sets.is_empty(), "whether it is empty");
}

fn copy_has_items(rt: &impl Abort, alloc: Global, evidence: &Evidence, sets: &[Set]) -> bool {
    match evidence.dup(alloc) {
        Ok(copy) => are_sets(rt, alloc, copy.items(), sets),
        Err(_) => false,
    }
}

fn are_sets(rt: &impl Abort, alloc: Global, items: &[Item], sets: &[Set]) -> bool {
    for (found, set) in items.iter().zip(sets.iter()) {
        if !is_set(rt, alloc, found, *set) {
            return false;
        }
    }
    items.len() == sets.len()
}

// The place of each set, where it was read.
type Place = (&'static str, Kind, Option<usize>);

fn has_places(rt: &impl Abort, alloc: Global, evidence: &Evidence, places: &[Place]) {
    for (owner, kind, place) in places {
        let found = evidence.find(&key(rt, alloc, owner, *kind));
        expects_equal(rt, &found, place, owner);
    }
}

// The IPv4 set of an owner was read, and has these addresses, or was not read.
fn has_content(
    rt: &impl Abort,
    alloc: Global,
    evidence: &Evidence,
    owner: &str,
    addresses: Option<&[u32]>,
) {
    let is_content = is_content(evidence.content(&key(rt, alloc, owner, A)), addresses);
    expects(rt, is_content, owner);
}

const ADDRESS_10: Option<&[u32]> = Some(&[10]);

const NO_ADDRESS: Option<&[u32]> = Some(&[]);

fn has_what_was_read(rt: &impl Abort, alloc: Global, evidence: &mut Evidence) {
    const READ: &[Set] = &[
        Set::Address("a.", 10, 3),
        Set::Empty("A.", Kind::Alias),
        Set::Address("b.", 11, 7),
        Set::Empty("c.", A),
    ];
    const PLACES: &[Place] = &[
        ("A.", A, Some(0)),
        ("a.", Kind::Alias, Some(1)),
        ("b.", A, Some(2)),
        ("b.", Kind::Address6, None),
        ("d.", A, None),
    ];
    has_items(rt, alloc, evidence, &[]);
    pushes_each(rt, alloc, evidence, READ);
    has_places(rt, alloc, evidence, PLACES);
    has_content(rt, alloc, evidence, "a.", ADDRESS_10);
    has_content(rt, alloc, evidence, "c.", NO_ADDRESS);
    has_content(rt, alloc, evidence, "d.", None);
    refuses_to_push(rt, alloc, evidence, Set::Address("A.", 11, 4));
    has_items(rt, alloc, evidence, READ);
}

fn reads_a_removed_set_again(rt: &impl Abort, alloc: Global, evidence: &mut Evidence) {
    const LAST: &[Set] = &[Set::Empty("c.", A), Set::Address("b.", 11, 7)];
    const WITHOUT_B: &[Place] = &[("a.", A, Some(0)), ("b.", A, None)];
    const B_AGAIN: &[Place] = &[("b.", A, Some(2))];
    const ALL: &[Set] = &[
        Set::Address("b.", 12, 5),
        Set::Empty("a.", Kind::Alias),
        Set::Address("a.", 10, 3),
    ];
    const NONE: &[Place] = &[("a.", A, None)];
    pops_each(rt, alloc, evidence, LAST);
    has_places(rt, alloc, evidence, WITHOUT_B);
    pushes(rt, alloc, evidence, Set::Address("b.", 12, 5));
    has_places(rt, alloc, evidence, B_AGAIN);
    pops_each(rt, alloc, evidence, ALL);
    expects(rt, evidence.pop().is_none(), "a set was popped");
    has_items(rt, alloc, evidence, &[]);
    has_places(rt, alloc, evidence, NONE);
}

fn reads_and_removes(rt: &impl Abort, alloc: Global, evidence: &mut Evidence) {
    has_what_was_read(rt, alloc, evidence);
    reads_a_removed_set_again(rt, alloc, evidence);
}

#[test]
fn evidence_has_each_set_once_until_it_is_removed(rt: HostRuntime) {
    let mut evidence = Evidence::new(rt.alloc());
    reads_and_removes(&rt, rt.alloc(), &mut evidence);
    drop(evidence);
}

// The evidence of a look-up, and the walk that it is read for, with the name and the kind that it
// started with.
#[derive(Drop)]
struct Lookup {
    alloc: Global,
    evidence: Evidence,
    walk: Walk,
    start: (&'static str, Kind),
}

fn look_up(rt: &impl Abort, alloc: Global, start: (&'static str, Kind)) -> Lookup {
    Lookup {
        alloc,
        evidence: Evidence::new(alloc),
        walk: first_walk(rt, alloc, start),
        start,
    }
}

fn first_walk(rt: &impl Abort, alloc: Global, start: (&str, Kind)) -> Walk {
    Walk::start(name(rt, alloc, start.0), start.1)
}

fn reads(rt: &impl Abort, lookup: &mut Lookup, set: Set) {
    pushes(rt, lookup.alloc, &mut lookup.evidence, set);
}

fn goes_on(rt: &impl Abort, lookup: &mut Lookup) {
    let is_made = lookup.walk.step(lookup.alloc, &lookup.evidence).is_ok();
    expects(rt, is_made, "out of memory");
}

// The walk wants each of these sets in turn; each is empty.
fn lacks(rt: &impl Abort, lookup: &mut Lookup, sets: &[(&'static str, Kind)]) {
    for (owner, kind) in sets {
        lacks_set(rt, lookup, owner, *kind);
    }
}

fn lacks_set(rt: &impl Abort, lookup: &mut Lookup, owner: &'static str, kind: Kind) {
    wants(rt, lookup, Some((owner, kind)));
    reads(rt, lookup, Set::Empty(owner, kind));
    goes_on(rt, lookup);
}

// The walk wants this set, and so does one that starts now, or none.
fn wants(rt: &impl Abort, lookup: &Lookup, set: Option<(&str, Kind)>) {
    let is_wanted_next = is_wanted(rt, lookup, &lookup.walk, set);
    expects(rt, is_wanted_next, "the walk wants another set, or none");
    let is_wanted_anew = is_wanted_anew(rt, lookup, set);
    expects(rt, is_wanted_anew, "a new walk wants another set, or none");
}

fn is_wanted_anew(rt: &impl Abort, lookup: &Lookup, set: Option<(&str, Kind)>) -> bool {
    let walk = first_walk(rt, lookup.alloc, lookup.start);
    is_wanted(rt, lookup, &walk, set)
}

fn is_wanted(rt: &impl Abort, lookup: &Lookup, walk: &Walk, set: Option<(&str, Kind)>) -> bool {
    match (walk.wants(lookup.alloc, &lookup.evidence), set) {
        (Ok(Some(found)), Some((owner, kind))) => found == key(rt, lookup.alloc, owner, kind),
        (Ok(None), None) => true,
        _ => false,
    }
}

// The walk's answer has these addresses, or it has none yet.
fn answers(rt: &impl Abort, lookup: &Lookup, addresses: Option<&[u32]>) {
    let is_answer = match lookup.walk.result(lookup.alloc, &lookup.evidence) {
        Ok(found) => is_content(found, addresses),
        Err(_) => false,
    };
    expects(rt, is_answer, "another answer, or none");
}

fn follows(rt: &impl Abort, lookup: &mut Lookup, owner: &'static str, target: &'static str) {
    lacks_set(rt, lookup, owner, A);
    reads(rt, lookup, Set::Alias(owner, target));
    goes_on(rt, lookup);
}

// After the last alias no name exists, nor does the root.
fn walks_over_aliases(rt: &impl Abort, lookup: &mut Lookup) {
    const REST: &[(&str, Kind)] = &[
        ("n3.", Kind::Alias),
        ("n3.", Kind::Exists),
        (".", Kind::Exists),
    ];
    follows(rt, lookup, "n0.", "n1.");
    follows(rt, lookup, "n1.", "n2.");
    follows(rt, lookup, "n2.", "n3.");
    wants(rt, lookup, Some(("n3.", A)));
    reads(rt, lookup, Set::Empty("n3.", A));
    answers(rt, lookup, None);
    lacks(rt, lookup, REST);
    wants(rt, lookup, None);
}

fn knows_what_exists(rt: &impl Abort, lookup: &mut Lookup) {
    const REST: &[(&str, Kind)] = &[
        ("a.b.c.", A),
        ("a.b.c.", Kind::Alias),
        ("b.c.", Kind::Exists),
    ];
    reads(rt, lookup, Set::Exists("c."));
    reads(rt, lookup, Set::Address("*.c.", 10, 4));
    reads(rt, lookup, Set::Empty("a.b.c.", Kind::Exists));
    lacks(rt, lookup, REST);
    wants(rt, lookup, None);
    answers(rt, lookup, ADDRESS_10);
}

fn has_an_alias_beside_data(rt: &impl Abort, lookup: &mut Lookup) {
    reads(rt, lookup, Set::Address("n0.", 10, 9));
    wants(rt, lookup, None);
    reads(rt, lookup, Set::Alias("n0.", "n1."));
    answers(rt, lookup, ADDRESS_10);
}

fn is_at_the_root(rt: &impl Abort, lookup: &mut Lookup) {
    const ALL: &[(&str, Kind)] = &[(".", A), (".", Kind::Alias), (".", Kind::Exists)];
    lacks(rt, lookup, ALL);
    wants(rt, lookup, None);
    answers(rt, lookup, NO_ADDRESS);
}

#[derive(Clone, Copy)]
enum Way {
    OverAliases,
    OverKnownNames,
    ByAnAliasBesideData,
    FromTheRoot,
}

// It alone owns a lookup: at each exit the proof owes what becomes of one.
fn walks(rt: &impl Abort, alloc: Global, start: (&'static str, Kind), way: Way) {
    let mut lookup = look_up(rt, alloc, start);
    takes(rt, &mut lookup, way);
    drop(lookup);
}

fn takes(rt: &impl Abort, lookup: &mut Lookup, way: Way) {
    match way {
        Way::OverAliases => walks_over_aliases(rt, lookup),
        Way::OverKnownNames => knows_what_exists(rt, lookup),
        Way::ByAnAliasBesideData => has_an_alias_beside_data(rt, lookup),
        Way::FromTheRoot => is_at_the_root(rt, lookup),
    }
}

#[test]
fn a_walk_wants_what_a_new_one_wants(rt: HostRuntime) {
    walks(&rt, rt.alloc(), ("n0.", A), Way::OverAliases);
    walks(&rt, rt.alloc(), ("a.b.c.", A), Way::OverKnownNames);
    walks(&rt, rt.alloc(), ("n0.", A), Way::ByAnAliasBesideData);
    walks(&rt, rt.alloc(), (".", A), Way::FromTheRoot);
}
