// Versions of record sets.
ghost use Rattle.std.specs.Prelude.{◌≡◌, ◌≤◌};
ghost use Rattle.sipl_records.specs.declared.kind.Kind;
ghost use Rattle.sipl_service.specs.Versions.{IsVersion};

use crate::values::{SERVER_1, is_equal, name};
use sipl_evidence::Item;
use sipl_records::{Data, Key, Kind, Sequence};
use sipl_service::Versions;
use std::alloc::Global;
use std::process::Abort;
use std::sync::Wait;
use std::test::*;

fn key(rt: &impl Abort, alloc: Global, owner: &[u8]) -> Key
    ensures { result.kind ≡ Kind.Address4 }
{
    Key {
        name: name(rt, alloc, owner),
        kind: Kind::Address4,
    }
}

// The set of an address of server1, with a number.
fn item(rt: &impl Abort, alloc: Global, number: u64) -> Item
    requires { 1 ≤ number }
    ensures { IsVersion result }
{
    let content = vec![in alloc; Data::Address4(SERVER_1)].expect(rt, "out of memory");
    Item::new(
        key(rt, alloc, b"server1.example.com."),
        number,
        Sequence::from_vec(content),
    )
}

// The number of the version at a place, where it is of this key and number.
fn number_at(
    rt: &impl Abort,
    alloc: Global,
    versions: &Versions,
    place: usize,
    key: &Key,
    number: u64,
) -> Option<u64> {
    let found = versions
        .item(alloc, place, key, number)
        .expect(rt, "out of memory");
    let number = found.as_ref().map(|item| item.number());
    drop(found);
    number
}

// The version at the place has this key and the number 3, and there is no other.
fn is_found_by(rt: &impl Abort, alloc: Global, versions: &Versions, place: usize, key: &Key) {
    is_equal(rt, &number_at(rt, alloc, versions, place, key, 3), &Some(3));
    is_equal(rt, &number_at(rt, alloc, versions, place, key, 4), &None);
    is_equal(rt, &number_at(rt, alloc, versions, 1, key, 3), &None);
}

fn are_found<R: Wait + Abort>(rt: &R, alloc: Global, versions: &Versions) {
    let place = versions
        .push(rt, item(rt, alloc, 3))
        .expect(rt, "out of memory");
    let server = key(rt, alloc, b"server1.example.com.");
    let other = key(rt, alloc, b"server2.example.com.");
    is_found_by(rt, alloc, versions, place, &server);
    is_equal(rt, &number_at(rt, alloc, versions, place, &other, 3), &None);
    drop(other);
    drop(server);
    assert_eq!(rt; versions.len(), 1);
}

#[test]
fn a_version_is_found_by_its_place_key_and_number(rt: HostRuntime) {
    let versions = Versions::new(rt.alloc()).expect(&rt, "out of memory");
    are_found(&rt, rt.alloc(), &versions);
    drop(versions);
}
