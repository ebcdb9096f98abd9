// A service over a zone of three NAPTR records, two SRV records and two addresses, and the values that its
// tests need.
ghost use Rattle.std.specs.Prelude.{◌≤◌};

use sipl_book::{Limits, Page};
use sipl_choice::{Abilities, Endpoint, Families, Transport};
use sipl_masterfile::{ZoneText, read_record, read_zone};
use sipl_names::Name;
use sipl_outages::Held;
use sipl_records::{Address, Record};
use sipl_service::{ClaimFault, Pass, Service, claim};
use sipl_srv::Draws;
use sipl_uri::{Question, Uri};
use std::alloc::Global;
use std::fmt::Debug;
use std::process::Abort;
use std::sync::Wait;

const ZONE: &[u8] = b"@ NAPTR 50 50 \"s\" \"SIPS+D2T\" \"\" _sips._tcp
@ NAPTR 90 50 \"s\" \"SIP+D2T\" \"\" _sip._tcp
@ NAPTR 100 50 \"s\" \"SIP+D2U\" \"\" _sip._udp
_sip._tcp SRV 0 1 5060 server1
_sip._tcp SRV 0 2 5060 server2
server1 A 192.0.2.1
server2 A 192.0.2.2
";

pub(crate) const SERVER_1: u32 = 0xC000_0201;

pub(crate) const SERVER_2: u32 = 0xC000_0202;

pub(crate) const SERVER_11: u32 = 0xC000_020B;

pub(crate) const ADDRESS_2: &[u8] = b"server2.example.com. A 192.0.2.2";

pub(crate) const ADDRESS_11: &[u8] = b"server1.example.com. A 192.0.2.11";

pub(crate) const BOB: &[u8] = b"sip:bob@example.com";

pub(crate) const OVER_TCP: &[u8] = b"sip:example.com;transport=tcp";

/// A service, with the runtime and the allocator.
#[derive(Drop)]
pub(crate) struct Scene<'a, R> {
    pub rt: &'a R,
    pub alloc: Global,
    pub service: &'a Service,
}

pub(crate) fn scene_of<'a, R>(rt: &'a R, alloc: Global, service: &'a Service) -> Scene<'a, R> {
    Scene { rt, alloc, service }
}

/// A service for a client of TCP and UDP over IPv4, with so many tries, which leaves held endpoints out.
pub(crate) fn new_service(rt: &impl Abort, alloc: Global, tries: u64) -> Service
    requires once { 1 ≤ tries }
    requires most { tries ≤ 16 }
{
    service_by(
        rt,
        alloc,
        &[Transport::Tcp, Transport::Udp],
        tries,
        Held::Out,
    )
}

/// A service for a client of these transports over IPv4, with this policy on held endpoints.
pub(crate) fn service_by(
    rt: &impl Abort,
    alloc: Global,
    transports: &[Transport],
    tries: u64,
    held: Held,
) -> Service
    requires once { 1 ≤ tries }
    requires most { tries ≤ 16 }
{
    let preference = Vec::from_slice(alloc, transports).expect(rt, "out of memory");
    let abilities = Abilities::new(preference, Families::V4).expect(rt, "the abilities");
    Service::new(alloc, abilities, &Limits::greatest(), tries, held).expect(rt, "out of memory")
}

pub(crate) fn question(rt: &impl Abort, alloc: Global, uri: &[u8]) -> Question {
    Uri::parse(alloc, uri).expect(rt, "the URI is refused")
}

pub(crate) fn draws(rt: &impl Abort, words: &[u32]) -> Draws {
    Draws::from_words(words).expect(rt, "the words are refused")
}

pub(crate) fn record(rt: &impl Abort, alloc: Global, text: &[u8]) -> Record {
    let root = Name::root(alloc);
    let record = read_record(alloc, text, &root);
    drop(root);
    record.expect(rt, "the record is refused")
}

pub(crate) fn name(rt: &impl Abort, alloc: Global, text: &[u8]) -> Name {
    let root = Name::root(alloc);
    let name = Name::from_text(alloc, text, &root);
    drop(root);
    name.expect(rt, "the name is refused")
}

pub(crate) fn zone(rt: &impl Abort, alloc: Global) -> ZoneText {
    let apex = name(rt, alloc, b"example.com.");
    let zone = read_zone(alloc, ZONE, &apex);
    drop(apex);
    zone.expect(rt, "the zone is refused")
}

/// An endpoint at port 5060.
pub(crate) fn endpoint(transport: Transport, number: u32) -> Endpoint {
    Endpoint {
        transport,
        address: Address::V4(number),
        port: 5060,
    }
}

// ---- pages and claims

pub(crate) fn turn_page<R: Wait + Abort>(rt: &R, service: &Service) -> Page {
    service.turn_page(rt).expect(rt, "no page")
}

pub(crate) fn close(rt: &impl Abort, service: Service) -> Page {
    service.close().ok().expect(rt, "not closed")
}

pub(crate) fn keep(rt: &impl Abort, pages: &mut Vec<Page>, page: Page) {
    pages.push(page).expect(rt, "out of memory");
}

pub(crate) fn events(pages: &[Page]) -> usize {
    pages.iter().fold(0_usize, |sum, page| sum.saturating_add(page.events().len()))
}

/// Closes a service of one page, which has so many events.
pub(crate) fn closes_with(rt: &impl Abort, service: Service, count: usize) {
    let pages = [close(rt, service)];
    let found = events(&pages);
    drop(pages);
    is_equal(rt, &found, &count);
}

/// What the claim of the pages with the passes returns.
pub(crate) fn claims(
    rt: &impl Abort,
    alloc: Global,
    pages: &[Page],
    passes: &[Pass],
    claimed: Result<(), ClaimFault>,
) {
    is_equal(rt, &claim(alloc, pages, passes), &claimed);
}

/// Ends the test where something else was found than was expected.
pub(crate) fn is_equal<T: PartialEq + Debug>(rt: &impl Abort, found: &T, expected: &T) {
    assert_eq!(rt; *found, *expected);
}
