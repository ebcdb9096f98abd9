//! Where requests are sent (RFC 3263, 4.1 and 4.2), from all records.
ghost use Rattle.std.specs.Prelude.{◌≡◌, [], ◌∷◌, filter, false, IfOk};
ghost use Rattle.sipl_records.specs.Sets.{set_of};
ghost use Rattle.sipl_records.specs.declared.kind.Kind.{Kind};
ghost use Rattle.sipl_choice.specs.Pointers.{chosen};
ghost use Rattle.sipl_choice.specs.ServiceNames.{service_name_of};
ghost use Rattle.sipl_evidence.specs.Answers.{asking};
ghost use Rattle.sipl_evidence.specs.Looks.{and_then, done, result_of};
ghost use Rattle.sipl_plans.specs.Route.{asking_chosen, asking_domain, asking_numeric, asking_offer, asking_offered, asking_over, asking_own, asking_served, asking_services, default_transport, is_tried, route, sole_server, transport_of};

use crate::answer::Reason;
use crate::layout::{Layout, Source};
use crate::look::{addresses, answer, offer_at};
use sipl_choice::{Abilities, Transport, chosen_service, default_port, service_name};
use sipl_names::Name;
use sipl_records::{Address, Kind, Record, Sequence};
use sipl_srv::{Offer, Pick};
use sipl_uri::{Question, Target};
use std::alloc::{AllocError, Global};

// The route of a question (RFC 3263, 4).
pub(crate) fn route(
    alloc: Global,
    records: &[Record],
    question: &Question,
    abilities: &Abilities,
) -> Result<Layout, AllocError>
    ensures { IfOk result
        (λ layout. layout ≡ route (set_of records.now) question.now abilities.now) }
{
    match &question.target {
        Target::Numeric(address) => numeric_layout(alloc, question, *address, abilities),
        Target::Domain(name) => route_to_domain(alloc, records, name, question, abilities),
    }
}

// The layout of a numeric target, which is its own address (RFC 3263, 4.1 and 4.2).
pub(crate) fn numeric_layout(
    alloc: Global,
    question: &Question,
    address: Address,
    abilities: &Abilities,
) -> Result<Layout, AllocError>
    ensures { IfOk result
        (λ layout. done layout ≡ asking_numeric abilities.now question.now address) }
{
    let transport = transport_of(question);
    if !abilities.supports(transport) {
        return Ok(Layout::Refused(Reason::NoTransport));
    }
    let port = question.port.unwrap_or(default_port(transport));
    let found = Vec::from_slice(alloc, &[address])?;
    sole_server(alloc, transport, port, found)
}

// The route to a domain (RFC 3263, 4): with a port its addresses; otherwise with a transport what
// is offered over it; otherwise what NAPTR records or the client's transports lead to.
fn route_to_domain(
    alloc: Global,
    records: &[Record],
    name: &Name,
    question: &Question,
    abilities: &Abilities,
) -> Result<Layout, AllocError>
    ensures { IfOk result (λ layout. layout
        ≡ result_of (set_of records.now) (asking_domain abilities.now name.now question.now)) }
{
    match (question.port, question.transport) {
        (Some(port), _) => {
            let transport = transport_of(question);
            route_to_addresses(alloc, records, name, transport, port, abilities)
        }
        (None, Some(transport)) => route_over_service(alloc, records, name, transport, abilities),
        (None, None) => route_by_pointer(alloc, records, name, question.secure, abilities),
    }
}

// The transport that the question gives, otherwise that of the scheme.
pub(crate) fn transport_of(question: &Question) -> Transport
    ensures { result ≡ transport_of question.now }
{
    match question.transport {
        Some(transport) => transport,
        None => default_transport(question.secure),
    }
}

// UDP for `sip` and TLS for `sips`, where nothing else decides (RFC 3263, 4.1).
pub(crate) fn default_transport(secure: bool) -> Transport
    ensures { result ≡ default_transport secure }
{
    if secure {
        Transport::Tls
    } else {
        Transport::Udp
    }
}

// The route to the addresses of a domain at one port (RFC 3263, 4.2).
fn route_to_addresses(
    alloc: Global,
    records: &[Record],
    name: &Name,
    transport: Transport,
    port: u16,
    abilities: &Abilities,
) -> Result<Layout, AllocError>
    ensures { IfOk result (λ layout. layout ≡ result_of (set_of records.now)
        (asking_over abilities.now transport
        (asking_own abilities.now transport port name.now))) }
{
    if !abilities.supports(transport) {
        return Ok(Layout::Refused(Reason::NoTransport));
    }
    let found = addresses(alloc, records, name, abilities.families())?;
    sole_server(alloc, transport, port, found)
}

// The route over a transport that the question gives (RFC 3263, 4.2).
fn route_over_service(
    alloc: Global,
    records: &[Record],
    name: &Name,
    transport: Transport,
    abilities: &Abilities,
) -> Result<Layout, AllocError>
    ensures { IfOk result (λ layout. layout ≡ result_of (set_of records.now)
        (asking_over abilities.now transport
        (and_then (asking_offer (service_name_of name.now transport))
        (asking_offered abilities.now name.now transport)))) }
{
    if !abilities.supports(transport) {
        return Ok(Layout::Refused(Reason::NoTransport));
    }
    let service = service_name(alloc, name, transport)?;
    let offer = offer_at(alloc, records, service.as_ref())?;
    follow_offer(alloc, records, name, transport, &offer, abilities)
}

// Where an offer of the service leads (RFC 3263, 4.2): its picks, or that it is not available, or
// without SRV records the addresses of the domain at the transport's port.
fn follow_offer(
    alloc: Global,
    records: &[Record],
    name: &Name,
    transport: Transport,
    offer: &Offer,
    abilities: &Abilities,
) -> Result<Layout, AllocError>
    ensures { IfOk result (λ layout. layout ≡ result_of (set_of records.now)
        (asking_offered abilities.now name.now transport offer.now)) }
{
    match offer {
        Offer::Picks(picks) => serve(alloc, records, abilities, transport, picks.as_slice()),
        Offer::Closed => Ok(Layout::Refused(Reason::NotAvailable)),
        Offer::Nothing => {
            let found = addresses(alloc, records, name, abilities.families())?;
            sole_server(alloc, transport, default_port(transport), found)
        }
    }
}

// The route by the NAPTR record that is chosen, otherwise by the client's transports (RFC 3263,
// 4.1).
fn route_by_pointer(
    alloc: Global,
    records: &[Record],
    name: &Name,
    secure: bool,
    abilities: &Abilities,
) -> Result<Layout, AllocError>
    ensures { IfOk result (λ layout. layout ≡ result_of (set_of records.now)
        (and_then (asking name.now Kind.Pointer) (λ set. asking_chosen abilities.now name.now
        secure (chosen secure abilities.now set)))) }
{
    let set = answer(alloc, records, name, Kind::Pointer)?;
    let Some((transport, service)) = chosen_service(&set, secure, abilities) else {
        return route_by_service(alloc, records, name, secure, abilities);
    };
    let offer = offer_at(alloc, records, Some(service))?;
    follow_offer(alloc, records, name, transport, &offer, abilities)
}

// The route over the first transport, in the client's order of preference, whose service has picks
// (RFC 3263, 4.1). Without picks the service is not available where it is closed over one of the
// transports; otherwise the addresses of the domain are used.
fn route_by_service(
    alloc: Global,
    records: &[Record],
    name: &Name,
    secure: bool,
    abilities: &Abilities,
) -> Result<Layout, AllocError>
    ensures { IfOk result (λ layout. layout ≡ result_of (set_of records.now)
        (asking_services abilities.now name.now secure false
        (filter (is_tried secure) abilities.now.preference))) }
{
    let mut is_closed = false;
    for transport in abilities.preference() {
        if !is_tried(secure, *transport) {
            continue;
        }
        let service = service_name(alloc, name, *transport)?;
        match offer_at(alloc, records, service.as_ref())? {
            Offer::Picks(picks) => {
                return serve(alloc, records, abilities, *transport, picks.as_slice());
            }
            Offer::Closed => is_closed = true,
            Offer::Nothing => {}
        }
    }
    if is_closed {
        return Ok(Layout::Refused(Reason::NotAvailable));
    }
    let transport = default_transport(secure);
    let port = default_port(transport);
    route_to_addresses(alloc, records, name, transport, port, abilities)
}

// Whether a transport is tried where nothing chooses one: TLS for `sips`, every other for `sip`
// (RFC 3263, 4.1).
pub(crate) fn is_tried(secure: bool, transport: Transport) -> bool
    ensures { result ≡ is_tried secure transport }
{
    (transport == Transport::Tls) == secure
}

// The servers of picks, with the addresses of their targets (RFC 3263, 4.2).
fn serve(
    alloc: Global,
    records: &[Record],
    abilities: &Abilities,
    transport: Transport,
    picks: &[Pick],
) -> Result<Layout, AllocError>
    ensures { IfOk result (λ layout. layout ≡ result_of (set_of records.now)
        (asking_served abilities.now transport picks.now)) }
{
    let mut servers = Vec::with_capacity(alloc, picks.len())?;
    for pick in picks {
        let found = addresses(alloc, records, &pick.target, abilities.families())?;
        servers.push(Source {
            priority: pick.priority,
            weight: pick.weight,
            port: pick.port,
            addresses: Sequence::from_vec(found),
        })?;
    }
    Ok(Layout::Servers(transport, Sequence::from_vec(servers)))
}

// One server, of these addresses at this port.
pub(crate) fn sole_server(
    alloc: Global,
    transport: Transport,
    port: u16,
    addresses: Vec<Address>,
) -> Result<Layout, AllocError>
    ensures { IfOk result (λ layout. layout ≡ sole_server transport port addresses.items) }
{
    let mut servers = Vec::with_capacity(alloc, 1)?;
    servers.push(Source {
        priority: 0,
        weight: 0,
        port,
        addresses: Sequence::from_vec(addresses),
    })?;
    Ok(Layout::Servers(transport, Sequence::from_vec(servers)))
}
