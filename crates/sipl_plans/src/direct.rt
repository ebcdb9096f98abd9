//! Where requests are sent (RFC 3263, 4.1 and 4.2), over record sets that are read one after another.
ghost use Rattle.std.specs.Prelude.{◌≡◌, [], ◌∷◌, filter, false, length, IfOk};
ghost use Rattle.std.specs.Option.{option_copied};
ghost use Rattle.sipl_records.specs.declared.kind.Kind.{Kind};
ghost use Rattle.sipl_choice.specs.FamilyKinds.{address_kinds};
ghost use Rattle.sipl_choice.specs.Pointers.{chosen};
ghost use Rattle.sipl_choice.specs.ServiceNames.{service_name_of};
ghost use Rattle.sipl_evidence.specs.Answers.{asking};
ghost use Rattle.sipl_evidence.specs.Looks.{and_then};
ghost use Rattle.sipl_plans.specs.Readings.{AddsLooks, HasSets, IsLooked, IsReadFrom, Reads, after_looks};
ghost use Rattle.sipl_plans.specs.Route.{asking_addresses, asking_chosen, asking_domain, asking_offer, asking_offered, asking_over, asking_own, asking_route, asking_served, asking_services, is_tried};

use crate::answer::Reason;
use crate::finding::Finding;
use crate::layout::{Layout, Source};
use crate::look::push_addresses;
use crate::reading::{answer, contents};
use crate::route::{default_transport, is_tried, numeric_layout, sole_server, transport_of};
use crate::sets::Sets;
use sipl_choice::{Abilities, Transport, chosen_service, default_port, service_name};
use sipl_evidence::Evidence;
use sipl_names::Name;
use sipl_records::{Address, Kind, Sequence};
use sipl_srv::{Offer, Pick, offer};
use sipl_uri::{Question, Target};
use std::alloc::{AllocError, Global};
use std::sync::Arc;

/// The route of a question (RFC 3263, 4), and the record sets that it looks at, each read once, in
/// their order. The only error is an allocation failure.
pub fn locate<S: Sets>(
    alloc: Global,
    sets: &mut S,
    question: Question,
    abilities: Abilities,
) -> Result<Finding, AllocError>
    requires sets { HasSets S.source sets.old }
    ensures found { IfOk result
        (λ finding. IsReadFrom S.source sets.old question abilities finding) }
    ensures looks { IfOk result
        (λ finding. sets.new ≡ after_looks S.source (length finding.items) sets.old) }
    ensures looked { IsLooked S.source sets.old sets.new }
{
    let mut evidence = Evidence::new(alloc);
    let layout = route(alloc, &mut evidence, sets, &question, &abilities)?;
    let evidence = Arc::new(alloc, evidence)?;
    Ok(Finding::new(question, abilities, layout, evidence))
}

// The route of a question (RFC 3263, 4).
fn route<S: Sets>(
    alloc: Global,
    evidence: &mut Evidence,
    sets: &mut S,
    question: &Question,
    abilities: &Abilities,
) -> Result<Layout, AllocError>
    ensures route { IfOk result
        (λ layout. Reads S.source (asking_route question.now abilities.now)
        evidence.old sets.old layout evidence.new sets.new) }
    ensures looked { AddsLooks S.source sets.old sets.new }
{
    match &question.target {
        Target::Numeric(address) => numeric_layout(alloc, question, *address, abilities),
        Target::Domain(name) => domain_route(alloc, evidence, sets, name, question, abilities),
    }
}

// The route to a domain (RFC 3263, 4): with a port its addresses; otherwise with a transport what
// is offered over it; otherwise what NAPTR records or the client's transports lead to.
fn domain_route<S: Sets>(
    alloc: Global,
    evidence: &mut Evidence,
    sets: &mut S,
    name: &Name,
    question: &Question,
    abilities: &Abilities,
) -> Result<Layout, AllocError>
    ensures route { IfOk result
        (λ layout. Reads S.source (asking_domain abilities.now name.now question.now)
        evidence.old sets.old layout evidence.new sets.new) }
    ensures looked { AddsLooks S.source sets.old sets.new }
{
    match (question.port, question.transport) {
        (Some(port), _) => {
            let transport = transport_of(question);
            own_over(alloc, evidence, sets, abilities, name, transport, port)
        }
        (None, Some(transport)) => {
            service_route(alloc, evidence, sets, abilities, name, transport)
        }
        (None, None) => { pointer_route(alloc, evidence, sets, abilities, name, question.secure) }
    }
}

// The addresses of a domain at one port, where the client supports the transport (RFC 3263, 4.2).
fn own_over<S: Sets>(
    alloc: Global,
    evidence: &mut Evidence,
    sets: &mut S,
    abilities: &Abilities,
    name: &Name,
    transport: Transport,
    port: u16,
) -> Result<Layout, AllocError>
    ensures route { IfOk result (λ layout. Reads S.source
        (asking_over abilities.now transport (asking_own abilities.now transport port name.now))
        evidence.old sets.old layout evidence.new sets.new) }
    ensures looked { AddsLooks S.source sets.old sets.new }
{
    if !abilities.supports(transport) {
        return Ok(Layout::Refused(Reason::NoTransport));
    }
    own(alloc, evidence, sets, abilities, name, transport, port)
}

// The addresses of a domain at one port (RFC 3263, 4.2).
fn own<S: Sets>(
    alloc: Global,
    evidence: &mut Evidence,
    sets: &mut S,
    abilities: &Abilities,
    name: &Name,
    transport: Transport,
    port: u16,
) -> Result<Layout, AllocError>
    ensures route { IfOk result (λ layout. Reads S.source
        (asking_own abilities.now transport port name.now)
        evidence.old sets.old layout evidence.new sets.new) }
    ensures looked { AddsLooks S.source sets.old sets.new }
{
    let found = addresses(alloc, evidence, sets, abilities, name)?;
    sole_server(alloc, transport, port, found)
}

// The route over a transport that the question gives (RFC 3263, 4.2).
fn service_route<S: Sets>(
    alloc: Global,
    evidence: &mut Evidence,
    sets: &mut S,
    abilities: &Abilities,
    name: &Name,
    transport: Transport,
) -> Result<Layout, AllocError>
    ensures route { IfOk result (λ layout. Reads S.source (asking_over abilities.now transport
        (and_then (asking_offer (service_name_of name.now transport))
        (asking_offered abilities.now name.now transport)))
        evidence.old sets.old layout evidence.new sets.new) }
    ensures looked { AddsLooks S.source sets.old sets.new }
{
    if !abilities.supports(transport) {
        return Ok(Layout::Refused(Reason::NoTransport));
    }
    let service = service_name(alloc, name, transport)?;
    let offer = offer_at(alloc, evidence, sets, service.as_ref())?;
    follow_offer(alloc, evidence, sets, abilities, name, transport, &offer)
}

// Where an offer of the service leads (RFC 3263, 4.2): its picks, or that it is not available, or
// without SRV records the addresses of the domain at the transport's port.
fn follow_offer<S: Sets>(
    alloc: Global,
    evidence: &mut Evidence,
    sets: &mut S,
    abilities: &Abilities,
    name: &Name,
    transport: Transport,
    offer: &Offer,
) -> Result<Layout, AllocError>
    ensures route { IfOk result (λ layout. Reads S.source
        (asking_offered abilities.now name.now transport offer.now)
        evidence.old sets.old layout evidence.new sets.new) }
    ensures looked { AddsLooks S.source sets.old sets.new }
{
    match offer {
        Offer::Picks(picks) => {
            serve(
                alloc,
                evidence,
                sets,
                abilities,
                transport,
                picks.as_slice(),
            )
        }
        Offer::Closed => Ok(Layout::Refused(Reason::NotAvailable)),
        Offer::Nothing => {
            let port = default_port(transport);
            own(alloc, evidence, sets, abilities, name, transport, port)
        }
    }
}

// The route by the NAPTR record that is chosen, otherwise by the client's transports (RFC 3263,
// 4.1).
fn pointer_route<S: Sets>(
    alloc: Global,
    evidence: &mut Evidence,
    sets: &mut S,
    abilities: &Abilities,
    name: &Name,
    secure: bool,
) -> Result<Layout, AllocError>
    ensures route { IfOk result (λ layout. Reads S.source
        (and_then (asking name.now Kind.Pointer) (λ set. asking_chosen abilities.now name.now
        secure (chosen secure abilities.now set)))
        evidence.old sets.old layout evidence.new sets.new) }
    ensures looked { AddsLooks S.source sets.old sets.new }
{
    let place = answer(alloc, evidence, sets, name, Kind::Pointer)?;
    let set = contents(evidence, place);
    let Some((transport, service)) = chosen_service(set, secure, abilities) else {
        return services_route(alloc, evidence, sets, abilities, name, secure);
    };
    let service = service.dup(alloc)?;
    let offer = offer_at(alloc, evidence, sets, Some(&service))?;
    follow_offer(alloc, evidence, sets, abilities, name, transport, &offer)
}

// The route over the first transport, in the client's order of preference, whose service has picks
// (RFC 3263, 4.1). Without picks the service is not available where it is closed over one of the
// transports; otherwise the addresses of the domain are used.
fn services_route<S: Sets>(
    alloc: Global,
    evidence: &mut Evidence,
    sets: &mut S,
    abilities: &Abilities,
    name: &Name,
    secure: bool,
) -> Result<Layout, AllocError>
    ensures route { IfOk result (λ layout. Reads S.source
        (asking_services abilities.now name.now secure false
        (filter (is_tried secure) abilities.now.preference))
        evidence.old sets.old layout evidence.new sets.new) }
    ensures looked { AddsLooks S.source sets.old sets.new }
{
    let mut is_closed = false;
    for transport in abilities.preference() {
        if !is_tried(secure, *transport) {
            continue;
        }
        let service = service_name(alloc, name, *transport)?;
        match offer_at(alloc, evidence, sets, service.as_ref())? {
            Offer::Picks(picks) => {
                return serve(
                    alloc,
                    evidence,
                    sets,
                    abilities,
                    *transport,
                    picks.as_slice(),
                );
            }
            Offer::Closed => is_closed = true,
            Offer::Nothing => {}
        }
    }
    if is_closed {
        return Ok(Layout::Refused(Reason::NotAvailable));
    }
    let transport = default_transport(secure);
    let port = default_port(transport);
    own_over(alloc, evidence, sets, abilities, name, transport, port)
}

// The servers of picks, with the addresses of their targets (RFC 3263, 4.2).
fn serve<S: Sets>(
    alloc: Global,
    evidence: &mut Evidence,
    sets: &mut S,
    abilities: &Abilities,
    transport: Transport,
    picks: &[Pick],
) -> Result<Layout, AllocError>
    ensures route { IfOk result (λ layout. Reads S.source
        (asking_served abilities.now transport picks.now)
        evidence.old sets.old layout evidence.new sets.new) }
    ensures looked { AddsLooks S.source sets.old sets.new }
{
    let mut servers = Vec::with_capacity(alloc, picks.len())?;
    for pick in picks {
        let found = addresses(alloc, evidence, sets, abilities, &pick.target)?;
        servers.push(Source {
            priority: pick.priority,
            weight: pick.weight,
            port: pick.port,
            addresses: Sequence::from_vec(found),
        })?;
    }
    Ok(Layout::Servers(transport, Sequence::from_vec(servers)))
}

// The addresses of a name, in the order of the families (RFC 3263, 4.2).
fn addresses<S: Sets>(
    alloc: Global,
    evidence: &mut Evidence,
    sets: &mut S,
    abilities: &Abilities,
    name: &Name,
) -> Result<Vec<Address>, AllocError>
    ensures addresses { IfOk result (λ found. Reads S.source
        (asking_addresses (address_kinds abilities.now.families) name.now)
        evidence.old sets.old found.items evidence.new sets.new) }
    ensures looked { AddsLooks S.source sets.old sets.new }
{
    let mut found = Vec::new(alloc);
    for kind in abilities.families().kinds() {
        let place = answer(alloc, evidence, sets, name, *kind)?;
        push_addresses(&mut found, contents(evidence, place))?;
    }
    Ok(found)
}

// What the SRV records of a name offer (RFC 2782). A name that is too long has none.
fn offer_at<S: Sets>(
    alloc: Global,
    evidence: &mut Evidence,
    sets: &mut S,
    name: Option<&Name>,
) -> Result<Offer, AllocError>
    ensures offer { IfOk result (λ offer. Reads S.source (asking_offer (option_copied name.entry))
        evidence.old sets.old offer evidence.new sets.new) }
    ensures looked { AddsLooks S.source sets.old sets.new }
{
    let Some(name) = name else {
        return Ok(Offer::Nothing);
    };
    let place = answer(alloc, evidence, sets, name, Kind::Service)?;
    offer(alloc, contents(evidence, place))
}
