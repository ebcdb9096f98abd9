//! How far a run is in a route, and how it goes on.
ghost use Rattle.std.specs.Prelude.{◌≡◌, drop, filter, IfOk};
ghost use Rattle.sipl_choice.specs.FamilyKinds.{address_kinds};
ghost use Rattle.sipl_choice.specs.Pointers.{chosen};
ghost use Rattle.sipl_plans.specs.Route.{asking_chosen, asking_domain, asking_offered, asking_over, asking_own, asking_served, asking_services, is_tried};
ghost use Rattle.sipl_plans.specs.Stages.{follows, reading, rest, serving_left, step_asking, HasReached, HasReachedIn};

use crate::answer::Reason;
use crate::layout::Layout;
use crate::look::push_addresses;
use crate::route::{default_transport, is_tried, numeric_layout, transport_of};
use crate::serving::Serving;
use sipl_choice::{Abilities, Transport, chosen_service, default_port, service_name};
use sipl_evidence::{Evidence, Reached, Walk};
use sipl_names::Name;
use sipl_records::{Data, Key, Kind, Sequence};
use sipl_srv::{Offer, Pick, offer};
use sipl_uri::{Question, Target};
use std::alloc::{AllocError, Global};

// Where a run is in the route to a domain.
#[derive(Drop)]
pub(crate) enum Stage {
    // At the start, whatever was read.
    Start,
    // At the sets of a walk, for this purpose.
    Reading(Walk, Purpose),
}

// What the answer of a walk is for.
#[derive(Drop)]
pub(crate) enum Purpose {
    // The NAPTR records of the domain: which service is used.
    Pointers,
    // The SRV records of the service over the transport that is used.
    Offered(Transport),
    // The SRV records over a transport that is tried; the place of the next one in the client's
    // order of preference; and whether a service before it was closed.
    Services(Transport, usize, bool),
    // The addresses of servers.
    Addresses(Serving),
}

// How far a run is: it has the layout, or wants a set.
#[derive(Drop)]
pub(crate) enum Progress {
    Done(Layout),
    Wanting(Key, Stage),
}

// What follows: the layout, or a walk for a purpose.
#[derive(Drop)]
enum Step {
    Done(Layout),
    Reading(Walk, Purpose),
}

// The domain of a question, and what the client can do.
#[derive(Clone, Copy)]
struct Domain<'a> {
    name: &'a Name,
    question: &'a Question,
    abilities: &'a Abilities,
}

// Goes on from a stage as far as the evidence leads.
pub(crate) fn advance(
    alloc: Global,
    question: &Question,
    abilities: &Abilities,
    evidence: &Evidence,
    stage: Stage,
) -> Result<Progress, AllocError>
    ensures { IfOk result (λ progress. HasReached question.now abilities.now evidence.now
        (rest question.now abilities.now stage) progress) }
{
    let name = match &question.target {
        Target::Numeric(address) => {
            let layout = numeric_layout(alloc, question, *address, abilities)?;
            return Ok(Progress::Done(layout));
        }
        Target::Domain(name) => name,
    };
    let domain = Domain {
        name,
        question,
        abilities,
    };
    let step = match stage {
        Stage::Start => start(alloc, domain)?,
        Stage::Reading(walk, purpose) => Step::Reading(walk, purpose),
    };
    match step {
        Step::Done(layout) => Ok(Progress::Done(layout)),
        Step::Reading(walk, purpose) => read(alloc, domain, evidence, walk, purpose),
    }
}

// Goes on from a walk for a purpose as far as the evidence leads.
fn read(
    alloc: Global,
    domain: Domain<'_>,
    evidence: &Evidence,
    mut walk: Walk,
    mut purpose: Purpose,
) -> Result<Progress, AllocError>
    ensures { IfOk result (λ progress. HasReachedIn domain.entry evidence.now
        (reading domain.entry walk purpose) progress) }
{
    loop {
        let set = match walk.advance(alloc, evidence)? {
            Reached::Answer(set) => set,
            Reached::Wanting(key) => {
                return Ok(Progress::Wanting(key, Stage::Reading(walk, purpose)));
            }
        };
        match follow(alloc, domain, purpose, set)? {
            Step::Done(layout) => return Ok(Progress::Done(layout)),
            Step::Reading(next_walk, next_purpose) => {
                walk = next_walk;
                purpose = next_purpose;
            }
        }
    }
}

// What follows at the start of a route (RFC 3263, 4): with a port the addresses of the domain;
// otherwise with a transport what is offered over it; otherwise its NAPTR records.
fn start(alloc: Global, domain: Domain<'_>) -> Result<Step, AllocError>
    ensures { IfOk result (λ step. step_asking domain.entry step ≡ asking_domain
        domain.entry.abilities.now domain.entry.name.now domain.entry.question.now) }
{
    let question = domain.question;
    match (question.port, question.transport) {
        (Some(port), _) => own_over(alloc, domain, transport_of(question), port),
        (None, Some(transport)) => {
            if !domain.abilities.supports(transport) {
                return Ok(Step::Done(Layout::Refused(Reason::NoTransport)));
            }
            match service_name(alloc, domain.name, transport)? {
                Some(service) => {
                    let walk = Walk::start(service, Kind::Service);
                    Ok(Step::Reading(walk, Purpose::Offered(transport)))
                }
                None => follow_offer(alloc, domain, transport, Offer::Nothing),
            }
        }
        (None, None) => {
            let walk = Walk::start(domain.name.dup(alloc)?, Kind::Pointer);
            Ok(Step::Reading(walk, Purpose::Pointers))
        }
    }
}

// What follows the answer of a walk for a purpose.
fn follow(
    alloc: Global,
    domain: Domain<'_>,
    purpose: Purpose,
    set: &[Data],
) -> Result<Step, AllocError>
    ensures { IfOk result
        (λ step. step_asking domain.entry step ≡ follows domain.entry purpose set.now) }
{
    match purpose {
        Purpose::Pointers => follow_pointers(alloc, domain, set),
        Purpose::Offered(transport) => {
            let offer = offer(alloc, set)?;
            follow_offer(alloc, domain, transport, offer)
        }
        Purpose::Services(transport, next, is_closed) => match offer(alloc, set)? {
            Offer::Picks(picks) => serve(alloc, domain, transport, picks),
            Offer::Closed => try_services(alloc, domain, next, true),
            Offer::Nothing => try_services(alloc, domain, next, is_closed),
        },
        Purpose::Addresses(mut serving) => {
            push_addresses(&mut serving.found, set)?;
            read_addresses(alloc, domain, serving)
        }
    }
}

// What follows the NAPTR records of the domain (RFC 3263, 4.1): the service that they choose,
// otherwise those of the client's transports.
fn follow_pointers(alloc: Global, domain: Domain<'_>, set: &[Data]) -> Result<Step, AllocError>
    ensures { IfOk result (λ step. step_asking domain.entry step ≡ asking_chosen
        domain.entry.abilities.now domain.entry.name.now domain.entry.question.now.secure
        (chosen domain.entry.question.now.secure domain.entry.abilities.now set.now)) }
{
    let secure = domain.question.secure;
    let Some((transport, service)) = chosen_service(set, secure, domain.abilities) else {
        return try_services(alloc, domain, 0, false);
    };
    let walk = Walk::start(service.dup(alloc)?, Kind::Service);
    Ok(Step::Reading(walk, Purpose::Offered(transport)))
}

// What follows an offer of the service that is used (RFC 3263, 4.2): its picks, or that it is not
// available, or without SRV records the addresses of the domain at the transport's port.
fn follow_offer(
    alloc: Global,
    domain: Domain<'_>,
    transport: Transport,
    offer: Offer,
) -> Result<Step, AllocError>
    ensures { IfOk result (λ step. step_asking domain.entry step ≡ asking_offered
        domain.entry.abilities.now domain.entry.name.now transport offer) }
{
    match offer {
        Offer::Picks(picks) => serve(alloc, domain, transport, picks),
        Offer::Closed => Ok(Step::Done(Layout::Refused(Reason::NotAvailable))),
        Offer::Nothing => own_addresses(alloc, domain, transport, default_port(transport)),
    }
}

// The SRV records over the next transport that is tried, from this place on in the client's order
// of preference (RFC 3263, 4.1). After the last one the service is not available where it was
// closed over one of them; otherwise the addresses of the domain follow.
fn try_services(
    alloc: Global,
    domain: Domain<'_>,
    next: usize,
    is_closed: bool,
) -> Result<Step, AllocError>
    ensures { IfOk result (λ step. step_asking domain.entry step ≡ asking_services
        domain.entry.abilities.now domain.entry.name.now domain.entry.question.now.secure is_closed
        (filter (is_tried domain.entry.question.now.secure)
        (drop next domain.entry.abilities.now.preference))) }
{
    let secure = domain.question.secure;
    let preference = domain.abilities.preference();
    for place in next..preference.len() {
        let transport = preference[place];
        if !is_tried(secure, transport) {
            continue;
        }
        if let Some(service) = service_name(alloc, domain.name, transport)? {
            let walk = Walk::start(service, Kind::Service);
            let purpose = Purpose::Services(transport, place + 1, is_closed);
            return Ok(Step::Reading(walk, purpose));
        }
    }
    if is_closed {
        return Ok(Step::Done(Layout::Refused(Reason::NotAvailable)));
    }
    let transport = default_transport(secure);
    own_over(alloc, domain, transport, default_port(transport))
}

// The addresses of the domain at one port, where the client supports the transport.
fn own_over(
    alloc: Global,
    domain: Domain<'_>,
    transport: Transport,
    port: u16,
) -> Result<Step, AllocError>
    ensures { IfOk result (λ step. step_asking domain.entry step
        ≡ asking_over domain.entry.abilities.now transport
        (asking_own domain.entry.abilities.now transport port domain.entry.name.now)) }
{
    if !domain.abilities.supports(transport) {
        return Ok(Step::Done(Layout::Refused(Reason::NoTransport)));
    }
    own_addresses(alloc, domain, transport, port)
}

// The addresses of the domain at one port (RFC 3263, 4.2).
fn own_addresses(
    alloc: Global,
    domain: Domain<'_>,
    transport: Transport,
    port: u16,
) -> Result<Step, AllocError>
    ensures { IfOk result (λ step. step_asking domain.entry step ≡ asking_own
        domain.entry.abilities.now transport port domain.entry.name.now) }
{
    let mut picks = Vec::with_capacity(alloc, 1)?;
    picks.push(Pick {
        priority: 0,
        weight: 0,
        port,
        target: domain.name.dup(alloc)?,
    })?;
    serve(alloc, domain, transport, Sequence::from_vec(picks))
}

// The addresses of the targets of picks (RFC 3263, 4.2).
fn serve(
    alloc: Global,
    domain: Domain<'_>,
    transport: Transport,
    picks: Sequence<Pick>,
) -> Result<Step, AllocError>
    ensures { IfOk result (λ step. step_asking domain.entry step
        ≡ asking_served domain.entry.abilities.now transport picks) }
{
    read_addresses(alloc, domain, Serving::start(alloc, transport, picks))
}

// The next addresses of servers, or the servers where all are read.
fn read_addresses(
    alloc: Global,
    domain: Domain<'_>,
    mut serving: Serving,
) -> Result<Step, AllocError>
    ensures { IfOk result (λ step. step_asking domain.entry step
        ≡ serving_left (address_kinds domain.entry.abilities.now.families) serving) }
{
    let families = domain.abilities.families();
    match serving.next_walk(alloc, families)? {
        Some(walk) => Ok(Step::Reading(walk, Purpose::Addresses(serving))),
        None => {
            let servers = Sequence::from_vec(serving.servers);
            Ok(Step::Done(Layout::Servers(serving.transport, servers)))
        }
    }
}
