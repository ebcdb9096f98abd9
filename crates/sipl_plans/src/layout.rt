ghost use Rattle.std.specs.Prelude.{◌≡◌, ◌≢◌, ◌<◌, ◌≤◌, not, length, filter, slice_get, IfOk, OnErr};
ghost use Rattle.std.specs.List.{All, filter_map, flat_map};
ghost use Rattle.sipl_records.specs.Unique.{unique};
ghost use Rattle.sipl_choice.specs.Endpoints.{same_endpoint};
ghost use Rattle.sipl_outages.specs.Holds.{is_held};
ghost use Rattle.sipl_plans.specs.Plan.{arranged, draw, endpoints_of, targets_among, with_held_last, without_held};
ghost use Rattle.sipl_plans.specs.Servers.{HasFewServers, target_count};

use crate::answer::{Answer, Reason};
use crate::shared::SharedSequence;
use crate::unique::unique_of;
use sipl_choice::{Endpoint, Transport};
use sipl_outages::{Board, Held};
use sipl_records::{Address, Sequence};
use sipl_srv::{Draws, Ranked, arrange, first_of_two};
use std::alloc::{AllocError, Global};

/// A server of a layout: that of an SRV record (RFC 2782), or the domain itself as the only one.
#[derive(Debug, PartialEq, Eq, Drop)]
pub struct Source {
    /// Servers of a lower number come first. 0 for the domain itself.
    pub priority: u16,
    /// The server's share of the choices among those of its priority. 0 for the domain itself.
    pub weight: u16,
    /// The port at each of the addresses.
    pub port: u16,
    /// The addresses, in the order in which they are tried; there may be none.
    pub addresses: Sequence<Address>,
}

/// Where requests are sent (RFC 3263, 4.1 and 4.2), before the random choice among the servers.
#[derive(Debug, PartialEq, Eq, Drop)]
pub enum Layout {
    /// Nowhere, and the reason.
    Refused(Reason),
    /// To these servers, in the order of the SRV records, over one transport.
    Servers(Transport, Sequence<Source>),
}

impl Layout {
    /// A copy. The only error is an allocation failure.
    pub fn dup(&self, alloc: Global) -> Result<Self, AllocError>
        ensures value { IfOk result (λ copy. copy ≡ self.now) }
        ensures memory { OnErr result ((reason : Reason) → self.now ≢ Layout.Refused reason) }
    {
        let (transport, servers) = match self {
            Layout::Refused(reason) => return Ok(Layout::Refused(*reason)),
            Layout::Servers(transport, servers) => (*transport, servers.as_slice()),
        };
        let mut copy = Vec::with_capacity(alloc, servers.len())?;
        for server in servers {
            copy.push(server.dup(alloc)?)?;
        }
        Ok(Layout::Servers(transport, Sequence::from_vec(copy)))
    }
}

impl Source {
    // A copy of the server.
    fn dup(&self, alloc: Global) -> Result<Self, AllocError>
        ensures { IfOk result (λ copy. copy ≡ self.now) }
    {
        Ok(Source {
            priority: self.priority,
            weight: self.weight,
            port: self.port,
            addresses: self.addresses.dup(alloc)?,
        })
    }
}

impl Ranked for Source {
    ghost use Rattle.sipl_plans.specs.Plan.{source_rank};

    ghost rank = { source_rank };

    fn priority(&self) -> u16 {
        self.priority
    }

    fn weight(&self) -> u16 {
        self.weight
    }
}

/// The targets of a layout: the endpoints of its servers, these in the order that the draws give
/// (RFC 2782, "Usage rules"), each endpoint once, at its first place (RFC 3263, 4.2), without those
/// that the board holds, or with these last (RFC 3263, 4.3). A server takes a word as well where it
/// has no addresses or all of its endpoints are held. There are at most 2,048 targets: 32 servers of
/// 64 addresses.
///
/// The reason for no targets is the layout's own where it is refused, `NoAddress` where no server
/// has an address, and else `AllHeld`, which `Held::Last` never has. Only a layout with servers
/// allocates.
pub fn draw(
    alloc: Global,
    layout: &Layout,
    draws: &Draws,
    board: &Board,
    held: Held,
) -> Result<Answer, AllocError>
    requires few { HasFewServers layout.now }
    ensures answer { IfOk result
        (λ answer. answer ≡ draw layout.now board.now.holds draws.now held) }
    ensures few { IfOk result (λ answer. target_count answer ≤ 2048) }
    ensures memory { OnErr result ((reason : Reason) → layout.now ≢ Layout.Refused reason) }
{
    let (transport, servers) = match layout {
        Layout::Refused(reason) => return Ok(Answer::None(*reason)),
        Layout::Servers(transport, servers) => (*transport, servers.as_slice()),
    };
    let endpoints = ordered_endpoints(alloc, transport, servers, draws)?;
    targets_among(alloc, endpoints, board, held)
}

// The targets among the endpoints in their order, or the reason that there are none.
fn targets_among(
    alloc: Global,
    endpoints: Vec<Endpoint>,
    board: &Board,
    held: Held,
) -> Result<Answer, AllocError>
    ensures answer { IfOk result
        (λ answer. answer ≡ targets_among board.now.holds endpoints.items held) }
    ensures few { IfOk result (λ answer. target_count answer ≤ length endpoints.items) }
{
    if endpoints.is_empty() {
        return Ok(Answer::None(Reason::NoAddress));
    }
    let targets = match held {
        Held::Out => without_held(endpoints, board),
        Held::Last => with_held_last(alloc, endpoints, board)?,
    };
    if targets.is_empty() {
        return Ok(Answer::None(Reason::AllHeld));
    }
    let shared = SharedSequence::from_vec(targets)?;
    Ok(Answer::Targets(shared))
}

// The endpoints that are not held. Mostly none is held, and then none is looked up.
fn without_held(mut endpoints: Vec<Endpoint>, board: &Board) -> Vec<Endpoint>
    ensures { result.items ≡ without_held board.now.holds endpoints.items }
{
    if board.is_empty() {
        return endpoints;
    }
    endpoints.retain(
        |endpoint: &Endpoint| -> bool
            ensures { result ≡ not (is_held board.entry.now.holds endpoint.now) }
        { !board.is_held(endpoint) },
    );
    endpoints
}

// The endpoints that are not held, and then those that are. Mostly none is held, and then none is
// looked up, and nothing allocated.
fn with_held_last(
    alloc: Global,
    endpoints: Vec<Endpoint>,
    board: &Board,
) -> Result<Vec<Endpoint>, AllocError>
    ensures { IfOk result
        (λ targets. targets.items ≡ with_held_last board.now.holds endpoints.items) }
{
    if board.is_empty() {
        return Ok(endpoints);
    }
    let mut targets = Vec::with_capacity(alloc, endpoints.len())?;
    let mut held = Vec::new(alloc);
    for endpoint in endpoints.as_slice() {
        if board.is_held(endpoint) {
            held.push(*endpoint)?;
        } else {
            targets.push(*endpoint)?;
        }
    }
    targets.extend_from_slice(held.as_slice())?;
    Ok(targets)
}

// The endpoints of the servers in the order that the draws give, each once, at its first place. Only
// the order of three servers or more is allocated.
fn ordered_endpoints(
    alloc: Global,
    transport: Transport,
    servers: &[Source],
    draws: &Draws,
) -> Result<Vec<Endpoint>, AllocError>
    requires { length servers.now ≤ 32 }
    ensures { IfOk result (λ targets. targets.items ≡ unique same_endpoint
        (flat_map (endpoints_of transport) (arranged servers.now draws.now))) }
{
    if servers.len() == 1 {
        return unique_endpoints(alloc, transport, servers, &[0]);
    }
    if servers.len() == 2 {
        let first = first_of_two(servers, draws);
        return unique_endpoints(alloc, transport, servers, &[first, 1 - first]);
    }
    let order = arrange(alloc, servers, draws)?;
    unique_endpoints(alloc, transport, servers, order.as_slice())
}

// The endpoints of the servers at these places, each once, at its first place.
fn unique_endpoints(
    alloc: Global,
    transport: Transport,
    servers: &[Source],
    order: &[usize],
) -> Result<Vec<Endpoint>, AllocError>
    requires { All (λ place. place < length servers.now) order.now }
    ensures { IfOk result (λ targets. targets.items ≡ unique same_endpoint
        (flat_map (endpoints_of transport) (filter_map (slice_get servers.now) order.now))) }
{
    let endpoints = endpoints_in_order(alloc, transport, servers, order)?;
    unique_of(alloc, endpoints)
}

// The endpoints of the servers at these places, also those that come again.
fn endpoints_in_order(
    alloc: Global,
    transport: Transport,
    servers: &[Source],
    order: &[usize],
) -> Result<Vec<Endpoint>, AllocError>
    requires { All (λ place. place < length servers.now) order.now }
    ensures { IfOk result (λ endpoints. endpoints.items
        ≡ flat_map (endpoints_of transport) (filter_map (slice_get servers.now) order.now)) }
{
    let mut endpoints = Vec::with_capacity(alloc, order.len())?;
    for place in order {
        let server = &servers[*place];
        for address in server.addresses.as_slice() {
            endpoints.push(Endpoint {
                transport,
                address: *address,
                port: server.port,
            })?;
        }
    }
    Ok(endpoints)
}
