//! Which NAPTR record decides the transport (RFC 3263, 4.1; RFC 3403, 4.1).
ghost use Rattle.std.specs.Prelude.{◌≡◌, option_map};
ghost use Rattle.sipl_names.specs.Labels.{Labels};
ghost use Rattle.sipl_choice.specs.declared.transport.Transport.{Transport};
ghost use Rattle.sipl_choice.specs.Candidates.{choice_by};
ghost use Rattle.sipl_choice.specs.Pointers.{choice_of, chosen, chosen_pointer, is_before, is_usable, is_terminal, transport_of_services};

use crate::abilities::Abilities;
use crate::transport::Transport;
use sipl_names::Name;
use sipl_records::Data;

// What a NAPTR record that applies says.
#[derive(Clone, Copy)]
struct Candidate<'a> {
    order: u16,
    preference: u16,
    transport: Transport,
    replacement: &'a Name,
}

impl Candidate<'_> {
    // Whether it comes before the other (RFC 3403, 4.1): by a lesser order, and among equal orders
    // by a lesser preference.
    fn is_before(&self, other: &Self) -> bool
        ensures { result ≡ is_before (choice_by self.now) (choice_by other.now) }
    {
        self.order < other.order
            || (self.order == other.order && self.preference < other.preference)
    }
}

/// The place of the NAPTR record that decides the transport (RFC 3263, 4.1; RFC 3403, 4.1): of
/// those that apply, the one of the least order, and among equal orders of the least preference;
/// the first of equal ones. `None` where none applies. Data of other kinds do not count. Linear in
/// the set. Does not allocate.
///
/// A record applies where all of this is true:
///
/// - its flags are `S`, in either case, and it has no regular expression;
/// - its replacement is not the root;
/// - its services are `SIP+D2U`, `SIP+D2T`, `SIP+D2S` or `SIPS+D2T`, in either case, for UDP, TCP,
///   SCTP and TLS;
/// - the client supports the transport, which is TLS where the URI is secure (`sips`).
pub fn choose_pointer(set: &[Data], secure: bool, abilities: &Abilities) -> Option<usize>
    ensures { result ≡ chosen_pointer secure abilities.now set.now }
{
    let (place, _) = first_least(set, secure, abilities)?;
    Some(place)
}

/// The transport of the NAPTR record that `choose_pointer` chooses, and its replacement, which is
/// the owner of the SRV records (RFC 3263, 4.1); `None` where none applies. Linear in the set. Does
/// not allocate.
pub fn chosen_service<'a>(
    set: &'a [Data],
    secure: bool,
    abilities: &Abilities,
) -> Option<(Transport, &'a Name)>
    ensures { option_map {U = Transport × Labels} (λ service. (service.0, service.1.now)) result
        ≡ option_map (λ choice. (choice.transport, choice.replacement))
        (chosen secure abilities.now set.now) }
{
    let (_, candidate) = first_least(set, secure, abilities)?;
    Some((candidate.transport, candidate.replacement))
}

// The place of the record that decides, and what it says.
fn first_least<'a>(
    set: &'a [Data],
    secure: bool,
    abilities: &Abilities,
) -> Option<(usize, Candidate<'a>)>
    ensures place { option_map (λ least. least.0) result
        ≡ chosen_pointer secure abilities.now set.now }
    ensures choice { option_map (λ least. choice_by least.1) result
        ≡ chosen secure abilities.now set.now }
{
    let mut least: Option<(usize, Candidate)> = None;
    for (place, datum) in set.iter().enumerate() {
        let Some(candidate) = candidate_of(datum, secure, abilities) else {
            continue;
        };
        let is_less = match &least {
            Some((_, other)) => candidate.is_before(other),
            None => true,
        };
        if is_less {
            least = Some((place, candidate));
        }
    }
    least
}

// What NAPTR data say, where they apply.
fn candidate_of<'a>(datum: &'a Data, secure: bool, abilities: &Abilities) -> Option<Candidate<'a>>
    ensures { option_map choice_by result ≡ choice_of secure abilities.now datum.now }
{
    let Data::Pointer {
        order,
        preference,
        flags,
        services,
        regexp,
        replacement,
    } = datum
    else {
        return None;
    };
    if !is_terminal(
        flags.get().as_slice(),
        regexp.get().as_slice(),
        replacement.get(),
    ) {
        return None;
    }
    let transport = transport_of_services(services.get().as_slice())?;
    if !is_usable(transport, secure, abilities) {
        return None;
    }
    Some(Candidate {
        order: *order,
        preference: *preference,
        transport,
        replacement: replacement.get(),
    })
}

// Whether a record is terminal and names the owner of SRV records (RFC 3403, 4.1): its flags are
// `S`, in either case, it has no regular expression, and its replacement is not the root.
fn is_terminal(flags: &[u8], regexp: &[u8], replacement: &Name) -> bool
    ensures { result ≡ is_terminal flags.now regexp.now replacement.now }
{
    flags.eq_ignore_ascii_case(b"S") && regexp.is_empty() && !replacement.is_root()
}

// Whether a client may use a transport: it supports it, and it is TLS where the URI is secure.
fn is_usable(transport: Transport, secure: bool, abilities: &Abilities) -> bool
    ensures { result ≡ is_usable secure abilities.now transport }
{
    abilities.supports(transport) && (!secure || transport == Transport::Tls)
}

// The transport of a services field, in either case (RFC 3263, 4.1).
fn transport_of_services(services: &[u8]) -> Option<Transport>
    ensures { result ≡ transport_of_services services.now }
{
    if services.eq_ignore_ascii_case(b"SIP+D2U") {
        Some(Transport::Udp)
    } else if services.eq_ignore_ascii_case(b"SIP+D2T") {
        Some(Transport::Tcp)
    } else if services.eq_ignore_ascii_case(b"SIP+D2S") {
        Some(Transport::Sctp)
    } else if services.eq_ignore_ascii_case(b"SIPS+D2T") {
        Some(Transport::Tls)
    } else {
        None
    }
}
