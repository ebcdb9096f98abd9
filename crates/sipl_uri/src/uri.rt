ghost use Rattle.std.specs.Prelude.{◌≡◌, ◌≢◌, Ok, Err, true, IsTrue, IfOk, IfErr, IfSome, OnErr};
ghost use Rattle.std.specs.Option.{option_copied};
ghost use Rattle.sipl_uri.specs.QuestionText.{IsAskable};
ghost use Rattle.sipl_uri.specs.Uris.{has_allowed_octets, has_scheme_and_octets, question_of, question_after_scheme, question_with, security_of, transport_with, port_of, port_part};

use crate::fault::UriFault;
use crate::host::read_host;
use crate::params::{Settings, read_params};
use crate::parts::read_parts;
use crate::question::{Question, Target};
use sipl_choice::Transport;
use sipl_names::{Name, begins_with_letter};
use sipl_records::{read_number, split_once};
use std::alloc::{AllocError, Global};

/// A SIP or SIPS URI in text (RFC 3261, 19.1.1).
pub struct Uri;

impl Uri {
    /// Reads a URI and returns the question that it asks (RFC 3263, 4). Which text asks which
    /// question is this grammar ([`crate::laws::questions_match_the_grammar`]; RFC 3261, 25.1):
    ///
    /// ```text
    /// uri   = scheme ":" [ userinfo "@" ] host [ ":" port ] *( ";" param ) [ "?" headers ]
    /// param = pname [ "=" pvalue ]
    /// host  = IPv4address / "[" IPv6address "]" / hostname
    /// ```
    ///
    /// - The scheme is `sip` or `sips`, in either case.
    /// - The octets of user information and of headers are not looked into. Without `@`, and after
    ///   it, the first `?` begins the headers.
    /// - The host ends at the first colon that is not within brackets. A hostname is an absolute
    ///   name; its last label begins with a letter. As an extension, its labels may have
    ///   underscores, and hyphens at their ends.
    /// - The port is a number from 1 to 65,535.
    /// - The TARGET is the value of `maddr`, if it is given, otherwise the host, which is checked
    ///   all the same. `transport` is `udp`, `tcp`, `sctp` or `tls`, in either case; with `sips`,
    ///   `tcp` is TLS over TCP. Other parameters are accepted. Names are compared without case.
    ///
    /// The fault is the first of these: another scheme, or none (U1); an octet after it that is not
    /// allowed in a URI, or a second `@` (U7); the host (U2); the port (U3); those of the
    /// parameters from left to right, and of each an empty name (U7), the name of an earlier one
    /// (U5), then its value: another transport, or none (U4), a `maddr` that is not a host, or none
    /// (U2); `sips` over UDP or SCTP (U6).
    /// `Memory` is never returned in the place of U1, or of U7 for an octet or a second `@`.
    pub fn parse(alloc: Global, bytes: &[u8]) -> Result<Question, UriFault>
        ensures read { IfOk result (λ question. question_of bytes.now ≡ Ok question) }
        ensures refused { IfErr result
            (λ fault. fault ≢ UriFault.Memory → question_of bytes.now ≡ Err fault) }
        ensures memory { result ≡ Err UriFault.Memory
            → IsTrue (has_scheme_and_octets bytes.now) }
        ensures askable { IfOk result IsAskable }
    {
        let (scheme, Some(text)) = split_once(bytes, b':') else {
            return Err(UriFault::Scheme);
        };
        let secure = read_scheme(scheme).ok_or(UriFault::Scheme)?;
        read_after_scheme(alloc, secure, text)
    }
}

// Whether the scheme is `sips`: it is `sip` or `sips`, in either case.
fn read_scheme(scheme: &[u8]) -> Option<bool>
    ensures { result ≡ security_of scheme.now }
{
    if scheme.eq_ignore_ascii_case(b"sip") {
        Some(false)
    } else if scheme.eq_ignore_ascii_case(b"sips") {
        Some(true)
    } else {
        None
    }
}

// Reads the text after the scheme's colon.
fn read_after_scheme(alloc: Global, secure: bool, text: &[u8]) -> Result<Question, UriFault>
    ensures read { IfOk result
        (λ question. question_after_scheme secure text.now ≡ Ok question) }
    ensures refused { IfErr result (λ fault. fault ≢ UriFault.Memory
        → question_after_scheme secure text.now ≡ Err fault) }
    ensures memory { result ≡ Err UriFault.Memory → IsTrue (has_allowed_octets text.now) }
{
    if let Some(question) = read_plain(alloc, secure, text)? {
        return Ok(question);
    }
    let parts = read_parts(text).ok_or(UriFault::Characters)?;
    let host = read_host(alloc, parts.host)?;
    let port = read_port_part(parts.port)?;
    let Some(params) = parts.params else {
        return Ok(Question {
            secure,
            target: host,
            port,
            transport: None,
        });
    };
    let settings = read_params(alloc, params)?;
    question_with(secure, host, port, settings)
}

// Reads a hostname with a port or without, as most texts are: each octet of the host once. `None` for
// all other texts, and where the port is invalid.
fn read_plain(alloc: Global, secure: bool, text: &[u8]) -> Result<Option<Question>, AllocError>
    ensures read { IfOk result (λ read. IfSome read
        (λ question. question_after_scheme secure text.now ≡ Ok question)) }
    ensures memory { OnErr result (has_allowed_octets text.now ≡ true) }
{
    let (host, digits) = split_once(text, b':');
    let Ok(port) = read_port_part(digits) else {
        return Ok(None);
    };
    if !begins_with_letter(host) {
        return Ok(None);
    }
    let Some(name) = Name::from_hostname(alloc, host)? else {
        return Ok(None);
    };
    Ok(Some(Question {
        secure,
        target: Target::Domain(name),
        port,
        transport: None,
    }))
}

// Reads the port, where there is a colon.
fn read_port_part(digits: Option<&[u8]>) -> Result<Option<u16>, UriFault>
    ensures { result ≡ port_part (option_copied digits.entry) }
{
    match digits {
        Some(digits) => Ok(Some(read_port(digits).ok_or(UriFault::Port)?)),
        None => Ok(None),
    }
}

// Reads a port.
fn read_port(digits: &[u8]) -> Option<u16>
    ensures { result ≡ port_of digits.now }
{
    let port = read_number(digits, u64::from(u16::MAX))?;
    if port == 0 {
        return None;
    }
    Some(port as u16)
}

// The question of a host and a port with what the parameters say.
fn question_with(
    secure: bool,
    host: Target,
    port: Option<u16>,
    settings: Settings,
) -> Result<Question, UriFault>
    ensures { result ≡ question_with secure host port settings }
{
    let transport = match settings.transport() {
        Some(transport) => Some(transport_with(secure, transport).ok_or(UriFault::SipsTransport)?),
        None => None,
    };
    Ok(Question {
        secure,
        target: settings.into_target().unwrap_or(host),
        port,
        transport,
    })
}

// The transport that is used (RFC 3261, 26.2.2): with `sips`, TCP is TLS over TCP.
fn transport_with(secure: bool, transport: Transport) -> Option<Transport>
    ensures { result ≡ transport_with secure transport }
{
    match (secure, transport) {
        (false, _) => Some(transport),
        (true, Transport::Tcp | Transport::Tls) => Some(Transport::Tls),
        (true, Transport::Udp | Transport::Sctp) => None,
    }
}
