//! The parts of a URI (RFC 3261, 19.1.1), which its delimiters separate.
ghost use Rattle.std.specs.Prelude.{◌≡◌, ◌==◌, ◌∷◌, ◌++◌, true, count_by, IsTrue, IfSome};
ghost use Rattle.std.specs.List.{list_all};
ghost use Rattle.std.specs.Option.{option_copied, is_some, OnSome};
ghost use Rattle.sipl_names.specs.Hostnames.{is_hostname_octet};
ghost use Rattle.sipl_uri.specs.UriOctets.{is_uri_octet, is_free_octet};
ghost use Rattle.sipl_uri.specs.Uris.{has_allowed_octets};
ghost use Rattle.sipl_uri.specs.UriParts.{parts_of, params_in, after_userinfo, split_port};

use crate::octet::is_uri_octet;
use sipl_names::is_hostname_octet;
use sipl_records::{are_digits, split_once};

// The parts that say where a request is sent.
#[derive(Clone, Copy)]
pub(crate) struct Parts<'a> {
    pub(crate) host: &'a [u8],
    // The text after the host's colon.
    pub(crate) port: Option<&'a [u8]>,
    // The text after the first semicolon.
    pub(crate) params: Option<&'a [u8]>,
}

// Splits the text after the scheme's colon. `None` where an octet of it is not allowed.
pub(crate) fn read_parts(text: &[u8]) -> Option<Parts<'_>>
    ensures allowed { is_some result ≡ has_allowed_octets text.now }
    ensures host { IfSome result (λ parts. parts.host.now ≡ (parts_of text.now).host) }
    ensures port { IfSome result (λ parts. option_copied parts.port ≡ (parts_of text.now).port) }
    ensures params { IfSome result
        (λ parts. params_in (option_copied parts.params) ≡ (parts_of text.now).params) }
{
    if let Some(parts) = split_plain(text) {
        return Some(parts);
    }
    if let Some(parts) = split_after_user(text) {
        return Some(parts);
    }
    if !has_allowed_octets(text) {
        return None;
    }
    Some(split_parts(text))
}

// Splits a text that is a hostname or an IPv4 address, with a port or without, as most are: in one
// pass. `None` where there is an octet of neither.
fn split_plain(text: &[u8]) -> Option<Parts<'_>>
    ensures allowed { OnSome result (has_allowed_octets text.now ≡ true) }
    ensures host { IfSome result (λ parts. parts.host.now ≡ (parts_of text.now).host) }
    ensures port { IfSome result (λ parts. option_copied parts.port ≡ (parts_of text.now).port) }
    ensures params { IfSome result
        (λ parts. params_in (option_copied parts.params) ≡ (parts_of text.now).params) }
    ensures octets { OnSome result (list_all is_free_octet text.now ≡ true) }
{
    let (host, rest) = split_hostname(text);
    if rest.is_empty() {
        return Some(Parts {
            host,
            port: None,
            params: None,
        });
    }
    let digits = strip_colon(rest)?;
    if !are_digits(digits) {
        return None;
    }
    Some(Parts {
        host,
        port: Some(digits),
        params: None,
    })
}

// Splits user information and a text that `split_plain` splits. `None` for all other texts.
fn split_after_user(text: &[u8]) -> Option<Parts<'_>>
    ensures allowed { OnSome result (has_allowed_octets text.now ≡ true) }
    ensures host { IfSome result (λ parts. parts.host.now ≡ (parts_of text.now).host) }
    ensures port { IfSome result (λ parts. option_copied parts.port ≡ (parts_of text.now).port) }
    ensures params { IfSome result
        (λ parts. params_in (option_copied parts.params) ≡ (parts_of text.now).params) }
{
    let (user, after) = split_once(text, b'@');
    let hostport = after?;
    let parts = split_plain(hostport)?;
    if !has_uri_octets(user) {
        return None;
    }
    Some(parts)
}

// The text after the colon that begins it.
fn strip_colon(text: &[u8]) -> Option<&[u8]>
    ensures { IfSome result (λ rest. text.now ≡ 58 ∷ rest.now) }
{
    match text {
        [b':', rest @ ..] => Some(rest),
        _ => None,
    }
}

// Splits a text before its first octet that a hostname cannot have.
fn split_hostname(text: &[u8]) -> (&[u8], &[u8])
    ensures whole { text.now ≡ result.0.now ++ result.1.now }
    ensures host { IsTrue (list_all is_hostname_octet result.0.now) }
{
    for (end, octet) in text.iter().enumerate() {
        if !is_hostname_octet(*octet) {
            return text.split_at(end);
        }
    }
    (text, &[])
}

// Whether a URI can have each of the octets after its scheme, and at most one is `@`.
fn has_allowed_octets(text: &[u8]) -> bool
    ensures { result ≡ has_allowed_octets text.now }
{
    has_uri_octets(text) && count_at_signs(text) <= 1
}

fn has_uri_octets(text: &[u8]) -> bool
    ensures { result ≡ list_all is_uri_octet text.now }
{
    text.iter().all(|octet| is_uri_octet(*octet))
}

fn count_at_signs(text: &[u8]) -> usize
    ensures { result ≡ count_by (λ octet. octet == 64) text.now }
{
    text.iter().filter(|octet| **octet == b'@').count()
}

// Splits a text at its delimiters.
fn split_parts(text: &[u8]) -> Parts<'_>
    ensures host { result.host.now ≡ (parts_of text.now).host }
    ensures port { option_copied result.port ≡ (parts_of text.now).port }
    ensures params { params_in (option_copied result.params) ≡ (parts_of text.now).params }
{
    let (before_headers, _) = split_once(after_userinfo(text), b'?');
    let (hostport, params) = split_once(before_headers, b';');
    let (host, port) = split_port(hostport);
    Parts { host, port, params }
}

// The text after the `@` of the user information, all of it where there is none.
fn after_userinfo(text: &[u8]) -> &[u8]
    ensures { result.now ≡ after_userinfo text.now }
{
    match split_once(text, b'@') {
        (_, Some(after)) => after,
        (_, None) => text,
    }
}

// Splits a host from its port at the first colon that is not within brackets.
fn split_port(hostport: &[u8]) -> (&[u8], Option<&[u8]>)
    ensures host { result.0.now ≡ (split_port hostport.now).0 }
    ensures port { option_copied result.1 ≡ (split_port hostport.now).1 }
{
    let [b'[', rest @ ..] = hostport else {
        return split_once(hostport, b':');
    };
    let (inside, Some(after)) = split_once(rest, b']') else {
        return (hostport, None);
    };
    let (before_port, port) = split_once(after, b':');
    (&hostport[..inside.len() + 2 + before_port.len()], port)
}
