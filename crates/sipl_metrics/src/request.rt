ghost use Rattle.std.specs.Prelude.{◌≡◌, ◌≢◌, ◌⊎◌, ◌≤◌, ◌<◌, ℕ, List, Some, length, IfNone, IfSome};
ghost use Rattle.httparse.specs.Grammar.{HasNoRequest, ReadsRequest, RequestHead};
ghost use Rattle.httparse.specs.Spans.{RequestOverflows};
ghost use Rattle.sipl_metrics.specs.Requests.{IsAskedBy, asked_of, by_method, is_path};

use httparse::Status;
use httparse::spans::{EMPTY_HEADER_SPAN, parse_request};
use std::alloc::AllocError;
use std::fmt::Write as _;

/// The maximum length in octets of a request's head.
pub const MAX_HEAD_LEN: usize = 8_192;

// The most fields of a head.
const MAX_FIELDS: usize = 64;

/// What a request asks for.
#[derive(Clone, Copy, Debug, PartialEq, Eq)]
pub enum Asked {
    /// `GET /metrics`.
    Metrics,
    /// `GET /healthz`.
    Health,
    /// Another resource.
    Missing,
    /// One of the two by another method.
    WrongMethod,
    /// It is no request of HTTP/1.
    Bad,
}

/// What a request asks for, once its head has come: `None` where more of it is to come. A head that is none
/// of HTTP/1, is too long, or has more than 64 fields, is bad.
pub fn read_request(octets: &[u8]) -> Option<Asked>
    ensures found { (head : RequestHead) (rest : List ℕ) → ReadsRequest octets.now head rest
        → length head.fields ≤ 64 → IsAskedBy octets.now result }
    ensures asked { IfSome result (λ asked. asked ≢ Asked.Bad → IsAskedBy octets.now (Some asked)) }
    ensures bad { IfSome result (λ asked. asked ≡ Asked.Bad
        → (8192 ≤ length octets.now) ⊎ RequestOverflows 64 octets.now) }
    ensures more { IfNone result (HasNoRequest octets.now) }
    ensures short { IfNone result (length octets.now < 8192) }
{
    let mut fields = [EMPTY_HEADER_SPAN; MAX_FIELDS];
    match parse_request(octets, &mut fields) {
        Ok(Status::Complete(head)) => Some(asked_by(head.method.of(octets), head.path.of(octets))),
        Ok(Status::Partial) if octets.len() < MAX_HEAD_LEN => None,
        _ => Some(Asked::Bad),
    }
}

// What a method and a target ask for.
fn asked_by(method: &[u8], target: &[u8]) -> Asked
    ensures { result ≡ asked_of method.now target.now }
{
    if has_path(b"/metrics", target) {
        of_method(method, Asked::Metrics)
    } else if has_path(b"/healthz", target) {
        of_method(method, Asked::Health)
    } else {
        Asked::Missing
    }
}

fn of_method(method: &[u8], asked: Asked) -> Asked
    ensures { result ≡ by_method method.now asked }
{
    if method == b"GET".as_slice() {
        asked
    } else {
        Asked::WrongMethod
    }
}

// Whether a target is a path, with or without a query after it.
fn has_path(path: &[u8], target: &[u8]) -> bool
    ensures { result ≡ is_path path.now target.now }
{
    match target.strip_prefix(path) {
        Some(rest) => match rest.first() {
            Some(octet) => *octet == b'?',
            None => true,
        },
        None => false,
    }
}

/// Appends a reply with a status, such as `200 OK`, and this body, after which the connection ends.
pub fn write_reply(
    out: &mut String,
    status: &str,
    kind: &str,
    body: &str,
) -> Result<(), AllocError> {
    let length = body.len();
    write!(
        out,
        "HTTP/1.1 {status}\r\nContent-Type: {kind}\r\nContent-Length: {length}\r\n"
    )?;
    if status.starts_with("405") {
        out.push_str("Allow: GET\r\n")?;
    }
    write!(out, "Connection: close\r\n\r\n{body}")
}
