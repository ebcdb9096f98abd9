//! The values that the keys of the settings may have.
ghost use Rattle.std.specs.Prelude.{◌≡◌, ◌≢◌, ◌≤◌, None, Some, IfOk, IfErr};
ghost use Rattle.std.specs.Option.{ok_or};
ghost use Rattle.toml.specs.View.{view};
ghost use Rattle.sipl_lines.specs.Values.{families_in, held_in, listen_at, listen_in, number_from, transport_in, transports_listed};

use super::fault::Refusal;
use sipl_choice::{Families, Transport};
use sipl_outages::Held;
use sipl_records::{read_ipv4, read_number, split_once};
use std::alloc::Global;
use std::net::{Ipv4Addr, SocketAddrV4};
use toml::Value;

// A whole number from `min` to `max`.
pub(super) fn number(value: &Value, min: usize, max: usize) -> Result<usize, Refusal>
    ensures read { result ≡ ok_or (number_from min max (view value.now)) Refusal.BadValue }
    ensures least { IfOk result (λ number. min ≤ number) }
    ensures within { IfOk result (λ number. number ≤ max) }
{
    let Some(integer) = value.as_integer() else {
        return Err(Refusal::BadValue);
    };
    match usize::try_from(integer) {
        Ok(number) if min <= number && number <= max => Ok(number),
        _ => Err(Refusal::BadValue),
    }
}

// A list of transports, which may be empty or repeat one.
pub(super) fn transports(alloc: Global, value: &Value) -> Result<Vec<Transport>, Refusal>
    ensures read { IfOk result (λ transports.
        transports_listed (view value.now) ≡ Some transports.items) }
    ensures refused { IfErr result (λ refusal. refusal ≢ Refusal.Memory
        → (refusal ≡ Refusal.BadValue) × (transports_listed (view value.now) ≡ None)) }
{
    let words = value.as_array().ok_or(Refusal::BadValue)?;
    let mut transports = Vec::new(alloc);
    for word in words {
        transports.push(transport(word)?)?;
    }
    Ok(transports)
}

// A transport by its name.
fn transport(value: &Value) -> Result<Transport, Refusal>
    ensures { result ≡ ok_or (transport_in (view value.now)) Refusal.BadValue }
{
    match value.as_str() {
        Some(name) => Transport::from_name(name.as_bytes()).ok_or(Refusal::BadValue),
        None => Err(Refusal::BadValue),
    }
}

// The families of addresses, in their order.
pub(super) fn families(value: &Value) -> Result<Families, Refusal>
    ensures { result ≡ ok_or (families_in (view value.now)) Refusal.BadValue }
{
    match value.as_str() {
        Some("v4") => Ok(Families::V4),
        Some("v6") => Ok(Families::V6),
        Some("v4v6") => Ok(Families::V4ThenV6),
        Some("v6v4") => Ok(Families::V6ThenV4),
        _ => Err(Refusal::BadValue),
    }
}

// What becomes of held endpoints.
pub(super) fn held(value: &Value) -> Result<Held, Refusal>
    ensures { result ≡ ok_or (held_in (view value.now)) Refusal.BadValue }
{
    match value.as_str() {
        Some("out") => Ok(Held::Out),
        Some("last") => Ok(Held::Last),
        _ => Err(Refusal::BadValue),
    }
}

// An address in 127.0.0.0/8 and a port.
pub(super) fn loopback(value: &Value) -> Result<SocketAddrV4, Refusal>
    ensures { result ≡ ok_or (listen_in (view value.now)) Refusal.BadValue }
{
    match value.as_str() {
        Some(text) => loopback_socket(text.as_bytes()).ok_or(Refusal::BadValue),
        None => Err(Refusal::BadValue),
    }
}

// `ADDRESS:PORT`.
fn loopback_socket(text: &[u8]) -> Option<SocketAddrV4>
    ensures { result ≡ listen_at text.now }
{
    let (host, digits) = split_once(text, b':');
    let ip = Ipv4Addr::from_bits(read_ipv4(host).ok()?);
    let port = read_number(digits?, 65_535)?;
    if !ip.is_loopback() || port == 0 {
        return None;
    }
    Some(SocketAddrV4::new(ip, port as u16))
}
