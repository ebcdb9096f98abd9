//! Hosts (RFC 3261, 25.1): addresses and hostnames.
ghost use Rattle.std.specs.Prelude.{◌≡◌, ◌≢◌, Some, None, option_map, IfOk, IfErr};
ghost use Rattle.std.specs.Option.{option_copied};
ghost use Rattle.sipl_names.specs.Hostnames.{hostname_of};
ghost use Rattle.sipl_records.specs.Ipv4.{number_of_text};
ghost use Rattle.sipl_records.specs.declared.address.Address.TheVariants.{V6};
ghost use Rattle.sipl_uri.specs.declared.question.Target.TheVariants.{Numeric};
ghost use Rattle.sipl_uri.specs.Hosts.{host_of, reference_of, bracketed_text};

use crate::fault::UriFault;
use crate::question::Target;
use sipl_names::Name;
use sipl_records::{Address, read_ipv4, read_ipv6, split_once};
use std::alloc::Global;

// Reads an IPv4 address, an IPv6 address in brackets, or a hostname.
pub(crate) fn read_host(alloc: Global, text: &[u8]) -> Result<Target, UriFault>
    ensures read { IfOk result (λ target. host_of text.now ≡ Some target) }
    ensures cause { IfErr result (λ fault. fault ≢ UriFault.Memory → fault ≡ UriFault.Host) }
    ensures refused { IfErr result (λ fault. fault ≢ UriFault.Memory → host_of text.now ≡ None) }
{
    if let Some(number) = read_ipv4_host(text) {
        return Ok(Target::Numeric(Address::V4(number)));
    }
    if let Some(number) = read_reference(text) {
        return Ok(Target::Numeric(Address::V6(number)));
    }
    Ok(Target::Domain(read_hostname(alloc, text)?))
}

// Reads an IPv4 address. Its first octet is a digit, and so most hostnames are not looked into.
fn read_ipv4_host(text: &[u8]) -> Option<u32>
    ensures { result ≡ number_of_text text.now }
{
    match text {
        [b'0'..=b'9', ..] => read_ipv4(text).ok(),
        _ => None,
    }
}

// Reads an IPv6 address in brackets.
fn read_reference(text: &[u8]) -> Option<u128>
    ensures { option_map (λ n. Numeric (V6 n)) result ≡ reference_of text.now }
{
    read_ipv6(bracketed_text(text)?).ok()
}

// The text within brackets, if all of it is.
fn bracketed_text(text: &[u8]) -> Option<&[u8]>
    ensures { option_copied result ≡ bracketed_text text.now }
{
    let [b'[', rest @ ..] = text else {
        return None;
    };
    match split_once(rest, b']') {
        (address, Some([])) => Some(address),
        _ => None,
    }
}

// Reads a hostname as an absolute name.
fn read_hostname(alloc: Global, text: &[u8]) -> Result<Name, UriFault>
    ensures read { IfOk result (λ name. hostname_of text.now ≡ Some name) }
    ensures cause { IfErr result (λ fault. fault ≢ UriFault.Memory → fault ≡ UriFault.Host) }
    ensures refused { IfErr result
        (λ fault. fault ≢ UriFault.Memory → hostname_of text.now ≡ None) }
{
    match Name::from_hostname(alloc, text)? {
        Some(name) => Ok(name),
        None => Err(UriFault::Host),
    }
}
