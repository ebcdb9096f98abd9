// Hostnames (RFC 3261, 25.1).
ghost use Rattle.std.specs.Prelude.{◌≡◌, ◌≤◌, take, IfSome};
ghost use Rattle.std.specs.List.{list_all};
ghost use Rattle.sipl_names.specs.Hostnames.{is_hostname_octet, begins_with_letter, has_alphabetic_top};
ghost use Rattle.sipl_names.specs.HostnameWires.{IsHostnameWire, wire_octet_of};

use crate::name::Name;

// The maximum length of a hostname that is read in one pass.
const MAX_PLAIN_LEN: usize = 62;

/// Whether the first octet is a letter, `ALPHA` in RFC 5234, B.1.
pub fn begins_with_letter(octets: &[u8]) -> bool
    ensures { result ≡ begins_with_letter octets.now }
{
    match octets {
        [first, ..] => first.is_ascii_alphabetic(),
        [] => false,
    }
}

// Writes the wire form of a hostname, in lower case, and returns its length. One pass: the wire form
// is the text moved by one octet, with the lengths of the labels in place of the dots. `None` where
// the text is not a hostname, ends with a dot or has more than `MAX_PLAIN_LEN` octets.
pub(crate) fn read_plain(wire: &mut [u8; 64], text: &[u8]) -> Option<usize>
    ensures read { IfSome result (λ len. IsHostnameWire text.now (take len wire.new)) }
    ensures limit { IfSome result (λ len. len ≤ 63) }
{
    if text.len() > MAX_PLAIN_LEN {
        return None;
    }
    // Where the length of the current label is: it is written when the label ends.
    let mut start = 0;
    wire[0] = 0;
    for (end, octet) in text.iter().enumerate() {
        let kept = wire_octet(*octet)?;
        if *octet == b'.' {
            if end == start {
                return None;
            }
            wire[start] = (end - start) as u8;
            start = end + 1;
        }
        wire[end + 1] = kept;
    }
    if start == text.len() || !wire[start + 1].is_ascii_lowercase() {
        return None;
    }
    wire[start] = (text.len() - start) as u8;
    Some(text.len() + 1)
}

// An octet of a hostname as it is written before the length of its label is known: in lower case, 0
// for a dot. Lower-case letters, as most octets are, are tested first.
fn wire_octet(octet: u8) -> Option<u8>
    ensures { result ≡ wire_octet_of octet }
{
    if octet.is_ascii_lowercase() {
        return Some(octet);
    }
    match octet {
        b'0'..=b'9' | b'-' | b'_' => Some(octet),
        b'.' => Some(0),
        b'A'..=b'Z' => Some(octet + 32),
        _ => None,
    }
}

// Whether a hostname can have each of the octets.
pub(crate) fn has_hostname_octets(text: &[u8]) -> bool
    ensures { result ≡ list_all is_hostname_octet text.now }
{
    text.iter().all(|octet| is_hostname_octet(*octet))
}

/// Whether a hostname can have the octet: it is one of a label, or a dot. Lower-case letters, as most
/// octets are, are tested first.
pub fn is_hostname_octet(octet: u8) -> bool
    ensures { result ≡ is_hostname_octet octet }
{
    octet.is_ascii_lowercase()
        || octet.is_ascii_alphanumeric()
        || matches!(octet, b'-' | b'_' | b'.')
}

// Whether the label next to the root begins with a letter.
pub(crate) fn has_alphabetic_top(name: &Name) -> bool
    ensures { result ≡ has_alphabetic_top name.now }
{
    match name.top_label() {
        Some(label) => begins_with_letter(label),
        None => false,
    }
}
