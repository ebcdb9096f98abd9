//! IPv4 addresses in text (RFC 1123, 2.1).
ghost use Rattle.std.specs.Prelude.{◌≡◌, ℕ, ◌+◌, ◌++◌, ◌∷◌, length, map, Some, IfSome, IfNone, OnOk, OnErr, IsOk, ◌≤◌, vec_len, vec_capacity};
ghost use Rattle.sipl_records.specs.Parts.{parts};
ghost use Rattle.sipl_records.specs.Ipv4.{group_of, number_of_text, text_of_number, HasNoGroupBeforeDot};

use crate::split::split_once;
use itoa::write_digits;
use std::alloc::AllocError;

// Octets of the longest text, `255.255.255.255`.
const MAX_TEXT_LEN: usize = 15;

// The number of a text of four groups separated by dots.
pub(crate) fn read(text: &[u8]) -> Option<u32>
    ensures { result ≡ number_of_text text.now }
{
    let (first, rest) = group_before_dot(text)?;
    let (second, rest) = group_before_dot(rest)?;
    let (third, rest) = group_before_dot(rest)?;
    let fourth = group(rest)?;
    Some(u32::from_be_bytes([first, second, third, fourth]))
}

// The octet of the group before the first dot, and the text after the dot.
fn group_before_dot(text: &[u8]) -> Option<(u8, &[u8])>
    ensures read { IfSome result (λ read.
        map group_of (parts 46 text.now) ≡ Some read.0 ∷ map group_of (parts 46 read.1.now)) }
    ensures refused { IfNone result (HasNoGroupBeforeDot (map group_of (parts 46 text.now))) }
{
    let (digits, rest) = split_once(text, b'.');
    let rest = rest?;
    let octet = group(digits)?;
    Some((octet, rest))
}

// The octet of one to three digits.
fn group(digits: &[u8]) -> Option<u8>
    ensures { result ≡ group_of digits.now }
{
    if digits.is_empty() || digits.len() > 3 {
        return None;
    }
    let mut value = 0;
    for digit in digits {
        if !digit.is_ascii_digit() {
            return None;
        }
        value = value * 10 + u32::from(*digit - b'0');
    }
    u8::try_from(value).ok()
}

// Appends the text of an address, its groups without leading zeros.
#[tactic(auto, using(crate::proofs::Dotted::octet_digits))]
pub(crate) fn write(number: u32, out: &mut Vec<u8>) -> Result<(), AllocError>
    ensures ok { OnOk result (out.new.items ≡ out.old.items ++ text_of_number number) }
    ensures err { OnErr result (out.new.items ≡ out.old.items) }
    ensures capacity { vec_capacity out.old ≤ vec_capacity out.new }
    ensures succeeds { vec_len out.old + length (text_of_number number) ≤ vec_capacity out.old
        → IsOk result }
    ensures short { length (text_of_number number) ≤ 15 }
{
    let number = u64::from(number);
    // The groups are written from the last one on, over dots.
    let mut text = [b'.'; MAX_TEXT_LEN];
    let fourth = write_digits(number % 256, &mut text, MAX_TEXT_LEN);
    let third = write_digits(number / 256 % 256, &mut text, fourth - 1);
    let second = write_digits(number / 65536 % 256, &mut text, third - 1);
    let first = write_digits(number / 16777216, &mut text, second - 1);
    out.extend_from_slice(&text[first..])
}
