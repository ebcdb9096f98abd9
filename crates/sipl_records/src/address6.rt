//! IPv6 addresses in text (RFC 4291, 2.2).
ghost use Rattle.std.specs.Prelude.{◌≡◌, ◌+◌, ◌-◌, ◌*◌, ◌<◌, ◌≤◌, ◌^◌, ◌++◌, ◌∷◌, [], length, take, map, Some, None, IfSome, IfNone, OnOk, OnErr, IsOk, MatchOption, option_map, vec_capacity, vec_len, nat_le, if◌then◌else◌, ◌==◌};
ghost use Rattle.std.specs.Char.{digit_char};
ghost use Rattle.std.specs.Option.{option_copied};
ghost use Rattle.std.specs.Net.Text.{hex, leading_zero_digits};
ghost use Rattle.sipl_records.specs.Parts.{parts};
ghost use Rattle.sipl_records.specs.Ipv6.{hex_group_of, groups_of_text, last_groups_of, split_at_zeros, address6_of_text, groups_of_number, text_of_address6};
ghost use Rattle.sipl_records.specs.Ipv6Counts.{counted_after, IsBounded, IsPushed};

use crate::address::MAX_ADDRESS_TEXT_LEN;
use crate::address4;
use crate::split::split_once;
use std::alloc::AllocError;

// Groups read from the left: their number, and how many they are.
#[derive(Clone, Copy)]
struct Groups {
    number: u128,
    len: usize,
}

// The number of a text of eight groups separated by colons. One `::` stands for one or more groups
// of zero, and the last two groups may be written as an IPv4 address.
pub(crate) fn read(text: &[u8]) -> Option<u128>
    ensures { result ≡ address6_of_text text.now }
{
    let (left, right) = split_at_zeros(text);
    match right {
        None => read_groups(left, true)?.number_if_eight(),
        Some(right) => read_groups(left, false)?.number_around_zeros(read_groups(right, true)?),
    }
}

// The text before the first `::`, and the text after it, if there is one.
fn split_at_zeros(text: &[u8]) -> (&[u8], Option<&[u8]>)
    ensures before { result.0.now ≡ (split_at_zeros text.now).0 }
    ensures after { option_copied result.1 ≡ (split_at_zeros text.now).1 }
{
    for at in 0..text.len() {
        if text[at..].starts_with(b"::") {
            return (&text[..at], Some(&text[at + 2..]));
        }
    }
    (text, None)
}

// The groups of a text. Where it is allowed, the last two may be written as an IPv4 address.
fn read_groups(text: &[u8], ipv4: bool) -> Option<Groups>
    ensures read { option_map (λ g. (g.number, g.len)) result
        ≡ counted_after 0 0 (groups_of_text ipv4 text.now) }
    ensures bounded { IfSome result (λ g. IsBounded g.number g.len) }
{
    let mut groups = Groups { number: 0, len: 0 };
    if text.is_empty() {
        return Some(groups);
    }
    let mut rest = text;
    while let Some((part, after)) = part_before_colon(rest) {
        groups = groups.push(group(part)?)?;
        rest = after;
    }
    groups.push_last(rest, ipv4)
}

// The part before the first colon, and the text after it.
fn part_before_colon(text: &[u8]) -> Option<(&[u8], &[u8])>
    ensures parts { MatchOption result (parts 58 text.now ≡ text.now ∷ []) (λ cut.
        parts 58 text.now ≡ cut.0.now ∷ parts 58 cut.1.now) }
    ensures shorter { IfSome result (λ cut. length cut.1.now < length text.now) }
{
    let (part, rest) = split_once(text, b':');
    Some((part, rest?))
}

// The number of one to four hexadecimal digits.
fn group(digits: &[u8]) -> Option<u16>
    ensures { result ≡ hex_group_of digits.now }
{
    if digits.is_empty() || digits.len() > 4 {
        return None;
    }
    let mut value = 0;
    for digit in digits {
        value = value * 16 + char::from(*digit).to_digit(16)?;
    }
    Some(value as u16)
}

impl Groups {
    // These groups and one more, unless they are eight.
    fn push(self, group: u16) -> Option<Groups>
        requires { IsBounded self.number self.len }
        ensures full { IfNone result (8 ≤ self.len) }
        ensures pushed { IfSome result (λ g. IsPushed self.number self.len group g.number g.len) }
    {
        if self.len >= 8 {
            return None;
        }
        Some(Groups {
            number: self.number * 65536 + u128::from(group),
            len: self.len + 1,
        })
    }

    // These groups and those of the last part.
    fn push_last(self, part: &[u8], ipv4: bool) -> Option<Groups>
        requires { IsBounded self.number self.len }
        ensures read { option_map (λ g. (g.number, g.len)) result
            ≡ counted_after self.number self.len (last_groups_of ipv4 part.now) }
        ensures bounded { IfSome result (λ g. IsBounded g.number g.len) }
    {
        if let Some(group) = group(part) {
            return self.push(group);
        }
        if !ipv4 {
            return None;
        }
        let number = address4::read(part)?;
        self.push((number / 65536) as u16)?
            .push((number % 65536) as u16)
    }

    // The number of eight groups.
    fn number_if_eight(self) -> Option<u128>
        ensures { result ≡ (if self.len == 8 then Some self.number else None) }
    {
        (self.len == 8).then_some(self.number)
    }

    // The number of these groups, groups of zero up to eight, of which there is at least one, and
    // the groups to the right.
    fn number_around_zeros(self, right: Groups) -> Option<u128>
        requires left { IsBounded self.number self.len }
        requires right { IsBounded right.number right.len }
        ensures { result ≡ (if nat_le (self.len + right.len) 7
            then Some (self.number * 65536 ^ (8 - self.len) + right.number) else None) }
    {
        if self.len + right.len > 7 {
            return None;
        }
        let mut number = self.number;
        for _place in self.len..8 {
            number *= 65536;
        }
        Some(number + right.number)
    }
}

// Appends the text of an address: eight groups without leading zeros, and never `::`.
pub(crate) fn write(number: u128, out: &mut Vec<u8>) -> Result<(), AllocError>
    ensures ok { OnOk result (out.new.items ≡ out.old.items ++ text_of_address6 number) }
    ensures err { OnErr result (out.new.items ≡ out.old.items) }
    ensures capacity { vec_capacity out.old ≤ vec_capacity out.new }
    ensures succeeds { vec_len out.old + length (text_of_address6 number) ≤ vec_capacity out.old
        → IsOk result }
    ensures short { length (text_of_address6 number) ≤ 39 }
{
    let groups = groups_of(number);
    let mut text = [0; MAX_ADDRESS_TEXT_LEN];
    let mut end = write_group(groups[0], &mut text, 0);
    for group in &groups[1..] {
        text[end] = b':';
        end = write_group(*group, &mut text, end + 1);
    }
    out.extend_from_slice(&text[..end])
}

// The groups of an address, the highest first.
fn groups_of(number: u128) -> [u16; 8]
    ensures { result ≡ groups_of_number number }
{
    [
        (number / (1 << 112)) as u16,
        (number / (1 << 96) % 65536) as u16,
        (number / (1 << 80) % 65536) as u16,
        (number / (1 << 64) % 65536) as u16,
        (number / (1 << 48) % 65536) as u16,
        (number / (1 << 32) % 65536) as u16,
        (number / (1 << 16) % 65536) as u16,
        (number % 65536) as u16,
    ]
}

// Writes a group without leading zeros from this place of the text on, and returns where it ends.
fn write_group(group: u16, text: &mut [u8], start: usize) -> usize
    requires { start + 4 ≤ length text.old }
    ensures end { result ≤ start + 4 }
    ensures written { take result text.new ≡ take start text.old ++ hex group }
{
    let digits = [
        hex_digit(group / 0x1000),
        hex_digit(group / 0x100 % 16),
        hex_digit(group / 0x10 % 16),
        hex_digit(group % 16),
    ];
    let zeros = leading_zeros(group);
    let end = start + 4 - zeros;
    text[start..end].copy_from_slice(&digits[zeros..]);
    end
}

// How many of a group's four digits are leading zeros.
fn leading_zeros(group: u16) -> usize
    ensures value { result ≡ leading_zero_digits group }
    ensures within { result < 4 }
{
    match group {
        0x1000.. => 0,
        0x100.. => 1,
        0x10.. => 2,
        _ => 3,
    }
}

// The lower-case digit of this value.
fn hex_digit(value: u16) -> u8
    requires { value < 16 }
    ensures { result ≡ digit_char value }
{
    if value < 10 {
        b'0' + value as u8
    } else {
        b'a' + (value - 10) as u8
    }
}
