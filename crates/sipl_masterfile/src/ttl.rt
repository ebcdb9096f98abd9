//! Times to live in text: seconds (RFC 1035, 5.1), or durations with units.
ghost use Rattle.std.specs.Prelude.{◌≡◌, ◌<◌, ◌≤◌, true, not, [], ◌∷◌, length, Some, None, IfSome, IfNone};
ghost use Rattle.std.specs.Char.{is_ascii_digit};
ghost use Rattle.std.specs.List.{position};
ghost use Rattle.std.specs.Str.{all_ascii_digits};
ghost use Rattle.sipl_masterfile.specs.Ttl.{ttl_of, ttl_of_durations, sum_of, durations, unit_of, BeginsWithDuration};

use sipl_records::read_number;

// The maximum time to live, in seconds (RFC 2181, 8).
const MAX_TTL: u64 = 2_147_483_647;

// The seconds of a time to live: only digits, or one or more durations as `1h30m`, whose sum is at
// most 2^31 - 1.
pub(crate) fn read_ttl(text: &[u8]) -> Option<u64>
    ensures { result ≡ ttl_of text.now }
{
    read_number(text, MAX_TTL).or_else(|| read_durations(text))
}

// The sum of one or more durations.
fn read_durations(text: &[u8]) -> Option<u64>
    ensures { result ≡ ttl_of_durations text.now }
{
    if text.is_empty() {
        return None;
    }
    let mut sum = 0;
    let mut rest = text;
    while !rest.is_empty() {
        let (seconds, tail) = read_duration(rest)?;
        sum += seconds;
        if sum > MAX_TTL {
            return None;
        }
        rest = tail;
    }
    Some(sum)
}

// The seconds of the digits and the unit at the text's beginning, and the text after them. None
// also where the seconds are over the maximum.
fn read_duration(text: &[u8]) -> Option<(u64, &[u8])>
    requires { 0 < length text.now }
    ensures read { IfSome result (λ next. BeginsWithDuration text.now next.0 next.1.now) }
    ensures refused { IfNone result
        (IfSome (sum_of (durations text.now)) (λ sum. 2147483647 < sum)) }
{
    let (digits, unit, rest) = split_duration(text)?;
    let number = read_number(digits, MAX_TTL)?;
    Some((number * unit_of(unit)?, rest))
}

// The digits before the first octet that is not a digit, that octet, and the text after it.
fn split_duration(text: &[u8]) -> Option<(&[u8], u8, &[u8])>
    requires { 0 < length text.now }
    ensures split { IfSome result (λ parts.
        durations text.now ≡ (parts.0.now, Some parts.1) ∷ durations parts.2.now) }
    ensures digits { IfSome result (λ parts. all_ascii_digits parts.0.now ≡ true) }
    ensures shorter { IfSome result (λ parts. length parts.2.now < length text.now) }
    ensures none { IfNone result (durations text.now ≡ (text.now, None) ∷ []) }
{
    let end = unit_position(text)?;
    Some((&text[..end], text[end], &text[end + 1..]))
}

// Where the first octet that is not a digit is.
fn unit_position(text: &[u8]) -> Option<usize>
    ensures { result ≡ position (λ octet. not (is_ascii_digit octet)) text.now }
{
    text.iter().position(|octet| !octet.is_ascii_digit())
}

// The seconds of a unit, in either case.
fn unit_of(unit: u8) -> Option<u64>
    ensures value { result ≡ unit_of unit }
    ensures bounded { IfSome result (λ seconds. (1 ≤ seconds) × (seconds ≤ 604800)) }
{
    match unit {
        b's' | b'S' => Some(1),
        b'm' | b'M' => Some(60),
        b'h' | b'H' => Some(3_600),
        b'd' | b'D' => Some(86_400),
        b'w' | b'W' => Some(604_800),
        _ => None,
    }
}
