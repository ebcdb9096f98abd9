ghost use Rattle.std.specs.Prelude.{◌≡◌, ◌<◌, ◌≤◌, length, IfSome};
ghost use Rattle.sipl_names.specs.Escapes.{escape_of, decimal_escape};

/// Reads what follows a backslash (RFC 1035, 5.1): the octet that the escape denotes, and how many
/// octets of the text it takes. Three digits up to 255 denote the octet of that number, and an
/// octet that is not a digit denotes itself. None where neither follows.
pub fn read_escape(text: &[u8]) -> Option<(u8, usize)>
    ensures value { result ≡ escape_of text.now }
    ensures some { IfSome result (λ escape. 0 < escape.1) }
    ensures within { IfSome result (λ escape. escape.1 ≤ length text.now) }
{
    let first = text.first()?;
    if first.is_ascii_digit() {
        read_decimal(text)
    } else {
        Some((*first, 1))
    }
}

// The octet that three digits denote.
fn read_decimal(text: &[u8]) -> Option<(u8, usize)>
    ensures value { result ≡ decimal_escape text.now }
    ensures within { IfSome result (λ escape. (escape.1 ≡ 3) × (3 ≤ length text.now)) }
{
    let [a, b, c, ..] = text else {
        return None;
    };
    if !(a.is_ascii_digit() && b.is_ascii_digit() && c.is_ascii_digit()) {
        return None;
    }
    let number = u16::from(*a - b'0') * 100 + u16::from(*b - b'0') * 10 + u16::from(*c - b'0');
    if number > 255 {
        return None;
    }
    Some((number as u8, 3))
}
