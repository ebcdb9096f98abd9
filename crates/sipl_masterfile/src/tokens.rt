// The tokens of a master file's text (RFC 1035, 5.1).
ghost use Rattle.std.specs.Prelude.{◌≡◌, ◌<◌, ◌≤◌, false, [], ◌∷◌, length, IfSome, MatchOption};
ghost use Rattle.sipl_masterfile.specs.Tokens.{is_blank, ends_field, field_len, quoted_len, comment_len};
ghost use Rattle.sipl_masterfile.specs.Scanning.{BeginsWith};

use memchr::memchr;

// A field, or what separates and joins fields.
#[derive(Clone, Copy, Debug, PartialEq, Eq)]
pub(crate) enum Token<'a> {
    // A space, a tab or a CR.
    Blank,
    LineEnd,
    Opening,
    Closing,
    Comment,
    // Its octets, without the quotes and with the escapes unread.
    Field(&'a [u8]),
    // A quote that is not closed before the line's end, and all of the text after it.
    OpenQuote,
}

// The first token and the text after it; None at the text's end.
pub(crate) fn next_token(text: &[u8]) -> Option<(Token<'_>, &[u8])>
    ensures { MatchOption result (text.now ≡ []) (λ next. BeginsWith text.now next.0 next.1.now) }
{
    let (first, tail) = text.split_first()?;
    match *first {
        b' ' | b'\t' | b'\r' => Some((Token::Blank, tail)),
        b'\n' => Some((Token::LineEnd, tail)),
        b'(' => Some((Token::Opening, tail)),
        b')' => Some((Token::Closing, tail)),
        b';' => Some((Token::Comment, &tail[comment_len(tail)..])),
        b'"' => Some(quoted_field(tail)),
        octet => {
            let (field, rest) = text.split_at(1 + field_len(tail, octet == b'\\'));
            Some((Token::Field(field), rest))
        }
    }
}

// The quoted field whose quote has been read, and the text after it.
fn quoted_field(text: &[u8]) -> (Token<'_>, &[u8])
    ensures { BeginsWith (34 ∷ text.now) result.0 result.1.now }
{
    match quoted_len(text) {
        Some(len) => (Token::Field(&text[..len]), &text[len + 1..]),
        None => (Token::OpenQuote, &[]),
    }
}

// Whether the octet is a space, a tab or a CR.
pub(crate) fn is_blank(octet: u8) -> bool
    ensures { result ≡ is_blank octet }
{
    matches!(octet, b' ' | b'\t' | b'\r')
}

// Whether the octet ends a field, unless a backslash is before it.
fn ends_field(octet: u8) -> bool
    ensures { result ≡ ends_field octet }
{
    matches!(
        octet,
        b' ' | b'\t' | b'\r' | b'\n' | b'(' | b')' | b';' | b'"'
    )
}

// How many octets more a field has that has begun, maybe with a backslash at last.
fn field_len(text: &[u8], mut is_escaped: bool) -> usize
    ensures value { result ≡ field_len is_escaped text.now }
    ensures within { result ≤ length text.now }
{
    for (len, octet) in text.iter().enumerate() {
        if *octet == b'\n' || !is_escaped && ends_field(*octet) {
            return len;
        }
        is_escaped = !is_escaped && *octet == b'\\';
    }
    text.len()
}

// How many octets come before the quote that closes a quoted field; None where the line ends first.
fn quoted_len(text: &[u8]) -> Option<usize>
    ensures value { result ≡ quoted_len false text.now }
    ensures within { IfSome result (λ len. len < length text.now) }
{
    let mut is_escaped = false;
    for (len, octet) in text.iter().enumerate() {
        if *octet == b'\n' {
            return None;
        }
        if !is_escaped && *octet == b'"' {
            return Some(len);
        }
        is_escaped = !is_escaped && *octet == b'\\';
    }
    None
}

// How many octets come before the line's end.
fn comment_len(text: &[u8]) -> usize
    ensures value { result ≡ comment_len text.now }
    ensures within { result ≤ length text.now }
{
    memchr(b'\n', text).unwrap_or(text.len())
}
