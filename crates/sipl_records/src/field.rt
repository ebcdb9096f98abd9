ghost use Rattle.std.specs.Prelude.{◌≡◌, ◌<◌, ◌∷◌, ◌++◌, [], length, MatchOption, IfSome};
ghost use Rattle.sipl_records.specs.Fields.{fields_of, trim_start, after_field, before_wsp, from_wsp, is_wsp};

use memchr::memchr2;

/// Takes the first field off a line whose fields are separated by spaces and tabs: the field, and
/// the rest of the line after it. `None` where the line has no field.
pub fn next_field(line: &[u8]) -> Option<(&[u8], &[u8])>
    ensures fields { MatchOption result (fields_of line.now ≡ [])
        (λ next. fields_of line.now ≡ next.0.now ∷ fields_of next.1.now) }
    ensures after { IfSome result (λ next. next.1.now ≡ after_field line.now) }
    ensures whole { IfSome result (λ next. trim_start line.now ≡ next.0.now ++ next.1.now) }
    ensures shorter { IfSome result (λ next. length next.1.now < length line.now) }
{
    let line = trim_start(line);
    if line.is_empty() {
        return None;
    }
    Some(split_at_wsp(line))
}

/// The line without the spaces and tabs at its start.
pub fn trim_start(line: &[u8]) -> &[u8]
    ensures { result.now ≡ trim_start line.now }
{
    let mut rest = line;
    while let [octet, tail @ ..] = rest {
        if !is_wsp(*octet) {
            break;
        }
        rest = tail;
    }
    rest
}

// The octets before the first space or tab, and the line from there on.
fn split_at_wsp(line: &[u8]) -> (&[u8], &[u8])
    ensures before { result.0.now ≡ before_wsp line.now }
    ensures from { result.1.now ≡ from_wsp line.now }
{
    let end = memchr2(b' ', b'\t', line).unwrap_or(line.len());
    line.split_at(end)
}

/// Whether the octet is a space or a tab, `WSP` in RFC 5234, B.1.
pub fn is_wsp(octet: u8) -> bool
    ensures { result ≡ is_wsp octet }
{
    octet == b' ' || octet == b'\t'
}
