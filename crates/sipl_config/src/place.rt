//! Where the fault of a TOML document is.
ghost use Rattle.std.specs.Prelude.{◌≡◌, ◌==◌, IfOk, count_by, string_bytes, take};
ghost use Rattle.sipl_config.specs.Places.{IsKeyFault, IsTextFault, line_number};

use std::alloc::{AllocError, Global};
use toml::de::Error;

/// What is said of a text that is not a TOML document: `PATH:LINE: G1: CAUSE`.
pub fn text_fault(alloc: Global, path: &str, text: &str) -> Result<String, AllocError>
    ensures { IfOk result (λ told. IsTextFault path.now text.now (string_bytes told)) }
{
    let Err(error) = toml::table_from_str(alloc, text) else {
        return format!(in alloc; "{path}: G1");
    };
    error_text(alloc, path, text, &error)
}

// What is said of the error of a text that is not a TOML document.
fn error_text(alloc: Global, path: &str, text: &str, error: &Error) -> Result<String, AllocError>
    ensures { IfOk result (λ told. IsTextFault path.now text.now (string_bytes told)) }
{
    let line = line_at(text.as_bytes(), place_of(error));
    format!(in alloc; "{path}:{line}: G1: {}", error.message())
}

// The octet of a text at which an error is.
fn place_of(error: &Error) -> usize {
    match error.span() {
        Some(span) => span.start,
        None => 0,
    }
}

/// What is said of a key that is refused in a TOML document: `PATH:LINE: KEY: CODE: ALLOWED`.
pub fn key_fault(
    alloc: Global,
    path: &str,
    text: &str,
    key: &str,
    code: &str,
    allowed: &str,
) -> Result<String, AllocError>
    ensures { IfOk result (λ told. IsKeyFault path.now key.now code.now allowed.now
        (string_bytes told)) }
{
    match line_of_key(alloc, text, key) {
        Some(line) => format!(in alloc; "{path}:{line}: {key}: {code}: {allowed}"),
        None => format!(in alloc; "{path}: {key}: {code}: {allowed}"),
    }
}

// The number of the line with the octet at a place.
fn line_at(text: &[u8], place: usize) -> u64
    ensures { result ≡ line_number text.now place }
{
    (count_line_ends(before(text, place)) as u64).saturating_add(1)
}

// The octets of a text before a place, or all of them.
#[tactic(auto, using(std::proofs::lemmas::List::take_all))]
fn before(text: &[u8], place: usize) -> &[u8]
    ensures { result.now ≡ take place text.now }
{
    match text.get(..place) {
        Some(before) => before,
        None => text,
    }
}

fn count_line_ends(text: &[u8]) -> usize
    ensures { result ≡ count_by (λ octet. octet == 10) text.now }
{
    text.iter().filter(|octet| **octet == b'\n').count()
}

// The number of the line at which the value of a key begins, in a TOML document. It is the line after the
// longest document before it: a part of a text is a document, but where it ends within a value.
fn line_of_key(alloc: Global, text: &str, key: &str) -> Option<u64> {
    let (mut end, mut line, mut begin) = (0usize, 0u64, 1u64);
    for piece in text.split_inclusive('\n') {
        end = end.saturating_add(piece.len());
        line = line.saturating_add(1);
        let Ok(table) = toml::table_from_str(alloc, text.get(..end)?) else {
            continue;
        };
        if table.contains_key(key) {
            return Some(begin);
        }
        begin = line.saturating_add(1);
    }
    None
}
