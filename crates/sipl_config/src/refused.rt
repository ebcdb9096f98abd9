//! What is said of a setting in a TOML document that is refused: `PATH:LINE: KEY: CODE: ALLOWED`.
ghost use Rattle.std.specs.Prelude.{◌≡◌, IfOk, codes, string_bytes};
ghost use Rattle.sipl_config.specs.Places.{IsKeyFault, allowed_of, no_such_key};

use crate::place::key_fault;
use crate::rows::Row;
use std::alloc::{AllocError, Global};

/// What is said of a key that is none of these, which are in words.
pub fn unknown_key(
    alloc: Global,
    path: &str,
    text: &str,
    key: &str,
    keys: &str,
) -> Result<String, AllocError>
    ensures { IfOk result (λ told. IsKeyFault path.now key.now (codes "G2") (no_such_key keys.now)
        (string_bytes told)) }
{
    let allowed = allowed_keys(alloc, keys)?;
    key_fault(alloc, path, text, key, "G2", allowed.as_str())
}

// What is allowed in place of a key that is none of these.
fn allowed_keys(alloc: Global, keys: &str) -> Result<String, AllocError>
    ensures { IfOk result (λ told. string_bytes told ≡ no_such_key keys.now) }
{
    format!(in alloc; "no such key; there are {keys}")
}

/// What is said of a key whose value is not allowed, of the setting with this row.
pub fn bad_value(
    alloc: Global,
    path: &str,
    text: &str,
    key: &str,
    row: Option<Row>,
) -> Result<String, AllocError>
    ensures { IfOk result (λ told. IsKeyFault path.now key.now (codes "G3") (allowed_of row)
        (string_bytes told)) }
{
    let allowed = allowed_in(alloc, row)?;
    key_fault(alloc, path, text, key, "G3", allowed.as_str())
}

// What the value of a setting may be, in words; nothing where there is no setting.
fn allowed_in(alloc: Global, row: Option<Row>) -> Result<String, AllocError>
    ensures { IfOk result (λ told. string_bytes told ≡ allowed_of row) }
{
    match row {
        Some(row) => row.allowed(alloc),
        None => Ok(String::new(alloc)),
    }
}
