//! The keys of the settings, in words, and the row of each.
ghost use Rattle.std.specs.Prelude.{◌≡◌, IfOk, is_some, map, string_bytes};
ghost use Rattle.std.specs.List.{list_any};
ghost use Rattle.sipl_config.specs.Keys.{daemon_key_list, in_words, is_among, separator_before, service_key_list};

use crate::rows::{DAEMON, Row, SERVICE};
use std::alloc::{AllocError, Global};

/// The keys of `run`, `world` and `serve`.
pub fn service_keys(alloc: Global) -> Result<String, AllocError>
    ensures { IfOk result (λ told. string_bytes told ≡ in_words service_key_list) }
{
    keys_in_words(alloc, &SERVICE)
}

/// The keys of the daemon.
pub fn daemon_keys(alloc: Global) -> Result<String, AllocError>
    ensures { IfOk result (λ told. string_bytes told ≡ in_words daemon_key_list) }
{
    keys_in_words(alloc, &DAEMON)
}

/// The setting of `run`, `world` and `serve` with a key. `None` where there is no such setting.
pub fn service_row(key: &str) -> Option<Row>
    ensures { is_some result ≡ is_among service_key_list key.now }
{
    row_at(&SERVICE, key)
}

/// The setting of the daemon with a key. `None` where there is no such setting.
pub fn daemon_row(key: &str) -> Option<Row>
    ensures { is_some result ≡ is_among daemon_key_list key.now }
{
    row_at(&DAEMON, key)
}

// The keys of rows, in words.
fn keys_in_words(alloc: Global, rows: &[Row]) -> Result<String, AllocError>
    ensures { IfOk result (λ told. string_bytes told ≡ in_words (map (λ row. row.key.now) rows.now)) }
{
    let mut told = String::new(alloc);
    for (place, row) in rows.iter().enumerate() {
        told.push_str(row.key)?;
        told.push_str(separator(&rows[place + 1..]))?;
    }
    Ok(told)
}

// What separates a key from those of the rows after it.
fn separator(rest: &[Row]) -> &'static str
    ensures { result.now ≡ separator_before (map (λ row. row.key.now) rest.now) }
{
    match rest {
        [] => "",
        [_] => " and ",
        _ => ", ",
    }
}

// The row of a key, if there is one.
fn row_at(rows: &[Row], key: &str) -> Option<Row>
    ensures { is_some result ≡ is_among (map (λ row. row.key.now) rows.now) key.now }
{
    for row in rows {
        if key == row.key {
            return Some(*row);
        }
    }
    None
}
