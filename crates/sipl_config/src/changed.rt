//! Which settings differ from the defaults.
use crate::keys::daemon_row;
use std::alloc::{AllocError, Global};
use std::fmt::Write as _;
use toml::Value;

/// The settings of the daemon in a TOML document that differ from the defaults: each key with the text of its
/// value.
pub fn changed_settings(alloc: Global, text: &str) -> Result<Vec<(String, String)>, AllocError> {
    let mut changed = Vec::new(alloc);
    let Ok(table) = toml::table_from_str(alloc, text) else {
        return Ok(changed);
    };
    for (key, value) in table {
        if !is_default(alloc, key.as_str(), &value)? {
            changed.push((key, value_text(alloc, &value)?))?;
        }
    }
    Ok(changed)
}

fn is_default(alloc: Global, key: &str, value: &Value) -> Result<bool, AllocError> {
    let default = match daemon_row(key) {
        Some(row) => row.default_value(alloc)?,
        None => None,
    };
    Ok(match default {
        Some(default) => default == *value,
        None => false,
    })
}

// The text of a value, without quotes; those of a list with commas.
fn value_text(alloc: Global, value: &Value) -> Result<String, AllocError> {
    let mut text = String::new(alloc);
    let Some(items) = value.as_array() else {
        write_value(&mut text, value)?;
        return Ok(text);
    };
    for item in items {
        if !text.is_empty() {
            text.push(',')?;
        }
        write_value(&mut text, item)?;
    }
    Ok(text)
}

// Appends a text, a number, or the address of a table of it and its mode.
fn write_value(out: &mut String, value: &Value) -> Result<(), AllocError> {
    if let Some(text) = value.as_str() {
        return out.push_str(text);
    }
    if let Some(number) = value.as_integer() {
        return write!(out, "{number}");
    }
    match value.get("at").and_then(|at| at.as_str()) {
        Some(address) => out.push_str(address),
        None => Ok(()),
    }
}
