//! What the values of the daemon's own settings are read as.
use super::document::Setting;
use super::{Clocks, Entrance, OnFailure};
use sipl_config::Row;
use sipl_listen::Address;
use sipl_log::Verbosity;
use std::alloc::{AllocError, Global};
use toml::Value;

// The greatest permissions of a file.
const MAX_MODE: u32 = 0o777;

impl Setting for u64 {
    fn read(_: Global, row: &Row, value: &Value) -> Result<Option<u64>, AllocError> {
        Ok(row.number(value))
    }

    fn stand_in(_: Global) -> u64 {
        0
    }
}

impl Setting for usize {
    fn read(_: Global, row: &Row, value: &Value) -> Result<Option<usize>, AllocError> {
        Ok(
            row.number(value)
                .and_then(|number| usize::try_from(number).ok()),
        )
    }

    fn stand_in(_: Global) -> usize {
        0
    }
}

// The permissions of a file.
impl Setting for u32 {
    fn read(_: Global, _: &Row, value: &Value) -> Result<Option<u32>, AllocError> {
        Ok(mode(value))
    }

    fn stand_in(_: Global) -> u32 {
        0
    }
}

// A path, which is not empty.
impl Setting for String {
    fn read(alloc: Global, _: &Row, value: &Value) -> Result<Option<String>, AllocError> {
        match value.as_str() {
            Some(text) if !text.is_empty() && !text.contains('\0') => {
                Ok(Some(String::from_str(alloc, text)?))
            }
            _ => Ok(None),
        }
    }

    fn stand_in(alloc: Global) -> String {
        String::new(alloc)
    }
}

impl Setting for Clocks {
    fn read(_: Global, _: &Row, value: &Value) -> Result<Option<Clocks>, AllocError> {
        Ok(match value.as_str() {
            Some("host") => Some(Clocks::Host),
            Some("lines") => Some(Clocks::Lines),
            _ => None,
        })
    }

    fn stand_in(_: Global) -> Clocks {
        Clocks::Host
    }
}

impl Setting for OnFailure {
    fn read(_: Global, _: &Row, value: &Value) -> Result<Option<OnFailure>, AllocError> {
        Ok(match value.as_str() {
            Some("end") => Some(OnFailure::End),
            Some("read") => Some(OnFailure::Read),
            _ => None,
        })
    }

    fn stand_in(_: Global) -> OnFailure {
        OnFailure::End
    }
}

// Whether the end of standard input ends the daemon.
impl Setting for bool {
    fn read(_: Global, _: &Row, value: &Value) -> Result<Option<bool>, AllocError> {
        Ok(match value.as_str() {
            Some("stop") => Some(true),
            Some("ignore") => Some(false),
            _ => None,
        })
    }

    fn stand_in(_: Global) -> bool {
        false
    }
}

impl Setting for Verbosity {
    fn read(_: Global, _: &Row, value: &Value) -> Result<Option<Verbosity>, AllocError> {
        Ok(match value.as_str() {
            Some(word) => Verbosity::from_text(word),
            None => None,
        })
    }

    fn stand_in(_: Global) -> Verbosity {
        Verbosity::Off
    }
}

// An address, or a table of it and its mode.
impl Setting for Entrance {
    fn read(alloc: Global, _: &Row, value: &Value) -> Result<Option<Entrance>, AllocError> {
        read_entrance(alloc, value)
    }

    fn stand_in(alloc: Global) -> Entrance {
        Entrance {
            address: Address::Unix(String::new(alloc)),
            mode: None,
        }
    }
}

// A list of addresses.
impl Setting for Vec<Entrance> {
    fn read(alloc: Global, row: &Row, value: &Value) -> Result<Option<Vec<Entrance>>, AllocError> {
        let Some(words) = value.as_array() else {
            return Ok(None);
        };
        if words.len() < row.least() {
            return Ok(None);
        }
        let mut entrances = Vec::new(alloc);
        for word in words {
            match read_entrance(alloc, word)? {
                Some(entrance) => entrances.push(entrance)?,
                None => return Ok(None),
            }
        }
        Ok(Some(entrances))
    }

    fn stand_in(alloc: Global) -> Vec<Entrance> {
        Vec::new(alloc)
    }
}

// The permissions of a file.
fn mode(value: &Value) -> Option<u32> {
    let number = u32::try_from(value.as_integer()?).ok()?;
    if number > MAX_MODE {
        return None;
    }
    Some(number)
}

fn address(alloc: Global, value: &Value) -> Result<Option<Address>, AllocError> {
    match value.as_str() {
        Some(text) => Address::from_text(alloc, text),
        None => Ok(None),
    }
}

// An address, or a table of it and its mode.
fn read_entrance(alloc: Global, value: &Value) -> Result<Option<Entrance>, AllocError> {
    let Some(table) = value.as_table() else {
        return Ok(address(alloc, value)?.map(|address| Entrance {
            address,
            mode: None,
        }));
    };
    let (Some(at), Some(own)) = (table.get("at"), table.get("mode")) else {
        return Ok(None);
    };
    match (address(alloc, at)?, mode(own)) {
        (Some(Address::Unix(path)), Some(mode)) if table.len() == 2 => Ok(Some(Entrance {
            address: Address::Unix(path),
            mode: Some(mode),
        })),
        _ => Ok(None),
    }
}
