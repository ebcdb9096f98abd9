//! A TOML document, out of which the settings are taken.
ghost use Rattle.std.specs.Prelude.{IfOk};
ghost use Rattle.sipl_lines.specs.Settings.{IsWithinLimits};

use sipl_config::Row;
use sipl_lines::{Settings, SettingsFault, read_table};
use std::alloc::{AllocError, Global};
use toml::{Table, Value};

/// What the value of a setting is read as.
pub(super) trait Setting: Drop {
    /// Reads a value, if the setting allows it.
    fn read(alloc: Global, row: &Row, value: &Value) -> Result<Option<Self>, AllocError>
    where
        Self: Sized;

    /// What stands for a value that was not read, since a setting is refused.
    fn stand_in(alloc: Global) -> Self
    where
        Self: Sized;
}

/// The settings of a document that have not been taken out yet, and the fault of the first that was refused:
/// after it none is read, and what is taken out is of no use.
#[derive(Drop)]
pub(super) struct Document {
    alloc: Global,
    table: Table,
    fault: Option<SettingsFault>,
}

impl Document {
    /// All settings of a TOML document.
    pub(super) fn from_toml(alloc: Global, text: &str) -> Result<Document, SettingsFault> {
        let table = read_table(alloc, text)?;
        Ok(Document {
            alloc,
            table,
            fault: None,
        })
    }

    /// Takes out the value of a setting that has a default.
    pub(super) fn take<T: Setting>(&mut self, row: &Row) -> T {
        match self.take_if_any(row) {
            Some(value) => value,
            None => {
                if self.fault.is_none() {
                    self.fault = Some(bad_value(self.alloc, row));
                }
                T::stand_in(self.alloc)
            }
        }
    }

    /// Takes out the value of a setting, or else takes its default, if it has one.
    pub(super) fn take_if_any<T: Setting>(&mut self, row: &Row) -> Option<T> {
        if self.fault.is_some() {
            return None;
        }
        match self.read(row) {
            Ok(value) => value,
            Err(fault) => {
                self.fault = Some(fault);
                None
            }
        }
    }

    /// The settings that `serve` has too, but for `sessions`, of what has not been taken out. The fault is
    /// that of the first setting that was refused.
    pub(super) fn take_service(self) -> Result<Settings, SettingsFault>
        ensures { IfOk result (λ settings. IsWithinLimits settings) }
    {
        let Document {
            alloc,
            table,
            fault,
        } = self;
        match fault {
            Some(fault) => {
                drop(table);
                Err(fault)
            }
            None => service_of(alloc, table),
        }
    }

    // Takes out and reads the value of a setting, or else its default, if it has one.
    fn read<T: Setting>(&mut self, row: &Row) -> Result<Option<T>, SettingsFault> {
        let value = match self.table.remove(row.key) {
            Some(value) => Some(value),
            None => row.default_value(self.alloc)?,
        };
        match &value {
            Some(value) => read_value(self.alloc, row, value),
            None => Ok(None),
        }
    }
}

// Reads the value of a setting.
fn read_value<T: Setting>(
    alloc: Global,
    row: &Row,
    value: &Value,
) -> Result<Option<T>, SettingsFault> {
    match T::read(alloc, row, value)? {
        Some(read) => Ok(Some(read)),
        None => Err(bad_value(alloc, row)),
    }
}

// The settings that `serve` has too, but for `sessions`, of a table.
fn service_of(alloc: Global, table: Table) -> Result<Settings, SettingsFault>
    ensures { IfOk result (λ settings. IsWithinLimits settings) }
{
    if table.contains_key("sessions") {
        drop(table);
        return Err(SettingsFault::UnknownKey(String::from_str(alloc, "sessions")?));
    }
    Settings::from_table(alloc, table)
}

// The fault of a setting that does not allow its value.
fn bad_value(alloc: Global, row: &Row) -> SettingsFault {
    match String::from_str(alloc, row.key) {
        Ok(key) => SettingsFault::BadValue(key),
        Err(_) => SettingsFault::Memory,
    }
}
