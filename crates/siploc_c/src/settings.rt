ghost use Rattle.std.specs.Prelude.{◌≡◌, Ok, IfOk, IfErr};
ghost use Rattle.sipl_lines.specs.Settings.{IsWithinLimits, settings_of};
ghost use Rattle.siploc_c.specs.Whole.{RefusesSettings};

use crate::status::Status;
use sipl_lines::{Settings, SettingsFault};
use std::alloc::Global;

/// The settings of a text: a TOML document in UTF-8, as [`Settings::from_toml`] reads it.
pub(crate) fn read_settings(alloc: Global, text: &[u8]) -> Result<Settings, Status>
    ensures read { IfOk result (λ settings. settings_of text.now ≡ Ok settings) }
    ensures limits { IfOk result (λ settings. IsWithinLimits settings) }
    ensures refused { IfErr result (λ status. RefusesSettings text.now status) }
{
    let Ok(text) = str::from_utf8(text) else {
        return Err(Status::Settings);
    };
    match Settings::from_toml(alloc, text) {
        Ok(settings) => Ok(settings),
        Err(SettingsFault::Memory) => Err(Status::Memory),
        Err(SettingsFault::NotToml) => Err(Status::Settings),
        Err(SettingsFault::UnknownKey(_)) => Err(Status::Settings),
        Err(SettingsFault::BadValue(_)) => Err(Status::Settings),
    }
}
