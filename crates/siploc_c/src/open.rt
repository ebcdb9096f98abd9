ghost use Rattle.sipl_lines.specs.Settings.{IsWithinLimits};
ghost use Rattle.siploc_c.specs.Embedded.{OpensWith};

use crate::embedded::Embedded;
use crate::handle::Room;
use crate::status::Status;
use sipl_lines::Settings;
use std::alloc::Global;

/// Opens a session that had no octets, at a new book with these settings, and writes its address.
pub(crate) fn open_session(alloc: Global, settings: Settings, room: &mut Room) -> Status
    requires { IsWithinLimits settings }
    ensures { OpensWith settings room.old.value result room.new.value }
{
    match Embedded::boxed(alloc, settings) {
        Ok(embedded) => {
            room.fill(embedded);
            Status::Done
        }
        Err(_) => Status::Memory,
    }
}
