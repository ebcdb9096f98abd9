ghost use Rattle.std.specs.Prelude.{◌≡◌, ◌≢◌, ◌+◌, ◌-◌, ◌^◌, ◌<◌, ◌≤◌, true, false, IfOk, IfErr, OnOk, OnErr, Ok, Err};
ghost use Rattle.sipl_masterfile.specs.Intake.{Fits, IsLeftOut};
ghost use Rattle.sipl_masterfile.specs.Zones.{IsZone, empty_zone, take_in};

use crate::by_owner::RecordsByOwner;
use crate::fault::ZoneCause;
use crate::zone::ZoneText;
use sipl_names::Name;
use sipl_records::{MAX_SET_LEN, Record};
use std::alloc::{AllocError, Global};
use std::marker::Model;

// A zone whose records are taken in one by one.
#[derive(Drop)]
pub(crate) struct Intake {
    apex: Name,
    records: RecordsByOwner,
    outside: u64,
    repeated: u64,
}

impl Model for Intake {
    ghost use Rattle.sipl_masterfile.specs.Zones.{Zone};
    ghost use Rattle.sipl_masterfile.specs.Intake.{state_of, IsIntake};

    ghost Value = { Zone };

    ghost view = { state_of };

    ghost invariant = { IsIntake };
}

impl Intake {
    pub(crate) fn new(alloc: Global, apex: Name) -> Self
        ensures { result ≡ empty_zone apex }
    {
        Intake {
            apex,
            records: RecordsByOwner::new(alloc),
            outside: 0,
            repeated: 0,
        }
    }

    // Takes a record in. Constant time on average, whatever was taken in before.
    pub(crate) fn take_in(&mut self, alloc: Global, new: Record) -> Result<(), ZoneCause>
        requires { self.old.outside + self.old.repeated < 2 ^ 64 - 1 }
        ensures taken { OnOk result (take_in new self.old ≡ Ok self.new) }
        ensures left_out { OnOk result (self.new.outside + self.new.repeated
            ≤ self.old.outside + self.old.repeated + 1) }
        ensures refused { IfErr result
            (λ cause. cause ≢ ZoneCause.Memory → take_in new self.old ≡ Err cause) }
        ensures unchanged { OnErr result (self.new ≡ self.old) }
    {
        if !self.is_new(&new)? {
            return Ok(());
        }
        Ok(self.records.push(new)?)
    }

    // Whether a record is to be appended. One that is left out is counted.
    fn is_new(&mut self, new: &Record) -> Result<bool, ZoneCause>
        requires { self.old.outside + self.old.repeated < 2 ^ 64 - 1 }
        ensures fits { IfOk result (λ is_new. is_new ≡ true → Fits new.now self.old self.new) }
        ensures left_out { IfOk result
            (λ is_new. is_new ≡ false → IsLeftOut new.now self.old self.new) }
        ensures refused { IfErr result (λ cause. take_in new.now self.old ≡ Err cause) }
        ensures unchanged { OnErr result (self.new ≡ self.old) }
    {
        if !new.owner.is_within(&self.apex) {
            self.outside += 1;
            return Ok(false);
        }
        let found = self.records.compare(new);
        if found.is_repeated {
            self.repeated += 1;
            return Ok(false);
        }
        if found.conflicts {
            return Err(ZoneCause::AliasBesideData);
        }
        if found.set_len >= MAX_SET_LEN {
            return Err(ZoneCause::SetFull);
        }
        Ok(true)
    }

    // The zone of the records that were taken in.
    pub(crate) fn into_zone(self, alloc: Global) -> Result<ZoneText, AllocError>
        ensures { IfOk result (λ zone. zone ≡ self) }
    {
        let Intake {
            apex,
            records,
            outside,
            repeated,
        } = self;
        ZoneText::new(alloc, apex, records.into_records(), outside, repeated)
    }
}
