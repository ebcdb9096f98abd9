ghost use Rattle.std.specs.Prelude.{◌≡◌, ◌≢◌, IfOk, IfErr, Ok, Err};
ghost use Rattle.std.specs.Cmp.{partial_equiv_from_equiv};
ghost use Rattle.sipl_masterfile.specs.SameZone.{same_zone, same_zone-equivalence};
ghost use Rattle.sipl_masterfile.specs.Zones.{IsZone, zone_of};
ghost use Rattle.sipl_masterfile.specs.ZoneText.{zone_with};

use crate::fault::{ZoneCause, ZoneFault};
use crate::reading::Reading;
use sipl_names::Name;
use sipl_records::Record;
use std::alloc::{AllocError, Global};
use std::marker::Model;
use std::sync::Arc;

/// A zone's records, read from its text (RFC 1035, 5.1): all owners are within the apex, no record
/// is there twice, and no set has more than 32 records. Copies share the records.
#[derive(Debug, Drop)]
pub struct ZoneText {
    apex: Name,
    records: Arc<Vec<Record>>,
    outside: u64,
    repeated: u64,
}

impl Model for ZoneText {
    ghost use Rattle.sipl_masterfile.specs.Zones.{Zone};
    ghost use Rattle.sipl_masterfile.specs.ZoneText.{state_of, IsZoneText};

    ghost Value = { Zone };

    ghost view = { state_of };

    ghost invariant = { IsZoneText };
}

impl ZoneText {
    // The zone of these records.
    pub(crate) fn new(
        alloc: Global,
        apex: Name,
        records: Vec<Record>,
        outside: u64,
        repeated: u64,
    ) -> Result<Self, AllocError>
        requires { IsZone (zone_with apex records.items outside repeated) }
        ensures { IfOk result (λ zone. zone ≡ zone_with apex records.items outside repeated) }
    {
        Ok(ZoneText {
            apex,
            records: Arc::new(alloc, records)?,
            outside,
            repeated,
        })
    }

    /// The zone's name.
    pub fn apex(&self) -> &Name
        ensures { result.now ≡ self.now.apex }
    {
        &self.apex
    }

    /// The zone's records, in the order of the text.
    pub fn records(&self) -> &[Record]
        ensures value { result.now ≡ self.now.records }
        ensures zone { IsZone self.now }
    {
        &self.records
    }

    /// How many records of the text were left out, since their owner is outside the apex.
    pub fn outside(&self) -> u64
        ensures { result ≡ self.now.outside }
    {
        self.outside
    }

    /// How many records of the text were left out, since they are repeated.
    pub fn repeated(&self) -> u64
        ensures { result ≡ self.now.repeated }
    {
        self.repeated
    }

    /// Shares the records of another zone, where it has equal ones, so that its own are dropped. Linear
    /// in the records. Does not allocate.
    pub fn share_records(&mut self, other: &ZoneText)
        ensures { self.new ≡ self.old }
    {
        if *self.records != *other.records {
            return;
        }
        if let Ok(records) = Arc::try_clone(&other.records) {
            self.records = records;
        }
    }

    /// A copy, which shares the records. The only error is an allocation failure (or 2^63 that share
    /// them). Linear in the length of the apex.
    pub fn dup(&self, alloc: Global) -> Result<Self, AllocError>
        ensures { IfOk result (λ copy. copy ≡ self.now) }
    {
        Ok(ZoneText {
            apex: self.apex.dup(alloc)?,
            records: Arc::try_clone(&self.records)?,
            outside: self.outside,
            repeated: self.repeated,
        })
    }
}

impl PartialEq for ZoneText {
    ghost eq = { same_zone };

    ghost laws = { partial_equiv_from_equiv same_zone-equivalence };

    fn eq(&self, other: &ZoneText) -> bool {
        self.apex == other.apex
            && *self.records == *other.records
            && self.outside == other.outside
            && self.repeated == other.repeated
    }
}

impl Eq for ZoneText {
    ghost laws = { same_zone-equivalence };
}

/// Reads a zone's text (RFC 1035, 5.1), whose origin is at first the apex. The entries are records
/// of class `IN` and the directives `$ORIGIN` and `$TTL`. Records are taken in in the order of the
/// text: one whose owner is outside the apex is left out and counted, and so is one that is repeated.
///
/// The fault is that of the first faulty entry, at the line on which it begins, where the first line
/// is 1. An allocation failure is at line 1. Linear in the length of the text, on average.
pub fn read_zone(alloc: Global, text: &[u8], apex: &Name) -> Result<ZoneText, ZoneFault>
    ensures read { IfOk result (λ zone. zone_of text.now apex.now ≡ Ok zone) }
    ensures refused { IfErr result
        (λ fault. fault.cause ≢ ZoneCause.Memory → zone_of text.now apex.now ≡ Err fault) }
    ensures memory { IfErr result (λ fault. fault.cause ≡ ZoneCause.Memory → fault.line ≡ 1) }
{
    let mut reading = Reading::new(alloc, apex)?;
    reading.read_text(alloc, text)?;
    Ok(reading.into_zone(alloc)?)
}
