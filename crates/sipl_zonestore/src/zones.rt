//! The loaded zones as a value.
ghost use Rattle.std.specs.Prelude.{◌≡◌, IfOk};
ghost use Rattle.std.specs.Cmp.{partial_equiv_from_equiv};
ghost use Rattle.sipl_zonestore.specs.SameZones.{same_zones, same_zones-equivalence};

use crate::indexed_records::copy_records;
use sipl_names::Name;
use sipl_records::Record;
use std::alloc::{AllocError, Global};
use std::marker::Model;

/// The apexes of the loaded zones and their records, each in the order of addition.
#[derive(Drop)]
pub struct Zones {
    apexes: Vec<Name>,
    records: Vec<Record>,
}

impl Model for Zones {
    ghost use Rattle.sipl_zonestore.specs.Store.{Zones};

    ghost Value = { Zones };

    ghost view = { λ z. record { apexes = z.apexes.items; records = z.records.items } };
}

impl Zones {
    // Copies of these apexes and records. Linear in both.
    pub(crate) fn copied(
        alloc: Global,
        apexes: &[Name],
        records: &[Record],
    ) -> Result<Self, AllocError>
        ensures { IfOk result
            (λ zones. zones ≡ record { apexes = apexes.now; records = records.now }) }
    {
        Ok(Zones {
            apexes: copy_names(alloc, apexes)?,
            records: copy_records(alloc, records)?,
        })
    }

    // The zones of these apexes and records. Does not allocate.
    pub(crate) fn of(apexes: Vec<Name>, records: Vec<Record>) -> Self
        ensures { result ≡ record { apexes = apexes.items; records = records.items } }
    {
        Zones { apexes, records }
    }

    /// A copy. The only error is an allocation failure. Linear in the apexes and the records.
    pub fn dup(&self, alloc: Global) -> Result<Self, AllocError>
        ensures { IfOk result (λ copy. copy ≡ self.now) }
    {
        Zones::copied(alloc, &self.apexes, &self.records)
    }

    /// The apexes of the loaded zones, in the order of addition.
    pub fn apexes(&self) -> &[Name]
        ensures { result.now ≡ self.now.apexes }
    {
        &self.apexes
    }

    /// All records, in the order of addition.
    pub fn records(&self) -> &[Record]
        ensures { result.now ≡ self.now.records }
    {
        &self.records
    }
}

impl PartialEq for Zones {
    ghost eq = { same_zones };

    ghost laws = { partial_equiv_from_equiv same_zones-equivalence };

    fn eq(&self, other: &Zones) -> bool {
        self.apexes == other.apexes && self.records == other.records
    }
}

impl Eq for Zones {
    ghost laws = { same_zones-equivalence };
}

// Copies of the names.
fn copy_names(alloc: Global, names: &[Name]) -> Result<Vec<Name>, AllocError>
    ensures { IfOk result (λ copies. copies.items ≡ names.now) }
{
    let mut copies = Vec::with_capacity(alloc, names.len())?;
    for name in names {
        copies.push(name.dup(alloc)?)?;
    }
    Ok(copies)
}
