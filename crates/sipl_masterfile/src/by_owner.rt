ghost use Rattle.std.specs.Prelude.{◌≡◌, ℕ, nat_eq, [], ◌∷◌, ◌++◌, ◌<◌, ◌+◌, ◌^◌, ◌||◌, if◌then◌else◌, Some, length, vec_len, vec_capacity, count_by, IfOk, OnOk, OnErr};
ghost use Rattle.std.specs.Option.{unwrap_or};
ghost use Rattle.indexmap.specs.IndexMap.{get, IsUnchanged};
ghost use Rattle.std.specs.List.{list_any};
ghost use Rattle.sipl_records.specs.Sets.{conflicts, same_record, shares_set};

use indexmap::IndexMap;
use sipl_records::{Record, name_code};
use std::alloc::{AllocError, Global};
use std::marker::Model;

// Records in the order of addition, with a table by which those of one owner are found.
//
// The end of a code is how many records there are up to the last one whose owner has it, 0 if there
// is none. The table has it for each code, and beside each record is the end of its owner's code
// among those before it: so the records of an owner, and the few of others that have its code, are
// found from the last one to the first, and no name is kept twice.
#[derive(Drop)]
pub(crate) struct RecordsByOwner {
    records: Vec<Record>,
    earlier: Vec<usize>,
    ends: IndexMap<u32, usize>,
}

impl Model for RecordsByOwner {
    ghost use Rattle.std.specs.Prelude.{List};
    ghost use Rattle.sipl_records.specs.declared.record.Record.{Record};

    ghost Value = { List Record };

    ghost use Rattle.indexmap.specs.IndexMap.{get};
    ghost use Rattle.std.specs.Prelude.{nat_eq};
    ghost use Rattle.sipl_masterfile.specs.ByOwner.{IsIndexed};

    ghost view = { λ s. s.records.items };

    ghost invariant = { λ s. IsIndexed s.records.items s.earlier.items (get nat_eq s.ends) };
}

// What the records are to a new one.
#[derive(Clone, Copy)]
pub(crate) struct Comparison {
    // Whether one of them is equal to the new one.
    pub(crate) is_repeated: bool,
    // Whether one of them conflicts with it.
    pub(crate) conflicts: bool,
    // How many of them are in its set.
    pub(crate) set_len: usize,
}

impl RecordsByOwner {
    pub(crate) fn new(alloc: Global) -> Self
        ensures { result ≡ [] }
    {
        RecordsByOwner {
            records: Vec::new(alloc),
            earlier: Vec::new(alloc),
            ends: IndexMap::new(alloc),
        }
    }

    // Appends a record.
    pub(crate) fn push(&mut self, new: Record) -> Result<(), AllocError>
        ensures ok { OnOk result (self.new ≡ self.old ++ new ∷ []) }
        ensures err { OnErr result (self.new ≡ self.old) }
    {
        link(
            &mut self.records,
            &mut self.earlier,
            &mut self.ends,
            name_code(&new.owner),
        )?;
        self.records.push_reserved(new);
        Ok(())
    }

    // The records, in the order of addition.
    pub(crate) fn into_records(self) -> Vec<Record>
        ensures { result.items ≡ self }
    {
        let RecordsByOwner { records, .. } = self;
        records
    }

    // Compares a new record with those of its owner's code, from the last one to the first.
    pub(crate) fn compare(&self, new: &Record) -> Comparison
        ensures repeated { result.is_repeated ≡ list_any (same_record new.now) self.now }
        ensures conflicts { result.conflicts ≡ list_any (conflicts new.now) self.now }
        ensures set_len { result.set_len ≡ count_by (shares_set new.now) self.now }
    {
        let mut found = Comparison {
            is_repeated: false,
            conflicts: false,
            set_len: 0,
        };
        let mut end = self.ends.get(&name_code(&new.owner)).copied().unwrap_or(0);
        while end > 0 {
            let other = &self.records[end - 1];
            found = found.with(new, other);
            end = self.earlier[end - 1];
        }
        found
    }
}

// Reserves space for one more record, and adds what the table and the ends beside the records have
// of it, whose owner has this code.
fn link(
    records: &mut Vec<Record>,
    earlier: &mut Vec<usize>,
    ends: &mut IndexMap<u32, usize>,
    code: u32,
) -> Result<(), AllocError>
    ensures space { OnOk result (vec_len records.new < vec_capacity records.new) }
    ensures records { records.new.items ≡ records.old.items }
    ensures earlier { OnOk result (earlier.new.items
        ≡ earlier.old.items ++ unwrap_or (get nat_eq ends.old code) 0 ∷ []) }
    ensures ends { OnOk result ((other : ℕ) → get nat_eq ends.new other
        ≡ (if nat_eq code other then Some (length records.old.items + 1)
        else get nat_eq ends.old other)) }
    ensures earlier_left { OnErr result (earlier.new.items ≡ earlier.old.items) }
    ensures ends_left { OnErr result (IsUnchanged ends.old ends.new) }
{
    records.reserve(1)?;
    earlier.reserve(1)?;
    let end = replace_end(ends, code, records.len() + 1)?;
    earlier.push_reserved(end);
    Ok(())
}

// Sets the end of a code, and returns the one that it had, 0 if it had none.
fn replace_end(ends: &mut IndexMap<u32, usize>, code: u32, end: usize) -> Result<usize, AllocError>
    ensures earlier { IfOk result
        (λ earlier. earlier ≡ unwrap_or (get nat_eq ends.old code) 0) }
    ensures ends { OnOk result ((other : ℕ) → get nat_eq ends.new other
        ≡ (if nat_eq code other then Some end else get nat_eq ends.old other)) }
    ensures unchanged { OnErr result (IsUnchanged ends.old ends.new) }
{
    Ok(ends.insert(code, end)?.unwrap_or(0))
}

impl Comparison {
    // The comparison with one record more.
    fn with(self, new: &Record, other: &Record) -> Comparison
        requires { self.set_len < 2 ^ 63 }
        ensures repeated { result.is_repeated ≡ (same_record new.now other.now || self.is_repeated) }
        ensures conflicts { result.conflicts ≡ (conflicts new.now other.now || self.conflicts) }
        ensures set_len { result.set_len
            ≡ (if shares_set new.now other.now then 1 else 0) + self.set_len }
    {
        Comparison {
            is_repeated: new == other || self.is_repeated,
            conflicts: new.conflicts_with(other) || self.conflicts,
            set_len: new.shares_set(other) as usize + self.set_len,
        }
    }
}
