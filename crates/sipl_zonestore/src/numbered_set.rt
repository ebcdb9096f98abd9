//! A list of data with a number.
ghost use Rattle.std.specs.Prelude.{◌≡◌, OnOk, OnErr};
ghost use Rattle.sipl_zonestore.specs.Numbers.{is_empty};
ghost use Rattle.sipl_zonestore.specs.Content.{data_without, no_content, pushed, with_number, carried};

use sipl_records::Data;
use std::alloc::{AllocError, Global};
use std::marker::Model;

// The number and the data of a record set. The number says nothing where there are no data.
#[derive(Drop)]
pub(crate) struct NumberedSet {
    number: u64,
    values: Vec<Data>,
}

impl Model for NumberedSet {
    ghost use Rattle.sipl_zonestore.specs.Content.{Content};

    ghost Value = { Content };

    ghost view = { λ s. record { number = s.number; values = s.values.items } };
}

impl NumberedSet {
    // No data. Does not allocate.
    pub(crate) fn new(alloc: Global) -> Self
        ensures { result ≡ no_content }
    {
        NumberedSet {
            number: 0,
            values: Vec::new(alloc),
        }
    }

    // The number, 0 where the set is empty, and the data.
    pub(crate) fn get(&self) -> (u64, &[Data])
        ensures number { result.0 ≡ (carried self.now.number self.now.values).number }
        ensures values { result.1.now ≡ self.now.values }
    {
        let number = if self.values.is_empty() {
            0
        } else {
            self.number
        };
        (number, &self.values)
    }

    // Appends a datum to the set, which gets this number. Most sets have one datum, so no space is
    // kept for more.
    pub(crate) fn push(&mut self, number: u64, value: Data) -> Result<(), AllocError>
        ensures pushed { OnOk result (self.new ≡ pushed number value self.old) }
        ensures unchanged { OnErr result (self.new ≡ self.old) }
    {
        self.values.reserve_exact(1)?;
        self.values.push_reserved(value);
        self.number = number;
        Ok(())
    }

    // Removes a datum from the set.
    pub(crate) fn remove(&mut self, value: &Data)
        ensures { self.new ≡ data_without value.now self.old }
    {
        self.values.retain(|other| *value != *other);
    }

    // Numbers the set.
    pub(crate) fn set_number(&mut self, number: u64)
        ensures { self.new ≡ with_number number self.old }
    {
        self.number = number;
    }

    // Whether there is no datum.
    pub(crate) fn is_empty(&self) -> bool
        ensures { result ≡ is_empty self.now.values }
    {
        self.values.is_empty()
    }
}
