//! Where record sets are read.
ghost use Rattle.std.specs.Prelude.{◌≡◌, IfOk};
ghost use Rattle.sipl_plans.specs.Readings.{KeepsSets, Source, after_look, number_at, set_at};
ghost use Rattle.sipl_plans.specs.Runs.{IsSet};

use sipl_records::{Data, Key, Sequence};
use std::alloc::AllocError;

/// Record sets that are read one at a time, with a count of the looks at them.
pub trait Sets {
    /// The number and the data of each key's set, and the state after a look at one.
    ghost source: { Source Self };

    /// A copy of the key's set, with its number: 0 and no data where it is empty. Counts one look, also
    /// where an allocation fails, which is the only error.
    fn read(&mut self, key: &Key) -> Result<(u64, Sequence<Data>), AllocError>
        ensures number { IfOk result (λ read. read.0 ≡ number_at source self.old key.now) }
        ensures value { IfOk result (λ read. read.1 ≡ set_at source self.old key.now) }
        ensures set { IfOk result (λ read. IsSet key.now read.0 read.1) }
        ensures looked { self.new ≡ after_look source self.old };

    /// A look changes no number and no set.
    ghost kept: { KeepsSets source };
}
