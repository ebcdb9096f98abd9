//! What an edit changes that changes nothing.
ghost use Rattle.std.specs.Prelude.{◌≡◌};
ghost use Rattle.sipl_zonestore.specs.IndexedRecords.{nothing};

use crate::changed::Changed;
use sipl_records::Sequence;
use std::alloc::Global;

// Nothing. Does not allocate.
pub(crate) fn no_change(alloc: Global) -> Changed
    ensures { result ≡ nothing }
{
    Changed {
        keys: Sequence::from_vec(Vec::new(alloc)),
        sets: 0,
    }
}
