ghost use Rattle.std.specs.Prelude.{◌≡◌, ℕ};

use std::marker::Model;

/// The right to look up one entry again, which only `Queue::lease` returns. Contracts see it as
/// the entry's id.
///
/// It must be spent by `Queue::settle`, `Queue::requeue` or `Queue::give_back`: it can't be dropped.
pub struct Lease {
    id: u64,
}

impl Model for Lease {
    ghost Value = { ℕ };

    ghost view = { λ lease. lease.id };
}

impl Lease {
    pub(crate) fn new(id: u64) -> Self
        ensures { result ≡ id }
    {
        Lease { id }
    }

    pub(crate) fn into_id(self) -> u64
        ensures { result ≡ self }
    {
        let Lease { id } = self;
        id
    }

    /// The id of the leased entry.
    pub fn id(&self) -> u64
        ensures { result ≡ self.now }
    {
        self.id
    }
}
