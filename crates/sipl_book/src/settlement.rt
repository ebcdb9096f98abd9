// Repairs of outdated entries: leases, and the findings that settle them.
ghost use Rattle.std.specs.Prelude.{◌≡◌, ◌<◌, ◌≤◌, true, length, option_map, Some, None, IsTrue, IfOk, IfErr, OnOk, OnErr};
ghost use Rattle.sipl_plans.specs.Findings.{IsSound};
ghost use Rattle.sipl_book.specs.Calls.{IsLeased, IsSettled, after_comparison, after_give_back, after_settlement, after_stale, is_renumbered, is_stale};
ghost use Rattle.sipl_book.specs.Honesty.{AreCurrent, IsHonest};
ghost use Rattle.sipl_book.specs.Entries.{entry_of};
ghost use Rattle.sipl_book.specs.Repairs.{is_leased_for, is_outdated};

use crate::book::Book;
use crate::checks::{first_renumbered, first_stale};
use crate::fault::BookFault;
use crate::outcome::Uncommitted;
use sipl_plans::Finding;
use sipl_repair::Lease;
use sipl_uri::Question;

impl Book {
    /// Leases the first queued entry: its question is to be looked up again, and the finding to be
    /// settled with the lease. The question is a copy. Reserves space for the settlement, which does not
    /// allocate. Logarithmic in the number of entries.
    ///
    /// The fault is that none is queued (Q1), or an allocation failure; then nothing changes.
    pub fn lease(&mut self) -> Result<(Lease, Question), BookFault>
        ensures leased { IsLeased self.old self.new result }
        ensures entry { IfOk result (λ leased.
            option_map (λ e. e.id) (entry_of self.old.entries leased.1) ≡ Some leased.0) }
        ensures outdated { IfOk result
            (λ leased. is_outdated self.old.entries leased.0 ≡ true) }
    {
        self.cache.lease()
    }

    /// Settles a lease with a finding: the entry of its question gets it and is current. Compares the
    /// numbers of the sets, and looks at none. Records no event. Does not allocate. Linear in the
    /// evidence.
    ///
    /// Where a set has the number that it had when it was read, its data must be those that were
    /// read, as they are where they came from `read`.
    ///
    /// The fault is the first one: the finding's question has no entry with the lease's id, or that
    /// is not leased (B5), and the lease is spent as by `give_back`; a set whose number is no longer
    /// as it was read (B2), and the entry is the last one of the queue, unless it is current. The
    /// finding is returned with it.
    pub fn settle(&mut self, lease: Lease, finding: Finding) -> Result<(), Uncommitted>
        requires client { finding.client ≡ self.old.client }
        requires honest { IsHonest self.old.store finding.items }
        ensures { IsSettled is_renumbered lease finding self.old self.old self.new result }
    {
        if !self.cache.is_leased_for(lease.id(), finding.question()) {
            self.cache.give_back(lease);
            let fault = BookFault::Gone;
            return Err(Uncommitted { fault, finding });
        }
        let changed = first_renumbered(&self.store, finding.evidence().items());
        self.settle_compared(lease, finding, changed)
    }

    /// Settles a lease with a finding as `settle` does, wherever its sets come from. Compares the
    /// sets that were read with those of the zones, which counts looks. Records no event. Does not
    /// allocate. Linear in the evidence.
    ///
    /// The fault is the first one: B5 as of `settle`; a set whose number or data are no longer as
    /// they were read (B2), and the entry is the last one of the queue, unless it is current. The
    /// finding is returned with it.
    pub fn settle_checked(&mut self, lease: Lease, finding: Finding) -> Result<(), Uncommitted>
        requires client { finding.client ≡ self.old.client }
        ensures { IsSettled is_stale lease finding
            self.old (after_comparison finding self.old) self.new result }
    {
        if !self.cache.is_leased_for(lease.id(), finding.question()) {
            self.cache.give_back(lease);
            let fault = BookFault::Gone;
            return Err(Uncommitted { fault, finding });
        }
        let changed = first_stale(&mut self.store, finding.evidence().items());
        self.settle_compared(lease, finding, changed)
    }

    // Settles the lease of the question's entry with a finding, unless the set at a place of its
    // evidence has changed (B2).
    fn settle_compared(
        &mut self,
        lease: Lease,
        finding: Finding,
        changed: Option<usize>,
    ) -> Result<(), Uncommitted>
        requires client { finding.client ≡ self.old.client }
        requires leased { IsTrue (is_leased_for self.old.entries self.old.queue lease finding.question) }
        requires sound { IsSound finding }
        requires few { length finding.items ≤ 80648 }
        requires current { changed ≡ None → AreCurrent self.old.store finding.items }
        ensures accepted { OnOk result (changed ≡ None) }
        ensures after { OnOk result (self.new ≡ after_settlement lease finding self.old) }
        ensures refused { IfErr result
            (λ uncommitted. option_map BookFault.Stale changed ≡ Some uncommitted.fault) }
        ensures finding { IfErr result (λ uncommitted. uncommitted.finding ≡ finding) }
        ensures stale { OnErr result (self.new ≡ after_stale lease self.old) }
    {
        if let Some(place) = changed {
            self.cache.requeue(lease);
            let fault = BookFault::Stale(place);
            return Err(Uncommitted { fault, finding });
        }
        self.cache.settle(lease, finding);
        Ok(())
    }

    /// Spends a lease without a finding: its entry is the next one of the queue, unless it is current
    /// or was forgotten. Does not allocate. Logarithmic in the number of entries.
    pub fn give_back(&mut self, lease: Lease)
        ensures { self.new ≡ after_give_back lease self.old }
    {
        self.cache.give_back(lease);
    }
}
