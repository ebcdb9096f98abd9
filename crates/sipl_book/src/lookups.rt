// Looking questions up, over a book's own sets.
ghost use Rattle.std.specs.Prelude.{◌≡◌, ◌≢◌, ◌<◌, [], drop, take, length, IfOk, IfErr, OnOk, IsFalse};
ghost use Rattle.std.specs.List.{sum_by};
ghost use Rattle.sipl_book.specs.Calls.{CountsLooks, looks_after, with_looks};
ghost use Rattle.sipl_book.specs.Entries.{has_current_entry};
ghost use Rattle.sipl_book.specs.Lookups.{AreDependencies, IsAnswered, IsLocated, IsRenewed, IsRepaired, after_reads, sets_read};

use crate::book::Book;
use crate::fault::BookFault;
use crate::outcome::{Handed, Uncommitted};
use sipl_evidence::Evidence;
use sipl_plans::{Finding, Sets, locate};
use sipl_records::{Data, Key, Sequence};
use sipl_srv::Draws;
use sipl_uri::Question;
use std::alloc::AllocError;

impl Book {
    // The answer to a question that has no current entry: that of its finding, which is committed. The
    // sets are as they were read, for nothing changes between.
    pub(crate) fn find_anew(
        &mut self,
        question: Question,
        draws: &Draws,
    ) -> Result<Handed, BookFault>
        requires outdated { IsFalse (has_current_entry self.old.entries question) }
        requires space { length self.old.journal < self.old.max_events }
        ensures { IsAnswered question draws.now self.old self.new result }
    {
        let finding = self.locate(question)?;
        self.commit_current(finding, draws)
            .map_err(Uncommitted::into_fault)
    }

    /// The record sets that the targets of a question depend on, in the order of reading, with a look
    /// at each. Records no event, and keeps no entry. The only error is an allocation failure.
    pub fn deps(&mut self, question: Question) -> Result<Evidence, BookFault>
        ensures { AreDependencies question self.old self.new result }
    {
        let finding = self.locate(question)?;
        let evidence = finding.evidence().dup(self.alloc());
        drop(finding);
        Ok(evidence?)
    }

    /// Looks the queued entries up again, each once, with a look at each set that their routes read.
    /// The only error is an allocation failure; the entries that are still queued can be repaired later.
    pub fn repair(&mut self) -> Result<(), BookFault>
        ensures { IsRepaired self.old self.new result }
    {
        while self.queued() > 0 {
            self.repair_next()?;
        }
        Ok(())
    }

    // Looks up the first queued entry again. Where an allocation fails it is still the first.
    fn repair_next(&mut self) -> Result<(), BookFault>
        ensures renewed { IsRenewed self.old self.new }
        ensures next { OnOk result (self.new.queue.queued ≡ drop 1 self.old.queue.queued) }
        ensures looks { OnOk result (self.new.store.looks ≡ looks_after
            (sum_by (sets_read self.old) (take 1 self.old.queue.queued)) self.old.store.looks) }
        ensures failed { IfErr result
            (λ fault. fault ≢ BookFault.Memory → self.old.queue.queued ≡ []) }
        ensures memory { IfErr result
            (λ fault. fault ≡ BookFault.Memory → self.old.queue.queued ≢ []) }
    {
        let (lease, question) = self.lease()?;
        match self.locate(question) {
            Ok(finding) => {
                self.settle(lease, finding).unwrap();
                Ok(())
            }
            Err(error) => {
                self.give_back(lease);
                Err(error.into())
            }
        }
    }

    // The route of a question on the records as they are, and the record sets that it looks at. The
    // only error is an allocation failure. Only the count of looks changes.
    fn locate(&mut self, question: Question) -> Result<Finding, AllocError>
        ensures located { IfOk result
            (λ finding. IsLocated self.old.store question self.old.client finding) }
        ensures looks { IfOk result
            (λ finding. self.new ≡ after_reads (length finding.items) self.old) }
        ensures unchanged { self.new ≡ with_looks self.new.store.looks self.old }
        ensures counted { CountsLooks self.old self.new }
    {
        let alloc = self.alloc();
        let abilities = self.abilities().dup(alloc)?;
        locate(alloc, self, question, abilities)
    }
}

impl Sets for Book {
    ghost use Rattle.std.specs.Prelude.{refl};
    ghost use Rattle.sipl_book.specs.Lookups.{source_of};

    ghost source = { source_of };

    fn read(&mut self, key: &Key) -> Result<(u64, Sequence<Data>), AllocError> {
        Book::read(self, key)
    }

    ghost kept = { record {
      numbers = λ book key. refl;
      sets = λ book key. refl;
    } };
}
