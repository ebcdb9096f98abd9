// Repairs: outdated entries are looked up again, by a caller or by workers of their own.
ghost use Rattle.std.specs.Prelude.{◌≡◌};

use crate::checks::check_client;
use crate::fault::ServiceFault;
use crate::gate::{Gate, OpenGate, Who};
use crate::service::Service;
use indexmap::IndexSet;
use sipl_book::BookFault;
use sipl_plans::Finding;
use sipl_repair::{Lease, QueueFault};
use sipl_uri::Question;
use std::sync::Wait;
use std::thread;
use std::thread::Threads;

impl Service {
    /// Looks queued entries up again, at most as many as are queued now. One whose sets change
    /// meanwhile stays queued, and is not looked up a second time.
    ///
    /// The fault is `Memory`, or the first of: the service was stopped (L6), the book is for another client
    /// or policy (L7). What was repaired until then stays so, and the other entries stay queued.
    pub fn repair<R: Wait>(&self, rt: &R) -> Result<(), ServiceFault> {
        let repaired = self.repair_queued(rt);
        self.woken.notify_all();
        repaired
    }

    // Looks up again as many entries as are queued now. A stale one is put after all that are queued:
    // where it is the first again, those are done.
    fn repair_queued<R: Wait>(&self, rt: &R) -> Result<(), ServiceFault> {
        let mut stale = IndexSet::new(self.alloc);
        let repaired = self.repair_each(rt, &mut stale);
        drop(stale);
        repaired
    }

    // As `repair_queued`, with the ids of the entries that were stale.
    fn repair_each<R: Wait>(&self, rt: &R, stale: &mut IndexSet<u64>) -> Result<(), ServiceFault> {
        for _ in 0..self.queued(rt)? {
            let Some((lease, question)) = self.lease(rt)? else {
                break;
            };
            let id = lease.id();
            if stale.contains(&id) {
                drop(question);
                self.give_back(rt, lease);
                break;
            }
            let renewed = self.renew(rt, Who::Caller, lease, &question, &OpenGate);
            drop(question);
            if !renewed? {
                stale.insert(id)?;
            }
        }
        Ok(())
    }

    /// Runs this number of repair workers, each in a thread, until the service is stopped. A worker whose
    /// thread cannot be made is left out. After a run that was refused, or that the gate stopped, a
    /// worker sleeps until an edit that came after it was leased its entry.
    pub fn run_workers<R: Threads + Wait + Sync, G: Gate + Sync>(
        &self,
        rt: &R,
        workers: u64,
        gate: &G,
    ) {
        thread::scope(thread::scope_env(), rt, |scope| {
            for worker in 0..workers {
                let _ = scope.spawn(move || self.work(rt, worker, gate));
            }
        });
    }

    // Looks queued entries up again until the service is stopped.
    fn work<R: Wait, G: Gate>(&self, rt: &R, worker: u64, gate: &G) {
        let mut refused = None;
        for _ in rt.forever() {
            let Some((lease, question, edits)) = self.next_lease(rt, refused) else {
                return;
            };
            let renewed = self.renew(rt, Who::Repair(worker), lease, &question, gate);
            drop(question);
            refused = renewed.err().map(|_| edits);
        }
        unreachable!()
    }

    // Waits for a queued entry, and leases it; at first, where a run was refused, for an edit more than
    // there were then. Returns how many edits there are, too; `None` where the service was stopped.
    fn next_lease<R: Wait>(&self, rt: &R, refused: Option<u64>) -> Option<(Lease, Question, u64)> {
        let mut shared = self.lock(rt);
        for _ in rt.forever() {
            if shared.is_stopped {
                return None;
            }
            if refused != Some(shared.edits) {
                if let Ok((lease, question)) = shared.book.lease() {
                    return Some((lease, question, shared.edits));
                }
            }
            shared = self.woken.wait(rt, shared);
        }
        unreachable!()
    }

    // Looks a leased entry up again. Whether it is current then: else a set has changed meanwhile, and
    // it is queued. Where the run is refused the lease is given back.
    fn renew<R: Wait, G: Gate>(
        &self,
        rt: &R,
        who: Who,
        lease: Lease,
        question: &Question,
        gate: &G,
    ) -> Result<bool, ServiceFault> {
        match self.locate(rt, who, question, gate) {
            Ok(finding) => self.settle(rt, lease, finding),
            Err(fault) => {
                self.give_back(rt, lease);
                Err(fault)
            }
        }
    }

    // How many entries are queued.
    fn queued<R: Wait>(&self, rt: &R) -> Result<u64, ServiceFault> {
        let shared = self.lock(rt);
        shared.check(&self.abilities, self.held)?;
        Ok(shared.book.queued())
    }

    // Leases the first queued entry; `None` where none is queued.
    fn lease<R: Wait>(&self, rt: &R) -> Result<Option<(Lease, Question)>, ServiceFault> {
        let mut shared = self.lock(rt);
        shared.check(&self.abilities, self.held)?;
        match shared.book.lease() {
            Ok(leased) => Ok(Some(leased)),
            Err(BookFault::Queue(QueueFault::Empty)) => Ok(None),
            Err(fault) => Err(fault.into()),
        }
    }

    // Settles a lease with a finding. Whether its sets are as they were read.
    fn settle<R: Wait>(&self, rt: &R, lease: Lease, finding: Finding) -> Result<bool, ServiceFault>
        requires { finding.client ≡ self.now.client }
    {
        let mut shared = self.lock(rt);
        if let Err(fault) = check_client(&shared.book, &self.abilities, self.held) {
            shared.book.give_back(lease);
            drop(finding);
            return Err(fault);
        }
        match shared.book.settle_checked(lease, finding) {
            Ok(()) => Ok(true),
            Err(uncommitted) => {
                drop(uncommitted);
                Ok(false)
            }
        }
    }

    // Gives a lease back: its entry is the next one to be leased.
    fn give_back<R: Wait>(&self, rt: &R, lease: Lease) {
        self.lock(rt).book.give_back(lease);
    }
}
