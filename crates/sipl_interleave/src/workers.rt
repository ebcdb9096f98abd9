//! The workers of a world.
ghost use Rattle.std.specs.Prelude.{◌≡◌, ◌+◌, ◌∷◌, ◌++◌, [], get_or, set, length, replicate, option_map, None, Some, IfOk, IfSome, IsSome, OnOk, OnErr};
ghost use Rattle.std.specs.Option.{option_copied};
ghost use Rattle.sipl_plans.specs.Findings.{IsFound, IsSound};
ghost use Rattle.sipl_plans.specs.Runs.{IsWanted, wanted};
ghost use Rattle.sipl_interleave.specs.World.{after_give_back_of_all};
ghost use Rattle.sipl_interleave.specs.Jobs.{job_at, lease_of, refusal_of, run_of, wanted_by, with_item};

use crate::act::Act;
use crate::fault::WorldFault;
use crate::worker::Worker;
use sipl_book::Book;
use sipl_plans::{Finding, Run};
use sipl_records::{Data, Key, Sequence};
use sipl_repair::Lease;
use std::alloc::{AllocError, Global};
use std::marker::Model;

/// Workers, numbered from 0. Contracts see the list of their jobs.
pub(crate) struct Workers {
    workers: Vec<Worker>,
}

impl Model for Workers {
    ghost use Rattle.std.specs.Prelude.{List, Option};
    ghost use Rattle.sipl_interleave.specs.World.{after_give_back_of_all};
    ghost use Rattle.sipl_interleave.specs.Jobs.{Job, jobs_code};

    ghost Value = { List (Option Job) };

    ghost coded = { jobs_code };

    ghost view = { λ w. w.workers.items };
}

impl Workers {
    /// Idle workers, so many. The only error is an allocation failure.
    pub(crate) fn new(alloc: Global, count: usize) -> Result<Self, AllocError>
        ensures { IfOk result (λ workers. workers ≡ replicate count None) }
    {
        let mut workers = Vec::with_capacity(alloc, count)?;
        for _ in 0..count {
            workers.push_reserved(Worker::idle());
        }
        Ok(Workers { workers })
    }

    /// How many workers there are.
    pub(crate) fn len(&self) -> usize
        ensures { result ≡ length self.now }
    {
        self.workers.len()
    }

    /// The fault where there is no worker of this number, or its job does not allow it to do this.
    /// Does not allocate.
    pub(crate) fn refusal(&self, number: usize, act: Act) -> Option<WorldFault>
        ensures { result ≡ refusal_of number act self.now }
    {
        if number >= self.workers.len() {
            return Some(WorldFault::NoWorker);
        }
        self.workers[number].fault_of(act)
    }

    /// The key of the set that a worker's run wants next.
    pub(crate) fn wants(&self, number: usize) -> Option<&Key>
        requires { refusal_of number Act.Read self.now ≡ None }
        ensures { option_copied result ≡ wanted_by (job_at self.now number) }
    {
        self.workers[number].wants()
    }

    /// Gives an idle worker a run, for itself or under a lease. Does not allocate.
    pub(crate) fn start(&mut self, number: usize, run: Run, lease: Option<Lease>)
        requires { refusal_of number Act.Start self.old ≡ None }
        ensures { self.new ≡ set self.old number (Some (record { run = run; lease = lease })) }
    {
        self.workers[number].start(run, lease);
    }

    /// Gives a worker's run the set of the key that it wants, and the number of the set. The only
    /// error is an allocation failure; the workers are then as they were.
    pub(crate) fn give(
        &mut self,
        number: usize,
        alloc: Global,
        set_number: u64,
        content: Sequence<Data>,
    ) -> Result<(), AllocError>
        requires allowed { refusal_of number Act.Read self.old ≡ None }
        requires wanted { IsWanted (wanted_by (job_at self.old number)) set_number content }
        ensures ok { OnOk result (option_map
            (λ k. set self.old number (with_item
            (record { key = k; number = set_number; content = content })
            (job_at self.old number)))
            (wanted_by (job_at self.old number)) ≡ Some self.new) }
        ensures err { OnErr result (self.new ≡ self.old) }
    {
        self.workers[number].give(alloc, set_number, content)
    }

    /// Ends the run of a worker that is to commit: returns what was found. The worker is idle then.
    /// Does not allocate.
    pub(crate) fn finish(&mut self, number: usize) -> Finding
        requires { refusal_of number Act.Commit self.old ≡ None }
        ensures found { IfSome (job_at self.old number) (λ job. IsFound job.run result) }
        ensures idle { self.new ≡ set self.old number None }
    {
        match self.workers[number].finish() {
            (finding, None) => finding,
            (_, Some(_lease)) => unreachable!(),
        }
    }

    /// Ends the run of a worker that is to settle its lease: returns what was found, and the lease.
    /// The worker is idle then. Does not allocate.
    pub(crate) fn finish_leased(&mut self, number: usize) -> (Finding, Lease)
        requires { refusal_of number Act.Settle self.old ≡ None }
        ensures found { IfSome (job_at self.old number) (λ job. IsFound job.run result.0) }
        ensures lease { lease_of (job_at self.old number) ≡ Some result.1 }
        ensures idle { self.new ≡ set self.old number None }
    {
        match self.workers[number].finish() {
            (finding, Some(lease)) => (finding, lease),
            (_, None) => unreachable!(),
        }
    }

    /// Gives an idle worker a finding back that was not committed. Does not allocate.
    pub(crate) fn keep(&mut self, number: usize, finding: Finding)
        requires idle { refusal_of number Act.Start self.old ≡ None }
        requires sound { IsSound finding }
        requires ready { wanted (run_of finding) ≡ None }
        ensures { self.new
            ≡ set self.old number (Some (record { run = run_of finding; lease = None })) }
    {
        self.workers[number].keep(finding);
    }

    /// Ends a worker's job without a finding, and returns the lease. Does not allocate.
    pub(crate) fn abandon(&mut self, number: usize) -> Option<Lease>
        requires { refusal_of number Act.Abandon self.old ≡ None }
        ensures lease { result ≡ lease_of (job_at self.old number) }
        ensures idle { self.new ≡ set self.old number None }
    {
        self.workers[number].abandon()
    }

    /// Ends all jobs, and returns their leases to the book, that of the last worker first. Does not
    /// allocate.
    pub(crate) fn give_back(self, book: &mut Book)
        ensures { book.new ≡ after_give_back_of_all self book.old }
    {
        let Workers { mut workers } = self;
        while let Some(worker) = workers.pop() {
            if let Some(lease) = worker.into_lease() {
                book.give_back(lease);
            }
        }
        workers.destroy_empty();
    }
}
