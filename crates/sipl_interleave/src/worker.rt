//! A worker: it looks up one question at a time, for itself or under a lease.
ghost use Rattle.std.specs.Prelude.{◌≡◌, is_some, option_map, None, Some, IfSome, IsSome, OnOk, OnErr};
ghost use Rattle.std.specs.Option.{option_copied};
ghost use Rattle.sipl_plans.specs.Findings.{IsFound, IsSound};
ghost use Rattle.sipl_plans.specs.Runs.{IsWanted, wanted};
ghost use Rattle.sipl_interleave.specs.Jobs.{fault_of, lease_of, run_of, wanted_by, with_item};

use crate::act::Act;
use crate::fault::WorldFault;
use sipl_plans::{Finding, Run};
use sipl_records::{Data, Key, Sequence};
use sipl_repair::Lease;
use std::alloc::{AllocError, Global};
use std::marker::Model;
use std::mem;

/// A worker. Contracts see its job: what it looks up, and the lease under which it does.
pub(crate) struct Worker {
    task: Task,
    lease: Option<Lease>,
}

// What a worker does.
#[derive(Drop)]
enum Task {
    // It has no run.
    Idle,
    // It looks up a question.
    Reading(Run),
    // It has a finding that an allocation failure kept from being committed.
    Found(Finding),
}

impl Model for Worker {
    ghost use Rattle.std.specs.Prelude.{Option};
    ghost use Rattle.sipl_interleave.specs.Jobs.{Job, job_code};

    ghost Value = { Option Job };

    ghost coded = { job_code };

    ghost use Rattle.sipl_interleave.specs.Worker.{IsValidWorker, job_of};

    ghost view = { job_of };

    ghost invariant = { IsValidWorker };
}

impl Worker {
    /// A worker without a job. Does not allocate.
    pub(crate) fn idle() -> Self
        ensures { result ≡ None }
    {
        Worker {
            task: Task::Idle,
            lease: None,
        }
    }

    /// The fault where the worker's job does not allow it to do this. Does not allocate.
    pub(crate) fn fault_of(&self, act: Act) -> Option<WorldFault>
        ensures { result ≡ fault_of act self.now }
    {
        let is_idle = matches!(self.task, Task::Idle);
        let is_ready = self.wants().is_none();
        match act {
            Act::Start if is_idle => None,
            Act::Start => Some(WorldFault::Busy),
            _ if is_idle => Some(WorldFault::Idle),
            Act::Abandon => None,
            Act::Read if is_ready => Some(WorldFault::NotReady),
            Act::Read => None,
            Act::Commit if self.lease.is_some() => Some(WorldFault::Idle),
            Act::Settle if self.lease.is_none() => Some(WorldFault::Idle),
            Act::Commit | Act::Settle if is_ready => None,
            Act::Commit | Act::Settle => Some(WorldFault::NotReady),
        }
    }

    /// The key of the set that the worker's run wants next.
    pub(crate) fn wants(&self) -> Option<&Key>
        ensures { option_copied result ≡ wanted_by self.now }
    {
        match &self.task {
            Task::Reading(run) => run.wants(),
            Task::Idle | Task::Found(_) => None,
        }
    }

    /// Gives an idle worker a run, for itself or under a lease. Does not allocate.
    pub(crate) fn start(&mut self, run: Run, lease: Option<Lease>)
        requires { self.old ≡ None }
        ensures { self.new ≡ Some (record { run = run; lease = lease }) }
    {
        drop(mem::replace(&mut self.task, Task::Reading(run)));
        match mem::replace(&mut self.lease, lease) {
            None => {}
            Some(_held) => unreachable!(),
        }
    }

    /// Gives the run the set of the key that it wants, and the number of the set. The only error is
    /// an allocation failure; the worker is then as it was.
    pub(crate) fn give(
        &mut self,
        alloc: Global,
        number: u64,
        content: Sequence<Data>,
    ) -> Result<(), AllocError>
        requires { IsWanted (wanted_by self.old) number content }
        ensures ok { OnOk result (option_map
            (λ k. with_item (record { key = k; number = number; content = content }) self.old)
            (wanted_by self.old) ≡ Some self.new) }
        ensures err { OnErr result (self.new ≡ self.old) }
    {
        let Task::Reading(run) = &mut self.task else {
            unreachable!()
        };
        run.give(alloc, number, content)
    }

    /// Ends a job whose run wants no set: returns what was found, and the lease. The worker is idle
    /// then. Does not allocate.
    pub(crate) fn finish(&mut self) -> (Finding, Option<Lease>)
        requires busy { IsSome self.old }
        requires ready { wanted_by self.old ≡ None }
        ensures found { IfSome self.old (λ job. IsFound job.run result.0) }
        ensures lease { result.1 ≡ lease_of self.old }
        ensures idle { self.new ≡ None }
    {
        let lease = mem::replace(&mut self.lease, None);
        match mem::replace(&mut self.task, Task::Idle) {
            Task::Idle => unreachable!(),
            Task::Reading(run) => match run.finish() {
                Ok(finding) => (finding, lease),
                Err(_) => unreachable!(),
            },
            Task::Found(finding) => (finding, lease),
        }
    }

    /// Gives an idle worker a finding back that was not committed. Does not allocate.
    pub(crate) fn keep(&mut self, finding: Finding)
        requires idle { self.old ≡ None }
        requires sound { IsSound finding }
        requires ready { wanted (run_of finding) ≡ None }
        ensures { self.new ≡ Some (record { run = run_of finding; lease = None }) }
    {
        drop(mem::replace(&mut self.task, Task::Found(finding)));
    }

    /// Ends the job without a finding, and returns the lease. Does not allocate.
    pub(crate) fn abandon(&mut self) -> Option<Lease>
        ensures lease { result ≡ lease_of self.old }
        ensures idle { self.new ≡ None }
    {
        drop(mem::replace(&mut self.task, Task::Idle));
        mem::replace(&mut self.lease, None)
    }

    /// The lease of a worker that is dropped.
    pub(crate) fn into_lease(self) -> Option<Lease>
        ensures { result ≡ lease_of self }
    {
        let Worker { task, lease } = self;
        drop(task);
        lease
    }
}
