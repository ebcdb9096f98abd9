//! A world: a book and its workers, in which any steps can be made one after the other.
ghost use Rattle.std.specs.Prelude.{◌≡◌, ◌≤◌, ◌-◌, ◌^◌, [], length, replicate, None, Some, Ok, Err, IfOk, IfErr, OnOk, OnErr};
ghost use Rattle.sipl_book.specs.Book.{BookState, new_book, state_of};
ghost use Rattle.sipl_interleave.specs.Jobs.{Job, job_at, refusal_of, wanted_by};
ghost use Rattle.sipl_interleave.specs.Plays.{AnswersAreRight, Plays, asked_by, journal_after};
ghost use Rattle.sipl_interleave.specs.Steps.{IsMade, IsRead, IsStep, worker_refusal};
ghost use Rattle.sipl_interleave.specs.World.{IsWorld};

use crate::act::Act;
use crate::fault::WorldFault;
use crate::reply::Reply;
use crate::step::Step;
use crate::workers::Workers;
use sipl_book::{Book, BookFault, Edit, Limits, Uncommitted};
use sipl_choice::{Abilities, Endpoint};
use sipl_evidence::{Item, dup_data};
use sipl_outages::Held;
use sipl_plans::Run;
use sipl_records::{Data, Key, Sequence};
use sipl_srv::Draws;
use sipl_uri::Question;
use std::alloc::{AllocError, Global};
use std::marker::Model;

/// The greatest number of workers of a world.
pub const MAX_WORKERS: usize = 64;

/// A book and 1 to 64 workers. Contracts see the book, and for each worker its run, if it has one,
/// and the lease that the run is to settle.
///
/// The sets that a run has read were read from the book: where a set's number is still the book's, so
/// are its data. Each leased entry's lease is with exactly one worker.
pub struct World {
    alloc: Global,
    book: Book,
    workers: Workers,
}

impl Model for World {
    ghost use Rattle.sipl_interleave.specs.World.{WorldState, world_code};

    ghost Value = { WorldState };

    ghost coded = { world_code };

    ghost use Rattle.sipl_interleave.specs.WorldFields.{IsValidWorld, world_of};

    ghost view = { world_of };

    ghost invariant = { IsValidWorld };
}

impl Drop for World {
    // The leases of the workers are given back.
    fn drop(self) {
        let World {
            alloc: _,
            mut book,
            workers,
        } = self;
        workers.give_back(&mut book);
        drop(book);
    }
}

impl World {
    /// A world of a new book, by a policy on held endpoints, and idle workers. The only error is an
    /// allocation failure.
    pub fn new(
        alloc: Global,
        abilities: Abilities,
        limits: &Limits,
        workers: usize,
        held: Held,
    ) -> Result<Self, AllocError>
        requires records { limits.now.records ≤ 1048576 }
        requires entries { limits.now.entries ≤ 65536 }
        requires journal { limits.now.journal ≤ 1048576 }
        requires holds { limits.now.holds ≤ 4096 }
        requires first { 1 ≤ limits.now.next }
        requires last { limits.now.next ≤ 2 ^ 52 }
        requires page { limits.now.first ≤ 2 ^ 52 - 2 ^ 20 }
        requires some { 1 ≤ workers }
        requires few { workers ≤ 64 }
        ensures { IfOk result (λ world. world ≡ record {
          book = new_book abilities held limits.now;
          workers = replicate workers None;
        }) }
    {
        let workers = Workers::new(alloc, workers)?;
        Ok(World {
            alloc,
            book: Book::new(alloc, abilities, limits, held),
            workers,
        })
    }

    /// The book.
    pub fn book(&self) -> &Book
        ensures book { result.now ≡ self.now.book }
        ensures world { IsWorld self.now }
    {
        &self.book
    }

    /// How many workers there are.
    pub fn workers(&self) -> usize
        ensures workers { result ≡ length self.now.workers }
        ensures world { IsWorld self.now }
    {
        self.workers.len()
    }

    /// Makes a step. The reply is the result of the call of the book that the step names.
    ///
    /// The fault is the first one: there is no such worker (I1), it has a run and is to begin one
    /// (I2), it has no run, or a run that is to be ended in another way (I3), its run wants a set and
    /// is to be ended, or wants none and is to be given one (I4); then the book's.
    ///
    /// After a commit or a settlement the worker is idle, also where it is refused, but for I1 to I4
    /// and a failed allocation, which change nothing.
    pub fn step(&mut self, step: Step) -> Reply
        ensures { IsStep step self.old self.new result }
    {
        if let Some(fault) = self.refusal(&step) {
            drop(step);
            return Reply::Refused(fault);
        }
        match step {
            Step::Change(edit) => self.change(edit),
            Step::Hold(endpoint, ms) => self.hold(&endpoint, ms),
            Step::Release(endpoint) => self.release(&endpoint),
            Step::Advance(to) => self.advance(to),
            Step::Hand(question, draws) => self.hand(question, &draws),
            Step::Start(worker, question) => self.start(worker, question),
            Step::Read(worker) => self.read(worker),
            Step::Commit(worker, draws) => self.commit(worker, &draws),
            Step::Lease(worker) => self.lease(worker),
            Step::Settle(worker) => self.settle(worker),
            Step::Abandon(worker) => self.abandon(worker),
            Step::Forget(question) => self.forget(question),
            Step::Page => self.page(),
        }
    }

    // The fault of a step before it reaches the book.
    fn refusal(&self, step: &Step) -> Option<WorldFault>
        ensures { result ≡ worker_refusal step.now self.now.workers }
    {
        match step {
            Step::Start(worker, _) | Step::Lease(worker) => {
                self.workers.refusal(*worker, Act::Start)
            }
            Step::Read(worker) => self.workers.refusal(*worker, Act::Read),
            Step::Commit(worker, _) => self.workers.refusal(*worker, Act::Commit),
            Step::Settle(worker) => self.workers.refusal(*worker, Act::Settle),
            Step::Abandon(worker) => self.workers.refusal(*worker, Act::Abandon),
            Step::Change(_)
            | Step::Hold(_, _)
            | Step::Release(_)
            | Step::Advance(_)
            | Step::Hand(_, _)
            | Step::Forget(_)
            | Step::Page => None,
        }
    }

    fn change(&mut self, edit: Edit) -> Reply
        ensures { IsMade (Step.Change edit) self.old self.new result }
    {
        match self.book.change(edit) {
            Ok(done) => Reply::Changed(done),
            Err(fault) => Reply::Refused(WorldFault::Book(fault)),
        }
    }

    fn hold(&mut self, endpoint: &Endpoint, ms: u64) -> Reply
        ensures { IsMade (Step.Hold endpoint.now ms) self.old self.new result }
    {
        match self.book.hold(endpoint, ms) {
            Ok(number) => Reply::Moved(number),
            Err(fault) => Reply::Refused(WorldFault::Book(fault)),
        }
    }

    fn release(&mut self, endpoint: &Endpoint) -> Reply
        ensures { IsMade (Step.Release endpoint.now) self.old self.new result }
    {
        match self.book.release(endpoint) {
            Ok(number) => Reply::Moved(number),
            Err(fault) => Reply::Refused(WorldFault::Book(fault)),
        }
    }

    fn advance(&mut self, to: u64) -> Reply
        ensures { IsMade (Step.Advance to) self.old self.new result }
    {
        match self.book.advance(to) {
            Ok(number) => Reply::Moved(number),
            Err(fault) => Reply::Refused(WorldFault::Book(fault)),
        }
    }

    fn hand(&mut self, question: Question, draws: &Draws) -> Reply
        ensures { IsMade (Step.Hand question draws.now) self.old self.new result }
    {
        let handed = self.book.hand(&question, draws);
        drop(question);
        match handed {
            Ok(handed) => Reply::Answered(handed),
            Err(fault) => Reply::Refused(WorldFault::Book(fault)),
        }
    }

    fn forget(&mut self, question: Question) -> Reply
        ensures { IsMade (Step.Forget question) self.old self.new result }
    {
        let forgotten = self.book.forget(&question);
        drop(question);
        match forgotten {
            Ok(()) => Reply::Forgotten,
            Err(fault) => Reply::Refused(WorldFault::Book(fault)),
        }
    }

    fn page(&mut self) -> Reply
        ensures { IsMade Step.Page self.old self.new result }
    {
        match self.book.turn_page() {
            Ok(page) => {
                let extent = page.extent();
                drop(page);
                Reply::Paged(extent)
            }
            Err(fault) => Reply::Refused(WorldFault::Book(fault)),
        }
    }

    fn start(&mut self, worker: usize, question: Question) -> Reply
        requires { refusal_of worker Act.Start self.old.workers ≡ None }
        ensures { IsMade (Step.Start worker question) self.old self.new result }
    {
        match Run::start(self.alloc, question, self.book.abilities()) {
            Ok(run) => {
                self.workers.start(worker, run, None);
                Reply::Started
            }
            Err(_) => Reply::Refused(WorldFault::Book(BookFault::Memory)),
        }
    }

    fn read(&mut self, worker: usize) -> Reply
        requires { refusal_of worker Act.Read self.old.workers ≡ None }
        ensures { IsMade (Step.Read worker) self.old self.new result }
    {
        match self.read_item(worker) {
            Ok(item) => Reply::Read(item),
            Err(fault) => Reply::Refused(WorldFault::Book(fault)),
        }
    }

    // Reads the set that a worker's run wants. The only error is an allocation failure.
    fn read_item(&mut self, worker: usize) -> Result<Item, BookFault>
        requires { refusal_of worker Act.Read self.old.workers ≡ None }
        ensures { IsRead worker self.old self.new result }
    {
        let key = match self.workers.wants(worker) {
            Some(key) => key.dup(self.alloc)?,
            None => unreachable!(),
        };
        match self.read_set(worker, &key) {
            Ok((number, content)) => Ok(Item::new(key, number, content)),
            Err(fault) => {
                drop(key);
                Err(fault)
            }
        }
    }

    // Reads the set of the key that a worker's run wants, and gives the run a copy. The only error is an
    // allocation failure.
    fn read_set(&mut self, worker: usize, key: &Key) -> Result<(u64, Sequence<Data>), BookFault>
        requires allowed { refusal_of worker Act.Read self.old.workers ≡ None }
        requires wanted { wanted_by (job_at self.old.workers worker) ≡ Some key.now }
        ensures read { IfOk result (λ read. IsRead worker self.old self.new
            (Ok (record { key = key.now; number = read.0; content = read.1 }))) }
        ensures failed { IfErr result (λ fault. IsRead worker self.old self.new (Err fault)) }
    {
        let (number, content) = self.book.read(key)?;
        let Ok(copy) = dup_data(self.alloc, content.as_slice()) else {
            drop(content);
            return Err(BookFault::Memory);
        };
        let copy = Sequence::from_vec(copy);
        let Ok(()) = self.workers.give(worker, self.alloc, number, copy) else {
            drop(content);
            return Err(BookFault::Memory);
        };
        Ok((number, content))
    }

    fn commit(&mut self, worker: usize, draws: &Draws) -> Reply
        requires { refusal_of worker Act.Commit self.old.workers ≡ None }
        ensures { IsMade (Step.Commit worker draws.now) self.old self.new result }
    {
        let finding = self.workers.finish(worker);
        match self.book.commit(finding, draws) {
            Ok(handed) => Reply::Answered(handed),
            Err(
                Uncommitted {
                    fault: BookFault::Memory,
                    finding,
                },
            ) => {
                self.workers.keep(worker, finding);
                Reply::Refused(WorldFault::Book(BookFault::Memory))
            }
            Err(uncommitted) => Reply::Uncommitted(uncommitted),
        }
    }

    fn lease(&mut self, worker: usize) -> Reply
        requires { refusal_of worker Act.Start self.old.workers ≡ None }
        ensures { IsMade (Step.Lease worker) self.old self.new result }
    {
        let (lease, question) = match self.book.lease() {
            Ok(leased) => leased,
            Err(fault) => return Reply::Refused(WorldFault::Book(fault)),
        };
        match start_run(self.alloc, question, self.book.abilities()) {
            Ok((run, question)) => {
                self.workers.start(worker, run, Some(lease));
                Reply::Leased(question)
            }
            Err(_) => {
                self.book.give_back(lease);
                Reply::Refused(WorldFault::Book(BookFault::Memory))
            }
        }
    }

    fn settle(&mut self, worker: usize) -> Reply
        requires { refusal_of worker Act.Settle self.old.workers ≡ None }
        ensures { IsMade (Step.Settle worker) self.old self.new result }
    {
        let (finding, lease) = self.workers.finish_leased(worker);
        match self.book.settle(lease, finding) {
            Ok(()) => Reply::Settled,
            Err(uncommitted) => Reply::Uncommitted(uncommitted),
        }
    }

    fn abandon(&mut self, worker: usize) -> Reply
        requires { refusal_of worker Act.Abandon self.old.workers ≡ None }
        ensures { IsMade (Step.Abandon worker) self.old self.new result }
    {
        if let Some(lease) = self.workers.abandon(worker) {
            self.book.give_back(lease);
        }
        Reply::Abandoned
    }
}

// A run of a question that has read nothing, and a copy of the question.
fn start_run(
    alloc: Global,
    question: Question,
    abilities: &Abilities,
) -> Result<(Run, Question), AllocError>
    ensures run { IfOk result (λ started. started.0
        ≡ record { question = question; client = abilities.now; items = [] }) }
    ensures question { IfOk result (λ started. started.1 ≡ question) }
{
    let Ok(copy) = question.dup(alloc) else {
        drop(question);
        return Err(AllocError);
    };
    match Run::start(alloc, question, abilities) {
        Ok(run) => Ok((run, copy)),
        Err(error) => {
            drop(copy);
            Err(error)
        }
    }
}

/// Makes the steps one after the other, and returns their replies. The only error is an allocation
/// failure, before the first step.
///
/// Each answer in the replies is what RFC 3263, 4, gives from scratch on the records and the holds to
/// which the edits, holds, releases and moves of the clock lead that were accepted before it, by the
/// book's policy on held endpoints. The book's journal has the events since the last page.
pub fn play(world: &mut World, steps: Vec<Step>) -> Result<Vec<Reply>, AllocError>
    ensures answers { IfOk result
        (λ replies. AnswersAreRight world.old.book.client world.old.book.held
        (state_of world.old.book) (asked_by world.old.workers) steps.items replies.items) }
    ensures steps { IfOk result
        (λ replies. Plays steps.items world.old replies.items world.new) }
    ensures journal { IfOk result (λ replies. world.new.book.journal
        ≡ journal_after (asked_by world.old.workers) steps.items replies.items
        world.old.book.journal) }
    ensures refused { OnErr result (world.new ≡ world.old) }
{
    let mut replies = Vec::with_capacity(world.alloc, steps.len())?;
    for step in steps {
        replies.push_reserved(world.step(step));
    }
    Ok(replies)
}
