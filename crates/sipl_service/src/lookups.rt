// A lookup: the answer of the current entry, or else a run over sets that are read one at a time, and
// a commit; where a set has changed in between, again.
ghost use Rattle.std.specs.Prelude.{◌≡◌, [], None, false, true, IfOk, OnOk};
ghost use Rattle.sipl_records.specs.Sets.{is_existence};
ghost use Rattle.sipl_plans.specs.Findings.{IsSound};
ghost use Rattle.sipl_plans.specs.Runs.{IsSet, wanted};
ghost use Rattle.sipl_service.specs.Answering.{IsDrawnFor};
ghost use Rattle.sipl_service.specs.Passes.{GetsReceipt};
ghost use Rattle.sipl_service.specs.Telling.{AreToldDependencies, IsToldFor, event_of};

use crate::answered::Answered;
use crate::answers;
use crate::asked::Asked;
use crate::fault::ServiceFault;
use crate::gate::{Gate, Go, OpenGate, Who};
use crate::latest_versions::Latest;
use crate::pass::{Pass, add_receipt};
use crate::service::Service;
use crate::told::Told;
use crate::versions::Versions;
use sipl_book::{BookFault, SharedDraws};
use sipl_evidence::Evidence;
use sipl_outages::Board;
use sipl_plans::{Answer, Finding, Run, draw};
use sipl_records::{Data, Key, Kind, Sequence};
use sipl_srv::Draws;
use sipl_uri::Question;
use std::alloc::AllocError;
use std::sync::{Arc, Wait};

impl Service {
    /// The answer to a question for these random words, with the record sets and the holds that
    /// decide it: that of its current entry, for which the lock is taken once; or else that of a run,
    /// which takes the lock for each set that it reads, and is committed. The gate is called after
    /// each read.
    ///
    /// The fault is `Memory`, or one of: the service was stopped, or the gate stopped the run (L6), the
    /// pass has seen an event that the service has not (L2), the book is for another client or policy (L7),
    /// a full journal (B3), a set changed in each of the tries (L1). Then no event is recorded, and the pass
    /// is as it was.
    pub fn lookup<R: Wait, G: Gate>(
        &self,
        rt: &R,
        pass: &mut Pass,
        question: &Question,
        draws: &Draws,
        gate: &G,
    ) -> Result<Told, ServiceFault>
        ensures receipt { GetsReceipt (λ told. told.number) event_of pass.old pass.new result }
        ensures told { IfOk result
            (λ told. IsToldFor question.now self.now.client self.now.held draws.now told) }
    {
        match self.hand(rt, pass, question, draws) {
            Err(ServiceFault::Book(BookFault::NotCurrent)) => {}
            handed => return handed,
        }
        for _ in 1..self.tries {
            match self.look_up_anew(rt, pass, question, draws, gate) {
                Err(ServiceFault::Contended(_)) => {}
                found => return found,
            }
        }
        self.look_up_anew(rt, pass, question, draws, gate)
    }

    // The answer of the question's current entry. B1 where there is none.
    fn hand<R: Wait>(
        &self,
        rt: &R,
        pass: &mut Pass,
        question: &Question,
        draws: &Draws,
    ) -> Result<Told, ServiceFault>
        ensures receipt { GetsReceipt (λ told. told.number) event_of pass.old pass.new result }
        ensures told { IfOk result
            (λ told. IsToldFor question.now self.now.client self.now.held draws.now told) }
    {
        pass.receipts.reserve(1)?;
        let words = SharedDraws::of(self.alloc, draws)?;
        let asked = Asked::of(self.alloc, question, &self.abilities, self.held, draws)?;
        let mut shared = self.lock(rt);
        if shared.is_stopped {
            drop(asked);
            return Err(ServiceFault::Stopped);
        }
        let answered = answers::hand(self.alloc, &mut shared.book, pass, asked, &words)?;
        drop(shared);
        let Answered {
            told,
            receipt,
            released,
        } = answered;
        drop(released);
        add_receipt(&mut pass.receipts, &mut pass.front, receipt);
        Ok(told)
    }

    // The answer of a run, which is committed. L1 where a set has changed since it was read.
    fn look_up_anew<R: Wait, G: Gate>(
        &self,
        rt: &R,
        pass: &mut Pass,
        question: &Question,
        draws: &Draws,
        gate: &G,
    ) -> Result<Told, ServiceFault>
        ensures receipt { GetsReceipt (λ told. told.number) event_of pass.old pass.new result }
        ensures told { IfOk result
            (λ told. IsToldFor question.now self.now.client self.now.held draws.now told) }
    {
        let finding = self.locate(rt, Who::Caller, question, gate)?;
        self.commit(rt, pass, finding, draws)
    }

    // The answer of a finding, which is committed. L1 where a set has changed since it was read.
    fn commit<R: Wait>(
        &self,
        rt: &R,
        pass: &mut Pass,
        finding: Finding,
        draws: &Draws,
    ) -> Result<Told, ServiceFault>
        requires client { finding.client ≡ self.now.client }
        ensures receipt { GetsReceipt (λ told. told.number) event_of pass.old pass.new result }
        ensures told { IfOk result
            (λ told. IsToldFor finding.question self.now.client self.now.held draws.now told) }
    {
        let Ok(()) = pass.receipts.reserve(1) else {
            drop(finding);
            return Err(ServiceFault::Memory);
        };
        let Ok((asked, drawn, words)) = self.drawn(&finding, draws) else {
            drop(finding);
            return Err(ServiceFault::Memory);
        };
        let mut shared = self.lock(rt);
        if shared.is_stopped {
            drop(asked);
            drop(drawn);
            drop(finding);
            return Err(ServiceFault::Stopped);
        }
        let book = &mut shared.book;
        let answered = answers::commit(self.alloc, book, pass, asked, &words, drawn, finding)?;
        drop(shared);
        let Answered {
            told,
            receipt,
            released,
        } = answered;
        drop(released);
        add_receipt(&mut pass.receipts, &mut pass.front, receipt);
        Ok(told)
    }

    // What is asked of a finding, its answer where nothing is held, and the random words.
    fn drawn(
        &self,
        finding: &Finding,
        draws: &Draws,
    ) -> Result<(Box<Asked>, Answer, SharedDraws), AllocError>
        requires { finding.now.client ≡ self.now.client }
        ensures drawn { IfOk result (λ drawn. IsDrawnFor finding.now drawn.0.value drawn.1) }
        ensures held { IfOk result (λ drawn. drawn.0.value.held ≡ self.now.held) }
        ensures words { IfOk result (λ drawn. drawn.0.value.draws ≡ draws.now) }
        ensures shared { IfOk result (λ drawn. drawn.2 ≡ draws.now) }
    {
        let words = SharedDraws::of(self.alloc, draws)?;
        let (alloc, question) = (self.alloc, finding.question());
        let free = Board::with(alloc, 0);
        let drawn = draw(alloc, finding.layout(), draws, &free, self.held);
        drop(free);
        let answer = drawn?;
        match Asked::of(alloc, question, &self.abilities, self.held, draws) {
            Ok(asked) => Ok((asked, answer, words)),
            Err(error) => {
                drop(answer);
                Err(error)
            }
        }
    }

    // The route of a question on the sets as they are read one after another, which may be of
    // different times. The gate is called after each read, with no lock held.
    pub(crate) fn locate<R: Wait, G: Gate>(
        &self,
        rt: &R,
        who: Who,
        question: &Question,
        gate: &G,
    ) -> Result<Finding, ServiceFault>
        ensures question { IfOk result (λ finding. finding.question ≡ question.now) }
        ensures client { IfOk result (λ finding. finding.client ≡ self.now.client) }
        ensures sound { IfOk result (λ finding. IsSound finding) }
    {
        let mut run = Run::start(self.alloc, question.dup(self.alloc)?, &self.abilities)?;
        match self.read_all(rt, who, &mut run, gate) {
            Ok(()) => Ok(run.finish().ok().unwrap()),
            Err(fault) => {
                drop(run);
                Err(fault)
            }
        }
    }

    // Reads the sets that a new run wants, until it wants none.
    fn read_all<R: Wait, G: Gate>(
        &self,
        rt: &R,
        who: Who,
        run: &mut Run,
        gate: &G,
    ) -> Result<(), ServiceFault>
        requires { run.old.items ≡ [] }
        ensures question { run.new.question ≡ run.old.question }
        ensures client { run.new.client ≡ run.old.client }
        ensures all { OnOk result (wanted run.new ≡ None) }
    {
        let mut reads = 0;
        while let Some(key) = run.wants() {
            let (number, content) = self.read(rt, key)?;
            run.give(self.alloc, number, content)?;
            reads += 1;
            if gate.turn(rt, who, reads) == Go::Stop {
                return Err(ServiceFault::Stopped);
            }
        }
        Ok(())
    }

    // A copy of a key's set as it is, with its number. It is that of a version, which is copied with
    // no lock held, but where there is none of this key and number. A set of existence has no version.
    fn read<R: Wait>(&self, rt: &R, key: &Key) -> Result<(u64, Sequence<Data>), ServiceFault>
        ensures { IfOk result (λ read. IsSet key.now read.0 read.1) }
    {
        if key.kind == Kind::Exists {
            return self.read_existence(rt, key);
        }
        let Some((latest, versions)) = self.latest(rt, key)? else {
            return Ok((0, Sequence::from_vec(Vec::new(self.alloc))));
        };
        match versions.item(self.alloc, latest.place, key, latest.number)? {
            Some(item) => Ok((item.number(), item.into_content())),
            None => self.read_locked(rt, key),
        }
    }

    // Whether a name exists (RFC 4592, 2.2.3), as a set with its number, which tells it.
    fn read_existence<R: Wait>(
        &self,
        rt: &R,
        key: &Key,
    ) -> Result<(u64, Sequence<Data>), ServiceFault>
        requires { is_existence key.now ≡ true }
        ensures { IfOk result (λ read. IsSet key.now read.0 read.1) }
    {
        let number = self.number(rt, key)?;
        let mut content = Vec::new(self.alloc);
        if number > 0 {
            content.push(Data::Bare)?;
        }
        Ok((number, Sequence::from_vec(content)))
    }

    // The number of a key's set as it is.
    fn number<R: Wait>(&self, rt: &R, key: &Key) -> Result<u64, ServiceFault> {
        let shared = self.lock(rt);
        shared.check(&self.abilities, self.held)?;
        Ok(shared.book.number(key))
    }

    // Where the version of a key's set of records as it is now is, and among which; `None` where the set
    // is empty.
    fn latest<R: Wait>(
        &self,
        rt: &R,
        key: &Key,
    ) -> Result<Option<(Latest, Arc<Versions>)>, ServiceFault>
        requires { is_existence key.now ≡ false }
    {
        let mut shared = self.lock(rt);
        shared.check(&self.abilities, self.held)?;
        match shared.latest(rt, key)? {
            Some(latest) => Ok(Some((latest, shared.share_versions()?))),
            None => Ok(None),
        }
    }

    // A copy of a key's set as it is, with its number, made under the lock.
    fn read_locked<R: Wait>(&self, rt: &R, key: &Key) -> Result<(u64, Sequence<Data>), ServiceFault>
        ensures { IfOk result (λ read. IsSet key.now read.0 read.1) }
    {
        let mut shared = self.lock(rt);
        shared.check(&self.abilities, self.held)?;
        Ok(shared.book.read(key)?)
    }

    /// The record sets that the targets of a question depend on, in the order of reading, as they are
    /// read one after another. Records no event, and keeps no entry.
    ///
    /// The fault is `Memory`, or the first of: the service was stopped (L6), the book is for another client
    /// or policy (L7).
    pub fn deps<R: Wait>(&self, rt: &R, question: &Question) -> Result<Evidence, ServiceFault>
        ensures { IfOk result
            (λ items. AreToldDependencies question.now self.now.client items) }
    {
        self.lock(rt).check(&self.abilities, self.held)?;
        let finding = self.locate(rt, Who::Caller, question, &OpenGate)?;
        let evidence = finding.evidence().dup(self.alloc);
        drop(finding);
        Ok(evidence?)
    }
}
