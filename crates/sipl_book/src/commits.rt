//! Commits of findings: answers are recorded, and entries made current.
ghost use Rattle.std.specs.Prelude.{◌≡◌, ◌<◌, length, IfOk, IfErr, OnOk, OnErr, vec_len, vec_capacity};
ghost use Rattle.std.specs.List.{All};
ghost use Rattle.sipl_plans.specs.Findings.{IsSound};
ghost use Rattle.sipl_plans.specs.Plan.{draw};
ghost use Rattle.sipl_book.specs.Book.{answer_now, next_event};
ghost use Rattle.sipl_book.specs.Cache.{InOrder};
ghost use Rattle.sipl_book.specs.Calls.{CommitsAnswer, IsCommitted, after_check, after_commit, commit_refusal, is_renumbered, is_stale};
ghost use Rattle.sipl_book.specs.Entries.{committed, entry_of};
ghost use Rattle.sipl_book.specs.Honesty.{AreCurrent, IsHonest};
ghost use Rattle.sipl_book.specs.Repairs.{after_renewal};

use crate::book::{Book, record_event};
use crate::cache::Cache;
use crate::checks::{first_renumbered, first_stale};
use crate::event::Event;
use crate::fault::BookFault;
use crate::outcome::{Handed, Recorded, Uncommitted};
use crate::shared_draws::SharedDraws;
use sipl_outages::{Held, ShareableBoard};
use sipl_plans::{Answer, Finding, draw};
use sipl_srv::Draws;
use sipl_uri::Question;
use std::alloc::{AllocError, Global};

impl Book {
    /// Commits a finding: returns its answer for these random words, which is that of the records
    /// and the holds as they are, and makes the entry of its question current. With as many entries
    /// as the maximum a question that has none gets none. Compares the numbers of the sets, and looks
    /// at none. Linear in the evidence and the targets.
    ///
    /// Where a set has the number that it had when it was read, its data must be those that were
    /// read, as they are where they came from `read`.
    ///
    /// The fault is the first one: a full journal (B3), a set whose number is no longer as it was
    /// read (B2). The finding is returned with it.
    pub fn commit(&mut self, finding: Finding, draws: &Draws) -> Result<Handed, Uncommitted>
        requires client { finding.client ≡ self.old.client }
        requires honest { IsHonest self.old.store finding.items }
        ensures { IsCommitted is_renumbered finding draws.now self.old self.old self.new result }
    {
        if self.journal.len() >= self.max_events {
            let fault = BookFault::JournalFull;
            return Err(Uncommitted { fault, finding });
        }
        if let Some(place) = first_renumbered(&self.store, finding.evidence().items()) {
            let fault = BookFault::Stale(place);
            return Err(Uncommitted { fault, finding });
        }
        self.commit_current(finding, draws)
    }

    /// Commits a finding as `commit` does, wherever its sets come from. Compares the sets that were
    /// read with those of the zones, which counts looks. Linear in the evidence and the targets.
    ///
    /// The fault is the first one: a full journal (B3), a set whose number or data are no longer as
    /// they were read (B2). The finding is returned with it.
    pub fn commit_checked(&mut self, finding: Finding, draws: &Draws) -> Result<Handed, Uncommitted>
        requires client { finding.client ≡ self.old.client }
        ensures { IsCommitted is_stale finding draws.now
            self.old (after_check finding self.old) self.new result }
    {
        match self.commit_fault(&finding) {
            Some(fault) => Err(Uncommitted { fault, finding }),
            None => self.commit_current(finding, draws),
        }
    }

    /// Commits a finding as `commit_checked` does, with an answer that the caller has drawn for these
    /// random words, and a copy of the question. Returns the event's number, and the finding that no
    /// entry has then: so a caller with a lock round the book allocates before the lock, and drops after
    /// it.
    ///
    /// The answer must be that of the finding's layout for the book's holds and policy.
    ///
    /// The fault is the first one: B3, B2, as of `commit_checked`. The finding is returned with it.
    pub fn commit_answer(
        &mut self,
        finding: Finding,
        question: Question,
        draws: SharedDraws,
        answer: Answer,
    ) -> Result<Recorded, Uncommitted>
        requires client { finding.client ≡ self.old.client }
        requires question { question ≡ finding.question }
        requires answer { answer
            ≡ draw finding.layout self.old.board.holds draws self.old.held }
        ensures { CommitsAnswer finding draws self.old self.new result }
    {
        match self.commit_fault(&finding) {
            Some(fault) => Err(Uncommitted { fault, finding }),
            None => self.commit_drawn(finding, question, draws, answer),
        }
    }

    // The fault of a commit: a full journal (B3), or the first set that is no longer as it was read
    // (B2). Counts a look for each set up to it, where the journal is not full.
    fn commit_fault(&mut self, finding: &Finding) -> Option<BookFault>
        ensures fault { result ≡ commit_refusal is_stale finding.now self.old }
        ensures looks { self.new ≡ after_check finding.now self.old }
    {
        if self.journal.len() >= self.max_events {
            return Some(BookFault::JournalFull);
        }
        first_stale(&mut self.store, finding.evidence().items()).map(BookFault::Stale)
    }

    // Commits a finding whose sets are as they were read. The only error is an allocation failure;
    // then nothing changes.
    pub(crate) fn commit_current(
        &mut self,
        finding: Finding,
        draws: &Draws,
    ) -> Result<Handed, Uncommitted>
        requires client { finding.client ≡ self.old.client }
        requires sound { IsSound finding }
        requires current { AreCurrent self.old.store finding.items }
        requires space { length self.old.journal < self.old.max_events }
        ensures number { IfOk result (λ handed. handed.number ≡ next_event self.old) }
        ensures answer { IfOk result
            (λ handed. handed.answer ≡ answer_now self.old finding.question draws.now) }
        ensures after { OnOk result (self.new ≡ after_commit finding draws.now self.old) }
        ensures memory { IfErr result (λ uncommitted. uncommitted.fault ≡ BookFault.Memory) }
        ensures finding { IfErr result (λ uncommitted. uncommitted.finding ≡ finding) }
        ensures unchanged { OnErr result (self.new ≡ self.old) }
    {
        let fault = BookFault::Memory;
        let Ok(drawn) = Drawn::of(self.alloc(), &finding, draws, &self.board, self.held) else {
            return Err(Uncommitted { fault, finding });
        };
        let Drawn {
            question,
            words,
            answer,
            copy,
        } = drawn;
        match self.commit_drawn(finding, question, words, copy) {
            Ok(Recorded { number, released }) => {
                drop(released);
                Ok(Handed { number, answer })
            }
            Err(uncommitted) => {
                drop(answer);
                Err(uncommitted)
            }
        }
    }

    // Commits a finding whose sets are as they were read, with its answer. The only error is an
    // allocation failure; then nothing changes.
    fn commit_drawn(
        &mut self,
        finding: Finding,
        question: Question,
        draws: SharedDraws,
        answer: Answer,
    ) -> Result<Recorded, Uncommitted>
        requires client { finding.client ≡ self.old.client }
        requires sound { IsSound finding }
        requires current { AreCurrent self.old.store finding.items }
        requires space { length self.old.journal < self.old.max_events }
        requires question { question ≡ finding.question }
        requires answer { answer
            ≡ draw finding.layout self.old.board.holds draws self.old.held }
        ensures number { IfOk result (λ committed. committed.number ≡ next_event self.old) }
        ensures after { OnOk result (self.new ≡ after_commit finding draws self.old) }
        ensures memory { IfErr result (λ uncommitted. uncommitted.fault ≡ BookFault.Memory) }
        ensures finding { IfErr result (λ uncommitted. uncommitted.finding ≡ finding) }
        ensures unchanged { OnErr result (self.new ≡ self.old) }
    {
        let id = self.next_event();
        match commit_reserved(&mut self.journal, &mut self.cache, finding, id) {
            Ok(released) => {
                let event = Event::Answer(question, draws, answer);
                let number = record_event(&mut self.journal, self.first, event);
                Ok(Recorded { number, released })
            }
            Err(finding) => {
                drop(question);
                drop(draws);
                drop(answer);
                let fault = BookFault::Memory;
                Err(Uncommitted { fault, finding })
            }
        }
    }
}

// Reserves the place of the next event, which has this number, and makes a finding the current one of its
// question as `Cache::commit` does. The only error is an allocation failure: the finding is returned, and
// nothing changes.
fn commit_reserved(
    journal: &mut Vec<Event>,
    cache: &mut Cache,
    finding: Finding,
    number: u64,
) -> Result<Option<Finding>, Finding>
    requires order { InOrder cache.old.entries }
    requires last { All (λ e. e.id < number) cache.old.entries }
    ensures items { journal.new.items ≡ journal.old.items }
    ensures space { OnOk result (vec_len journal.new < vec_capacity journal.new) }
    ensures ok { OnOk result (cache.new ≡ record cache.old {
      entries = committed finding number cache.old.max_entries cache.old.entries;
      queue = after_renewal cache.old.queue (entry_of cache.old.entries finding.question);
    }) }
    ensures err { OnErr result (cache.new ≡ cache.old) }
    ensures finding { IfErr result (λ returned. returned ≡ finding) }
{
    let Ok(()) = journal.reserve(1) else {
        return Err(finding);
    };
    cache.commit(finding, number)
}

// A copy of a finding's question, the random words, and its answer twice.
#[derive(Drop)]
struct Drawn {
    question: Question,
    words: SharedDraws,
    answer: Answer,
    copy: Answer,
}

impl Drawn {
    // The answer for these random words and holds, by a policy on held endpoints.
    fn of(
        alloc: Global,
        finding: &Finding,
        draws: &Draws,
        board: &ShareableBoard,
        held: Held,
    ) -> Result<Self, AllocError>
        ensures question { IfOk result (λ drawn. drawn.question ≡ finding.now.question) }
        ensures words { IfOk result (λ drawn. drawn.words ≡ draws.now) }
        ensures answer { IfOk result
            (λ drawn. drawn.answer
            ≡ draw finding.now.layout board.now.holds draws.now held) }
        ensures copy { IfOk result (λ drawn. drawn.copy ≡ drawn.answer) }
    {
        let answer = draw(alloc, finding.layout(), draws, board.get(), held)?;
        let copy = answer.dup(alloc)?;
        let words = SharedDraws::of(alloc, draws)?;
        let question = finding.question().dup(alloc)?;
        Ok(Drawn {
            question,
            words,
            answer,
            copy,
        })
    }
}
