ghost use Rattle.std.specs.Prelude.{◌≡◌, ◌↔◌, ◌<◌, [], length, None, IfOk, IfErr, OnOk, OnErr, IsOk, IsSome};
ghost use Rattle.std.specs.Option.{option_copied};
ghost use Rattle.sipl_choice.specs.Abilities.{abilities_fault};
ghost use Rattle.sipl_evidence.specs.Looks.{Look};
ghost use Rattle.sipl_evidence.specs.Known.{Agrees};
ghost use Rattle.sipl_plans.specs.Findings.{IsFound};
ghost use Rattle.sipl_plans.specs.Route.{reads};
ghost use Rattle.sipl_plans.specs.Runs.{first_unread, wanted, IsGiven, IsRun, IsWanted};
ghost use Rattle.sipl_plans.specs.Unfinished.{code_of};

use crate::answer::Reason;
use crate::finding::Finding;
use crate::layout::Layout;
use crate::stage::{Progress, Stage, advance};
use sipl_choice::Abilities;
use sipl_evidence::{Evidence, Item};
use sipl_records::{Data, Key, Sequence};
use sipl_uri::Question;
use std::alloc::{AllocError, Global};
use std::marker::Model;
use std::sync::Arc;
use std::{fmt, mem};
use thiserror::Error;

/// The maximum number of record sets that a run wants: those of 68 walks over 8 aliases
/// and 127 ancestors of a name each.
pub const MAX_SETS: usize = 80_648;

/// The route of a question, computed from record sets that are read one at a time (RFC 3263, 4).
/// Contracts see the question, the client and the sets that were read.
#[derive(Drop)]
pub struct Run {
    question: Question,
    abilities: Abilities,
    // No one else has it, so that it can grow.
    evidence: Arc<Evidence>,
    progress: Progress,
}

impl Model for Run {
    ghost use Rattle.sipl_plans.specs.Runs.{RunState};

    ghost Value = { RunState };

    ghost use Rattle.sipl_plans.specs.Run.{state_of, IsValidRun};

    ghost view = { state_of };

    ghost invariant = { IsValidRun };
}

impl Run {
    /// A run that has read nothing.
    pub fn start(
        alloc: Global,
        question: Question,
        abilities: &Abilities,
    ) -> Result<Self, AllocError>
        ensures { IfOk result (λ run. run
            ≡ record { question = question; client = abilities.now; items = [] }) }
    {
        let evidence = Arc::new(alloc, Evidence::new(alloc))?;
        let abilities = abilities.dup(alloc)?;
        let progress = advance(alloc, &question, &abilities, &evidence, Stage::Start)?;
        Ok(Run {
            question,
            abilities,
            evidence,
            progress,
        })
    }

    /// The key of the set that the run wants next: the first one that the route looks at and that
    /// was not read, whatever records there are that agree with what was read. `None` where all are
    /// read. Does not allocate.
    pub fn wants(&self) -> Option<&Key>
        ensures wanted { option_copied result ≡ wanted self.now }
        ensures next { (look : Look) → Agrees look self.now.items → option_copied result
            ≡ first_unread self.now.items (reads look self.now.question self.now.client) }
        ensures few { IsSome result → length self.now.items < 80648 }
        ensures valid { IsRun self.now }
    {
        match &self.progress {
            Progress::Wanting(key, _) => Some(key),
            Progress::Done(_) => None,
        }
    }

    /// Takes the set of the key that the run wants, and the number of the set. The only error is an
    /// allocation failure; the run is then as it was.
    pub fn give(
        &mut self,
        alloc: Global,
        number: u64,
        content: Sequence<Data>,
    ) -> Result<(), AllocError>
        requires set { IsWanted (wanted self.old) number content }
        ensures ok { OnOk result (IsGiven self.old self.new number content) }
        ensures err { OnErr result (self.new ≡ self.old) }
    {
        let Some(evidence) = Arc::get_mut(&mut self.evidence) else {
            return Err(AllocError);
        };
        // Each way out puts a progress in this one's place.
        let none = Progress::Done(Layout::Refused(Reason::NoAddress));
        let Progress::Wanting(key, stage) = mem::replace(&mut self.progress, none) else {
            unreachable!()
        };
        let item = Item::new(key, number, content);
        if let Err(refused) = evidence.push(item) {
            self.progress = Progress::Wanting(refused.item.into_key(), stage);
            return Err(AllocError);
        }
        match advance(alloc, &self.question, &self.abilities, evidence, stage) {
            Ok(progress) => {
                self.progress = progress;
                Ok(())
            }
            Err(error) => {
                let item = evidence.pop().unwrap();
                self.progress = Progress::Wanting(item.into_key(), Stage::Start);
                Err(error)
            }
        }
    }

    /// What was found, where the run wants no set; otherwise the run as it was (P1). Does not
    /// allocate.
    pub fn finish(self) -> Result<Finding, Unfinished>
        ensures ok { IfOk result (λ finding. IsFound self finding) }
        ensures err { IfErr result (λ unfinished. unfinished.run ≡ self) }
        ensures finished { IsOk result ↔ (wanted self ≡ None) }
    {
        let Run {
            question,
            abilities,
            evidence,
            progress,
        } = self;
        match progress {
            Progress::Done(layout) => Ok(Finding::new(question, abilities, layout, evidence)),
            Progress::Wanting(key, stage) => {
                let run = Run {
                    question,
                    abilities,
                    evidence,
                    progress: Progress::Wanting(key, stage),
                };
                Err(Unfinished { run })
            }
        }
    }
}

/// A run that still wants a set (P1).
#[derive(Drop, Error)]
#[error("the run still wants a set")]
pub struct Unfinished {
    pub run: Run,
}

impl Unfinished {
    /// The error's code in replies, such as `P1`.
    pub fn code(&self) -> &'static str
        ensures { result.now ≡ code_of self.now }
    {
        "P1"
    }
}

// The run is not shown.
impl fmt::Debug for Unfinished {
    fn fmt<W: fmt::Write>(&self, f: &mut fmt::Formatter<W>) -> fmt::Result {
        f.write_str("Unfinished")
    }
}
