ghost use Rattle.std.specs.Prelude.{◌≡◌, ◌≤◌, List, length, IfOk};
ghost use Rattle.std.specs.Arc.{arc_value};
ghost use Rattle.sipl_records.specs.Sets.{set_of};
ghost use Rattle.sipl_records.specs.declared.record.Record.{Record};
ghost use Rattle.sipl_evidence.specs.Known.{Agrees};
ghost use Rattle.sipl_plans.specs.Findings.{IsSound};
ghost use Rattle.sipl_plans.specs.Route.{route};
ghost use Rattle.sipl_plans.specs.Servers.{HasFewServers};

use crate::layout::Layout;
use sipl_choice::Abilities;
use sipl_evidence::Evidence;
use sipl_uri::Question;
use std::alloc::{AllocError, Global};
use std::marker::Model;
use std::sync::Arc;

/// The route of a question for a client (RFC 3263, 4), and the evidence for it: on all records that
/// agree with the evidence the route is the layout, and looks at the evidence's keys, in their
/// order.
#[derive(Drop)]
pub struct Finding {
    question: Question,
    abilities: Abilities,
    layout: Layout,
    evidence: Arc<Evidence>,
}

impl Model for Finding {
    ghost use Rattle.sipl_plans.specs.Findings.{Found};

    ghost Value = { Found };

    ghost use Rattle.sipl_plans.specs.Finding.{found_of, IsValidFinding};

    ghost view = { found_of };

    ghost invariant = { IsValidFinding };
}

impl Finding {
    // The finding of these parts.
    pub(crate) fn new(
        question: Question,
        abilities: Abilities,
        layout: Layout,
        evidence: Arc<Evidence>,
    ) -> Self
        requires sound { IsSound (record {
          question = question;
          client = abilities;
          layout = layout;
          items = arc_value evidence;
        }) }
        ensures { result ≡ record {
          question = question;
          client = abilities;
          layout = layout;
          items = arc_value evidence;
        } }
    {
        Finding {
            question,
            abilities,
            layout,
            evidence,
        }
    }

    /// The question.
    pub fn question(&self) -> &Question
        ensures { result.now ≡ self.now.question }
    {
        &self.question
    }

    /// The abilities of the client.
    pub fn abilities(&self) -> &Abilities
        ensures { result.now ≡ self.now.client }
    {
        &self.abilities
    }

    /// The route: at most 32 servers of at most 64 addresses each.
    pub fn layout(&self) -> &Layout
        ensures layout { result.now ≡ self.now.layout }
        ensures records { (records : List Record) → Agrees (set_of records) self.now.items
            → route (set_of records) self.now.question self.now.client ≡ self.now.layout }
        ensures few { HasFewServers self.now.layout }
    {
        &self.layout
    }

    /// The record sets that the route looks at, in the order of reading: at most 80,648.
    pub fn evidence(&self) -> &Evidence
        ensures evidence { result.now ≡ self.now.items }
        ensures sound { IsSound self.now }
        ensures few { length self.now.items ≤ 80648 }
    {
        &self.evidence
    }

    /// The record sets that the route looks at, in the order of reading. They are shared with the
    /// finding: constant time. Does not allocate: the only error is that 2^63 others share them.
    pub fn share_evidence(&self) -> Result<Arc<Evidence>, AllocError>
        ensures { IfOk result (λ shared. arc_value shared ≡ self.now.items) }
    {
        Arc::try_clone(&self.evidence)
    }

    /// A copy, which shares the evidence. The only error is an allocation failure.
    pub fn dup(&self, alloc: Global) -> Result<Self, AllocError>
        ensures { IfOk result (λ copy. copy ≡ self.now) }
    {
        Ok(Finding {
            question: self.question.dup(alloc)?,
            abilities: self.abilities.dup(alloc)?,
            layout: self.layout.dup(alloc)?,
            evidence: self.share_evidence()?,
        })
    }
}
