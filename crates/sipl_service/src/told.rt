ghost use Rattle.std.specs.Prelude.{◌≡◌, IfOk};
ghost use Rattle.std.specs.Arc.{arc_value};
ghost use Rattle.sipl_plans.specs.Findings.{IsSound};
ghost use Rattle.sipl_plans.specs.Plan.{draw};
ghost use Rattle.sipl_service.specs.Telling.{IsDecided, told_to};

use crate::asked::Asked;
use sipl_book::Entry;
use sipl_choice::Abilities;
use sipl_evidence::Evidence;
use sipl_outages::{Board, Held, SharedBoard};
use sipl_plans::Answer;
use sipl_srv::Draws;
use sipl_uri::Question;
use std::alloc::{AllocError, Global};
use std::marker::Model;
use std::sync::Arc;

/// An answer, with the record sets and the holds that decide it: wherever the records agree with the
/// evidence, and these endpoints are held, the answer to the question is this one by its policy on held
/// endpoints (RFC 3263, 4).
#[derive(Drop)]
pub struct Told {
    number: u64,
    asked: Box<Asked>,
    answer: Answer,
    evidence: Arc<Evidence>,
    holds: SharedBoard,
}

impl Model for Told {
    ghost use Rattle.sipl_service.specs.Telling.{ToldState};

    ghost Value = { ToldState };

    ghost use Rattle.sipl_service.specs.Told.{IsValidTold, told_of};

    ghost view = { told_of };

    ghost invariant = { IsValidTold };
}

impl Told {
    // The answer of a book's entry, which its evidence and these holds decide, to what is asked; with the
    // number of its event.
    pub(crate) fn of(
        alloc: Global,
        number: u64,
        asked: Box<Asked>,
        entry: &Entry,
        holds: SharedBoard,
    ) -> Result<Self, AllocError>
        requires sound { IsSound (record {
          question = asked.value.question;
          client = asked.value.abilities;
          layout = entry.now.found.layout;
          items = entry.now.found.items;
        }) }
        ensures number { IfOk result (λ told. told.number ≡ number) }
        ensures question { IfOk result (λ told. told.question ≡ asked.value.question) }
        ensures client { IfOk result (λ told. told.client ≡ asked.value.abilities) }
        ensures held { IfOk result (λ told. told.held ≡ asked.value.held) }
        ensures words { IfOk result (λ told. told.words ≡ asked.value.draws) }
        ensures answer { IfOk result (λ told. told.answer
            ≡ draw entry.now.found.layout holds.holds asked.value.draws asked.value.held) }
        ensures evidence { IfOk result (λ told. told.items ≡ entry.now.found.items) }
        ensures board { IfOk result (λ told. told.board ≡ holds) }
    {
        let drawn = entry.draw(alloc, &asked.draws, holds.get(), asked.held);
        let Ok(answer) = drawn else {
            drop(asked);
            drop(holds);
            return Err(AllocError);
        };
        match entry.share_evidence() {
            Ok(evidence) => Ok(Told::drawn(number, asked, answer, evidence, holds)),
            Err(error) => {
                drop(asked);
                drop(holds);
                drop(answer);
                Err(error)
            }
        }
    }

    // An answer to what is asked, which this evidence and these holds decide; with the number of its
    // event.
    pub(crate) fn drawn(
        number: u64,
        asked: Box<Asked>,
        answer: Answer,
        evidence: Arc<Evidence>,
        holds: SharedBoard,
    ) -> Self
        requires { IsDecided (told_to asked.value number answer (arc_value evidence) holds) }
        ensures { result ≡ told_to asked.value number answer (arc_value evidence) holds }
    {
        Told {
            number,
            asked,
            answer,
            evidence,
            holds,
        }
    }

    /// The number of its event.
    pub fn number(&self) -> u64
        ensures { result ≡ self.now.number }
    {
        self.number
    }

    /// The question.
    pub fn question(&self) -> &Question
        ensures { result.now ≡ self.now.question }
    {
        &self.asked.question
    }

    /// The abilities of the client.
    pub fn abilities(&self) -> &Abilities
        ensures { result.now ≡ self.now.client }
    {
        &self.asked.abilities
    }

    /// The policy on held endpoints.
    pub fn held(&self) -> Held
        ensures { result ≡ self.now.held }
    {
        self.asked.held
    }

    /// The random words.
    pub fn draws(&self) -> &Draws
        ensures { result.now ≡ self.now.words }
    {
        &self.asked.draws
    }

    /// The targets, or the reason that there are none.
    pub fn answer(&self) -> &Answer
        ensures answer { result.now ≡ self.now.answer }
        ensures decided { IsDecided self.now }
    {
        &self.answer
    }

    /// The targets, or the reason that there are none.
    pub fn into_answer(self) -> Answer
        ensures answer { result ≡ self.answer }
        ensures decided { IsDecided self }
    {
        let Told {
            asked,
            answer,
            evidence,
            holds,
            ..
        } = self;
        drop(asked);
        drop(evidence);
        drop(holds);
        answer
    }

    /// The record sets that the answer depends on, in the order of reading.
    pub fn evidence(&self) -> &Evidence
        ensures evidence { result.now ≡ self.now.items }
        ensures decided { IsDecided self.now }
    {
        &self.evidence
    }

    /// The endpoints that were held, and the time.
    pub fn holds(&self) -> &Board
        ensures holds { result.now ≡ self.now.board }
        ensures decided { IsDecided self.now }
    {
        self.holds.get()
    }
}
