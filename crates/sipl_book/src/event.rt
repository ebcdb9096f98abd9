ghost use Rattle.std.specs.Prelude.{◌≡◌, IfOk};

use crate::edit::Edit;
use crate::shared_draws::SharedDraws;
use sipl_choice::Endpoint;
use sipl_plans::Answer;
use sipl_uri::Question;
use std::alloc::{AllocError, Global};

/// What happened in a step. The numbers of events go on over all pages of a book's journal, one by one.
#[derive(PartialEq, Eq, Drop)]
pub enum Event {
    /// The zones were edited.
    Change(Edit),
    /// An endpoint was held for this number of milliseconds.
    Hold(Endpoint, u64),
    /// An endpoint's hold was ended.
    Release(Endpoint),
    /// The clock was set to this time, in milliseconds.
    Advance(u64),
    /// This answer to a question was returned, for these random words.
    Answer(Question, SharedDraws, Answer),
}

impl Event {
    // The place of the last load once this event has a place after it.
    pub(crate) fn last_load(&self, place: usize, before: usize) -> usize {
        match self {
            Event::Change(Edit::Load(_)) => place,
            _ => before,
        }
    }

    /// A copy. The only error is an allocation failure. Linear in the records of an edit and in the
    /// targets of an answer.
    pub fn dup(&self, alloc: Global) -> Result<Self, AllocError>
        ensures { IfOk result (λ copy. copy ≡ self.now) }
    {
        Ok(match self {
            Event::Change(edit) => Event::Change(edit.dup(alloc)?),
            Event::Hold(endpoint, ms) => Event::Hold(*endpoint, *ms),
            Event::Release(endpoint) => Event::Release(*endpoint),
            Event::Advance(to) => Event::Advance(*to),
            Event::Answer(question, draws, answer) => {
                let answer = answer.dup(alloc)?;
                let draws = draws.dup()?;
                Event::Answer(question.dup(alloc)?, draws, answer)
            }
        })
    }
}
