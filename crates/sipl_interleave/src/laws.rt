//! What follows from the definitions. Each law is the contract of a function that does nothing.

ghost use Rattle.std.specs.Prelude.{◌≡◌, List};
ghost use Rattle.sipl_book.specs.Book.{state_of};
ghost use Rattle.sipl_interleave.specs.Plays.{AnswersAreRight, Plays, asked_by, journal_after};
ghost use Rattle.sipl_interleave.specs.Steps.{IsStep};
ghost use Rattle.sipl_interleave.specs.World.{IsWorld, WorldState};
ghost use Rattle.sipl_interleave.specs.declared.reply.Reply.{Reply};
ghost use Rattle.sipl_interleave.specs.declared.step.Step.{Step};

/// What always holds of a world, and of its book, holds after each step.
pub fn worlds_stay_worlds()
    ensures { (step : Step) (old new : WorldState) (reply : Reply)
        → IsWorld old → IsStep step old new reply → IsWorld new }
{}

/// Whoever makes the steps, one at a time or all in one play: each answer is right, and the journal has
/// the events since the last page.
pub fn answers_in_plays_are_right()
    ensures answers { (steps : List Step) (old new : WorldState) (replies : List Reply)
        → Plays steps old replies new
        → AnswersAreRight old.book.client old.book.held (state_of old.book) (asked_by old.workers)
        steps replies }
    ensures journal { (steps : List Step) (old new : WorldState) (replies : List Reply)
        → Plays steps old replies new
        → new.book.journal
        ≡ journal_after (asked_by old.workers) steps replies old.book.journal }
{}
