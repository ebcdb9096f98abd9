//! What follows from the definitions. Each law is the contract of a function that does nothing.

ghost use Rattle.std.specs.Prelude.{◌≡◌, ◌-◌, ◌^◌, ◌<◌, ◌≤◌, ℕ, List, [], ◌∷◌, ◌++◌, Ok, None, Some, slice_get};
ghost use Rattle.std.specs.List.{All};
ghost use Rattle.sipl_choice.specs.Abilities.{Client};
ghost use Rattle.sipl_uri.specs.declared.question.Question.{Question};
ghost use Rattle.sipl_evidence.specs.Items.{Item};
ghost use Rattle.sipl_outages.specs.Holds.{BoardEvent};
ghost use Rattle.sipl_outages.specs.declared.held.Held.{Held};
ghost use Rattle.sipl_plans.specs.declared.answer.Answer.{Answer as Targets};
ghost use Rattle.sipl_plans.specs.Findings.{Found};
ghost use Rattle.sipl_zonestore.specs.Store.{Store};
ghost use Rattle.sipl_book.specs.Book.{BookState, answer_now};
ghost use Rattle.sipl_book.specs.Calls.{CountsLooks, IsChanged, MovesBoard, IsHanded, IsCommitted, answer_event, board_event};
ghost use Rattle.sipl_book.specs.Honesty.{WereRead};
ghost use Rattle.sipl_book.specs.Machine.{State, IsLegal, answer_in, empty_state, replay};
ghost use Rattle.sipl_book.specs.Pages.{AreInOrder, IsPage, PageState, events_in};
ghost use Rattle.sipl_book.specs.declared.edit.Edit.{Edit};
ghost use Rattle.sipl_book.specs.declared.event.Event.{Event};
ghost use Rattle.sipl_book.specs.declared.event.Event.TheVariants.{Change, Answer};
ghost use Rattle.sipl_book.specs.declared.outcome.Done.{Done};
ghost use Rattle.sipl_book.specs.declared.outcome.Handed.{Handed};

/// Each answer in a legal journal is what RFC 3263 gives from scratch on the records and the holds
/// that the events before it lead to, by the policy on held endpoints.
pub fn journalled_answers_are_plans()
    ensures { (client : Client) (held : Held) (before after : List Event) (state : State)
        (question : Question) (words : List ℕ) (answer : Targets)
        → IsLegal client held (before ++ Answer question words answer ∷ after) state
        → answer ≡ answer_in (replay before state) question client held words }
{}

/// Sets that were read stay honest over an accepted edit: where one has the number that it had, it
/// has the data that were read.
pub fn what_was_read_outlasts_edits()
    ensures { (edit : Edit) (old new : BookState) (done : Done) (items : List Item)
        → IsChanged edit old new (Ok done) → WereRead old.store items → WereRead new.store items }
{}

/// A count of looks, which is a number of 64 bits, never falls where some are counted.
pub fn looks_never_fall()
    ensures { (old new : BookState) → old.store.looks < 2 ^ 64 → CountsLooks old new
        → old.store.looks ≤ new.store.looks }
{}

/// The number that an edit, a hold, a release, a move of the clock or an answer returns, less that of the
/// journal's first event, is the place of its event in the journal.
pub fn numbers_are_places()
    ensures edits { (edit : Edit) (old new : BookState) (done : Done)
        → IsChanged edit old new (Ok done)
        → slice_get new.journal (done.number - new.first) ≡ Some (Change edit) }
    ensures holds { (event : BoardEvent) (old new : BookState) (number : ℕ)
        → MovesBoard event old new (Ok number)
        → slice_get new.journal (number - new.first) ≡ Some (board_event event) }
    ensures handed { (question : Question) (words : List ℕ) (old new : BookState) (handed : Handed)
        → IsHanded question words old new (Ok handed)
        → slice_get new.journal (handed.number - new.first)
        ≡ Some (answer_event old question words) }
{}

/// Where each page follows the one before it, the events of all of them are legal from the empty state,
/// and lead to the last page's result.
pub fn joined_pages_are_legal()
    ensures legal { (first : PageState) (pages : List PageState) → All IsPage (first ∷ pages)
        → AreInOrder None (first ∷ pages)
        → IsLegal first.client first.held (events_in (first ∷ pages)) empty_state }
    ensures replayed { (last : PageState) (pages : List PageState)
        → All IsPage (pages ++ last ∷ []) → AreInOrder None (pages ++ last ∷ [])
        → replay (events_in (pages ++ last ∷ [])) empty_state ≡ last.result }
{}
