//! What follows from the definitions. Each law is the contract of a function that does nothing.

ghost use Rattle.std.specs.Prelude.{◌≡◌, ◌++◌, ◌<◌, ◌^◌, ℕ, List, [], Some, length, map};
ghost use Rattle.std.specs.List.{AllByRecursion, flat_map};
ghost use Rattle.sipl_names.specs.Labels.{Labels, IsName, Octets};
ghost use Rattle.sipl_records.specs.declared.kind.Kind.{Kind};
ghost use Rattle.sipl_choice.specs.Abilities.{Client};
ghost use Rattle.sipl_choice.specs.declared.endpoint.Endpoint.{Endpoint};
ghost use Rattle.sipl_evidence.specs.Answers.{asking_within, max_ancestors};
ghost use Rattle.sipl_evidence.specs.Enclosers.{IsClosest};
ghost use Rattle.sipl_evidence.specs.Looks.{Look, result_of};
ghost use Rattle.sipl_outages.specs.Holds.{Holds};
ghost use Rattle.sipl_outages.specs.declared.held.Held.TheVariants.{Last};
ghost use Rattle.sipl_uri.specs.declared.question.Question.{Question};
ghost use Rattle.sipl_plans.specs.Plan.{plan, with_held_last};
ghost use Rattle.sipl_plans.specs.Policies.{HoldsNone};
ghost use Rattle.sipl_plans.specs.declared.answer.Answer.TheVariants.{Targets, None};
ghost use Rattle.sipl_plans.specs.declared.answer.Reason.{Reason};
ghost use Rattle.sipl_book.specs.Pages.{PageState};
ghost use Rattle.sipl_book.specs.declared.event.Event.{Event};
ghost use Rattle.sipl_lines.specs.Requests.{request_of};
ghost use Rattle.sipl_archive.specs.Archive.{IsHead, body_text, file_text, page_head, page_name, page_text};
ghost use Rattle.sipl_lines.specs.CommandLines.{after_command, first_line};
ghost use Rattle.sipl_archive.specs.Commands.{after_kept_reply};
ghost use Rattle.sipl_archive.specs.Plain.{PlainState};
ghost use Rattle.sipl_archive.specs.Replay.{Repeats, RepeatsSome};
ghost use Rattle.sipl_lines.specs.CommandText.{event_lines};
ghost use Rattle.sipl_laws.specs.Asked.{event_reply, event_request};
ghost use Rattle.sipl_laws.specs.Carried.{Accepts, AcceptsAll, LoadsZone};
ghost use Rattle.sipl_laws.specs.Carried.{all_after, event_command, plain_after};
ghost use Rattle.sipl_laws.specs.Events.{IsEvent, IsPage, kept_event};
ghost use Rattle.sipl_laws.specs.NameCases.{NameCase, answer_in, number_of};
ghost use Rattle.sipl_laws.specs.ReadBack.{ReadsBack};

use sipl_evidence::laws::{
    absent_names_are_answered_at_the_wildcard, answers_are_those_at_the_first_alias,
};
use sipl_masterfile::laws::{joining_texts_joins_entries, printing_records_reads_back};
use sipl_records::laws::{conflicts_are_mutual, printing_addresses_reads_back};
use sipl_uri::laws::{printed_questions_read_back, question_text_has_at_most_1030_octets};

/// Where held endpoints are tried last, the targets are those that there are where nothing is held:
/// first the free ones, in their order, and then the held ones, in theirs. Where there are none,
/// the reason is the same (RFC 3263, 4.3).
pub fn held_last_keeps_the_order()
    ensures targets { (look : Look) (holds free : Holds) (question : Question) (client : Client)
        (words : List ℕ) (targets : List Endpoint) → HoldsNone free
        → plan look free question client words Last ≡ Targets targets
        → plan look holds question client words Last ≡ Targets (with_held_last holds targets) }
    ensures none { (look : Look) (holds free : Holds) (question : Question) (client : Client)
        (words : List ℕ) (reason : Reason) → HoldsNone free
        → plan look free question client words Last ≡ None reason
        → plan look holds question client words Last ≡ None reason }
{}

/// Each name is in one of seven cases, and in no other: it has data of the kind, an alias is
/// followed, it exists without either, it does not exist and neither does an ancestor, or, of the
/// wildcard at its closest encloser, that has data, an alias of it is followed, or neither (RFC
/// 1034, 3.6.2; RFC 4592, 2.2.1 and 3.3.1). The case decides the answer.
pub fn names_are_in_one_case()
    ensures some { (look : Look) (left : ℕ) (kind : Kind) (name : Labels) → IsName name
        → NameCase look max_ancestors left kind name }
    ensures one { (look : Look) (ancestors left : ℕ) (kind : Kind) (name : Labels)
        (case other : NameCase look ancestors left kind name)
        → number_of case ≡ number_of other }
    ensures answer { (look : Look) (ancestors left : ℕ) (kind : Kind) (name : Labels)
        (case : NameCase look ancestors left kind name)
        → result_of look (asking_within ancestors left name kind) ≡ answer_in case }
{
    answers_are_those_at_the_first_alias();
    absent_names_are_answered_at_the_wildcard();
}

/// A name has at most one closest encloser (RFC 4592, 3.3.1).
pub fn closest_enclosers_are_equal()
    ensures { (look : Look) (below encloser further other : Labels)
        → IsClosest look below encloser → IsClosest look further other
        → below ++ encloser ≡ further ++ other → encloser ≡ other }
{}

/// The lines of an event are one command, whatever is after them, and then its reply, if a page has
/// one. The first line asks a session for what the event is.
pub fn event_lines_are_one_command()
    ensures command { (event : Event) (rest : Octets) → IsEvent event
        → after_command (event_lines event ++ rest) ≡ Some (event_reply event ++ rest) }
    ensures reply { (event : Event) (rest : Octets) → IsEvent event
        → after_kept_reply (first_line (event_lines event ++ rest)) (event_reply event ++ rest)
        ≡ Some rest }
    ensures request { (event : Event) (rest : Octets) → IsEvent event
        → request_of (first_line (event_lines event ++ rest)) ≡ event_request event }
{
    printing_addresses_reads_back();
    question_text_has_at_most_1030_octets();
}

/// Two pages with one head and one text have the same events, and so have two files of a client's
/// pages, which begin with the same event. Of a loaded zone no page has how many records its text
/// stated outside its apex, or twice.
pub fn page_texts_differ()
    ensures page { (head : Octets) (events others : List Event) → AllByRecursion IsEvent events
        → AllByRecursion IsEvent others → page_text head events ≡ page_text head others
        → map kept_event events ≡ map kept_event others }
    ensures first { (client : Octets) (page other : PageState) → IsPage page → IsPage other
        → file_text client page ≡ file_text client other → page.first ≡ other.first }
    ensures file { (client : Octets) (page other : PageState) → IsPage page → IsPage other
        → file_text client page ≡ file_text client other
        → map kept_event page.events ≡ map kept_event other.events }
{
    printing_addresses_reads_back();
    printing_records_reads_back();
    printed_questions_read_back();
}

/// A plain machine that accepts an event carries its lines out again: the event's command, with the
/// reply that a page has, leads it where the event does.
pub fn accepted_events_are_carried_out_again()
    ensures lines { (event : Event)
        → event_lines event ≡ event_command event ++ event_reply event }
    ensures repeats { (event : Event) (before : PlainState) → IsEvent event → LoadsZone event
        → Accepts before event → (told : Octets) × Repeats (record {
          command = event_command event;
          reply = event_reply event;
          told = told;
        })
        before (plain_after event before) }
{
    conflicts_are_mutual();
    joining_texts_joins_entries();
    printing_addresses_reads_back();
    printing_records_reads_back();
    printed_questions_read_back();
    question_text_has_at_most_1030_octets();
}

/// Each page reads back. Its head does as the number of its first event, the number of its events,
/// and its client. Its events are carried out again by a machine that accepts them one after
/// another. Its file has the name of its run and first event, and as its last line the digest of
/// all before.
pub fn pages_read_back()
    ensures head { (first count : ℕ) (client : Octets) (events : List Event) → first < 2 ^ 64
        → count < 2 ^ 64 → IsHead (body_text (page_head first count client) events) first count
        client (flat_map event_lines events) }
    ensures events { (events : List Event) (before : PlainState) → AllByRecursion IsEvent events
        → AllByRecursion LoadsZone events → AcceptsAll before events
        → RepeatsSome (flat_map event_lines events) [] (length events) before
        (all_after events before) }
    ensures file { (run : ℕ) (client : Octets) (page : PageState) (before : PlainState)
        → run < 10 ^ 6 → page.first < 10 ^ 16 → IsPage page
        → AllByRecursion LoadsZone page.events → AcceptsAll before page.events
        → ReadsBack (page_name run page.first) (file_text client page) run client page before
        (all_after page.events before) }
{
    conflicts_are_mutual();
    joining_texts_joins_entries();
    printing_addresses_reads_back();
    printing_records_reads_back();
    printed_questions_read_back();
    question_text_has_at_most_1030_octets();
}
