//! What follows from the definitions. Each law is the contract of a function that does nothing.

ghost use Rattle.std.specs.Prelude.{◌≡◌, ℕ, ◌<◌, ◌++◌, [], ◌∷◌, true, List, map, filter, filter_map, length, All, IsSome};
ghost use Rattle.sipl_records.specs.Sets.{has_kind};
ghost use Rattle.sipl_records.specs.declared.kind.Kind.{Kind};
ghost use Rattle.sipl_records.specs.declared.record.Key.{Key};
ghost use Rattle.sipl_names.specs.Labels.{Labels};
ghost use Rattle.sipl_srv.specs.declared.pick.Pick.{Pick};
ghost use Rattle.sipl_choice.specs.Abilities.{Client};
ghost use Rattle.sipl_evidence.specs.Answers.{answer};
ghost use Rattle.sipl_evidence.specs.Known.{is_unknown, Agrees};
ghost use Rattle.sipl_evidence.specs.Looks.{Look};
ghost use Rattle.sipl_choice.specs.declared.endpoint.Endpoint.{Endpoint};
ghost use Rattle.sipl_outages.specs.Holds.{Holds};
ghost use Rattle.sipl_outages.specs.declared.held.Held.TheVariants.{Out, Last};
ghost use Rattle.sipl_uri.specs.declared.question.Question.{Question};
ghost use Rattle.sipl_plans.specs.Findings.{Found, IsSound};
ghost use Rattle.sipl_plans.specs.Plan.{plan};
ghost use Rattle.sipl_plans.specs.Policies.{BeginsWith, HasTargetsOf, HoldsNone};
ghost use Rattle.sipl_plans.specs.declared.answer.Answer.TheVariants.{Targets, None};
ghost use Rattle.sipl_plans.specs.declared.answer.Reason.TheVariants.{AllHeld};
ghost use Rattle.sipl_plans.specs.Route.{address_of_data, addresses, route, reads, source_of, sources};
ghost use Rattle.sipl_plans.specs.Runs.{RunState, IsRun, wanted};
ghost use Rattle.sipl_plans.specs.declared.run.TheConstants.{MAX_SETS};

/// Where two look-ups have equal sets of the keys that the route looks at in one of them, the route
/// is the same in both, and looks at the same keys.
pub fn equal_sets_give_equal_routes()
    ensures route { (question : Question) (client : Client) (look other : Look)
        → All (λ k. look k ≡ other k) (reads look question client)
        → route look question client ≡ route other question client }
    ensures reads { (question : Question) (client : Client) (look other : Look)
        → All (λ k. look k ≡ other k) (reads look question client)
        → reads look question client ≡ reads other question client }
{}

/// On all records that agree with what a run has read, the route looks at the keys that the run has
/// read, in their order, and after them at the keys that it has not.
pub fn runs_want_what_the_route_reads()
    ensures { (run : RunState) (look : Look) → IsRun run → Agrees look run.items
        → reads look run.question run.client ≡ map (λ item. item.key) run.items
        ++ filter (is_unknown run.items) (reads look run.question run.client) }
{}

/// A run that wants a set has read fewer than `MAX_SETS`, which are 80,648: 1,186 on each of 68
/// walks.
pub fn runs_want_at_most_80648_sets()
    ensures fewer { (run : RunState) → IsRun run → IsSome (wanted run)
        → length run.items < MAX_SETS }
    ensures constant { MAX_SETS ≡ 80648 }
{}

/// The addresses of a name are those of its first family and then those of the next ones (RFC 3263,
/// 4.2).
pub fn addresses_are_those_of_one_family_after_another()
    ensures none { (look : Look) (name : Labels) → addresses look [] name ≡ [] }
    ensures next { (look : Look) (kind : Kind) (kinds : List Kind) (name : Labels)
        → addresses look (kind ∷ kinds) name
        ≡ filter_map address_of_data (answer look name kind) ++ addresses look kinds name }
{}

/// The servers of picks are that of the first pick, with the addresses of its target, and then those
/// of the next ones (RFC 3263, 4.2).
pub fn sources_are_those_of_one_pick_after_another()
    ensures none { (look : Look) (kinds : List Kind) → sources look kinds [] ≡ [] }
    ensures next { (look : Look) (kinds : List Kind) (pick : Pick) (picks : List Pick)
        → sources look kinds (pick ∷ picks)
        ≡ source_of pick (addresses look kinds pick.target) ∷ sources look kinds picks }
{}

/// A table of record sets, each with data of its key's kind, agrees with a finding's evidence.
pub fn findings_have_a_table_that_agrees()
    ensures { (found : Found) → IsSound found → (look : Look) × Agrees look found.items
        × ((k : Key) → All (λ datum. has_kind k.kind datum ≡ true) (look k)) }
{}

/// Where no endpoint is held, both policies on held endpoints give the same answer.
pub fn policies_agree_where_nothing_is_held()
    ensures { (look : Look) (holds : Holds) (question : Question) (client : Client)
        (words : List ℕ) → HoldsNone holds
        → plan look holds question client words Last ≡ plan look holds question client words Out }
{}

/// Where held endpoints are tried last, the targets are those that there are where nothing is held,
/// maybe in another order; and so is the reason for none (RFC 3263, 4.3).
pub fn held_last_reorders_the_targets()
    ensures { (look : Look) (holds free : Holds) (question : Question) (client : Client)
        (words : List ℕ) → HoldsNone free
        → HasTargetsOf (plan look free question client words Out)
        (plan look holds question client words Last) }
{}

/// Where held endpoints are tried last, the first targets are those that there are where held ones
/// are left out, in the same order.
pub fn free_targets_come_first()
    ensures { (look : Look) (holds : Holds) (question : Question) (client : Client)
        (words : List ℕ) (targets : List Endpoint)
        → plan look holds question client words Out ≡ Targets targets
        → BeginsWith targets (plan look holds question client words Last) }
{}

/// Where all endpoints are held and tried last, the targets are those that there are where nothing
/// is held, in the same order.
pub fn all_held_are_tried_as_if_none_were()
    ensures { (look : Look) (holds free : Holds) (question : Question) (client : Client)
        (words : List ℕ) → HoldsNone free
        → plan look holds question client words Out ≡ None AllHeld
        → plan look holds question client words Last
        ≡ plan look free question client words Last }
{}
