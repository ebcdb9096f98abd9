//! What follows from the definitions. Each law is the contract of a function that does nothing.

ghost use Rattle.std.specs.Prelude.{◌≡◌, ◌≢◌, ◌≤◌, ◌+◌, ℕ, [], ◌∷◌, ◌++◌, List, None, Some, length, map, filter, find, false, All};
ghost use Rattle.sipl_names.specs.Labels.{Labels, IsName, wildcard_at};
ghost use Rattle.sipl_records.specs.Sets.{same_key};
ghost use Rattle.sipl_records.specs.Unique.{unique};
ghost use Rattle.sipl_records.specs.declared.data.Data.{Data};
ghost use Rattle.sipl_records.specs.declared.kind.Kind.{Kind};
ghost use Rattle.sipl_records.specs.declared.kind.Kind.TheVariants.{Alias, Exists};
ghost use Rattle.sipl_evidence.specs.Looks.{Look, Asking, key, result_of, asked};
ghost use Rattle.sipl_evidence.specs.Answers.{asking, asking_within, at_encloser, first_target, max_aliases, max_ancestors};
ghost use Rattle.sipl_evidence.specs.Enclosers.{FollowsNone, IsNowhere, IsSynthesized};
ghost use Rattle.sipl_evidence.specs.Items.{Item};
ghost use Rattle.sipl_evidence.specs.Known.{is_unknown, Agrees, first_unknown, advance, known_result, IsTrace};

/// Two look-ups with the same sets of the keys that a computation asks for have one result, and the
/// computation asks both for the same keys.
pub fn results_depend_on_asked_sets_only<T>()
    ensures result { (computation : Asking T) (one other : Look)
        → All (λ k. one k ≡ other k) (asked one computation)
        → result_of one computation ≡ result_of other computation }
    ensures asked { (computation : Asking T) (one other : Look)
        → All (λ k. one k ≡ other k) (asked one computation)
        → asked one computation ≡ asked other computation }
{}

/// On records that agree with the items, the first unknown key is the first of the keys asked for
/// that the items lack. Where there is none, all are known, and so is the result.
pub fn first_unknown_is_the_first_asked_for<T>()
    ensures first { (computation : Asking T) (items : List Item) (look : Look)
        → Agrees look items
        → first_unknown items computation ≡ find (is_unknown items) (asked look computation) }
    ensures all { (computation : Asking T) (items : List Item) (look : Look)
        → Agrees look items → first_unknown items computation ≡ None
        → All (λ k. is_unknown items k ≡ false) (asked look computation) }
    ensures result { (computation : Asking T) (items : List Item) (look : Look)
        → Agrees look items → first_unknown items computation ≡ None
        → known_result items computation ≡ Some (result_of look computation) }
{}

/// What is left of a computation after the sets that are known asks for the same unknown keys and
/// has the same result, with the same items, with more of them, and on records that agree.
pub fn advance_keeps_what_is_unknown<T>()
    ensures first_unknown { (computation : Asking T) (items more : List Item)
        → first_unknown (items ++ more) (advance items computation)
        ≡ first_unknown (items ++ more) computation }
    ensures known_result { (computation : Asking T) (items more : List Item)
        → known_result (items ++ more) (advance items computation)
        ≡ known_result (items ++ more) computation }
    ensures advance { (computation : Asking T) (items more : List Item)
        → advance (items ++ more) (advance items computation)
        ≡ advance (items ++ more) computation }
    ensures result { (computation : Asking T) (items : List Item) (look : Look)
        → Agrees look items
        → result_of look (advance items computation) ≡ result_of look computation }
{}

/// The keys of a trace are those that the computation asks for on each records that agree, each once
/// and in order: the first ones, and all of them where none is unknown.
pub fn traces_have_the_keys_asked_for<T>()
    ensures prefix { (computation : Asking T) (items : List Item) (look : Look)
        → Agrees look items → IsTrace computation items
        → unique same_key (asked look computation) ≡ map (λ item. item.key) items
        ++ unique same_key (filter (is_unknown items) (asked look computation)) }
    ensures whole { (computation : Asking T) (items : List Item) (look : Look)
        → Agrees look items → IsTrace computation items
        → first_unknown items computation ≡ None
        → unique same_key (asked look computation) ≡ map (λ item. item.key) items }
{}

/// No items are a trace, and a trace goes on with the item of the first unknown key.
pub fn traces_go_on_with_the_first_unknown<T>()
    ensures start { (computation : Asking T) → IsTrace computation [] }
    ensures next { (computation : Asking T) (items : List Item) (item : Item)
        → IsTrace computation items → first_unknown items computation ≡ Some item.key
        → IsTrace computation (items ++ item ∷ []) }
{}

/// The answer to a name and a kind, where so many ancestors of a name may be asked for, and so many
/// aliases followed (RFC 1034, 3.6.2). Data of the name are the answer. Without data it is that of
/// the target of the name's first alias, over one alias fewer. Where no alias is followed, it is
/// empty for a name that exists, and for one of which no ancestor exists either.
pub fn answers_are_those_at_the_first_alias()
    ensures own { (look : Look) (ancestors : ℕ) (kind : Kind) (name : Labels) (left : ℕ)
        → look (key name kind) ≢ []
        → result_of look (asking_within ancestors left name kind) ≡ look (key name kind) }
    ensures alias { (look : Look) (ancestors : ℕ) (kind : Kind) (name target : Labels) (left : ℕ)
        → look (key name kind) ≡ [] → first_target (look (key name Alias)) ≡ Some target
        → result_of look (asking_within ancestors (left + 1) name kind)
        ≡ result_of look (asking_within ancestors left target kind) }
    ensures exists { (look : Look) (ancestors : ℕ) (kind : Kind) (name : Labels) (left : ℕ)
        → look (key name kind) ≡ [] → FollowsNone look left name → look (key name Exists) ≢ []
        → result_of look (asking_within ancestors left name kind) ≡ [] }
    ensures nowhere { (look : Look) (ancestors : ℕ) (kind : Kind) (name : Labels) (left : ℕ)
        → look (key name kind) ≡ [] → FollowsNone look left name → IsNowhere look name
        → result_of look (asking_within ancestors left name kind) ≡ [] }
{}

/// The answer to a name that does not exist, where one of so many ancestors does, is that at the
/// wildcard of the closest encloser (RFC 4592, 2.2.1 and 3.3.1): its data, or without data the
/// answer at the target of its first alias, over one alias fewer. Where no alias is followed, it is
/// empty.
pub fn absent_names_are_answered_at_the_wildcard()
    ensures own { (look : Look) (ancestors : ℕ) (kind : Kind) (below encloser : Labels) (left : ℕ)
        → IsSynthesized look ancestors left kind below encloser
        → look (key (wildcard_at encloser) kind) ≢ []
        → result_of look (asking_within ancestors left (below ++ encloser) kind)
        ≡ look (key (wildcard_at encloser) kind) }
    ensures alias { (look : Look) (ancestors : ℕ) (kind : Kind) (below encloser target : Labels)
        (left : ℕ) → IsSynthesized look ancestors (left + 1) kind below encloser
        → look (key (wildcard_at encloser) kind) ≡ []
        → first_target (look (key (wildcard_at encloser) Alias)) ≡ Some target
        → result_of look (asking_within ancestors (left + 1) (below ++ encloser) kind)
        ≡ result_of look (asking_within ancestors left target kind) }
    ensures none { (look : Look) (ancestors : ℕ) (kind : Kind) (below encloser : Labels) (left : ℕ)
        → IsSynthesized look ancestors left kind below encloser
        → look (key (wildcard_at encloser) kind) ≡ []
        → FollowsNone look left (wildcard_at encloser)
        → result_of look (asking_within ancestors left (below ++ encloser) kind) ≡ [] }
{}

/// The ancestors of a name are asked for up to the root: with more of them the computation is the
/// same.
pub fn enclosers_are_sought_up_to_the_root()
    ensures root { (name : Labels) (more : ℕ) (next : Labels → Asking (List Data))
        → IsName name → max_ancestors ≤ more
        → at_encloser more name next ≡ at_encloser max_ancestors name next }
    ensures constant { max_ancestors ≡ 127 }
{}

/// An answer asks for at most 1,186 sets: 132 of a name and 130 of the last one, which are those of
/// the name and its alias, the existence of the name and of 127 ancestors, and those of the wildcard
/// and its alias. At most 8 aliases are followed.
pub fn answers_ask_for_at_most_1186_sets()
    ensures bound { (look : Look) (name : Labels) (kind : Kind)
        → length (asked look (asking name kind)) ≤ 1186 }
    ensures constant { max_aliases ≡ 8 }
{}
