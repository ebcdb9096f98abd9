//! What the set of a name and its alias lead to.
ghost use Rattle.std.specs.Prelude.{◌≡◌, List};
ghost use Rattle.std.specs.Option.{option_copied};
ghost use Rattle.sipl_records.specs.declared.data.Data.{Data};
ghost use Rattle.sipl_records.specs.declared.kind.Kind.{Kind};
ghost use Rattle.sipl_evidence.specs.Answers.{at_alias, at_name, first_target, max_ancestors};
ghost use Rattle.sipl_evidence.specs.Looks.{Asking};
ghost use Rattle.sipl_evidence.specs.WalkPlaces.{IsVisit};
ghost use Rattle.sipl_evidence.specs.Walks.{next_within};

use crate::evidence::Evidence;
use sipl_names::Name;
use sipl_records::{Data, Kind};

// What the set of a name and its alias lead to.
pub(crate) enum Visit<'e> {
    // The answer.
    Answer(&'e [Data]),
    // The target of the alias, which may be followed.
    Target(&'e Name),
    // The set is lacking.
    LacksSet,
    // The set is empty, and the alias is lacking.
    LacksAlias,
    // The set is empty, and no alias is followed.
    Nothing,
}

// Looks up the set of a name, and where that is empty its alias.
pub(crate) fn visit_set<'e>(evidence: &'e Evidence, name: &Name, kind: Kind, left: u8) -> Visit<'e>
    ensures { (otherwise : Asking (List Data))
        → let next = next_within max_ancestors left kind in
        IsVisit evidence.now (at_name next kind name.now otherwise) next kind name.now otherwise
        result }
{
    let Some(set) = evidence.content_at(name, kind) else {
        return Visit::LacksSet;
    };
    if !set.is_empty() {
        return Visit::Answer(set);
    }
    visit_alias(evidence, name, left)
}

// Looks up the alias of a name, where one may be followed.
pub(crate) fn visit_alias<'e>(evidence: &'e Evidence, name: &Name, left: u8) -> Visit<'e>
    ensures { (kind : Kind) (otherwise : Asking (List Data))
        → let next = next_within max_ancestors left kind in
        IsVisit evidence.now (at_alias next name.now otherwise) next kind name.now otherwise
        result }
{
    if left == 0 {
        return Visit::Nothing;
    }
    let Some(aliases) = evidence.content_at(name, Kind::Alias) else {
        return Visit::LacksAlias;
    };
    match first_target(aliases) {
        Some(target) => Visit::Target(target),
        None => Visit::Nothing,
    }
}

/// The target of the first alias.
pub fn first_target(values: &[Data]) -> Option<&Name>
    ensures { option_copied result ≡ first_target values.now }
{
    for datum in values {
        if let Data::Alias(target) = datum {
            return Some(target);
        }
    }
    None
}
