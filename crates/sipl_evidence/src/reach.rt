//! How far evidence leads from a place on a walk.
ghost use Rattle.std.specs.Prelude.{◌≡◌, ◌⊎◌, [], List, IfOk, OnErr};
ghost use Rattle.sipl_records.specs.declared.data.Data.{Data};
ghost use Rattle.sipl_records.specs.declared.kind.Kind.{Kind};
ghost use Rattle.sipl_evidence.specs.Answers.{Next, at_encloser, at_source, max_ancestors, unless_exists};
ghost use Rattle.sipl_evidence.specs.Items.{Item};
ghost use Rattle.sipl_evidence.specs.Looks.{Asking, done};
ghost use Rattle.sipl_evidence.specs.WalkPlaces.{IsClimb, IsLeg, IsReach, IsVisit, name_of, place_asking};
ghost use Rattle.sipl_evidence.specs.Walks.{KnowsAbsence, MayCopy, asking_from, next_within};

use crate::evidence::Evidence;
use crate::visit::{Visit, visit_alias, visit_set};
use crate::walk_place::{Held, Place, Stage};
use sipl_names::Name;
use sipl_records::{Data, Kind};
use std::alloc::{AllocError, Global};

// The maximum number of ancestors of a name that are asked for: as many as it has labels (RFC 1035,
// 2.3.4).
const MAX_ANCESTORS: u8 = 127;

// Where evidence leads: to the answer, or to the place of the first set that it lacks.
#[derive(Drop)]
pub(crate) enum Reach<'a, 'e> {
    Answer(&'e [Data]),
    Lacking(Place<'a>),
}

// Where the sets of a name and of its wildcard lead: to the answer, to the place of the first set
// that is lacking, or to the target of an alias.
#[derive(Drop)]
pub(crate) enum Leg<'a, 'e> {
    Answer(&'e [Data]),
    Lacking(Place<'a>),
    Target(&'e Name),
}

// Where the existence of ancestors leads.
#[derive(Drop)]
pub(crate) enum Climb {
    // To the wildcard of the nearest one that exists.
    Wildcard(Name),
    // To a name whose parent's existence is lacking, and how many ancestors are asked for with it.
    Lacking(Name, u8),
    Nothing,
}

// Goes on from a place as far as the evidence leads.
pub(crate) fn reach_from<'a, 'e: 'a>(
    alloc: Global,
    evidence: &'e Evidence,
    place: Place<'a>,
    kind: Kind,
) -> Result<Reach<'a, 'e>, AllocError>
    ensures reach { IfOk result (IsReach evidence.now (place_asking place.entry kind) kind) }
    ensures memory { OnErr result (MayCopy evidence.now place.entry.stage) }
{
    let left = place.left;
    match leg_from(alloc, evidence, place, kind)? {
        Leg::Answer(set) => Ok(Reach::Answer(set)),
        Leg::Lacking(place) => Ok(Reach::Lacking(place)),
        Leg::Target(target) => {
            let place = Place {
                name: Held::Lent(target),
                left: left - 1,
                stage: Stage::Set,
            };
            reach_from(alloc, evidence, place, kind)
        }
    }
}

// Goes on from a place up to the next alias that is followed.
fn leg_from<'a, 'e: 'a>(
    alloc: Global,
    evidence: &'e Evidence,
    place: Place<'a>,
    kind: Kind,
) -> Result<Leg<'a, 'e>, AllocError>
    ensures leg { IfOk result
        (IsLeg evidence.now (place_asking place.entry kind) place.entry.left kind) }
    ensures memory { OnErr result (MayCopy evidence.now place.entry.stage) }
{
    let (name, left) = (place.name, place.left);
    match place.stage {
        Stage::Set => {
            let visit = visit_set(evidence, name.get(), kind, left);
            name_leg(alloc, evidence, name, left, kind, visit)
        }
        Stage::Alias => {
            let visit = visit_alias(evidence, name.get(), left);
            name_leg(alloc, evidence, name, left, kind, visit)
        }
        Stage::Existence => existence_leg(alloc, evidence, name, left, kind),
        Stage::Ancestor(more) => {
            let name = name.into_name(alloc)?;
            ancestor_leg(alloc, evidence, name, more, left, kind)
        }
        Stage::WildcardSet => {
            let name = name.into_name(alloc)?;
            Ok(source_leg(evidence, name, left, kind))
        }
        Stage::WildcardAlias => {
            let name = name.into_name(alloc)?;
            let visit = visit_alias(evidence, &name, left);
            Ok(wildcard_leg(name, left, visit))
        }
    }
}

// What follows a name's set and alias: where it has neither, the name's existence.
fn name_leg<'a, 'e: 'a>(
    alloc: Global,
    evidence: &'e Evidence,
    name: Held<'a>,
    left: u8,
    kind: Kind,
    visit: Visit<'e>,
) -> Result<Leg<'a, 'e>, AllocError>
    ensures leg { (asking : Asking (List Data))
        → let next = next_within max_ancestors left kind in let name = name_of name.entry in
        IsVisit evidence.now asking next kind name
        (unless_exists max_ancestors name (at_source next kind)) visit.entry
        → IfOk result (IsLeg evidence.now asking left kind) }
    ensures memory { OnErr result (KnowsAbsence evidence.now) }
{
    match visit {
        Visit::Answer(set) => Ok(Leg::Answer(set)),
        Visit::Target(target) => Ok(Leg::Target(target)),
        Visit::LacksSet => {
            let stage = Stage::Set;
            Ok(Leg::Lacking(Place { name, left, stage }))
        }
        Visit::LacksAlias => {
            let stage = Stage::Alias;
            Ok(Leg::Lacking(Place { name, left, stage }))
        }
        Visit::Nothing => existence_leg(alloc, evidence, name, left, kind),
    }
}

// What follows a name's existence: where it does not exist, that of its ancestors.
fn existence_leg<'a, 'e: 'a>(
    alloc: Global,
    evidence: &'e Evidence,
    name: Held<'a>,
    left: u8,
    kind: Kind,
) -> Result<Leg<'a, 'e>, AllocError>
    ensures leg { IfOk result (IsLeg evidence.now
        (asking_from Stage.Existence left kind (name_of name.entry)) left kind) }
    ensures memory { OnErr result (KnowsAbsence evidence.now) }
{
    let Some(existence) = evidence.content_at(name.get(), Kind::Exists) else {
        let stage = Stage::Existence;
        return Ok(Leg::Lacking(Place { name, left, stage }));
    };
    if !existence.is_empty() {
        return Ok(Leg::Answer(&[]));
    }
    let name = name.into_name(alloc)?;
    ancestor_leg(alloc, evidence, name, MAX_ANCESTORS, left, kind)
}

// What follows the existence of a name's ancestors: the set of the wildcard of the nearest one that
// exists.
fn ancestor_leg<'a, 'e: 'a>(
    alloc: Global,
    evidence: &'e Evidence,
    name: Name,
    more: u8,
    left: u8,
    kind: Kind,
) -> Result<Leg<'a, 'e>, AllocError>
    ensures { IfOk result (IsLeg evidence.now
        (asking_from (Stage.Ancestor more) left kind name) left kind) }
{
    match climb_from(alloc, evidence, name, more)? {
        Climb::Wildcard(name) => Ok(source_leg(evidence, name, left, kind)),
        Climb::Lacking(name, more) => {
            let name = Held::Own(name);
            let stage = Stage::Ancestor(more);
            Ok(Leg::Lacking(Place { name, left, stage }))
        }
        Climb::Nothing => Ok(Leg::Answer(&[])),
    }
}

// Asks for the existence of a name's ancestors, the nearest first.
fn climb_from(
    alloc: Global,
    evidence: &Evidence,
    mut name: Name,
    mut more: u8,
) -> Result<Climb, AllocError>
    ensures { (next : Next) (kind : Kind) → IfOk result
        (IsClimb evidence.now (at_encloser more name (at_source next kind)) next kind) }
{
    let Some(mut parent) = name.parent(alloc)? else {
        return Ok(Climb::Nothing);
    };
    while more > 0 && !name.is_root() {
        let Some(found) = evidence.content_at(&parent, Kind::Exists) else {
            return Ok(Climb::Lacking(name, more));
        };
        if !found.is_empty() {
            let wildcard = name.wildcard_beside(alloc)?;
            return Ok(Climb::Wildcard(wildcard));
        }
        name.pop_label();
        parent.pop_label();
        more -= 1;
    }
    Ok(Climb::Nothing)
}

// What follows the wildcard that is the source of synthesis: its set, or where that is empty its
// alias.
fn source_leg<'a, 'e>(evidence: &'e Evidence, name: Name, left: u8, kind: Kind) -> Leg<'a, 'e>
    ensures { IsLeg evidence.now (asking_from Stage.WildcardSet left kind name) left kind result }
{
    let visit = visit_set(evidence, &name, kind, left);
    wildcard_leg(name, left, visit)
}

// What follows the set and the alias of a wildcard: where it has neither, no answer.
fn wildcard_leg<'a, 'e>(name: Name, left: u8, visit: Visit<'e>) -> Leg<'a, 'e>
    ensures { (items : List Item) (kind : Kind) (asking : Asking (List Data))
        → IsVisit items asking (next_within max_ancestors left kind) kind name (done []) visit.entry
        → IsLeg items asking left kind result }
{
    let (name, stage) = match visit {
        Visit::Answer(set) => return Leg::Answer(set),
        Visit::Target(target) => return Leg::Target(target),
        Visit::Nothing => return Leg::Answer(&[]),
        Visit::LacksSet => (Held::Own(name), Stage::WildcardSet),
        Visit::LacksAlias => (Held::Own(name), Stage::WildcardAlias),
    };
    Leg::Lacking(Place { name, left, stage })
}
