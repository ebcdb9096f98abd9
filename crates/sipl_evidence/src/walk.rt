ghost use Rattle.std.specs.Prelude.{◌≡◌, ◌≢◌, ◌⊎◌, find, IfOk, OnOk, OnErr, IsSome};
ghost use Rattle.std.specs.Option.{IsSomeAnd, option_copied, unwrap_or};
ghost use Rattle.sipl_evidence.specs.Looks.{Look, asked};
ghost use Rattle.sipl_evidence.specs.Answers.{asking};
ghost use Rattle.sipl_evidence.specs.Known.{Agrees, advance, first_unknown, is_unknown, known_result};
ghost use Rattle.sipl_evidence.specs.WalkPlaces.{IsReach};
ghost use Rattle.sipl_evidence.specs.Walks.{Asks, IsReached, MayCopy, walk_asking, walk_at};

use crate::evidence::Evidence;
use crate::reach::{Reach, reach_from};
use crate::walk_place::{Held, Place, Stage};
use sipl_names::Name;
use sipl_records::{Data, Key, Kind};
use std::alloc::{AllocError, Global};
use std::marker::Model;

/// The maximum number of aliases that an answer follows.
pub const MAX_ALIASES: u8 = 8;

/// A walk over aliases (RFC 1034, 3.6.2) and wildcards (RFC 4592): an answer to a name and a kind
/// that asks for one record set at a time. These are the name's set; where that is empty, its alias;
/// where it has none that may be followed, whether the name exists; while it does not, whether its
/// parent does, and so on up to the root; and at the first that exists, the set of the wildcard
/// there, and where that is empty its alias. At the target of an alias all begins anew. It takes at
/// most 1,186 sets.
#[derive(Debug, Drop)]
pub struct Walk {
    // The name, or while its ancestors are asked for the child of the next one; or a wildcard.
    name: Name,
    kind: Kind,
    // How many aliases may be followed.
    left: u8,
    stage: Stage,
}

impl Model for Walk {
    ghost use Rattle.sipl_evidence.specs.Walks.{Asks, WalkState, state_of};

    ghost Value = { WalkState };

    ghost view = { state_of };

    ghost invariant = { λ w. Asks (state_of w) };
}

/// How far evidence leads a walk.
#[derive(Debug, Drop)]
pub enum Reached<'a> {
    /// To the answer.
    Answer(&'a [Data]),
    /// To the first set that the evidence lacks: its key.
    Wanting(Key),
}

impl Walk {
    /// The walk of the answer to a name and a kind. Does not allocate.
    pub fn start(name: Name, kind: Kind) -> Self
        ensures { walk_asking result ≡ asking name kind }
    {
        Walk {
            name,
            kind,
            left: MAX_ALIASES,
            stage: Stage::Set,
        }
    }

    /// The key of the first set that the answer asks for and that the evidence lacks, whatever records
    /// there are that agree with the evidence; `None` where it has all of them. Allocates only where
    /// a set is lacking, or where the walk goes by a name that does not exist.
    pub fn wants(&self, alloc: Global, evidence: &Evidence) -> Result<Option<Key>, AllocError>
        ensures wanted { IfOk result
            (λ key. key ≡ first_unknown evidence.now (walk_asking self.now)) }
        ensures next { (look : Look) → Agrees look evidence.now → IfOk result
            (λ key. key ≡ find (is_unknown evidence.now) (asked look (walk_asking self.now))) }
        ensures memory { OnErr result
            (IsSome (first_unknown evidence.now (walk_asking self.now))
            ⊎ MayCopy evidence.now self.now.stage) }
    {
        match self.reach(alloc, evidence)? {
            Reach::Answer(_) => Ok(None),
            Reach::Lacking(place) => Ok(Some(place.wanted(alloc, self.kind)?)),
        }
    }

    /// The answer; `None` where it asks for a set that the evidence lacks. Allocates only where the
    /// walk goes by a name that does not exist.
    pub fn result<'a>(
        &self,
        alloc: Global,
        evidence: &'a Evidence,
    ) -> Result<Option<&'a [Data]>, AllocError>
        ensures answer { IfOk result
            (λ set. option_copied set ≡ known_result evidence.now (walk_asking self.now)) }
        ensures memory { OnErr result (MayCopy evidence.now self.now.stage) }
    {
        match self.reach(alloc, evidence)? {
            Reach::Answer(set) => Ok(Some(set)),
            Reach::Lacking(_place) => Ok(None),
        }
    }

    /// Goes on to the first set that the evidence lacks, so that the sets before it are looked up
    /// no more. Allocates only where the walk gets to another name, or goes by a name that does not
    /// exist. An `Err` leaves the walk as it was.
    pub fn step(&mut self, alloc: Global, evidence: &Evidence) -> Result<(), AllocError>
        ensures same { OnOk result (advance evidence.now (walk_asking self.new)
            ≡ advance evidence.now (walk_asking self.old)) }
        ensures onward { OnOk result (IsSome (first_unknown evidence.now (walk_asking self.old))
            → walk_asking self.new ≡ advance evidence.now (walk_asking self.old)) }
        ensures err { OnErr result (self.new ≡ self.old) }
        ensures memory { OnErr result
            (IsSomeAnd (first_unknown evidence.now (walk_asking self.old))
            (λ k. k.name ≢ self.old.name) ⊎ MayCopy evidence.now self.old.stage) }
    {
        let walk = &*self;
        let place = match walk.reach(alloc, evidence)? {
            Reach::Answer(_) => return Ok(()),
            Reach::Lacking(place) => place,
        };
        let (left, stage) = (place.left, place.stage);
        let other = place.name.into_other(alloc, &walk.name)?;
        self.go_to(other, left, stage);
        Ok(())
    }

    /// Goes on as `step` does, and returns the answer, or the key of the first set that the evidence
    /// lacks. Looks each set up once, where `wants`, `result` and `step` do so each. Allocates only
    /// where a set is lacking, or where the walk goes by a name that does not exist. An `Err` leaves
    /// the walk as it was.
    pub fn advance<'a>(
        &mut self,
        alloc: Global,
        evidence: &'a Evidence,
    ) -> Result<Reached<'a>, AllocError>
        ensures reached { IfOk result (IsReached evidence.now (walk_asking self.old)) }
        ensures same { OnOk result (advance evidence.now (walk_asking self.new)
            ≡ advance evidence.now (walk_asking self.old)) }
        ensures onward { OnOk result (IsSome (first_unknown evidence.now (walk_asking self.old))
            → walk_asking self.new ≡ advance evidence.now (walk_asking self.old)) }
        ensures asks { Asks self.old }
        ensures err { OnErr result (self.new ≡ self.old) }
        ensures memory { OnErr result
            (IsSome (first_unknown evidence.now (walk_asking self.old))
            ⊎ MayCopy evidence.now self.old.stage) }
    {
        let walk = &*self;
        let place = match walk.reach(alloc, evidence)? {
            Reach::Answer(set) => return Ok(Reached::Answer(set)),
            Reach::Lacking(place) => place,
        };
        let key = place.wanted(alloc, walk.kind)?;
        let (left, stage) = (place.left, place.stage);
        let other = place.name.into_other(alloc, &walk.name)?;
        self.go_to(other, left, stage);
        Ok(Reached::Wanting(key))
    }

    // Goes on to a place that asks for a set.
    fn go_to(&mut self, other: Option<Name>, left: u8, stage: Stage)
        requires { Asks (walk_at (unwrap_or other self.old.name) self.old.kind left stage) }
        ensures { self.new ≡ walk_at (unwrap_or other self.old.name) self.old.kind left stage }
    {
        if let Some(name) = other {
            self.name = name;
        }
        self.left = left;
        self.stage = stage;
    }

    // The answer, or the place of the first set that the evidence lacks.
    fn reach<'a, 'e: 'a>(
        &'a self,
        alloc: Global,
        evidence: &'e Evidence,
    ) -> Result<Reach<'a, 'e>, AllocError>
        ensures reach { IfOk result (IsReach evidence.now (walk_asking self.now) self.now.kind) }
        ensures memory { OnErr result (MayCopy evidence.now self.now.stage) }
        ensures asks { Asks self.now }
    {
        let place = Place {
            name: Held::Lent(&self.name),
            left: self.left,
            stage: self.stage,
        };
        reach_from(alloc, evidence, place, self.kind)
    }
}
