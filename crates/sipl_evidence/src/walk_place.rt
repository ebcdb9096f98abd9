//! Places on walks.
ghost use Rattle.std.specs.Prelude.{◌≡◌, ◌≢◌, Some, IfOk, OnErr};
ghost use Rattle.std.specs.Option.{unwrap_or};
ghost use Rattle.sipl_evidence.specs.Looks.{next_key};
ghost use Rattle.sipl_evidence.specs.WalkPlaces.{name_of, place_asking, IsLentApart, PlaceAsks};

use sipl_names::Name;
use sipl_records::{Key, Kind};
use std::alloc::{AllocError, Global};

// Which set a walk asks for next.
#[derive(Clone, Copy, Debug)]
pub(crate) enum Stage {
    // That of its name.
    Set,
    // The alias of the name, whose set is empty.
    Alias,
    // The existence of the name, which has neither.
    Existence,
    // The existence of the name's parent, where the name does not exist. At most so many ancestors
    // are asked for, with the parent.
    Ancestor(u8),
    // That of the name, which is the wildcard of the closest encloser.
    WildcardSet,
    // The alias of the wildcard, whose set is empty.
    WildcardAlias,
}

// A name that is lent, or is owned.
#[derive(Drop)]
pub(crate) enum Held<'a> {
    Lent(&'a Name),
    Own(Name),
}

// A place on a walk.
#[derive(Drop)]
pub(crate) struct Place<'a> {
    pub(crate) name: Held<'a>,
    // How many aliases may be followed.
    pub(crate) left: u8,
    pub(crate) stage: Stage,
}

impl Held<'_> {
    // The name.
    pub(crate) fn get(&self) -> &Name
        ensures { result.now ≡ name_of self.now }
    {
        match self {
            Held::Lent(name) => name,
            Held::Own(name) => name,
        }
    }

    // The name. Allocates only where it is lent.
    pub(crate) fn into_name(self, alloc: Global) -> Result<Name, AllocError>
        ensures { IfOk result (λ name. name ≡ name_of self.entry) }
    {
        match self {
            Held::Lent(name) => name.dup(alloc),
            Held::Own(name) => Ok(name),
        }
    }

    // The name, where it is owned or differs from this one. Allocates only where one is lent that
    // differs.
    pub(crate) fn into_other(self, alloc: Global, from: &Name) -> Result<Option<Name>, AllocError>
        ensures name { IfOk result (λ other. unwrap_or other from.now ≡ name_of self.entry) }
        ensures memory { OnErr result (IsLentApart self.entry from.now) }
    {
        match self {
            Held::Lent(name) => {
                if name == from {
                    return Ok(None);
                }
                Ok(Some(name.dup(alloc)?))
            }
            Held::Own(name) => Ok(Some(name)),
        }
    }
}

impl Place<'_> {
    // The key of the set that is asked for next.
    pub(crate) fn wanted(&self, alloc: Global, kind: Kind) -> Result<Key, AllocError>
        requires { PlaceAsks self.now kind }
        ensures { IfOk result (λ k. next_key (place_asking self.now kind) ≡ Some k) }
    {
        let name = self.name.get();
        let kind = match self.stage {
            Stage::Set | Stage::WildcardSet => kind,
            Stage::Alias | Stage::WildcardAlias => Kind::Alias,
            Stage::Existence => Kind::Exists,
            Stage::Ancestor(_) => {
                let name = name.parent(alloc)?.unwrap_or(Name::root(alloc));
                let kind = Kind::Exists;
                return Ok(Key { name, kind });
            }
        };
        let name = name.dup(alloc)?;
        Ok(Key { name, kind })
    }
}
