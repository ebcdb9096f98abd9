//! Record sets that threads share.
ghost use Rattle.std.specs.Prelude.{◌≡◌, IfOk, IfErr, IfSome};
ghost use Rattle.boxcar.specs.Table.{Shows};
ghost use Rattle.sipl_service.specs.Versions.{IsVersion};

use boxcar::tag::Tag;
use boxcar::{Keeps, Pushed};
use sipl_evidence::Item;
use sipl_records::Key;
use std::alloc::{AllocError, Global};
use std::sync::Wait;

/// The rule of the entries of `Versions`: each is a set of its key, and is not empty.
#[derive(Clone, Copy, Debug)]
pub struct AreSets;

impl Keeps<Item> for AreSets {
    ghost use Rattle.sipl_service.specs.Versions.{IsVersion};

    ghost holds = { λ _ _ item. IsVersion item };
}

/// Versions of record sets: a set as it was read, with its number. Threads push and read them side by
/// side, with no lock. None is ever taken out.
#[derive(Drop)]
pub struct Versions {
    entries: boxcar::Vec<Item, Global, AreSets>,
}

impl Versions {
    /// No versions.
    pub fn new(alloc: Global) -> Result<Self, AllocError> {
        Ok(Versions {
            entries: boxcar::Vec::with_rule(alloc, Tag::empty())?,
        })
    }

    /// How many versions there are, as far as this thread sees.
    pub fn len(&self) -> usize {
        self.entries.count()
    }

    /// Whether there are no versions.
    pub fn is_empty(&self) -> bool {
        self.entries.is_empty()
    }

    /// Appends a version of a set that is not empty, and returns its place. The only error is an
    /// allocation failure; the version is returned.
    pub fn push<R: Wait>(&self, rt: &R, item: Item) -> Result<usize, Item>
        requires { IsVersion item }
        ensures { IfErr result (λ returned. returned ≡ item) }
    {
        self.entries.push(rt, item)
    }

    /// A copy of the version at a place, where it is of this key and number; `None` where it is of
    /// others, or there is none. The only error is an allocation failure.
    pub fn item(
        &self,
        alloc: Global,
        place: usize,
        key: &Key,
        number: u64,
    ) -> Result<Option<Item>, AllocError>
        ensures key { IfOk result (λ found. IfSome found (λ item. item.key ≡ key.now)) }
        ensures number { IfOk result (λ found. IfSome found (λ item. item.number ≡ number)) }
        ensures version { IfOk result (λ found. IfSome found (λ item. IsVersion item)) }
    {
        match self.shown(alloc, place, key, number)? {
            Some((item, _shown)) => Ok(Some(item)),
            None => Ok(None),
        }
    }

    // As `item`, with what shows that it is the entry at the place.
    fn shown(
        &self,
        alloc: Global,
        place: usize,
        key: &Key,
        number: u64,
    ) -> Result<Option<(Item, Pushed<Item, Global, AreSets>)>, AllocError>
        ensures entry { IfOk result (λ found. IfSome found (λ entry.
            Shows self.now.entries entry.1 × (entry.1.index ≡ place) × (entry.1.value ≡ entry.0))) }
        ensures key { IfOk result (λ found. IfSome found (λ entry. entry.0.key ≡ key.now)) }
        ensures number { IfOk result (λ found. IfSome found (λ entry. entry.0.number ≡ number)) }
        ensures version { IfOk result (λ found. IfSome found (λ entry. IsVersion entry.0)) }
    {
        let Some(shown) = self.entries.witness(place) else {
            return Ok(None);
        };
        match self.entries.get_seen(place, &shown) {
            Some(item) if *item.key() == *key && item.number() == number => {
                Ok(Some((item.dup(alloc)?, shown)))
            }
            _ => Ok(None),
        }
    }
}
