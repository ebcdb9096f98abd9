ghost use Rattle.std.specs.Prelude.{◌≡◌, IsSome, IfOk, OnErr};
ghost use Rattle.sipl_records.specs.Sets.{conflicts, has_key, key_of, shares_set};

use crate::data::Data;
use crate::kind::Kind;
use sipl_names::Name;
use std::alloc::{AllocError, Global};

/// The maximum number of records in a set.
pub const MAX_SET_LEN: usize = 32;

/// A resource record (RFC 1035, 3.2.1), without its class and TTL.
#[derive(Debug, PartialEq, Eq, Drop)]
pub struct Record {
    pub owner: Name,
    pub value: Data,
}

impl Record {
    /// Whether the record is in the key's set: it has that owner and kind (RFC 2181, 5). No record is
    /// in a set of existence.
    pub fn has_key(&self, key: &Key) -> bool
        ensures { result ≡ has_key key.now self.now }
    {
        self.owner == key.name && self.value.kind() == Some(key.kind)
    }

    /// Whether the two records are in one set: equal owners, and data of one kind.
    pub fn shares_set(&self, other: &Record) -> bool
        ensures { result ≡ shares_set self.now other.now }
    {
        self.owner == other.owner && self.value.has_same_kind(&other.value)
    }

    /// Whether the two records cannot both be in a zone: an alias has no other data beside it at its
    /// owner (RFC 1034, 3.6.2; RFC 2181, 10.1). Data of which nothing is kept are accepted beside it.
    pub fn conflicts_with(&self, other: &Record) -> bool
        ensures { result ≡ conflicts self.now other.now }
    {
        let (Some(kind), Some(other_kind)) = (self.value.kind(), other.value.kind()) else {
            return false;
        };
        (kind == Kind::Alias || other_kind == Kind::Alias) && self.owner == other.owner
    }

    /// The key of the set that the record is in; `None` where it is in no set; this does
    /// not allocate.
    pub fn key(&self, alloc: Global) -> Result<Option<Key>, AllocError>
        ensures key { IfOk result (λ key. key ≡ key_of self.now) }
        ensures memory { OnErr result (IsSome (key_of self.now)) }
    {
        let Some(kind) = self.value.kind() else {
            return Ok(None);
        };
        let name = self.owner.dup(alloc)?;
        Ok(Some(Key { name, kind }))
    }

    /// A copy of the record.
    pub fn dup(&self, alloc: Global) -> Result<Self, AllocError>
        ensures { IfOk result (λ copy. copy ≡ self.now) }
    {
        let owner = self.owner.dup(alloc)?;
        let value = self.value.dup(alloc)?;
        Ok(Record { owner, value })
    }
}

/// The owner and the kind of a record set (RFC 2181, 5), or the name whose existence is asked for
/// (RFC 4592, 2.2.3).
#[derive(Debug, PartialEq, Eq, Hash, Drop)]
pub struct Key {
    pub name: Name,
    pub kind: Kind,
}

impl Key {
    /// A copy of the key.
    pub fn dup(&self, alloc: Global) -> Result<Self, AllocError>
        ensures { IfOk result (λ copy. copy ≡ self.now) }
    {
        Ok(Key {
            name: self.name.dup(alloc)?,
            kind: self.kind,
        })
    }
}
