ghost use Rattle.std.specs.Prelude.{◌≡◌, ◌↔◌, [], IfOk};
ghost use Rattle.sipl_evidence.specs.Items.{IsItem};

use sipl_records::{Data, Key, Sequence};
use std::alloc::{AllocError, Global};
use std::marker::Model;

/// A record set as it was read: its key, the number that it had, and its data. The number is 0
/// exactly where the set is empty.
#[derive(Debug, Drop)]
pub struct Item {
    key: Key,
    number: u64,
    content: Sequence<Data>,
}

impl Model for Item {
    ghost use Rattle.sipl_evidence.specs.Items.{Item, IsItem, item_of};

    ghost Value = { Item };

    ghost view = { item_of };

    ghost invariant = { λ i. IsItem (item_of i) };
}

impl Item {
    /// The set of a key with its number. Does not allocate.
    pub fn new(key: Key, number: u64, content: Sequence<Data>) -> Self
        requires { (number ≡ 0) ↔ (content ≡ []) }
        ensures { result ≡ record { key = key; number = number; content = content } }
    {
        Item {
            key,
            number,
            content,
        }
    }

    /// The key of the set.
    pub fn key(&self) -> &Key
        ensures key { result.now ≡ self.now.key }
        ensures valid { IsItem self.now }
    {
        &self.key
    }

    /// The key of the set.
    pub fn into_key(self) -> Key
        ensures { result ≡ self.key }
    {
        self.key
    }

    /// The number of the set: 0 exactly where it is empty.
    pub fn number(&self) -> u64
        ensures number { result ≡ self.now.number }
        ensures valid { IsItem self.now }
    {
        self.number
    }

    /// The data of the set, in their order.
    pub fn content(&self) -> &[Data]
        ensures content { result.now ≡ self.now.content }
        ensures valid { IsItem self.now }
    {
        self.content.as_slice()
    }

    /// The data of the set, in their order.
    pub fn into_content(self) -> Sequence<Data>
        ensures content { result ≡ self.content }
        ensures valid { IsItem self }
    {
        self.content
    }

    /// A copy of the item.
    pub fn dup(&self, alloc: Global) -> Result<Self, AllocError>
        ensures { IfOk result (λ copy. copy ≡ self.now) }
    {
        Ok(Item {
            key: self.key.dup(alloc)?,
            number: self.number,
            content: Sequence::from_vec(dup_data(alloc, self.content.as_slice())?),
        })
    }
}

/// A copy of the data, in their order. The only error is an allocation failure.
pub fn dup_data(alloc: Global, values: &[Data]) -> Result<Vec<Data>, AllocError>
    ensures { IfOk result (λ copy. copy.items ≡ values.now) }
{
    let mut copy = Vec::with_capacity(alloc, values.len())?;
    for datum in values {
        copy.push(datum.dup(alloc)?)?;
    }
    Ok(copy)
}
