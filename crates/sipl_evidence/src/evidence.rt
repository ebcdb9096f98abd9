ghost use Rattle.std.specs.Prelude.{◌≡◌, ◌↔◌, ◌+◌, ◌≤◌, [], ◌∷◌, ◌++◌, false, true, length, None, vec_len, vec_capacity, IsTrue, IfOk, IfErr, IfSome, OnOk, OnErr};
ghost use Rattle.std.specs.Option.{option_copied};
ghost use Rattle.sipl_records.specs.declared.record.Key.{Key};
ghost use Rattle.sipl_evidence.specs.Items.{HasDistinctKeys, Item};
ghost use Rattle.sipl_evidence.specs.Known.{known, is_unknown};
ghost use Rattle.sipl_evidence.specs.Looks.{key};
ghost use Rattle.sipl_evidence.specs.Places.{IsEvidence, place_of, table_of};

use crate::fault::EvidenceFault;
use crate::item::Item;
use crate::places::{Places, insert_place, place_among_few, remove_place, table_with};
use indexmap::IndexMap;
use sipl_names::Name;
use sipl_records::{Data, Key, Kind};
use std::alloc::{AllocError, Global};
use std::marker::Model;

// How many items are searched one by one. More of them have a table of places.
const MAX_SEARCHED: usize = 8;

/// The record sets that a lookup read, in the order of reading, no key twice. Contracts see it as
/// the list of its items.
#[derive(Drop)]
pub struct Evidence {
    alloc: Global,
    items: Vec<Item>,
    // Where there are too many to search.
    places: Option<Box<IndexMap<Name, Places>>>,
}

impl Model for Evidence {
    ghost use Rattle.std.specs.Prelude.{List};
    ghost use Rattle.sipl_evidence.specs.Items.{Item};

    ghost Value = { List Item };

    ghost use Rattle.sipl_evidence.specs.Places.{IsEvidence, table_of};

    ghost view = { λ e. e.items.items };

    ghost invariant = { λ e. IsEvidence e.items.items (table_of e.places) };
}

/// An item that was not appended, and why.
#[derive(Debug, Drop)]
pub struct Refused {
    pub fault: EvidenceFault,
    pub item: Item,
}

impl Evidence {
    /// Evidence without items. Does not allocate.
    pub fn new(alloc: Global) -> Self
        ensures { result ≡ [] }
    {
        Evidence {
            alloc,
            items: Vec::new(alloc),
            places: None,
        }
    }

    /// How many sets were read.
    pub fn len(&self) -> usize
        ensures len { result ≡ length self.now }
        ensures distinct { HasDistinctKeys self.now }
    {
        self.items.len()
    }

    /// Whether no set was read.
    pub fn is_empty(&self) -> bool
        ensures empty { IsTrue result ↔ (self.now ≡ []) }
        ensures distinct { HasDistinctKeys self.now }
    {
        self.items.is_empty()
    }

    /// The items, in the order of reading.
    pub fn items(&self) -> &[Item]
        ensures items { result.now ≡ self.now }
        ensures distinct { HasDistinctKeys self.now }
    {
        &self.items
    }

    /// The place of a key's item, from 0 on; `None` where its set was not read. Constant time but
    /// for hashing. Does not allocate.
    pub fn find(&self, key: &Key) -> Option<usize>
        ensures place { result ≡ place_of self.now key.now }
        ensures distinct { HasDistinctKeys self.now }
    {
        self.place(&key.name, key.kind)
    }

    /// The data of a key's set, as they were read; `None` where it was not read. Constant time but
    /// for hashing. Does not allocate.
    pub fn content(&self, key: &Key) -> Option<&[Data]>
        ensures content { option_copied result ≡ known self.now key.now }
        ensures distinct { HasDistinctKeys self.now }
    {
        self.content_at(&key.name, key.kind)
    }

    // The data of the set of a name and a kind, as they were read.
    pub(crate) fn content_at(&self, name: &Name, kind: Kind) -> Option<&[Data]>
        ensures content { option_copied result ≡ known self.now (key name.now kind) }
        ensures distinct { HasDistinctKeys self.now }
    {
        let place = self.place(name, kind)?;
        Some(self.items[place].content())
    }

    /// The place of the item of a name and a kind, from 0 on; `None` where its set was not read.
    /// Constant time but for hashing. Does not allocate.
    pub fn place(&self, name: &Name, kind: Kind) -> Option<usize>
        ensures place { result ≡ place_of self.now (key name.now kind) }
        ensures distinct { HasDistinctKeys self.now }
    {
        if self.items.len() <= MAX_SEARCHED {
            return place_among_few(&self.items, name, kind);
        }
        self.places.as_ref()?.get(name)?.get(kind)
    }

    /// Appends an item. Constant time but for hashing. The fault is E1 exactly where the key's set
    /// was read already, and else an allocation failure; the item is returned with it, and the
    /// evidence is unchanged.
    pub fn push(&mut self, item: Item) -> Result<(), Refused>
        ensures ok { OnOk result (self.new ≡ self.old ++ item ∷ []) }
        ensures accepted { OnOk result (is_unknown self.old item.key ≡ true) }
        ensures already { IfErr result (λ refused.
            (refused.fault ≡ EvidenceFault.AlreadyRead) ↔ (is_unknown self.old item.key ≡ false)) }
        ensures item { IfErr result (λ refused. refused.item ≡ item) }
        ensures err { OnErr result (self.new ≡ self.old) }
    {
        if self.find(item.key()).is_some() {
            let fault = EvidenceFault::AlreadyRead;
            return Err(Refused { fault, item });
        }
        let key = item.key();
        if let Err(error) = reserve_item(&mut self.items, &mut self.places, self.alloc, key) {
            let fault = EvidenceFault::from(error);
            return Err(Refused { fault, item });
        }
        self.items.push_reserved(item);
        Ok(())
    }

    /// Appends an item of a key whose set was not read. Constant time but for hashing. The only error is
    /// an allocation failure; the evidence is unchanged then.
    pub fn push_unread(&mut self, item: Item) -> Result<(), AllocError>
        requires { place_of self.old item.key ≡ None }
        ensures ok { OnOk result (self.new ≡ self.old ++ item ∷ []) }
        ensures err { OnErr result (self.new ≡ self.old) }
    {
        reserve_item(&mut self.items, &mut self.places, self.alloc, item.key())?;
        self.items.push_reserved(item);
        Ok(())
    }

    /// Removes the last item and returns it; `None` where there is none. Constant time but for
    /// hashing. Does not allocate.
    pub fn pop(&mut self) -> Option<Item>
        ensures item { IfSome result (λ item. self.old ≡ self.new ++ item ∷ []) }
        ensures empty { result ≡ None → self.old ≡ [] }
        ensures none { result ≡ None → self.new ≡ [] }
    {
        let item = self.items.pop()?;
        remove_place(&mut self.places, item.key());
        Some(item)
    }

    /// A copy. The only error is an allocation failure.
    pub fn dup(&self, alloc: Global) -> Result<Self, AllocError>
        ensures { IfOk result (λ copy. copy ≡ self.now) }
    {
        let mut copy = Evidence::new(alloc);
        for item in &self.items {
            if copy.push(item.dup(alloc)?).is_err() {
                return Err(AllocError);
            }
        }
        Ok(copy)
    }
}

// Reserves space for an item of this key. Where there will be too many to search, the table gets its
// place, which is the next one.
fn reserve_item(
    items: &mut Vec<Item>,
    places: &mut Option<Box<IndexMap<Name, Places>>>,
    alloc: Global,
    key: &Key,
) -> Result<(), AllocError>
    requires evidence { IsEvidence items.old.items (table_of places.old) }
    requires new { place_of items.old.items key.now ≡ None }
    ensures items { items.new.items ≡ items.old.items }
    ensures space { OnOk result (vec_len items.new + 1 ≤ vec_capacity items.new) }
    ensures ok { OnOk result ((item : Item) → item.key ≡ key.now
        → IsEvidence (items.old.items ++ item ∷ []) (table_of places.new)) }
    ensures err { OnErr result (IsEvidence items.old.items (table_of places.new)) }
{
    reserve_one(items, key.kind)?;
    let len = items.len();
    if len < MAX_SEARCHED {
        return Ok(());
    }
    index_next(items, places, alloc, key)
}

// Reserves space for one item more, which is of this kind. No more than that where it is the first, unless
// it is a set of NAPTR, which those of SRV and of addresses follow.
fn reserve_one(items: &mut Vec<Item>, kind: Kind) -> Result<(), AllocError>
    ensures items { items.new.items ≡ items.old.items }
    ensures space { OnOk result (vec_len items.new + 1 ≤ vec_capacity items.new) }
{
    if items.is_empty() && kind != Kind::Pointer {
        items.reserve_exact(1)?;
        return Ok(());
    }
    items.reserve(1)?;
    Ok(())
}

// Sets the place of the next item, which has this key, in the table.
fn index_next(
    items: &[Item],
    places: &mut Option<Box<IndexMap<Name, Places>>>,
    alloc: Global,
    key: &Key,
) -> Result<(), AllocError>
    requires evidence { IsEvidence items.now (table_of places.old) }
    requires new { place_of items.now key.now ≡ None }
    ensures ok { OnOk result ((item : Item) → item.key ≡ key.now
        → IsEvidence (items.now ++ item ∷ []) (table_of places.new)) }
    ensures err { OnErr result (IsEvidence items.now (table_of places.new)) }
{
    let len = items.len();
    if len > MAX_SEARCHED {
        if let Some(table) = places {
            return insert_place(table, alloc, key, len);
        }
    }
    let table = table_with(alloc, items, key)?;
    *places = Some(Box::new(alloc, table)?);
    Ok(())
}
