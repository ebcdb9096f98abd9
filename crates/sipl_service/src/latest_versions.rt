//! Where the versions of record sets are, as the book's sets are now.
ghost use Rattle.std.specs.Prelude.{◌≡◌, ◌≢◌, ◌↔◌, [], None, Some, false, nat_eq, IfOk, IfSome, OnOk, OnErr};
ghost use Rattle.indexmap.specs.IndexMap.{get};
ghost use Rattle.sipl_records.specs.Sets.{is_existence, same_key};
ghost use Rattle.sipl_records.specs.declared.record.Key.{Key};
ghost use Rattle.sipl_zonestore.specs.Store.{number_in};
ghost use Rattle.sipl_book.specs.Calls.{after_look};
ghost use Rattle.sipl_service.specs.LatestVersions.{AreLatestOf, book_after_latest, latest_at};

use crate::versions::Versions;
use indexmap::IndexMap;
use sipl_book::Book;
use sipl_evidence::Item;
use sipl_records::Key;
use std::alloc::{AllocError, Global};
use std::sync::Wait;

/// The latest version of a set: its number, and its place among the versions.
#[derive(Clone, Copy, Debug)]
pub(crate) struct Latest {
    pub number: u64,
    pub place: usize,
}

/// The latest versions of the sets of records that were read, by their keys. A set of existence
/// has none.
#[derive(Drop)]
pub(crate) struct LatestVersions {
    alloc: Global,
    table: IndexMap<Key, Latest>,
}

impl LatestVersions {
    // None yet. Does not allocate.
    pub(crate) fn new(alloc: Global) -> Self
        ensures { result.table.entries ≡ [] }
    {
        LatestVersions {
            alloc,
            table: IndexMap::new(alloc),
        }
    }

    // The latest version of a key's set of records; `None` where it is empty. Where it has none, a copy of
    // the set is pushed to the versions, with a look at it. A latest version that is there is that of the set
    // as it is, so the book is not read.
    pub(crate) fn of_key<R: Wait>(
        &mut self,
        rt: &R,
        book: &mut Book,
        versions: &Versions,
        key: &Key,
    ) -> Result<Option<Latest>, AllocError>
        requires of_records { is_existence key.now ≡ false }
        requires latest_versions { AreLatestOf book.old.store (get same_key self.old.table) }
        ensures latest_versions { OnOk result (AreLatestOf book.old.store (get same_key self.new.table)) }
        ensures empty { IfOk result (λ latest.
            (latest ≡ None) ↔ (number_in book.old.store key.now ≡ 0)) }
        ensures number { IfOk result (λ latest.
            IfSome latest (λ latest. latest.number ≡ number_in book.old.store key.now)) }
        ensures kept { IfOk result (λ latest.
            IfSome latest (λ latest. get same_key self.new.table key.now ≡ Some latest)) }
        ensures others { (other : Key) → same_key key.now other ≡ false
            → get same_key self.new.table other ≡ get same_key self.old.table other }
        ensures unchanged { OnErr result (self.new.table.entries ≡ self.old.table.entries) }
        ensures book { book.new ≡ book_after_latest (number_in book.old.store key.now)
            (get same_key self.old.table key.now) book.old }
    {
        if let Some(latest) = self.table.get(key).copied() {
            return Ok(Some(latest));
        }
        if book.number(key) == 0 {
            return Ok(None);
        }
        Ok(Some(self.push(rt, book, versions, key)?))
    }

    // Pushes a copy of a key's set of records to the versions, and keeps where it is. Where that finds no
    // space, the version stays, and no key leads to it.
    fn push<R: Wait>(
        &mut self,
        rt: &R,
        book: &mut Book,
        versions: &Versions,
        key: &Key,
    ) -> Result<Latest, AllocError>
        requires of_records { is_existence key.now ≡ false }
        requires taken { number_in book.old.store key.now ≢ 0 }
        requires latest_versions { AreLatestOf book.old.store (get same_key self.old.table) }
        ensures latest_versions { OnOk result (AreLatestOf book.old.store (get same_key self.new.table)) }
        ensures number { IfOk result (λ latest. latest.number ≡ number_in book.old.store key.now) }
        ensures kept { IfOk result (λ latest. get same_key self.new.table key.now ≡ Some latest) }
        ensures others { (other : Key) → same_key key.now other ≡ false
            → get same_key self.new.table other ≡ get same_key self.old.table other }
        ensures unchanged { OnErr result (self.new.table.entries ≡ self.old.table.entries) }
        ensures book { book.new ≡ after_look book.old }
    {
        let (number, content) = book.read(key)?;
        let Ok(own) = key.dup(self.alloc) else {
            drop(content);
            return Err(AllocError);
        };
        let item = Item::new(own, number, content);
        let place = match versions.push(rt, item) {
            Ok(place) => place,
            Err(item) => {
                drop(item);
                return Err(AllocError);
            }
        };
        let latest = Latest { number, place };
        self.table.insert(key.dup(self.alloc)?, latest)?;
        Ok(latest)
    }

    // Takes out each latest version whose number is no longer the book's, after an edit: where it may have
    // changed the set of records of one key alone, that of this key; else it is linear in their number.
    pub(crate) fn take_out_changed(&mut self, book: &Book, key: Option<&Key>)
        requires { IfSome key (λ key. (other : Key) → same_key key.now other ≡ false
            → latest_at (number_in book.now.store other) (get same_key self.old.table other)
            ≡ get same_key self.old.table other) }
        ensures { (key : Key) → get same_key self.new.table key
            ≡ latest_at (number_in book.now.store key) (get same_key self.old.table key) }
    {
        match key {
            Some(key) => self.take_out(book, key),
            None => self.take_out_all(book),
        }
    }

    // Takes out the latest version of a key whose number is no longer the book's. All others stay.
    fn take_out(&mut self, book: &Book, key: &Key)
        ensures latest { get same_key self.new.table key.now
            ≡ latest_at (number_in book.now.store key.now) (get same_key self.old.table key.now) }
        ensures others { (other : Key) → same_key key.now other ≡ false
            → get same_key self.new.table other ≡ get same_key self.old.table other }
    {
        if let Some(latest) = self.table.get(key) {
            if latest.number != book.number(key) {
                self.table.swap_remove(key);
            }
        }
    }

    // Takes out each latest version whose number is no longer the book's. Linear in their number.
    fn take_out_all(&mut self, book: &Book)
        ensures { (key : Key) → get same_key self.new.table key
            ≡ latest_at (number_in book.now.store key) (get same_key self.old.table key) }
    {
        if self.table.len() == 0 {
            return;
        }
        self.table.retain(
            |key: &Key, latest: &mut Latest| -> bool
                ensures { (result ≡ nat_eq latest.old.number (number_in book.entry.now.store key.now))
                    × (latest.new ≡ latest.old) }
            { latest.number == book.number(key) },
        );
    }
}
