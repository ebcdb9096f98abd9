//! What is under the lock: a book, and where the versions of its record sets are.
ghost use Rattle.std.specs.Prelude.{◌≡◌, ◌≢◌, ◌↔◌, ◌⊎◌, ◌≤◌, ◌^◌, [], None, Some, Ok, false, IfOk, IfErr, IfSome, OnOk, OnErr};
ghost use Rattle.std.specs.Option.{option_copied};
ghost use Rattle.sipl_records.specs.Sets.{is_existence, same_key};
ghost use Rattle.sipl_records.specs.declared.record.Key.{Key};
ghost use Rattle.sipl_zonestore.specs.Store.{number_in};
ghost use Rattle.sipl_book.specs.Calls.{IsChanged, change_refusal, early_change_refusal};
ghost use Rattle.sipl_book.specs.Pages.{IsPage, IsTurned, after_turn, page_of, turn_refusal};
ghost use Rattle.sipl_service.specs.LatestVersions.{book_after_latest, key_edited, latest_at, latest_of};
ghost use Rattle.sipl_service.specs.Refusals.{change_fault, unless_other, unless_stopped};

use crate::changes;
use crate::changes::{Edited, NewEdit};
use crate::checks::check_client;
use crate::fault::ServiceFault;
use crate::latest_versions::{Latest, LatestVersions};
use crate::pass::Pass;
use crate::versions::Versions;
use sipl_book::{Book, BookFault, Event, Page};
use sipl_choice::Abilities;
use sipl_outages::Held;
use sipl_records::Key;
use std::alloc::{AllocError, Global};
use std::marker::Model;
use std::mem;
use std::sync::{Arc, Wait};

// A book, and where the latest versions of its record sets are: each is that of its key's set as it is, and
// none is of existence.
#[derive(Drop)]
pub(crate) struct Shared {
    pub book: Book,
    pub is_stopped: bool,
    // How many edits were accepted, for workers who wait for the next one.
    pub edits: u64,
    // The sets that were read since the last page, which callers copy with no lock held, and where they are.
    versions: Arc<Versions>,
    latest_versions: LatestVersions,
}

// The sets that were read until a page was turned.
#[derive(Drop)]
pub(crate) struct Read {
    versions: Arc<Versions>,
    latest_versions: LatestVersions,
}

impl Model for Shared {
    ghost use Rattle.sipl_service.specs.LatestVersions.{SharedState};

    ghost Value = { SharedState };

    ghost use Rattle.sipl_service.specs.LatestVersions.{shared_code};

    ghost coded = { shared_code };

    ghost use Rattle.sipl_service.specs.LatestVersions.{AreLatestOf, latest_of};

    ghost view = { λ shared. record {
      book = shared.book;
      latest_versions = shared.latest_versions.table.entries;
      is_stopped = shared.is_stopped;
    } };

    ghost invariant = { λ shared.
        AreLatestOf shared.book.store (latest_of shared.latest_versions.table.entries) };
}

impl Shared {
    // A book, of which no set was read, with versions of which there is none.
    pub fn new(alloc: Global, book: Book, versions: Arc<Versions>) -> Self
        ensures { result ≡ record { book = book; latest_versions = []; is_stopped = false } }
    {
        Shared {
            book,
            is_stopped: false,
            edits: 0,
            versions,
            latest_versions: LatestVersions::new(alloc),
        }
    }

    // How many versions there are, as far as this thread sees.
    pub fn version_count(&self) -> usize {
        self.versions.len()
    }

    // L6 where the service was stopped, L7 where the book is for a client of other abilities, or for
    // another policy.
    pub fn check(&self, abilities: &Abilities, held: Held) -> Result<(), ServiceFault>
        ensures same { OnOk result (self.now.book.client ≡ abilities.now) }
        ensures held { OnOk result (self.now.book.held ≡ held) }
        ensures refused { IfErr result (λ fault. unless_stopped self.now.is_stopped
            (unless_other abilities.now held self.now.book None) ≡ Some fault) }
        ensures only { IfErr result
            (λ fault. (fault ≡ ServiceFault.Stopped) ⊎ (fault ≡ ServiceFault.OtherBook)) }
    {
        if self.is_stopped {
            return Err(ServiceFault::Stopped);
        }
        check_client(&self.book, abilities, held)
    }

    // The versions among which the latest are, which outlast the turn of a page where they are read. Does not
    // allocate: the only error is that 2^63 others share them.
    pub fn share_versions(&self) -> Result<Arc<Versions>, AllocError> {
        Arc::try_clone(&self.versions)
    }

    // The latest version of a key's set of records; `None` where it is empty. Where no one has read it since
    // the last page, its version is pushed.
    pub fn latest<R: Wait>(&mut self, rt: &R, key: &Key) -> Result<Option<Latest>, AllocError>
        requires { is_existence key.now ≡ false }
        ensures empty { IfOk result
            (λ latest. (latest ≡ None) ↔ (number_in self.old.book.store key.now ≡ 0)) }
        ensures number { IfOk result (λ latest.
            IfSome latest (λ latest. latest.number ≡ number_in self.old.book.store key.now)) }
        ensures kept { IfOk result (λ latest.
            IfSome latest (λ latest. latest_of self.new.latest_versions key.now ≡ Some latest)) }
        ensures others { (other : Key) → same_key key.now other ≡ false
            → latest_of self.new.latest_versions other ≡ latest_of self.old.latest_versions other }
        ensures unchanged { OnErr result (self.new.latest_versions ≡ self.old.latest_versions) }
        ensures book { self.new.book ≡ book_after_latest (number_in self.old.book.store key.now)
            (latest_of self.old.latest_versions key.now) self.old.book }
        ensures stopped { self.new.is_stopped ≡ self.old.is_stopped }
    {
        self.latest_versions
            .of_key(rt, &mut self.book, &self.versions, key)
    }

    // Edits the zones, and takes out the latest version of each set that has changed. The key is that of the
    // set of records that the edit may change, where it is an edit of one record. Where no such set has
    // changed, no latest version is looked at: those of existence have none.
    pub fn change(
        &mut self,
        alloc: Global,
        pass: &Pass,
        new: Box<NewEdit>,
        key: Option<&Key>,
    ) -> Result<Edited, ServiceFault>
        requires receipt { new.value.receipt.event ≡ Event.Change new.value.edit }
        requires key { option_copied key ≡ key_edited new.value.edit }
        ensures number { IfOk result (λ edited. edited.receipt.number ≡ edited.done.number) }
        ensures event { IfOk result
            (λ edited. edited.receipt.event ≡ Event.Change new.value.edit) }
        ensures load { IfOk result
            (λ edited. IfSome edited.load (λ event. event ≡ edited.receipt.event)) }
        ensures front { IfOk result (λ edited. pass.now.front ≤ edited.done.number) }
        ensures limit { IfOk result (λ edited. edited.done.number ≤ 2 ^ 52) }
        ensures changed { IfOk result
            (λ edited. IsChanged new.value.edit self.old.book self.new.book (Ok edited.done)) }
        ensures latest_versions { OnOk result ((key : Key) → latest_of self.new.latest_versions key
            ≡ latest_at (number_in self.new.book.store key) (latest_of self.old.latest_versions key)) }
        ensures refused { IfErr result (λ fault. fault ≢ ServiceFault.Memory → change_fault pass.now
            self.old.book (change_refusal new.value.edit self.old.book) ≡ Some fault) }
        ensures memory { IfErr result (λ fault. fault ≡ ServiceFault.Memory → change_fault pass.now
            self.old.book (early_change_refusal new.value.edit self.old.book) ≡ None) }
        ensures unchanged { OnErr result (self.new ≡ self.old) }
        ensures stopped { self.new.is_stopped ≡ self.old.is_stopped }
    {
        let edited = changes::change(alloc, &mut self.book, pass, new)?;
        self.edits = self.edits.wrapping_add(1);
        if edited.done.changed > 0 {
            self.latest_versions.take_out_changed(&self.book, key);
        }
        Ok(edited)
    }

    // Turns the page of the book, whose new journal has this space if there is one, and goes on with these
    // versions, of which there is none. Those before are returned, to be dropped after the
    // lock.
    pub fn turn_page(
        &mut self,
        alloc: Global,
        versions: Arc<Versions>,
        space: Option<Vec<Event>>,
    ) -> Result<(Page, Read), ServiceFault>
        ensures page { IfOk result (λ turned. turned.0 ≡ page_of self.old.book) }
        ensures is_page { IfOk result (λ turned. IsPage turned.0) }
        ensures latest_versions { OnOk result (self.new.latest_versions ≡ []) }
        ensures after { OnOk result (self.new.book ≡ after_turn self.old.book) }
        ensures refused { IfErr result (λ fault. (fault ≡ ServiceFault.Book BookFault.PagesSpent)
            ⊎ (fault ≡ ServiceFault.Memory)) }
        ensures spent { IfErr result (λ fault. fault ≡ ServiceFault.Book BookFault.PagesSpent
            → turn_refusal self.old.book ≡ Some BookFault.PagesSpent) }
        ensures unchanged { OnErr result (self.new ≡ self.old) }
        ensures stopped { self.new.is_stopped ≡ self.old.is_stopped }
    {
        let page = turn_book_page(&mut self.book, space)?;
        let read = Read {
            versions: mem::replace(&mut self.versions, versions),
            latest_versions: mem::replace(&mut self.latest_versions, LatestVersions::new(alloc)),
        };
        Ok((page, read))
    }

    // The journal of the book as a page, as the only thing that is left. Does not allocate.
    pub fn into_page(self) -> Page
        ensures page { result ≡ page_of self.book }
        ensures is_page { IsPage result }
    {
        let Shared {
            book,
            versions,
            latest_versions,
            ..
        } = self;
        drop(versions);
        drop(latest_versions);
        book.into_page()
    }
}

// Turns the page of a book, whose new journal has this space if there is one.
fn turn_book_page(book: &mut Book, space: Option<Vec<Event>>) -> Result<Page, BookFault>
    ensures turned { IsTurned book.old book.new result }
    ensures is_page { IfOk result (λ page. IsPage page) }
{
    match space {
        Some(space) => book.turn_page_into(space),
        None => book.turn_page(),
    }
}

// Versions of which there is none, for a page's callers to share.
pub(crate) fn new_versions(alloc: Global) -> Result<Arc<Versions>, AllocError> {
    Ok(Arc::new(alloc, Versions::new(alloc)?)?)
}
