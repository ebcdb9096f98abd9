//! Claims that go on page by page.
ghost use Rattle.std.specs.Prelude.{◌≡◌, ◌≢◌, [], IfErr, IfOk, IfSome, OnErr, OnOk};
ghost use Rattle.std.specs.Bool.{Decides};
ghost use Rattle.std.specs.Option.{option_copied};
ghost use Rattle.sipl_book.specs.Pages.{IsPage};
ghost use Rattle.sipl_service.specs.Ledgers.{Accepts, FollowsLast, GoesOnAfter, IsRefusal, last_of, new_ledger, next_after, with_added, with_claimed};
ghost use Rattle.sipl_service.specs.Receipts.{all_receipts};

use crate::due::{check, let_go};
use crate::fault::ClaimFault;
use crate::receipts::Receipts;
use crate::spaces::Spaces;
use sipl_book::{Page, State};
use sipl_choice::Abilities;
use sipl_outages::Held;
use std::alloc::{AllocError, Global};
use std::marker::Model;
use std::{mem, slice};

/// Where the last claimed page of a service ended, and the receipts that wait for their page.
///
/// A page is claimed once all receipts of its events were added, in whatever order. They are dropped
/// then, so a service that runs for months keeps the events of few pages. A claimed page stays claimed, and
/// the claims of all pages together are what `claim` checks (`laws`).
#[derive(Drop)]
pub struct Ledger {
    alloc: Global,
    last: Option<Last>,
    waiting: Vec<Receipts>,
    spaces: Spaces,
}

impl Model for Ledger {
    ghost use Rattle.sipl_service.specs.Ledgers.{LedgerState};

    ghost Value = { LedgerState };

    ghost use Rattle.sipl_service.specs.Receipts.{all_receipts};

    ghost view = { λ ledger. record {
      last = ledger.last;
      waiting = all_receipts ledger.waiting.items;
    } };
}

// Where the last claimed page ended: the number of the next event, the state after the page, and for
// which client and policy it is.
#[derive(Drop)]
pub(crate) struct Last {
    pub next: u64,
    pub result: State,
    pub abilities: Abilities,
    pub held: Held,
}

impl Last {
    // Where the page ends.
    fn of(alloc: Global, page: &Page) -> Result<Self, AllocError>
        ensures { IfOk result (λ last. last ≡ last_of page.now) }
    {
        let abilities = page.abilities().dup(alloc)?;
        match page.result().dup(alloc) {
            Ok(result) => Ok(Last {
                next: page.next(),
                result,
                abilities,
                held: page.held(),
            }),
            Err(error) => {
                drop(abilities);
                Err(error)
            }
        }
    }
}

impl Ledger {
    /// Nothing was claimed, and no receipt waits. Does not allocate.
    pub fn new(alloc: Global) -> Self
        ensures { result ≡ new_ledger }
    {
        Ledger {
            alloc,
            last: None,
            waiting: Vec::new(alloc),
            spaces: Spaces::new(alloc),
        }
    }

    /// The receipts wait from now on, after those that wait. The only error is an allocation failure;
    /// the receipts are returned.
    pub fn add(&mut self, receipts: Receipts) -> Result<(), Receipts>
        ensures added { OnOk result (self.new ≡ with_added self.old receipts) }
        ensures refused { OnErr result (self.new ≡ self.old) }
        ensures returned { IfErr result (λ returned. returned ≡ receipts) }
    {
        if receipts.is_empty() {
            drop(receipts);
            return Ok(());
        }
        match self.waiting.push(receipts) {
            Ok(()) => Ok(()),
            Err(failed) => Err(failed.value),
        }
    }

    /// Claims the page: it follows what was claimed, and its events are the union of the receipts that
    /// wait with numbers below its end. These are dropped. Linear in the page, the hand-overs that
    /// wait, and what `Page::follows` compares.
    ///
    /// The fault is `Memory`, or the first of: the page does not follow (L8, with its own first number);
    /// going through those receipts in the order of adding, one of an event that was claimed (L5), one whose
    /// number has no such event in the page (L4), or one whose number an earlier one has (L5); then the least
    /// number that no receipt has (L3). Then nothing changes: the page is claimed once the receipts that it
    /// lacks were added.
    pub fn claim(&mut self, page: &Page) -> Result<(), ClaimFault>
        ensures accepted { OnOk result (Accepts self.old page.now) }
        ensures claimed { OnOk result (self.new ≡ with_claimed self.old page.now) }
        ensures refused { OnErr result (self.new ≡ self.old) }
        ensures cause { IfErr result (λ fault. IsRefusal self.old page.now fault) }
        ensures exact { IfErr result (λ fault. fault ≢ ClaimFault.Memory
            → Accepts self.old page.now → ⊥) }
        ensures page { OnOk result (IsPage page.now) }
    {
        if !follows(self.last.as_ref(), page) {
            return Err(ClaimFault::Gap(page.first()));
        }
        match check(
            self.alloc,
            self.next(),
            page.next(),
            slice::from_ref(page),
            self.waiting.as_slice(),
        ) {
            Ok(()) => {}
            Err(fault) => return Err(fault),
        }
        let Ok(last) = Last::of(self.alloc, page) else {
            return Err(ClaimFault::Memory);
        };
        let_go(&mut self.waiting, &mut self.spaces, last.next);
        drop(mem::replace(&mut self.last, Some(last)));
        Ok(())
    }

    /// Sets the maximum number of hand-overs whose space is kept for `take_space` once their receipts were
    /// dropped; at first 0. Space for fewer than 32 receipts is not kept.
    pub fn keep_spaces(&mut self, max: usize)
        ensures { self.new ≡ self.old }
    {
        self.spaces.set_max(max);
    }

    /// Takes the space of a hand-over whose receipts were dropped, if one is kept: for a pass that goes on in
    /// it.
    pub fn take_space(&mut self) -> Option<Receipts>
        ensures empty { IfSome result (λ space. space ≡ []) }
        ensures unchanged { self.new ≡ self.old }
    {
        self.spaces.take()
    }

    /// The number of the event after those that were claimed; at first 0.
    pub fn next(&self) -> u64
        ensures { result ≡ next_after self.now.last }
    {
        match &self.last {
            Some(last) => last.next,
            None => 0,
        }
    }

    /// The receipts that wait, as they were handed over.
    pub fn waiting(&self) -> &[Receipts]
        ensures { all_receipts result.now ≡ self.now.waiting }
    {
        self.waiting.as_slice()
    }

    /// Whether no receipt waits.
    pub fn is_settled(&self) -> bool
        ensures { Decides result (self.now.waiting ≡ []) }
    {
        for handed in &self.waiting {
            if !handed.is_empty() {
                return false;
            }
        }
        true
    }
}

// Whether the page follows what was claimed.
fn follows(last: Option<&Last>, page: &Page) -> bool
    ensures { Decides result (FollowsLast (option_copied last.entry) page.now) }
{
    match last {
        Some(last) => goes_on(last, page),
        None => page.is_first(),
    }
}

// Whether the page goes on where the last one ended, for the same client and policy.
fn goes_on(last: &Last, page: &Page) -> bool
    ensures { Decides result (GoesOnAfter last.now page.now) }
{
    is_for_client_of(last, page) && begins_after(last, page)
}

// Whether the page is for the client and policy of the last one.
fn is_for_client_of(last: &Last, page: &Page) -> bool
    ensures { Decides result
        ((page.now.client ≡ last.now.abilities) × (page.now.held ≡ last.now.held)) }
{
    *page.abilities() == last.abilities && page.held() == last.held
}

// Whether the page's first number is the next one, and its base the last one's result.
fn begins_after(last: &Last, page: &Page) -> bool
    ensures { Decides result
        ((page.now.first ≡ last.now.next) × (page.now.base ≡ last.now.result)) }
{
    page.first() == last.next && *page.base() == last.result
}
