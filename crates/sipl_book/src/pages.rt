//! Pages: the journal is returned as a page, and an empty one begins.
ghost use Rattle.std.specs.Prelude.{◌≡◌, ◌≢◌, [], None, Some, IfErr, IfOk, OnOk};
ghost use Rattle.sipl_book.specs.Book.{next_event, state_of};
ghost use Rattle.sipl_book.specs.Pages.{IsPage, IsTurned, page_of, turn_refusal};

use crate::book::Book;
use crate::event::Event;
use crate::fault::BookFault;
use crate::page::Page;
use crate::state::State;
use sipl_choice::Abilities;
use sipl_records::Sequence;
use std::alloc::{AllocError, Global};
use std::mem;

/// The greatest number of the first event of a page, so that no event has a number over 2^52.
pub const MAX_FIRST: u64 = (1 << 52) - (1 << 20);

impl Book {
    /// Returns the events as a page, and begins an empty journal at the state as it is. The numbers of
    /// events go on; entries, leases and looks stay. The records are shared with the last page where no
    /// edit was made since, and the holds where the board did not change; else linear in those, which
    /// are copied. The new journal has space for as many events as the old one had, where
    /// it can be allocated.
    ///
    /// The fault is that the next number is over 2^52 - 2^20 (B6).
    pub fn turn_page(&mut self) -> Result<Page, BookFault>
        ensures turned { IsTurned self.old self.new result }
        ensures is_page { IfOk result (λ page. IsPage page) }
    {
        let space = empty_journal(self.alloc, self.journal.len());
        self.turn_page_into(space)
    }

    /// Turns the page as `turn_page` does, but the new journal has this space. Events in it are dropped.
    pub fn turn_page_into(&mut self, space: Vec<Event>) -> Result<Page, BookFault>
        ensures turned { IsTurned self.old self.new result }
        ensures is_page { IfOk result (λ page. IsPage page) }
    {
        let mut journal = space;
        journal.clear();
        let (next, states, abilities) = match self.parts_of_page() {
            Ok(parts) => parts,
            Err(fault) => {
                drop(journal);
                return Err(fault);
            }
        };
        let (base, result) = states;
        Ok(Page {
            first: mem::replace(&mut self.first, next),
            base: mem::replace(&mut self.base, base),
            events: Sequence::from_vec(mem::replace(&mut self.journal, journal)),
            result,
            abilities,
            held: self.held,
        })
    }

    // What a page that is turned has beside what the book has: the number of the next event, the state as it
    // is, twice, and the abilities. B6 where there is no such number.
    fn parts_of_page(&mut self) -> Result<(u64, (State, State), Abilities), BookFault>
        ensures accepted { OnOk result (turn_refusal self.old ≡ None) }
        ensures next { IfOk result (λ parts. parts.0 ≡ next_event self.old) }
        ensures first { IfOk result (λ parts. parts.1.0 ≡ state_of self.old) }
        ensures second { IfOk result (λ parts. parts.1.1 ≡ state_of self.old) }
        ensures client { IfOk result (λ parts. parts.2 ≡ self.old.client) }
        ensures refused { IfErr result
            (λ fault. fault ≢ BookFault.Memory → turn_refusal self.old ≡ Some fault) }
        ensures memory { IfErr result
            (λ fault. fault ≡ BookFault.Memory → turn_refusal self.old ≡ None) }
        ensures unchanged { self.new ≡ self.old }
    {
        let next = self.next_event();
        if next > MAX_FIRST {
            return Err(BookFault::PagesSpent);
        }
        let abilities = self.abilities.dup(self.alloc)?;
        match self.share_states() {
            Ok(states) => Ok((next, states, abilities)),
            Err(_) => {
                drop(abilities);
                Err(BookFault::Memory)
            }
        }
    }

    // The state as it is, twice. The only error is an allocation failure; then nothing changes.
    fn share_states(&mut self) -> Result<(State, State), AllocError>
        ensures first { IfOk result (λ states. states.0 ≡ state_of self.old) }
        ensures second { IfOk result (λ states. states.1 ≡ state_of self.old) }
        ensures unchanged { self.new ≡ self.old }
    {
        let first = self.share_state()?;
        match self.share_state() {
            Ok(second) => Ok((first, second)),
            Err(error) => {
                drop(first);
                Err(error)
            }
        }
    }

    // The state as it is, which is shared until the next change. The only error is an allocation
    // failure; then nothing changes.
    fn share_state(&mut self) -> Result<State, AllocError>
        ensures state { IfOk result (λ state. state ≡ state_of self.old) }
        ensures unchanged { self.new ≡ self.old }
    {
        let zones = self.store.share_zones()?;
        let board = self.board.share()?;
        Ok(State::shared(zones, board))
    }

    /// The journal as a page, as the only thing that is left of the book. Does not allocate. Linear in
    /// the records where one was removed.
    pub fn into_page(self) -> Page
        ensures page { result ≡ page_of self }
        ensures is_page { IsPage result }
    {
        let Book {
            first,
            base,
            journal,
            store,
            board,
            abilities,
            held,
            cache,
            ..
        } = self;
        drop(cache);
        Page {
            first,
            base,
            events: Sequence::from_vec(journal),
            result: State::of(store.into_zones(), board.into_board()),
            abilities,
            held,
        }
    }
}

// A journal without events, with space for `events` where it can be allocated: the next page has
// mostly as many as the last one, and is not copied as it grows.
fn empty_journal(alloc: Global, events: usize) -> Vec<Event>
    ensures { result.items ≡ [] }
{
    match Vec::with_capacity(alloc, events) {
        Ok(journal) => journal,
        Err(_) => Vec::new(alloc),
    }
}
