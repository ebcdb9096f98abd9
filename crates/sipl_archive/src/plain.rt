//! The plain machine, by which an archive is replayed.
ghost use Rattle.std.specs.Prelude.{◌≡◌, IfOk};
ghost use Rattle.sipl_plans.specs.Plan.{plan};
ghost use Rattle.sipl_records.specs.Sets.{set_of};
ghost use Rattle.sipl_outages.specs.Holds.BoardEvent.{Hold, Release, Advance};
ghost use Rattle.sipl_zonestore.specs.Looks.{looked};
ghost use Rattle.sipl_archive.specs.Plain.{MakesEdit, MovesBoard, new_plain};

use sipl_book::{Book, BookFault, Done, Edit, Handed};
use sipl_choice::{Abilities, Endpoint};
use sipl_lines::{Desk, EventDesk};
use sipl_outages::{Board, Held};
use sipl_plans::{Answer, plan_of};
use sipl_srv::Draws;
use sipl_uri::Question;
use sipl_zonestore::ZoneStore;
use std::alloc::{AllocError, Global};
use std::marker::Model;

/// Records, holds and a clock, without any kept result: each answer is that of `plan_of`, from all records.
#[derive(Drop)]
pub(crate) struct Plain {
    store: ZoneStore,
    board: Board,
    abilities: Abilities,
    held: Held,
    next: u64,
}

impl Plain {
    /// Nothing is loaded or held, at time 0.
    pub(crate) fn new(alloc: Global, abilities: Abilities, held: Held) -> Plain
        ensures { result ≡ new_plain abilities held }
    {
        Plain {
            store: ZoneStore::new(alloc),
            board: Board::new(alloc),
            abilities,
            held,
            next: 0,
        }
    }

    // Makes an edit. Returns how many sets of records have changed.
    fn make(&mut self, edit: &Edit) -> Result<u64, BookFault>
        ensures { MakesEdit edit.now self.old self.new result }
    {
        Ok(edit.apply(&mut self.store)?.sets as u64)
    }

    // The number of the next event.
    fn count(&mut self) -> u64
        ensures { self.new ≡ self.old }
    {
        let number = self.next;
        self.next = number.saturating_add(1);
        number
    }
}

impl Model for Plain {
    ghost use Rattle.sipl_archive.specs.Plain.{PlainState};

    ghost Value = { PlainState };

    ghost view = { λ plain. record {
      store = plain.store;
      board = plain.board;
      client = plain.abilities;
      held = plain.held;
    } };
}

impl EventDesk for Plain {
    ghost use Rattle.sipl_archive.specs.Plain.{plain_events};

    type Fault = BookFault;

    ghost rules = { plain_events };

    fn find(
        &mut self,
        alloc: Global,
        question: Question,
        draws: &Draws,
    ) -> Result<Handed, BookFault> {
        let (board, client, held) = (&self.board, &self.abilities, self.held);
        let answer = plain_answer(
            alloc,
            &mut self.store,
            board,
            &question,
            client,
            draws,
            held,
        )?;
        let number = self.count();
        Ok(Handed { number, answer })
    }

    fn change(&mut self, edit: Edit) -> Result<Done, BookFault> {
        let changed = self.make(&edit)?;
        let number = self.count();
        Ok(Done { number, changed })
    }

    fn hold(&mut self, endpoint: &Endpoint, ms: u64) -> Result<u64, BookFault> {
        hold(&mut self.board, endpoint, ms)?;
        Ok(self.count())
    }

    fn release(&mut self, endpoint: &Endpoint) -> Result<u64, BookFault> {
        release(&mut self.board, endpoint)?;
        Ok(self.count())
    }

    fn advance(&mut self, to: u64) -> Result<u64, BookFault> {
        advance(&mut self.board, to)?;
        Ok(self.count())
    }

    fn now(&self) -> u64 {
        self.board.now()
    }

    fn pause(&mut self) {}

    fn no_event() -> BookFault {
        BookFault::NotCurrent
    }

    fn write_fault(fault: BookFault, out: &mut Vec<u8>) {
        <Book as Desk>::write_fault(fault, out);
    }
}

// Holds an endpoint for some milliseconds.
fn hold(board: &mut Board, endpoint: &Endpoint, ms: u64) -> Result<(), BookFault>
    ensures { MovesBoard (Hold endpoint.now ms) board.old board.new result }
{
    board.hold(endpoint, ms)?;
    Ok(())
}

// Ends the hold of an endpoint.
fn release(board: &mut Board, endpoint: &Endpoint) -> Result<(), BookFault>
    ensures { MovesBoard (Release endpoint.now) board.old board.new result }
{
    board.release(endpoint)?;
    Ok(())
}

// Moves the clock.
fn advance(board: &mut Board, to: u64) -> Result<(), BookFault>
    ensures { MovesBoard (Advance to) board.old board.new result }
{
    board.advance(to)?;
    Ok(())
}

// The answer to a question, from all records of a store, of which one look is counted.
fn plain_answer(
    alloc: Global,
    store: &mut ZoneStore,
    board: &Board,
    question: &Question,
    client: &Abilities,
    draws: &Draws,
    held: Held,
) -> Result<Answer, AllocError>
    ensures answer { IfOk result
        (λ answer. answer ≡ plan (set_of store.old.zones.records) board.now.holds question.now
        client.now draws.now held) }
    ensures store { store.new ≡ looked store.old }
{
    plan_of(alloc, store.records(), board, question, client, draws, held)
}
