//! What a session's commands act on.
ghost use Rattle.std.specs.Prelude.{◌≡◌, ◌+◌, ◌++◌, ◌≤◌, ◌^◌, OnOk, vec_len, vec_capacity};
ghost use Rattle.sipl_outages.specs.Holds.BoardEvent.{Hold, Release, Advance};
ghost use Rattle.sipl_lines.specs.Desk.{DeskRules, EventRules};
ghost use Rattle.sipl_lines.specs.ReplyText.{refusal_line};

use crate::reply::write_refusal;
use sipl_book::{Book, BookFault, Done, Edit, Extent, Handed};
use sipl_choice::Endpoint;
use sipl_evidence::Evidence;
use sipl_srv::Draws;
use sipl_uri::Question;
use std::alloc::Global;
use std::marker::Model;

/// The maximum length in octets of the reply to a refused command: the longest has a code, a name of
/// at most 1,004 octets, and a kind.
pub const MAX_REFUSAL_LEN: usize = 1_040;

/// Where a session's commands are carried out, such as at a book. What the calls do is in its
/// rules; the session's replies follow from them, whatever the desk is.
pub trait Desk {
    /// Why a call is refused.
    type Fault;

    ghost rules: { DeskRules Self Self.Fault };

    /// The answer to a question, for these random words.
    fn find(
        &mut self,
        alloc: Global,
        question: Question,
        draws: &Draws,
    ) -> Result<Handed, Self::Fault>
        ensures { rules.Finds question draws.now self.old result self.new };

    /// Edits the zones.
    fn change(&mut self, edit: Edit) -> Result<Done, Self::Fault>
        ensures { rules.Changes edit self.old result self.new };

    /// Holds an endpoint for some milliseconds from now. Returns the event's number.
    fn hold(&mut self, endpoint: &Endpoint, ms: u64) -> Result<u64, Self::Fault>
        ensures { rules.Moves (Hold endpoint.now ms) self.old result self.new };

    /// Ends the hold of an endpoint. Returns the event's number.
    fn release(&mut self, endpoint: &Endpoint) -> Result<u64, Self::Fault>
        ensures { rules.Moves (Release endpoint.now) self.old result self.new };

    /// Sets the time, in milliseconds, at most to 2^52. Returns the event's number.
    fn advance(&mut self, to: u64) -> Result<u64, Self::Fault>
        ensures moved { rules.Moves (Advance to) self.old result self.new }
        ensures limit { OnOk result (to ≤ 2 ^ 52) };

    /// The present time, in milliseconds, at most 2^52.
    fn now(&self) -> u64
        ensures time { rules.IsTime self.now result }
        ensures limit { result ≤ 2 ^ 52 };

    /// How many octets the lines of a zone may have, without their ends, where there is a limit.
    fn zone_octets(&self) -> Option<u64>
        ensures { result ≡ rules.zone_octets self.now };

    /// The record sets that a question's targets depend on, in the order of reading.
    fn deps(&mut self, alloc: Global, question: Question) -> Result<Evidence, Self::Fault>
        ensures { rules.Depends question self.old result self.new };

    /// Looks up again what edits have changed.
    fn repair(&mut self, alloc: Global) -> Result<(), Self::Fault>
        ensures { rules.Repairs self.old result self.new };

    /// Turns the page: the journal is a page, and an empty one begins. Returns which events the page has.
    fn page(&mut self) -> Result<Extent, Self::Fault>
        ensures { rules.Pages self.old result self.new };

    /// A pause of the session: before it waits for input, and after each 1,024 lines. It has no part in
    /// the replies. Here a desk may pass on what it keeps of the calls before.
    fn pause(&mut self)
        ensures { rules.Pauses self.old self.new };

    /// Appends the reply to a command that is refused for this fault, to space that is reserved: it
    /// does not allocate.
    fn write_fault(fault: Self::Fault, out: &mut Vec<u8>)
        requires space { vec_len out.old + MAX_REFUSAL_LEN ≤ vec_capacity out.old }
        ensures text { out.new.items ≡ out.old.items ++ refusal_line (rules.fault_text fault) }
        ensures capacity { vec_capacity out.old ≤ vec_capacity out.new };
}

/// A desk of few calls: those that are events of a journal, an answer, an edit, and what moves the holds
/// or the clock.
pub trait EventDesk {
    /// Why a call is refused.
    type Fault;

    ghost rules: { EventRules Self Self.Fault };

    /// As [`Desk::find`].
    fn find(
        &mut self,
        alloc: Global,
        question: Question,
        draws: &Draws,
    ) -> Result<Handed, Self::Fault>
        ensures { rules.Finds question draws.now self.old result self.new };

    /// As [`Desk::change`].
    fn change(&mut self, edit: Edit) -> Result<Done, Self::Fault>
        ensures { rules.Changes edit self.old result self.new };

    /// As [`Desk::hold`].
    fn hold(&mut self, endpoint: &Endpoint, ms: u64) -> Result<u64, Self::Fault>
        ensures { rules.Moves (Hold endpoint.now ms) self.old result self.new };

    /// As [`Desk::release`].
    fn release(&mut self, endpoint: &Endpoint) -> Result<u64, Self::Fault>
        ensures { rules.Moves (Release endpoint.now) self.old result self.new };

    /// As [`Desk::advance`].
    fn advance(&mut self, to: u64) -> Result<u64, Self::Fault>
        ensures moved { rules.Moves (Advance to) self.old result self.new }
        ensures limit { OnOk result (to ≤ 2 ^ 52) };

    /// As [`Desk::now`].
    fn now(&self) -> u64
        ensures time { rules.IsTime self.now result }
        ensures limit { result ≤ 2 ^ 52 };

    /// As [`Desk::pause`].
    fn pause(&mut self)
        ensures { rules.Pauses self.old self.new };

    /// Why a call is refused that is no event.
    fn no_event() -> Self::Fault;

    /// As [`Desk::write_fault`].
    fn write_fault(fault: Self::Fault, out: &mut Vec<u8>)
        requires space { vec_len out.old + MAX_REFUSAL_LEN ≤ vec_capacity out.old }
        ensures text { out.new.items ≡ out.old.items ++ refusal_line (rules.fault_text fault) }
        ensures capacity { vec_capacity out.old ≤ vec_capacity out.new };
}

/// A desk of few calls as a desk: all others are refused, and change nothing.
#[derive(Drop)]
pub struct OnlyEvents<D> {
    desk: D,
}

impl<D> Model for OnlyEvents<D> {
    ghost Value = { D };

    ghost view = { λ only. only.desk };
}

impl<D> OnlyEvents<D> {
    /// This desk, as it is.
    pub fn new(desk: D) -> Self
        ensures { result ≡ desk }
    {
        OnlyEvents { desk }
    }

    /// The desk of few calls.
    pub fn into_inner(self) -> D
        ensures { result ≡ self }
    {
        self.desk
    }
}

impl<D: EventDesk> Desk for OnlyEvents<D> {
    ghost use Rattle.sipl_lines.specs.Desk.{only_events};

    type Fault = D::Fault;

    ghost rules = { only_events D.rules };

    fn find(
        &mut self,
        alloc: Global,
        question: Question,
        draws: &Draws,
    ) -> Result<Handed, D::Fault> {
        self.desk.find(alloc, question, draws)
    }

    fn change(&mut self, edit: Edit) -> Result<Done, D::Fault> {
        self.desk.change(edit)
    }

    fn hold(&mut self, endpoint: &Endpoint, ms: u64) -> Result<u64, D::Fault> {
        self.desk.hold(endpoint, ms)
    }

    fn release(&mut self, endpoint: &Endpoint) -> Result<u64, D::Fault> {
        self.desk.release(endpoint)
    }

    fn advance(&mut self, to: u64) -> Result<u64, D::Fault> {
        self.desk.advance(to)
    }

    fn now(&self) -> u64 {
        self.desk.now()
    }

    fn zone_octets(&self) -> Option<u64> {
        None
    }

    fn deps(&mut self, _alloc: Global, _question: Question) -> Result<Evidence, D::Fault> {
        Err(D::no_event())
    }

    fn repair(&mut self, _alloc: Global) -> Result<(), D::Fault> {
        Err(D::no_event())
    }

    fn page(&mut self) -> Result<Extent, D::Fault> {
        Err(D::no_event())
    }

    fn pause(&mut self) {
        self.desk.pause();
    }

    fn write_fault(fault: D::Fault, out: &mut Vec<u8>) {
        D::write_fault(fault, out)
    }
}

/// A book as a desk: the calls are those of the book, which has its own allocator. Its pages are
/// dropped, and a pause does nothing.
impl Desk for Book {
    ghost use Rattle.sipl_lines.specs.Desk.{book_rules};

    type Fault = BookFault;

    ghost rules = { book_rules };

    fn find(
        &mut self,
        _alloc: Global,
        question: Question,
        draws: &Draws,
    ) -> Result<Handed, BookFault> {
        Book::find(self, question, draws)
    }

    fn change(&mut self, edit: Edit) -> Result<Done, BookFault> {
        Book::change(self, edit)
    }

    fn hold(&mut self, endpoint: &Endpoint, ms: u64) -> Result<u64, BookFault> {
        Book::hold(self, endpoint, ms)
    }

    fn release(&mut self, endpoint: &Endpoint) -> Result<u64, BookFault> {
        Book::release(self, endpoint)
    }

    fn advance(&mut self, to: u64) -> Result<u64, BookFault> {
        Book::advance(self, to)
    }

    fn now(&self) -> u64 {
        self.board().now()
    }

    fn zone_octets(&self) -> Option<u64> {
        None
    }

    fn deps(&mut self, _alloc: Global, question: Question) -> Result<Evidence, BookFault> {
        Book::deps(self, question)
    }

    fn repair(&mut self, _alloc: Global) -> Result<(), BookFault> {
        Book::repair(self)
    }

    fn page(&mut self) -> Result<Extent, BookFault> {
        Ok(self.turn_page()?.extent())
    }

    fn pause(&mut self) {}

    fn write_fault(fault: BookFault, out: &mut Vec<u8>) {
        write_refusal(out, fault.code()).unwrap();
    }
}
