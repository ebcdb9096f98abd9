// When `serve` gives a desk a pause.
use super::assertions::expects_equal;
use super::streams::{Pieces, push_times};
use sipl_book::{Book, BookFault, Done, Edit, Handed};
use sipl_choice::Endpoint;
use sipl_lines::{Desk, EventDesk, OnlyEvents, Tapped, serve};
use sipl_srv::Draws;
use sipl_uri::Question;
use std::alloc::{AllocError, Global};
use std::process::Abort;
use std::test::Fail;

// A desk that refuses all but edits, and counts these and its pauses.
#[derive(Drop)]
struct CountingDesk {
    calls: u64,
    most_calls: u64,
    pauses: u64,
}

impl CountingDesk {
    fn new() -> Self {
        CountingDesk {
            calls: 0,
            most_calls: 0,
            pauses: 0,
        }
    }
}

impl EventDesk for CountingDesk {
    ghost use Rattle.sipl_book.specs.BookFault.{code_of};

    type Fault = BookFault;

    ghost rules = { record {
      Finds = λ question words old outcome new. Unit {0};
      Changes = λ edit old outcome new. Unit {0};
      Moves = λ event old outcome new. Unit {0};
      Pauses = λ old new. Unit {0};
      IsTime = λ desk now. Unit {0};
      fault_text = code_of;
    } };

    fn find(
        &mut self,
        _alloc: Global,
        _question: Question,
        _draws: &Draws,
    ) -> Result<Handed, BookFault> {
        Err(BookFault::JournalFull)
    }

    fn change(&mut self, _edit: Edit) -> Result<Done, BookFault> {
        self.calls = self.calls.saturating_add(1);
        self.most_calls = self.most_calls.max(self.calls);
        Ok(Done {
            number: self.calls,
            changed: 0,
        })
    }

    fn hold(&mut self, _endpoint: &Endpoint, _ms: u64) -> Result<u64, BookFault> {
        Err(BookFault::JournalFull)
    }

    fn release(&mut self, _endpoint: &Endpoint) -> Result<u64, BookFault> {
        Err(BookFault::JournalFull)
    }

    fn advance(&mut self, _to: u64) -> Result<u64, BookFault> {
        Err(BookFault::JournalFull)
    }

    fn now(&self) -> u64 {
        0
    }

    fn pause(&mut self) {
        self.calls = 0;
        self.pauses = self.pauses.saturating_add(1);
    }

    fn no_event() -> BookFault {
        BookFault::JournalFull
    }

    fn write_fault(fault: BookFault, out: &mut Vec<u8>) {
        <Book as Desk>::write_fault(fault, out);
    }
}

// Serves so many `drop` lines, read in pieces of `most` octets. Returns how many pauses there were,
// and the maximum number of calls between two.
fn pauses_of(alloc: Global, lines: usize, most: usize) -> Result<(u64, u64), Fail> {
    let text = drops(alloc, lines)?;
    let pauses = pauses_over(alloc, Pieces::new(&text, most, 0));
    drop(text);
    pauses
}

fn drops(alloc: Global, lines: usize) -> Result<Vec<u8>, AllocError> {
    let mut text = Vec::new(alloc);
    match push_times(&mut text, b"drop a\n", lines) {
        Ok(()) => Ok(text),
        Err(fault) => {
            drop(text);
            Err(fault)
        }
    }
}

// The same for lines that are read so.
fn pauses_over(alloc: Global, lines: Pieces<'_>) -> Result<(u64, u64), Fail> {
    let mut desk = OnlyEvents::new(CountingDesk::new());
    let mut reader = Tapped::new(lines);
    let mut writer = Tapped::new(Vec::new(alloc));
    let served = serve(alloc, &mut reader, &mut writer, &mut desk);
    drop(writer);
    drop(reader);
    served?;
    let desk = desk.into_inner();
    Ok((desk.pauses, desk.most_calls))
}

// That so many lines, read so, have so many pauses, and so many calls between two at most.
fn has_pauses(
    rt: &impl Abort,
    alloc: Global,
    lines: usize,
    most: usize,
    expected: (u64, u64),
) -> Result<(), Fail> {
    let found = pauses_of(alloc, lines, most)?;
    expects_equal(rt, &found, &expected, "pauses, and calls between two");
    Ok(())
}

// Three reads, of which the last one finds the end of the input: a pause before each.
#[test]
fn a_desk_has_a_pause_before_each_read(rt: HostRuntime) -> Result<(), Fail> {
    has_pauses(&rt, rt.alloc(), 10, 35, (3, 5))
}

// A read has at most 16,384 octets, which are 2,340 lines and the beginning of another.
#[test]
fn a_desk_has_a_pause_after_each_1024_lines(rt: HostRuntime) -> Result<(), Fail> {
    has_pauses(&rt, rt.alloc(), 5_000, usize::MAX, (8, 1_024))
}
