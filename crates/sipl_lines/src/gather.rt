// The lines of a zone's text, which follow its `zone` line and are taken one by one.
ghost use Rattle.std.specs.Prelude.{◌≡◌, ◌⊎◌, ◌+◌, ◌≤◌, ◌++◌, ◌==◌, IsTrue, OnOk, OnErr, true, vec_len, vec_capacity};
ghost use Rattle.sipl_lines.specs.Gathering.{IsOrLost, Reads, gathering_of, after_line, exceeds, gathered_after, at_end, load_fault_text, octets_after, with_line, keeps_lines};

use crate::command::{CommandWord, MAX_LINE_LEN};
use crate::desk::MAX_REFUSAL_LEN;
use crate::reply::{write_refusal, write_text_fault};
use sipl_masterfile::{ZoneFault, ZoneText, read_zone};
use sipl_names::{InvalidName, Name, NameFault};
use std::alloc::{AllocError, Global};
use std::marker::Model;

// A zone whose lines are taken: its apex, and the text of those that were, each followed by LF.
#[derive(Drop)]
pub(crate) struct ZoneLines {
    apex: Name,
    text: Vec<u8>,
}

impl Model for ZoneLines {
    ghost use Rattle.sipl_lines.specs.ZoneLines.{ZoneLines as Zone};

    ghost Value = { Zone };

    ghost view = { λ z. record { apex = z.apex; text = z.text.items } };
}

// What is gathered of a zone's lines.
#[derive(Drop)]
pub(crate) enum Gathered {
    // The apex and the lines that were taken, and how many octets more may be, where there is a limit.
    Lines(ZoneLines, Option<u64>),
    // The apex is not a name. The octets are counted all the same.
    BadApex(InvalidName, Option<u64>),
    // A line has more octets than one may have, or the lines have more than all may: K2. No lines are kept.
    LongLine,
    // An allocation failed. No lines are kept.
    Lost,
}

// Why there is no zone of the lines that were taken.
#[derive(Clone, Copy)]
pub(crate) enum LoadFault {
    // The apex is not a name.
    InApex(InvalidName),
    // A line has more octets than one may have, or the lines have more than all may: K2.
    LineTooLong,
    // The first fault of the text.
    InText(ZoneFault),
    // An allocation failed.
    Memory,
}

// The lines that a `zone` command takes: how many are left, and what the others gave.
#[derive(Drop)]
pub(crate) struct Gathering {
    left: u64,
    gathered: Gathered,
}

impl ZoneLines {
    // Adds a line. An error says that an allocation failed: then nothing has changed.
    fn push(&mut self, line: &[u8]) -> Result<(), AllocError>
        ensures ok { OnOk result (self.new ≡ with_line line.now self.old) }
        ensures err { OnErr result (self.new ≡ self.old) }
    {
        self.text.reserve(line.len() + 1)?;
        self.text.extend_from_slice(line).unwrap();
        self.text.push_reserved(b'\n');
        Ok(())
    }
}

impl Gathered {
    // Takes a line. Where an allocation fails the lines are lost.
    fn push(&mut self, line: &[u8])
        ensures { (self.new ≡ gathered_after line.now self.old)
            ⊎ (IsTrue (keeps_lines (gathered_after line.now self.old)) × (self.new ≡ Gathered.Lost)) }
    {
        match self {
            Gathered::Lost | Gathered::LongLine => {}
            _ if line.len() > MAX_LINE_LEN => *self = Gathered::LongLine,
            Gathered::BadApex(_, octets_left) => {
                if take_octets(octets_left, line) {
                    *self = Gathered::LongLine;
                }
            }
            Gathered::Lines(zone, octets_left) => {
                if take_octets(octets_left, line) {
                    *self = Gathered::LongLine;
                } else if zone.push(line).is_err() {
                    *self = Gathered::Lost;
                }
            }
        }
    }
}

// Takes the octets of a line from those that are left. Returns whether it has more.
fn take_octets(octets_left: &mut Option<u64>, line: &[u8]) -> bool
    ensures exceeds { result ≡ exceeds octets_left.old line.now }
    ensures left { octets_left.new ≡ octets_after line.now octets_left.old }
{
    match octets_left {
        None => false,
        Some(octets) => {
            let has_more = *octets < line.len() as u64;
            *octets = octets.saturating_sub(line.len() as u64);
            has_more
        }
    }
}

impl Gathering {
    // The gathering of so many lines for the zone of an apex, which is relative to the root. They may
    // have so many octets, where there is a limit. Where an allocation fails it is lost.
    pub(crate) fn new(alloc: Global, apex: &[u8], lines: u64, zone_octets: Option<u64>) -> Self
        ensures { IsOrLost true (gathering_of apex.now lines zone_octets) result }
    {
        let gathered = match Name::from_text(alloc, apex, &Name::root(alloc)) {
            Ok(apex) => Gathered::Lines(
                ZoneLines {
                    apex,
                    text: Vec::new(alloc),
                },
                zone_octets,
            ),
            Err(NameFault::Invalid(invalid)) => Gathered::BadApex(invalid, zone_octets),
            Err(NameFault::Memory) => Gathered::Lost,
        };
        Gathering {
            left: lines,
            gathered,
        }
    }

    // Takes a line, which has no line end. Where an allocation fails the gathering is lost. Linear
    // in the length of the line, over all lines.
    pub(crate) fn push(&mut self, line: &[u8])
        ensures { IsOrLost (keeps_lines (after_line line.now self.old).gathered)
            (after_line line.now self.old) self.new }
    {
        self.left = self.left.saturating_sub(1);
        self.gathered.push(line);
    }

    // Takes no more lines.
    pub(crate) fn end(&mut self)
        ensures { self.new ≡ at_end self.old }
    {
        self.left = 0;
    }

    // Whether all lines are taken.
    pub(crate) fn is_complete(&self) -> bool
        ensures { result ≡ (self.now.left == 0) }
    {
        self.left == 0
    }

    // The zone of the lines that were taken, or why there is none. The text is dropped as soon as it
    // is read, so that a load allocates nothing but the zone.
    pub(crate) fn read(self, alloc: Global) -> Result<ZoneText, LoadFault>
        ensures { Reads self.gathered result }
    {
        match self.gathered {
            Gathered::Lines(lines, _) => match read_zone(alloc, &lines.text, &lines.apex) {
                Ok(zone) => Ok(zone),
                Err(fault) if fault.is_memory() => Err(LoadFault::Memory),
                Err(fault) => Err(LoadFault::InText(fault)),
            },
            Gathered::BadApex(fault, _) => Err(LoadFault::InApex(fault)),
            Gathered::LongLine => Err(LoadFault::LineTooLong),
            Gathered::Lost => Err(LoadFault::Memory),
        }
    }
}

// Appends why there is no zone to space that is reserved.
pub(crate) fn write_load_fault(fault: LoadFault, out: &mut Vec<u8>)
    requires space { vec_len out.old + MAX_REFUSAL_LEN ≤ vec_capacity out.old }
    ensures text { out.new.items ≡ out.old.items ++ load_fault_text fault }
    ensures capacity { vec_capacity out.old ≤ vec_capacity out.new }
{
    match fault {
        LoadFault::InApex(fault) => write_refusal(out, fault.code()).unwrap(),
        LoadFault::LineTooLong => write_refusal(out, "K2").unwrap(),
        LoadFault::InText(fault) => write_text_fault(
            out,
            CommandWord::Zone.fault_words(),
            fault.line,
            fault.code(),
        )
        .unwrap(),
        LoadFault::Memory => write_refusal(out, "Memory").unwrap(),
    }
}
