//! The replay of an archive: its pages follow one another, each event is accepted, and each answer is that
//! of the plain machine.
ghost use Rattle.std.specs.Prelude.{◌≡◌, ◌≤◌, ◌+◌, [], ◌++◌, length, Some, IfOk, IfSome, OnOk};
ghost use Rattle.std.specs.Bool.{Decides};
ghost use Rattle.sha2.specs.Sha256.{sha256};
ghost use Rattle.sipl_records.specs.Fields.{fields_of};
ghost use Rattle.sipl_archive.specs.Archive.{IsHead, digest_line, extent_in, page_named};
ghost use Rattle.sipl_archive.specs.Replay.{RepeatsFirst, RepeatsSome, IsFresh, is_expected};
ghost use Rattle.sipl_archive.specs.Runs.{BeginsRun, Follows, GoesOn, IsBegun, IsNext, ReplaysEvents, ReplaysPage};
ghost use Rattle.sipl_archive.specs.Runs.{begins_run, counted, ended_by, number_of_last};

use crate::archive::digest_line;
use crate::folder::list;
use crate::items::{event_of, replies_to};
use crate::plain::Plain;
use memchr::memmem;
use sha2::{Digest, Sha256};
use sipl_lines::{OnlyEvents, Settings, SettingsFault, is_change, is_find, split_line};
use sipl_records::{next_field, read_number};
use std::alloc::{AllocError, AllocFailed, Global};
use std::rt::Files;
use std::{fs, io};

// The length of the last line of a page.
const DIGEST_LEN: usize = 72;

/// Why an archive is not replayed.
#[derive(Drop)]
pub enum ReplayFault {
    /// A file can't be read.
    File(String, io::Error),
    /// The name of this file is not that of a page, or is that of another one.
    Misnamed(String),
    /// This file is cut off, or is not a page.
    NotPage(String),
    /// The digest of the page is not that of its text, or it has text after its events.
    Changed(String),
    /// A page before this one is missing.
    Gap(String),
    /// This page has another client or policy than its run.
    OtherClient(String),
    /// The event of this number is not accepted there, or its answer is another one.
    Event(String, u64),
    /// An allocation failed.
    Memory,
}

impl From<AllocError> for ReplayFault {
    fn from(_: AllocError) -> ReplayFault {
        ReplayFault::Memory
    }
}

impl<T: Drop> From<AllocFailed<T>> for ReplayFault {
    fn from(_: AllocFailed<T>) -> ReplayFault {
        ReplayFault::Memory
    }
}

// Why a page is not replayed.
#[derive(Drop)]
enum PageFault {
    File(io::Error),
    Misnamed,
    NotPage,
    Changed,
    Gap,
    OtherClient,
    Event(u64),
    Memory,
}

impl PageFault {
    // That of the page of a path.
    fn at(self, path: String) -> ReplayFault {
        match self {
            PageFault::File(error) => ReplayFault::File(path, error),
            PageFault::Misnamed => ReplayFault::Misnamed(path),
            PageFault::NotPage => ReplayFault::NotPage(path),
            PageFault::Changed => ReplayFault::Changed(path),
            PageFault::Gap => ReplayFault::Gap(path),
            PageFault::OtherClient => ReplayFault::OtherClient(path),
            PageFault::Event(number) => ReplayFault::Event(path, number),
            PageFault::Memory => ReplayFault::Memory,
        }
    }
}

impl From<AllocError> for PageFault {
    fn from(_: AllocError) -> PageFault {
        PageFault::Memory
    }
}

// What a page says of itself.
#[derive(Clone, Copy)]
struct Head<'a> {
    first: u64,
    count: u64,
    client: &'a [u8],
    events: &'a [u8],
}

/// A run that was replayed: its number, and how many events its pages have.
#[derive(Clone, Copy)]
pub struct Replayed {
    pub number: u64,
    pub events: u64,
}

// The runs of which pages were replayed: the last one, and those before it.
#[derive(Drop)]
struct Runs {
    last: Option<Run>,
    ended: Vec<Replayed>,
}

// A run of which pages were replayed: its number, that of its next event, its client, and what it has led to.
#[derive(Drop)]
struct Run {
    number: u64,
    next: u64,
    client: Vec<u8>,
    desk: OnlyEvents<Plain>,
}

/// Replays the pages in a folder, of all runs in their order. Returns the runs, and how many events each has.
pub fn replay<R: Files>(rt: &R, alloc: Global, folder: &str) -> Result<Vec<Replayed>, ReplayFault> {
    let names = page_names(rt, alloc, folder)?;
    let mut runs = Runs {
        last: None,
        ended: Vec::new(alloc),
    };
    runs.replay_all(rt, alloc, folder, &names)?;
    let Runs { ended, .. } = runs;
    Ok(ended)
}

// The names of what is in a folder and may be a page, in the order of their octets.
fn page_names<R: Files>(rt: &R, alloc: Global, folder: &str) -> Result<Vec<String>, ReplayFault> {
    let mut names = Vec::new(alloc);
    match list(rt, alloc, folder, &mut names) {
        Ok(()) => Ok(names),
        Err(error) => Err(ReplayFault::File(String::from_str(alloc, folder)?, error)),
    }
}

impl Runs {
    // Replays the pages of these names. Their runs have ended then.
    fn replay_all<R: Files>(
        &mut self,
        rt: &R,
        alloc: Global,
        folder: &str,
        names: &[String],
    ) -> Result<(), ReplayFault> {
        for name in names {
            self.replay_file(rt, alloc, folder, name.as_str())?;
        }
        self.end_last()?;
        Ok(())
    }

    // Counts the last run, if there is one, among those that have ended.
    fn end_last(&mut self) -> Result<(), AllocError>
        ensures last { self.new.last ≡ self.old.last }
        ensures counted { OnOk result
            (self.new.ended.items ≡ self.old.ended.items ++ counted self.old.last) }
    {
        if let Some(run) = &self.last {
            self.ended.push(Replayed {
                number: run.number,
                events: run.next,
            })?;
        }
        Ok(())
    }

    // Replays the page of a name.
    fn replay_file<R: Files>(
        &mut self,
        rt: &R,
        alloc: Global,
        folder: &str,
        name: &str,
    ) -> Result<(), ReplayFault> {
        let path = format!(in alloc; "{folder}/{name}")?;
        match self.read_page(rt, alloc, name, path.as_str()) {
            Ok(()) => Ok(()),
            Err(fault) => Err(fault.at(path)),
        }
    }

    // Reads a page from its file, and replays it.
    fn read_page<R: Files>(
        &mut self,
        rt: &R,
        alloc: Global,
        name: &str,
        path: &str,
    ) -> Result<(), PageFault> {
        match fs::read(&(rt, alloc), path) {
            Ok(text) => self.replay_page(alloc, name, &text),
            Err(error) => Err(PageFault::File(error)),
        }
    }

    // Replays a page after those of its run.
    fn replay_page(&mut self, alloc: Global, name: &str, text: &[u8]) -> Result<(), PageFault>
        ensures last { OnOk result (ReplaysPage name.now text.now self.old.last self.new.last) }
        ensures ended { OnOk result (self.new.ended.items
            ≡ self.old.ended.items ++ ended_by (page_named name.now) self.old.last) }
    {
        let Some((number, first)) = read_name(name) else {
            return Err(PageFault::Misnamed);
        };
        let body = read_body(alloc, text)?;
        let Some(head) = read_head(body) else {
            return Err(PageFault::NotPage);
        };
        if head.first != first {
            return Err(PageFault::Misnamed);
        }
        self.follow(alloc, number, &head)?;
        self.replay_events(alloc, &head)?;
        Ok(())
    }

    // Begins the run of a page, if it is a later one than the last. The page has to be the next of its run.
    fn follow(&mut self, alloc: Global, number: u64, head: &Head<'_>) -> Result<(), PageFault>
        ensures last { OnOk result (Follows number head.now.first head.now.client.now
            self.old.last self.new.last) }
        ensures ended { OnOk result (self.new.ended.items
            ≡ self.old.ended.items ++ ended_by (Some (number, head.now.first)) self.old.last) }
    {
        self.begin(alloc, number, head)?;
        match &self.last {
            Some(run) => run.expect(number, head),
            None => Err(PageFault::Gap),
        }
    }

    // Begins the run of a page that is the first one of a later run than the last.
    fn begin(&mut self, alloc: Global, number: u64, head: &Head<'_>) -> Result<(), PageFault>
        ensures last { OnOk result (BeginsRun number head.now.first head.now.client.now
            self.old.last self.new.last) }
        ensures ended { OnOk result (self.new.ended.items
            ≡ self.old.ended.items ++ ended_by (Some (number, head.now.first)) self.old.last) }
    {
        if self.begins(number, head) {
            let run = new_run(alloc, number, head.client)?;
            self.end_last()?;
            drop(self.last.replace(run));
        }
        Ok(())
    }

    // Whether a page is the first one of a later run than the last.
    fn begins(&self, number: u64, head: &Head<'_>) -> bool
        ensures { result ≡ begins_run number head.now.first self.now.last }
    {
        head.first == 0 && self.last_number() < number
    }

    // The number of the last run; 0 where there is none.
    fn last_number(&self) -> u64
        ensures { result ≡ number_of_last self.now.last }
    {
        match &self.last {
            Some(run) => run.number,
            None => 0,
        }
    }

    // Replays the events of a page of the last run.
    fn replay_events(&mut self, alloc: Global, head: &Head<'_>) -> Result<(), PageFault>
        ensures last { OnOk result (ReplaysEvents head.now.events.now head.now.count
            self.old.last self.new.last) }
        ensures ended { self.new.ended ≡ self.old.ended }
    {
        match &mut self.last {
            Some(run) => run.replay_events(alloc, head),
            None => Err(PageFault::Gap),
        }
    }
}

impl Run {
    // A page has to be the next one of this run: a page before it may be missing, or it may be of another
    // client.
    fn expect(&self, number: u64, head: &Head<'_>) -> Result<(), PageFault>
        ensures { OnOk result (IsNext number head.now.first head.now.client.now self.now) }
    {
        if self.number != number || self.next != head.first {
            return Err(PageFault::Gap);
        }
        if self.client.as_slice() != head.client {
            return Err(PageFault::OtherClient);
        }
        Ok(())
    }

    // Replays the events of a page of this run, which goes on with them.
    fn replay_events(&mut self, alloc: Global, head: &Head<'_>) -> Result<(), PageFault>
        ensures { OnOk result (GoesOn head.now.events.now head.now.count self.old self.new) }
    {
        let Some(next) = self.next.checked_add(head.count) else {
            return Err(PageFault::NotPage);
        };
        repeat_events(alloc, &mut self.desk, head)?;
        self.next = next;
        Ok(())
    }
}

// Replays the events of a page. The fault has the number of the first that is not accepted, or whose answer
// is another one.
fn repeat_events(
    alloc: Global,
    desk: &mut OnlyEvents<Plain>,
    head: &Head<'_>,
) -> Result<(), PageFault>
    ensures { OnOk result (RepeatsSome head.now.events.now [] head.now.count desk.old desk.new) }
{
    let mut rest = head.events;
    for place in 0..head.count {
        match replay_event(alloc, desk, rest)? {
            Some(others) => rest = others,
            None => return Err(PageFault::Event(head.first.saturating_add(place))),
        }
    }
    if rest.is_empty() {
        Ok(())
    } else {
        Err(PageFault::Changed)
    }
}

// Replays the first event of a text. Returns the rest of the text; `None` where the event is not accepted, or
// its answer is another one.
fn replay_event<'a>(
    alloc: Global,
    desk: &mut OnlyEvents<Plain>,
    text: &'a [u8],
) -> Result<Option<&'a [u8]>, PageFault>
    ensures { IfOk result (λ rest. IfSome rest
        (λ rest. RepeatsFirst text.now rest.now desk.old desk.new)) }
{
    let Some((len, reply_len)) = event_of(text) else {
        return Ok(None);
    };
    let (command, after) = text.split_at(len);
    let (reply, rest) = after.split_at(reply_len);
    let Some(told) = replies_to(alloc, desk, command) else {
        return Err(PageFault::Memory);
    };
    if is_expected(split_line(command).0, reply, &told) {
        Ok(Some(rest))
    } else {
        Ok(None)
    }
}

// Whether the reply to the command of a line is as its page has it: a change, which has none there, is
// accepted, and that to a question is the same.
fn is_expected(line: &[u8], reply: &[u8], told: &[u8]) -> bool
    ensures { result ≡ is_expected line.now reply.now told.now }
{
    if is_change(line) {
        return reply.is_empty() && told.starts_with(b"ok ");
    }
    is_find(line) && reply == told && !told.starts_with(b"err")
}

// A run of a client, of which no page was replayed. The client is as the settings of a service.
fn new_run(alloc: Global, number: u64, client: &[u8]) -> Result<Run, PageFault>
    ensures { IfOk result (λ run. IsBegun number client.now run) }
{
    let Ok(text) = str::from_utf8(client) else {
        return Err(PageFault::NotPage);
    };
    let desk = desk_of(alloc, text)?;
    let client = Vec::from_slice(alloc, client)?;
    Ok(Run {
        number,
        next: 0,
        client,
        desk,
    })
}

// A machine without records for the client and the policy of these settings.
fn desk_of(alloc: Global, text: &str) -> Result<OnlyEvents<Plain>, PageFault>
    ensures { IfOk result (λ desk. IsFresh text.now desk) }
{
    match Settings::from_toml(alloc, text) {
        Ok(
            Settings {
                abilities,
                held,
                ..
            },
        ) => Ok(OnlyEvents::new(Plain::new(alloc, abilities, held))),
        Err(SettingsFault::Memory) => Err(PageFault::Memory),
        Err(_) => Err(PageFault::NotPage),
    }
}

// A page without its last line, which is the digest of all before. Without a whole such line the page is cut
// off.
fn read_body(alloc: Global, text: &[u8]) -> Result<&[u8], PageFault>
    ensures { IfOk result (λ body. text.now ≡ body.now ++ digest_line (sha256 body.now)) }
{
    let Some((body, end)) = split_digest(text) else {
        return Err(PageFault::NotPage);
    };
    if is_digest(alloc, body, end)? {
        return Ok(body);
    }
    if end.len() < DIGEST_LEN {
        Err(PageFault::NotPage)
    } else {
        Err(PageFault::Changed)
    }
}

// A text up to its last line that begins as one with a digest, and the rest, if there is such a line.
fn split_digest(text: &[u8]) -> Option<(&[u8], &[u8])>
    ensures { IfSome result (λ parts. parts.0.now ++ parts.1.now ≡ text.now) }
{
    let end = memmem::rfind(text, b"\nsha256 ")?;
    Some(text.split_at(end + 1))
}

// Whether a line is the last one of a page that has these lines before it.
fn is_digest(alloc: Global, body: &[u8], line: &[u8]) -> Result<bool, AllocError>
    ensures { IfOk result (λ is_so. Decides is_so (line.now ≡ digest_line (sha256 body.now))) }
{
    Ok(digest_line(alloc, &Sha256::digest(body))?.as_slice() == line)
}

/// The run and the first number of a page, by its name.
pub(crate) fn read_name(name: &str) -> Option<(u64, u64)>
    ensures { result ≡ page_named name.now }
{
    let name = name.as_bytes();
    if name.len() != 23 || name[6] != b'-' {
        return None;
    }
    Some((
        read_number(&name[..6], u64::MAX)?,
        read_number(&name[7..], u64::MAX)?,
    ))
}

// The head of a page: its first line, and its client's settings up to an empty line.
fn read_head(text: &[u8]) -> Option<Head<'_>>
    ensures { IfSome result (λ head. IsHead text.now head.first head.count head.client.now
        head.events.now) }
{
    let (line, rest) = split_line(text);
    let (first, count) = read_extent(line.strip_prefix(b"siplocd page ".as_slice())?)?;
    let end = memmem::find(rest, b"\n\n")?;
    Some(Head {
        first,
        count,
        client: &rest[..end + 1],
        events: &rest[end + 2..],
    })
}

// `FIRST COUNT`.
fn read_extent(fields: &[u8]) -> Option<(u64, u64)>
    ensures { result ≡ extent_in (fields_of fields.now) }
{
    let (first, rest) = next_field(fields)?;
    let (count, rest) = next_field(rest)?;
    if next_field(rest).is_some() {
        return None;
    }
    Some((read_number(first, u64::MAX)?, read_number(count, u64::MAX)?))
}
