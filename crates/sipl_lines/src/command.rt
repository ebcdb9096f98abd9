//! The words of a session's commands, each spelled here and nowhere else, and what a line asks for.
ghost use Rattle.std.specs.Prelude.{◌≡◌};
ghost use Rattle.sipl_records.specs.Fields.{fields_of, trim_start};
ghost use Rattle.sipl_records.specs.Numbers.{number_of};
ghost use Rattle.sipl_choice.specs.Transports.{transport_named};
ghost use Rattle.sipl_lines.specs.Requests.{add_request, broke_request, call_request, clock_request, command_request, del_request, deps_request, drop_request, endpoint_of, fault_words, find_request, got_request, hold_request, is_word, kind_named, meaning_if_read, meaning_of, needs_rights, ok_words, page_request, quit_request, release_request, repair_request, request_of, retry_of, text_of_word, word_start, zone_request};

use crate::draws_field::read_draws;
use sipl_choice::{Endpoint, Transport};
use sipl_records::{Address, AddressFault, next_field, read_number, trim_start};
use sipl_srv::{Draws, DrawsFault};
use sipl_tx::Kind;

/// The first word of a command's line.
#[derive(Clone, Copy, Debug)]
pub enum CommandWord {
    Zone,
    Drop,
    Add,
    Del,
    Find,
    Deps,
    Repair,
    Page,
    Hold,
    Release,
    Clock,
    Call,
    Got,
    Broke,
    Quit,
}

// A command's word between two texts, as one literal.
macro_rules! spelled {
    ($before:literal, $word:expr, $after:literal) => {
        match $word {
            CommandWord::Zone => concat!($before, "zone", $after).as_bytes(),
            CommandWord::Drop => concat!($before, "drop", $after).as_bytes(),
            CommandWord::Add => concat!($before, "add", $after).as_bytes(),
            CommandWord::Del => concat!($before, "del", $after).as_bytes(),
            CommandWord::Find => concat!($before, "find", $after).as_bytes(),
            CommandWord::Deps => concat!($before, "deps", $after).as_bytes(),
            CommandWord::Repair => concat!($before, "repair", $after).as_bytes(),
            CommandWord::Page => concat!($before, "page", $after).as_bytes(),
            CommandWord::Hold => concat!($before, "hold", $after).as_bytes(),
            CommandWord::Release => concat!($before, "release", $after).as_bytes(),
            CommandWord::Clock => concat!($before, "clock", $after).as_bytes(),
            CommandWord::Call => concat!($before, "call", $after).as_bytes(),
            CommandWord::Got => concat!($before, "got", $after).as_bytes(),
            CommandWord::Broke => concat!($before, "broke", $after).as_bytes(),
            CommandWord::Quit => concat!($before, "quit", $after).as_bytes(),
        }
    };
}

impl CommandWord {
    /// The word, in lower case, such as `zone`.
    pub const fn name(self) -> &'static [u8]
        ensures { result.now ≡ text_of_word self }
    {
        spelled!("", self, "")
    }

    /// The word and a space: how the line of a command with fields begins.
    pub const fn start(self) -> &'static [u8]
        ensures { result.now ≡ word_start self }
    {
        spelled!("", self, " ")
    }

    /// The words of the reply to such a command that is accepted.
    pub const fn ok_words(self) -> &'static [u8]
        ensures { result.now ≡ ok_words self }
    {
        spelled!("ok ", self, "")
    }

    // The words of the reply that says where a fault is in what such a command takes.
    pub(crate) const fn fault_words(self) -> &'static [u8]
        ensures { result.now ≡ fault_words self }
    {
        spelled!("err ", self, "")
    }

    /// Whether this is the word.
    pub fn is(self, word: &[u8]) -> bool
        ensures { result ≡ is_word self word.now }
    {
        word == self.name()
    }

    /// Whether a word is that of a command that changes zones, holds or the time, repairs, or turns a page:
    /// a session that may only ask is refused it.
    pub fn needs_rights(word: &[u8]) -> bool
        ensures { result ≡ needs_rights word.now }
    {
        CommandWord::Zone.is(word)
            || CommandWord::Drop.is(word)
            || CommandWord::Add.is(word)
            || CommandWord::Del.is(word)
            || CommandWord::Hold.is(word)
            || CommandWord::Release.is(word)
            || CommandWord::Clock.is(word)
            || CommandWord::Repair.is(word)
            || CommandWord::Page.is(word)
    }
}

/// The maximum length of a line in octets. A longer one is refused as K2.
pub const MAX_LINE_LEN: usize = 65_536;

/// The maximum number of lines of a zone's text.
pub const MAX_ZONE_LINES: u64 = 1_048_576;

// A command, with its fields as they are in the line.
#[derive(Clone, Copy)]
pub(crate) enum Command<'a> {
    // A line without fields, or a comment.
    Nothing,
    // An unknown command, or one with other fields than it takes: K1.
    Unknown,
    // More octets than a line may have: K2.
    TooLong,
    // `zone APEX COUNT`: loads the zone whose text is in so many lines after it.
    Zone(&'a [u8], u64),
    // `drop APEX`: unloads a zone.
    Drop(&'a [u8]),
    // `add RECORD`: adds a record.
    Add(&'a [u8]),
    // `del RECORD`: removes a record.
    Del(&'a [u8]),
    // `find URI DRAWS`: asks for the targets of a URI, for these random words.
    Find(&'a [u8], Result<Draws, DrawsFault>),
    // `deps URI`: asks which record sets the targets of a URI depend on.
    Deps(&'a [u8]),
    // `repair`: looks up again what edits have changed.
    Repair,
    // `page`: turns the page of the journal.
    Page,
    // `hold TRANSPORT ADDRESS PORT MS`: holds an endpoint for some milliseconds.
    Hold(Result<Endpoint, AddressFault>, u64),
    // `release TRANSPORT ADDRESS PORT`: ends an endpoint's hold.
    Release(Result<Endpoint, AddressFault>),
    // `clock MS`: sets the time, in milliseconds.
    Clock(u64),
    // `call invite|other BASE URI DRAWS`: opens a call to the targets of a URI. Its branches share
    // the base.
    Call(Kind, u64, &'a [u8], Result<Draws, DrawsFault>),
    // `got ATTEMPT CODE [retry SECONDS]`: a response to an attempt of the call.
    Got(u32, u16, Option<u32>),
    // `broke`: an error of the transport of the call's running attempt.
    Broke,
    // `quit`: ends the session.
    Quit,
}

// The command of a line, which has no line end. Command words are in lower case.
pub(crate) fn read_command(line: &[u8]) -> Command<'_>
    ensures { meaning_of result ≡ request_of line.now }
{
    if line.len() > MAX_LINE_LEN {
        return Command::TooLong;
    }
    // `find`, which most lines are, is tried first.
    if let Some(rest) = line.strip_prefix(CommandWord::Find.start()) {
        return match read_find(rest) {
            Some(command) => command,
            None => Command::Unknown,
        };
    }
    if line.first() == Some(&b'#') {
        return Command::Nothing;
    }
    let Some((word, rest)) = next_field(line) else {
        return Command::Nothing;
    };
    match read_fields(word, rest) {
        Some(command) => command,
        None => Command::Unknown,
    }
}

// The command of a word, if there is one and the rest of its line is as the command takes it.
fn read_fields<'a>(word: &[u8], rest: &'a [u8]) -> Option<Command<'a>>
    ensures { meaning_if_read result
        ≡ command_request word.now (fields_of rest.now) (trim_start rest.now) }
{
    if CommandWord::Zone.is(word) {
        read_zone(rest)
    } else if CommandWord::Drop.is(word) {
        read_drop(rest)
    } else if CommandWord::Add.is(word) {
        read_add(trim_start(rest))
    } else if CommandWord::Del.is(word) {
        read_del(trim_start(rest))
    } else if CommandWord::Find.is(word) {
        read_find(rest)
    } else if CommandWord::Deps.is(word) {
        read_deps(rest)
    } else if CommandWord::Repair.is(word) {
        read_repair(rest)
    } else if CommandWord::Page.is(word) {
        read_page(rest)
    } else if CommandWord::Hold.is(word) {
        read_hold(rest)
    } else if CommandWord::Release.is(word) {
        read_release(rest)
    } else if CommandWord::Clock.is(word) {
        read_clock(rest)
    } else if CommandWord::Call.is(word) {
        read_call(rest)
    } else if CommandWord::Got.is(word) {
        read_got(rest)
    } else if CommandWord::Broke.is(word) {
        read_broke(rest)
    } else if CommandWord::Quit.is(word) {
        read_quit(rest)
    } else {
        None
    }
}

// `zone APEX COUNT`.
fn read_zone(rest: &[u8]) -> Option<Command<'_>>
    ensures { meaning_if_read result ≡ zone_request (fields_of rest.now) }
{
    let (apex, rest) = next_field(rest)?;
    let (count, rest) = next_field(rest)?;
    if next_field(rest).is_some() {
        return None;
    }
    Some(Command::Zone(apex, read_number(count, MAX_ZONE_LINES)?))
}

// `drop APEX`.
fn read_drop(rest: &[u8]) -> Option<Command<'_>>
    ensures { meaning_if_read result ≡ drop_request (fields_of rest.now) }
{
    let (apex, rest) = next_field(rest)?;
    if next_field(rest).is_some() {
        return None;
    }
    Some(Command::Drop(apex))
}

// `add RECORD`, where this is the line from the record on.
fn read_add(text: &[u8]) -> Option<Command<'_>>
    ensures { meaning_if_read result ≡ add_request text.now }
{
    if text.is_empty() {
        return None;
    }
    Some(Command::Add(text))
}

// `del RECORD`, where this is the line from the record on.
fn read_del(text: &[u8]) -> Option<Command<'_>>
    ensures { meaning_if_read result ≡ del_request text.now }
{
    if text.is_empty() {
        return None;
    }
    Some(Command::Del(text))
}

// `find URI DRAWS`.
fn read_find(rest: &[u8]) -> Option<Command<'_>>
    ensures { meaning_if_read result ≡ find_request (fields_of rest.now) }
{
    let (uri, rest) = next_field(rest)?;
    Some(Command::Find(uri, read_draws(rest)?))
}

// `deps URI`.
fn read_deps(rest: &[u8]) -> Option<Command<'_>>
    ensures { meaning_if_read result ≡ deps_request (fields_of rest.now) }
{
    let (uri, rest) = next_field(rest)?;
    if next_field(rest).is_some() {
        return None;
    }
    Some(Command::Deps(uri))
}

// `repair`.
fn read_repair(rest: &[u8]) -> Option<Command<'_>>
    ensures { meaning_if_read result ≡ repair_request (fields_of rest.now) }
{
    if next_field(rest).is_some() {
        return None;
    }
    Some(Command::Repair)
}

// `page`.
fn read_page(rest: &[u8]) -> Option<Command<'_>>
    ensures { meaning_if_read result ≡ page_request (fields_of rest.now) }
{
    if next_field(rest).is_some() {
        return None;
    }
    Some(Command::Page)
}

// `hold TRANSPORT ADDRESS PORT MS`.
fn read_hold(rest: &[u8]) -> Option<Command<'_>>
    ensures { meaning_if_read result ≡ hold_request (fields_of rest.now) }
{
    let (transport, rest) = next_field(rest)?;
    let (address, rest) = next_field(rest)?;
    let (port, rest) = next_field(rest)?;
    let (ms, rest) = next_field(rest)?;
    if next_field(rest).is_some() {
        return None;
    }
    let endpoint = read_endpoint(transport, address, port)?;
    Some(Command::Hold(endpoint, read_number(ms, u64::MAX)?))
}

// `release TRANSPORT ADDRESS PORT`.
fn read_release(rest: &[u8]) -> Option<Command<'_>>
    ensures { meaning_if_read result ≡ release_request (fields_of rest.now) }
{
    let (transport, rest) = next_field(rest)?;
    let (address, rest) = next_field(rest)?;
    let (port, rest) = next_field(rest)?;
    if next_field(rest).is_some() {
        return None;
    }
    Some(Command::Release(read_endpoint(transport, address, port)?))
}

// `clock MS`.
fn read_clock(rest: &[u8]) -> Option<Command<'_>>
    ensures { meaning_if_read result ≡ clock_request (fields_of rest.now) }
{
    let (ms, rest) = next_field(rest)?;
    if next_field(rest).is_some() {
        return None;
    }
    Some(Command::Clock(read_number(ms, u64::MAX)?))
}

// `call invite|other BASE URI DRAWS`.
fn read_call(rest: &[u8]) -> Option<Command<'_>>
    ensures { meaning_if_read result ≡ call_request (fields_of rest.now) }
{
    let (kind, rest) = next_field(rest)?;
    let (base, rest) = next_field(rest)?;
    let (uri, rest) = next_field(rest)?;
    let kind = read_kind(kind)?;
    let base = read_number(base, u64::MAX)?;
    let draws = read_draws(rest)?;
    Some(Command::Call(kind, base, uri, draws))
}

// `got ATTEMPT CODE [retry SECONDS]`.
fn read_got(rest: &[u8]) -> Option<Command<'_>>
    ensures { meaning_if_read result ≡ got_request (fields_of rest.now) }
{
    let (attempt, rest) = next_field(rest)?;
    let (code, rest) = next_field(rest)?;
    let attempt = read_number(attempt, u64::from(u32::MAX))?;
    let code = read_number(code, u64::from(u16::MAX))?;
    let retry_after = read_retry(rest)?;
    Some(Command::Got(attempt as u32, code as u16, retry_after))
}

// `broke`.
fn read_broke(rest: &[u8]) -> Option<Command<'_>>
    ensures { meaning_if_read result ≡ broke_request (fields_of rest.now) }
{
    if next_field(rest).is_some() {
        return None;
    }
    Some(Command::Broke)
}

// `quit`.
fn read_quit(rest: &[u8]) -> Option<Command<'_>>
    ensures { meaning_if_read result ≡ quit_request (fields_of rest.now) }
{
    if next_field(rest).is_some() {
        return None;
    }
    Some(Command::Quit)
}

// The endpoint of these fields, or the fault of its address, if the transport is one and the port a
// number of 16 bits.
fn read_endpoint(
    transport: &[u8],
    address: &[u8],
    port: &[u8],
) -> Option<Result<Endpoint, AddressFault>>
    ensures { result ≡ endpoint_of (transport_named transport.now) address.now
        (number_of port.now 65535) }
{
    let transport = Transport::from_name(transport)?;
    let port = read_number(port, u64::from(u16::MAX))? as u16;
    let address = match Address::from_text(address) {
        Ok(address) => address,
        Err(fault) => return Some(Err(fault)),
    };
    Some(Ok(Endpoint {
        transport,
        address,
        port,
    }))
}

// The kind of a request by its word.
fn read_kind(word: &[u8]) -> Option<Kind>
    ensures { result ≡ kind_named word.now }
{
    if word == b"invite".as_slice() {
        Some(Kind::Invite)
    } else if word == b"other".as_slice() {
        Some(Kind::Other)
    } else {
        None
    }
}

// The seconds of `retry SECONDS`, or none where there are no fields. `None` for other fields.
fn read_retry(fields: &[u8]) -> Option<Option<u32>>
    ensures { result ≡ retry_of (fields_of fields.now) }
{
    let Some((word, rest)) = next_field(fields) else {
        return Some(None);
    };
    let (seconds, rest) = next_field(rest)?;
    if next_field(rest).is_some() || word != b"retry".as_slice() {
        return None;
    }
    let seconds = read_number(seconds, u64::from(u32::MAX))?;
    Some(Some(seconds as u32))
}
