// How the replies of a script are written.
ghost use Rattle.std.specs.Prelude.{◌≡◌, ◌+◌, ◌≤◌, ◌++◌, vec_len, vec_capacity};
ghost use Rattle.std.specs.List.{slice_get};
ghost use Rattle.sipl_lines.specs.ReplyText.{word_field};
ghost use Rattle.sipl_lines.specs.ScriptText.{Shows, changed_text, lease_text, moved_text, port_field, read_text, scheme_text, shown_of, stale_text, target_text, transport_field, uncommitted_text};
ghost use Rattle.sipl_lines.specs.Session.{AppendsText};

use crate::command::CommandWord;
use crate::desk_commands::reply_handed;
use crate::reply::{
    write_counts, write_done, write_key, write_name, write_number, write_page, write_refusal,
    write_word,
};
use sipl_book::{BookFault, Edit, Uncommitted};
use sipl_choice::Transport;
use sipl_evidence::Item;
use sipl_interleave::{Reply, Step};
use sipl_uri::{Question, Target};

// The maximum length in octets of a script's reply, but for one with targets: the longest is that of
// `lease`, with a name. Space for one is reserved before each line.
pub(crate) const MAX_SCRIPT_REPLY_LEN: usize = 1_100;

// What the reply to a step shows beside its result.
#[derive(Clone, Copy)]
pub(crate) enum Shown {
    // `zone`: the counts of its text.
    Zone(u64, u64, u64),
    // `drop`.
    Drop,
    // `add`.
    Add,
    // `del`.
    Del,
    // `hold`.
    Hold,
    // `release`.
    Release,
    // `clock`: the time, in milliseconds.
    Clock(u64),
    // Nothing.
    Other,
}

impl Shown {
    // What the reply to this step is to show.
    pub(crate) fn of(step: &Step) -> Self
        ensures { result ≡ shown_of step.now }
    {
        match step {
            Step::Change(Edit::Load(zone)) => {
                let records = zone.records().len() as u64;
                Shown::Zone(records, zone.outside(), zone.repeated())
            }
            Step::Change(Edit::Unload(_)) => Shown::Drop,
            Step::Change(Edit::Add(_)) => Shown::Add,
            Step::Change(Edit::Remove(_)) => Shown::Del,
            Step::Hold(_, _) => Shown::Hold,
            Step::Release(_) => Shown::Release,
            Step::Advance(to) => Shown::Clock(*to),
            _ => Shown::Other,
        }
    }
}

// Appends the reply that shows what a step did. Targets for which there is no space are `err Memory`.
pub(crate) fn write_reply(shown: Shown, reply: &Reply, out: &mut Vec<u8>)
    requires { vec_len out.old + MAX_SCRIPT_REPLY_LEN ≤ vec_capacity out.old }
    ensures { AppendsText (λ before text after. Shows shown reply.now text)
        out.old.items out.old.items out.new.items out.new.items }
{
    match reply {
        Reply::Changed(done) => write_changed(shown, done.changed, out),
        Reply::Moved(_) => write_moved(shown, out),
        Reply::Paged(extent) => write_page(out, *extent),
        Reply::Answered(handed) => reply_handed(handed, out),
        Reply::Started => write_counts(out, b"ok start", &[]),
        Reply::Read(item) => write_read(item, out),
        Reply::Leased(question) => write_lease(question, out),
        Reply::Settled => write_counts(out, b"ok settle", &[]),
        Reply::Abandoned => write_counts(out, b"ok abandon", &[]),
        Reply::Forgotten => write_counts(out, b"ok forget", &[]),
        Reply::Uncommitted(uncommitted) => write_uncommitted(uncommitted, out),
        Reply::Refused(fault) => write_refusal(out, fault.code()).unwrap(),
    }
}

// Appends the reply to an accepted edit, and how many sets of records changed.
fn write_changed(shown: Shown, changed: u64, out: &mut Vec<u8>)
    requires { vec_len out.old + MAX_SCRIPT_REPLY_LEN ≤ vec_capacity out.old }
    ensures { out.new.items ≡ out.old.items ++ changed_text shown changed }
{
    match shown {
        Shown::Zone(records, outside, repeated) => {
            write_done(
                out,
                CommandWord::Zone,
                &[records, outside, repeated, changed],
            );
        }
        Shown::Drop => write_done(out, CommandWord::Drop, &[changed]),
        Shown::Add => write_done(out, CommandWord::Add, &[changed]),
        Shown::Del => write_done(out, CommandWord::Del, &[changed]),
        _ => write_counts(out, b"ok", &[changed]),
    }
}

// Appends the reply to an accepted hold, release or move of the clock.
fn write_moved(shown: Shown, out: &mut Vec<u8>)
    requires { vec_len out.old + MAX_SCRIPT_REPLY_LEN ≤ vec_capacity out.old }
    ensures { out.new.items ≡ out.old.items ++ moved_text shown }
{
    match shown {
        Shown::Hold => write_done(out, CommandWord::Hold, &[]),
        Shown::Release => write_done(out, CommandWord::Release, &[]),
        Shown::Clock(to) => write_done(out, CommandWord::Clock, &[to]),
        _ => write_counts(out, b"ok", &[]),
    }
}

// Appends the record set that a worker read.
fn write_read(item: &Item, out: &mut Vec<u8>)
    requires { vec_len out.old + MAX_SCRIPT_REPLY_LEN ≤ vec_capacity out.old }
    ensures { out.new.items ≡ out.old.items ++ read_text item.now }
{
    out.extend_from_slice(b"ok read").unwrap();
    write_key(out, item.key());
    write_number(out, item.content().len() as u64);
    out.push_reserved(b'\n');
}

// Appends the question of the entry that a worker leased.
fn write_lease(question: &Question, out: &mut Vec<u8>)
    requires { vec_len out.old + MAX_SCRIPT_REPLY_LEN ≤ vec_capacity out.old }
    ensures { out.new.items ≡ out.old.items ++ lease_text question.now }
{
    out.extend_from_slice(b"ok lease").unwrap();
    write_word(out, scheme(question.secure).as_bytes());
    write_target(out, &question.target);
    write_port(out, question.port);
    write_transport(out, question.transport);
    out.push_reserved(b'\n');
}

// The scheme of a URI.
fn scheme(secure: bool) -> &'static str
    ensures { result.now ≡ scheme_text secure }
{
    if secure { "sips" } else { "sip" }
}

// Appends a space and the target of a URI to space that is reserved.
fn write_target(out: &mut Vec<u8>, target: &Target)
    requires { vec_len out.old + 1_021 ≤ vec_capacity out.old }
    ensures ok { out.new.items ≡ out.old.items ++ word_field (target_text target.now) }
    ensures len { vec_len out.new ≤ vec_len out.old + 1_021 }
    ensures capacity { vec_capacity out.old ≤ vec_capacity out.new }
{
    match target {
        Target::Numeric(address) => {
            out.push_reserved(b' ');
            address.write(out).unwrap();
        }
        Target::Domain(name) => write_name(out, name),
    }
}

// Appends a space and the port of a URI, or `-`, to space that is reserved.
fn write_port(out: &mut Vec<u8>, port: Option<u16>)
    requires { vec_len out.old + 21 ≤ vec_capacity out.old }
    ensures ok { out.new.items ≡ out.old.items ++ port_field port }
    ensures len { vec_len out.new ≤ vec_len out.old + 21 }
    ensures capacity { vec_capacity out.old ≤ vec_capacity out.new }
{
    match port {
        Some(port) => write_number(out, u64::from(port)),
        None => write_word(out, b"-"),
    }
}

// Appends a space and the transport of a URI, or `-`, to space that is reserved.
fn write_transport(out: &mut Vec<u8>, transport: Option<Transport>)
    requires { vec_len out.old + 5 ≤ vec_capacity out.old }
    ensures ok { out.new.items ≡ out.old.items ++ transport_field transport }
    ensures len { vec_len out.new ≤ vec_len out.old + 5 }
    ensures capacity { vec_capacity out.old ≤ vec_capacity out.new }
{
    match transport {
        Some(transport) => write_word(out, transport.name().as_bytes()),
        None => write_word(out, b"-"),
    }
}

// Appends why a finding was not committed or settled.
fn write_uncommitted(uncommitted: &Uncommitted, out: &mut Vec<u8>)
    requires { vec_len out.old + MAX_SCRIPT_REPLY_LEN ≤ vec_capacity out.old }
    ensures { out.new.items ≡ out.old.items
        ++ uncommitted_text uncommitted.now.fault uncommitted.now.finding.items }
{
    match uncommitted.fault {
        BookFault::Stale(place) => write_stale(uncommitted.finding.evidence().items(), place, out),
        fault => write_refusal(out, fault.code()).unwrap(),
    }
}

// Appends that a set has changed since it was read, and which one of these it is.
fn write_stale(items: &[Item], place: usize, out: &mut Vec<u8>)
    requires { vec_len out.old + MAX_SCRIPT_REPLY_LEN ≤ vec_capacity out.old }
    ensures { out.new.items ≡ out.old.items ++ stale_text (slice_get items.now place) }
{
    match items.get(place) {
        Some(item) => {
            out.extend_from_slice(b"err B2").unwrap();
            write_key(out, item.key());
            out.push_reserved(b'\n');
        }
        None => write_refusal(out, "B2").unwrap(),
    }
}
