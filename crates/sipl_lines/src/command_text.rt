// Changes and records as the lines of a session.
ghost use Rattle.std.specs.Prelude.{◌≡◌, ◌∷◌, ◌++◌, decimal, IfOk, OnOk};
ghost use Rattle.sipl_lines.specs.CommandText.{clock_line, edit_lines, endpoint_text, event_lines, hold_line, record_line, release_line, words_field, zone_line, zone_lines};
ghost use Rattle.sipl_lines.specs.ReplyText.{number_field};

use crate::command::CommandWord;
use crate::reply;
use crate::reply::write_answer;
use sipl_book::{Edit, Event, SharedDraws};
use sipl_choice::Endpoint;
use sipl_masterfile::write_record;
use sipl_names::Name;
use sipl_records::Record;
use std::alloc::{AllocError, Global};

/// The line of an edit; that of a zone has those of its records after it. The only error is an
/// allocation failure.
pub fn edit_text(alloc: Global, edit: &Edit) -> Result<Vec<u8>, AllocError>
    ensures { IfOk result (λ text. text.items ≡ edit_lines edit.now) }
{
    let mut out = Vec::new(alloc);
    write_edit(alloc, &mut out, edit)?;
    Ok(out)
}

/// The line that holds an endpoint for some milliseconds. The only error is an allocation failure.
pub fn hold_text(alloc: Global, endpoint: &Endpoint, ms: u64) -> Result<Vec<u8>, AllocError>
    ensures { IfOk result (λ text. text.items ≡ hold_line endpoint.now ms) }
{
    let mut out = Vec::new(alloc);
    write_hold(&mut out, endpoint, ms)?;
    Ok(out)
}

/// The line that ends the hold of an endpoint. The only error is an allocation failure.
pub fn release_text(alloc: Global, endpoint: &Endpoint) -> Result<Vec<u8>, AllocError>
    ensures { IfOk result (λ text. text.items ≡ release_line endpoint.now) }
{
    let mut out = Vec::new(alloc);
    write_release(&mut out, endpoint)?;
    Ok(out)
}

/// The line that sets the time, in milliseconds. The only error is an allocation failure.
pub fn clock_text(alloc: Global, to: u64) -> Result<Vec<u8>, AllocError>
    ensures { IfOk result (λ text. text.items ≡ clock_line to) }
{
    let mut out = Vec::new(alloc);
    write_clock(&mut out, to)?;
    Ok(out)
}

/// Appends the line of an event, and of an answer those of its reply after it. The only error is an
/// allocation failure.
pub fn write_event(alloc: Global, out: &mut Vec<u8>, event: &Event) -> Result<(), AllocError>
    ensures { OnOk result (out.new.items ≡ out.old.items ++ event_lines event.now) }
{
    match event {
        Event::Change(edit) => write_edit(alloc, out, edit),
        Event::Hold(endpoint, ms) => write_hold(out, endpoint, *ms),
        Event::Release(endpoint) => write_release(out, endpoint),
        Event::Advance(to) => write_clock(out, *to),
        Event::Answer(question, draws, answer) => {
            out.extend_from_slice(CommandWord::Find.start())?;
            question.write(out)?;
            write_draws(alloc, out, draws)?;
            out.push(b'\n')?;
            write_answer(out, answer)
        }
    }
}

// Appends the random words, without those of 0 at their end.
fn write_draws(alloc: Global, out: &mut Vec<u8>, draws: &SharedDraws) -> Result<(), AllocError>
    ensures { OnOk result (out.new.items ≡ out.old.items ++ words_field draws.now) }
{
    let Some((first, others)) = draws.given().split_first() else {
        return Ok(());
    };
    out.extend_from_slice(b" words")?;
    write_number(out, u64::from(*first))?;
    for word in others {
        write_further_word(alloc, out, *word)?;
    }
    Ok(())
}

// Appends a comma and a word.
fn write_further_word(alloc: Global, out: &mut Vec<u8>, word: u32) -> Result<(), AllocError>
    ensures { OnOk result (out.new.items ≡ out.old.items ++ 44 ∷ decimal word) }
{
    let text = format!(in alloc; ",{word}")?;
    out.extend_from_slice(text.as_bytes())
}

// Appends the line of an edit; that of a zone has those of its records after it.
fn write_edit(alloc: Global, out: &mut Vec<u8>, edit: &Edit) -> Result<(), AllocError>
    ensures { OnOk result (out.new.items ≡ out.old.items ++ edit_lines edit.now) }
{
    match edit {
        Edit::Load(zone) => write_zone(alloc, out, zone.apex(), zone.records()),
        Edit::Unload(apex) => {
            out.extend_from_slice(CommandWord::Drop.start())?;
            apex.write(out)?;
            out.push(b'\n')?;
            Ok(())
        }
        Edit::Add(record) => {
            out.extend_from_slice(CommandWord::Add.start())?;
            write_record_line(alloc, out, record)
        }
        Edit::Remove(record) => {
            out.extend_from_slice(CommandWord::Del.start())?;
            write_record_line(alloc, out, record)
        }
    }
}

// Appends the lines that load a zone with these records.
fn write_zone(
    alloc: Global,
    out: &mut Vec<u8>,
    apex: &Name,
    records: &[Record],
) -> Result<(), AllocError>
    ensures { OnOk result (out.new.items ≡ out.old.items ++ zone_lines apex.now records.now) }
{
    write_zone_line(out, apex, records.len())?;
    for record in records {
        write_record_line(alloc, out, record)?;
    }
    Ok(())
}

/// Appends the line of a record, an entry of a master file (RFC 1035, 5.1). The only error is an allocation
/// failure.
pub fn write_record_line(
    alloc: Global,
    out: &mut Vec<u8>,
    record: &Record,
) -> Result<(), AllocError>
    ensures { OnOk result (out.new.items ≡ out.old.items ++ record_line «record».now) }
{
    write_record(alloc, out, record)?;
    out.push(b'\n')?;
    Ok(())
}

/// Appends the first line of those that load a zone with so many records. The only error is an allocation
/// failure.
pub fn write_zone_line(out: &mut Vec<u8>, apex: &Name, count: usize) -> Result<(), AllocError>
    ensures { OnOk result (out.new.items ≡ out.old.items ++ zone_line apex.now count) }
{
    out.extend_from_slice(CommandWord::Zone.start())?;
    apex.write(out)?;
    write_number(out, count as u64)?;
    out.push(b'\n')?;
    Ok(())
}

/// Appends the line that holds an endpoint for some milliseconds. The only error is an allocation failure.
pub fn write_hold(out: &mut Vec<u8>, endpoint: &Endpoint, ms: u64) -> Result<(), AllocError>
    ensures { OnOk result (out.new.items ≡ out.old.items ++ hold_line endpoint.now ms) }
{
    write_endpoint(out, CommandWord::Hold.start(), endpoint)?;
    write_number(out, ms)?;
    out.push(b'\n')?;
    Ok(())
}

// Appends the line that ends the hold of an endpoint.
fn write_release(out: &mut Vec<u8>, endpoint: &Endpoint) -> Result<(), AllocError>
    ensures { OnOk result (out.new.items ≡ out.old.items ++ release_line endpoint.now) }
{
    write_endpoint(out, CommandWord::Release.start(), endpoint)?;
    out.push(b'\n')?;
    Ok(())
}

// Appends words, and a transport, an address and a port.
fn write_endpoint(out: &mut Vec<u8>, word: &[u8], endpoint: &Endpoint) -> Result<(), AllocError>
    ensures { OnOk result (out.new.items ≡ out.old.items ++ word.now ++ endpoint_text endpoint.now) }
{
    out.extend_from_slice(word)?;
    out.extend_from_slice(endpoint.transport.name().as_bytes())?;
    out.push(b' ')?;
    endpoint.address.write(out)?;
    write_number(out, u64::from(endpoint.port))
}

/// Appends the line that sets the time, in milliseconds. The only error is an allocation failure.
pub fn write_clock(out: &mut Vec<u8>, to: u64) -> Result<(), AllocError>
    ensures { OnOk result (out.new.items ≡ out.old.items ++ clock_line to) }
{
    out.extend_from_slice(CommandWord::Clock.name())?;
    write_number(out, to)?;
    out.push(b'\n')?;
    Ok(())
}

/// Appends a space and a number. The only error is an allocation failure.
pub fn write_number(out: &mut Vec<u8>, number: u64) -> Result<(), AllocError>
    ensures { OnOk result (out.new.items ≡ out.old.items ++ number_field number) }
{
    out.reserve(reply::MAX_NUMBER_FIELD_LEN)?;
    reply::write_number(out, number);
    Ok(())
}
