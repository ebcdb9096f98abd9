// The check of a zone's text.
ghost use Rattle.std.specs.Prelude.{◌≡◌, ◌<◌, ◌++◌, ◌||◌, false, length, IfOk, OnOk, OnErr, is_ok};
ghost use Rattle.sipl_masterfile.specs.Zones.{zone_of};
ghost use Rattle.sipl_lines.specs.Checking.{Checks, ReadsAll, ReadsPiece, report_of};
ghost use Rattle.sipl_lines.specs.ServeFault.{is_read_fault, is_write_fault, OnTooManyTurns};
ghost use Rattle.sipl_lines.specs.Tapped.{tapped_inner, has_failed};

use crate::reply::{write_counts, write_text_fault};
use crate::server::{ServeFault, send};
use crate::tapped::Tapped;
use sipl_masterfile::read_zone;
use sipl_names::Name;
use std::alloc::{AllocError, Global};
use std::io::{Read, Write};

// The maximum length of the counts of a zone in octets.
const MAX_COUNTS_LEN: usize = 66;

// The maximum length of a read in octets.
const CHUNK_LEN: usize = 64 * 1024;

/// Reads a zone's text until the input ends, and writes the counts of its records, or its first
/// fault. Returns whether the text is a zone. Linear in the length of the text, which is read as a
/// whole. A read that fails is not tried again.
pub fn check_zone<R: Read, W: Write>(
    alloc: Global,
    reader: &mut Tapped<R>,
    writer: &mut Tapped<W>,
    apex: &Name,
) -> Result<bool, ServeFault>
    ensures { Checks apex.now result R.remaining W.contents
        reader.old reader.new writer.old writer.new }
{
    let mut text = Vec::new(alloc);
    read_all(alloc, reader, &mut text)?;
    let mut report = Vec::new(alloc);
    let is_zone = write_report(alloc, &text, apex, &mut report)?;
    if !send(writer, &report) {
        return Err(ServeFault::Write);
    }
    Ok(is_zone)
}

// Reads until the input ends, and appends what was read.
fn read_all<R: Read>(
    alloc: Global,
    reader: &mut Tapped<R>,
    text: &mut Vec<u8>,
) -> Result<(), ServeFault>
    ensures ok { OnOk result (ReadsAll (R.remaining (tapped_inner reader.old))
        (R.remaining (tapped_inner reader.new)) text.old.items text.new.items) }
    ensures failed { has_failed reader.new ≡ (has_failed reader.old || is_read_fault result) }
    ensures unwritten { is_write_fault result ≡ false }
    ensures unlimited { OnTooManyTurns result ⊥ }
{
    let mut chunk = vec![in alloc; 0; CHUNK_LEN]?;
    while read_piece(reader, &mut chunk, text)? {}
    Ok(())
}

// Reads once, and appends what was read. Returns whether there may be more to read.
fn read_piece<R: Read>(
    reader: &mut Tapped<R>,
    chunk: &mut [u8],
    text: &mut Vec<u8>,
) -> Result<bool, ServeFault>
    requires { 0 < length chunk.old }
    ensures ok { IfOk result (λ more. ReadsPiece more (R.remaining (tapped_inner reader.old))
        (R.remaining (tapped_inner reader.new)) text.old.items text.new.items) }
    ensures chunk { length chunk.new ≡ length chunk.old }
    ensures failed { has_failed reader.new ≡ (has_failed reader.old || is_read_fault result) }
    ensures unwritten { is_write_fault result ≡ false }
    ensures unlimited { OnTooManyTurns result ⊥ }
{
    let count = match reader.read(chunk) {
        Ok(count) => count,
        Err(_) => return Err(ServeFault::Read),
    };
    text.extend_from_slice(&chunk[..count])?;
    Ok(count > 0)
}

// Appends the report on a zone's text. Returns whether it is a zone.
fn write_report(
    alloc: Global,
    text: &[u8],
    apex: &Name,
    out: &mut Vec<u8>,
) -> Result<bool, AllocError>
    ensures { IfOk result (λ is_zone. (is_zone ≡ is_ok (zone_of text.now apex.now))
        × (out.new.items ≡ out.old.items ++ report_of (zone_of text.now apex.now))) }
{
    match read_zone(alloc, text, apex) {
        Ok(zone) => {
            out.reserve(MAX_COUNTS_LEN)?;
            let records = zone.records().len() as u64;
            write_counts(out, b"ok", &[records, zone.outside(), zone.repeated()]);
            Ok(true)
        }
        Err(fault) if fault.is_memory() => Err(AllocError),
        Err(fault) => {
            write_text_fault(out, b"err", fault.line, fault.code())?;
            Ok(false)
        }
    }
}
