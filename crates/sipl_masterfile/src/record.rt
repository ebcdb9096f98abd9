ghost use Rattle.std.specs.Prelude.{◌≡◌, ◌≢◌, ◌++◌, [], IfOk, IfErr, OnOk, Ok, Err};
ghost use Rattle.sipl_records.specs.declared.record.Record.{Record};
ghost use Rattle.sipl_names.specs.LabelSlices.{octets_of};
ghost use Rattle.sipl_masterfile.specs.RecordPrint.{record_text};
ghost use Rattle.sipl_masterfile.specs.RecordText.{record_of, only_record, record_at_end, stated_record, state_directive};

use crate::entries::Entries;
use crate::fault::{ZoneCause, ZoneFault};
use crate::rdata::write_data;
use crate::statement::{Statement, is_directive, read_statement};
use sipl_names::Name;
use sipl_records::Record;
use std::alloc::{AllocError, Global};

/// Reads a text with one entry, which is a record with its owner (RFC 1035, 5.1). Relative names are
/// below the origin, and `@` is the origin. Linear in the length of the text.
///
/// The fault is the first one: no entry with fields (Z2, at line 1), a fault of the entry, a further
/// entry with fields (Z13). A directive is not a record: `$INCLUDE` is Z8, `$GENERATE` Z9, any other Z2.
/// The fault is at the line on which its entry begins, an allocation failure at line 1.
pub fn read_record(alloc: Global, line: &[u8], origin: &Name) -> Result<Record, ZoneFault>
    ensures read { IfOk result (λ r. record_of line.now origin.now ≡ Ok r) }
    ensures refused { IfErr result
        (λ fault. fault.cause ≢ ZoneCause.Memory → record_of line.now origin.now ≡ Err fault) }
    ensures memory { IfErr result (λ fault. fault.cause ≡ ZoneCause.Memory → fault.line ≡ 1) }
{
    let mut fields = Vec::new(alloc);
    read_only_record(alloc, &mut Entries::new(line), &mut fields, origin)
}

/// Appends a record as an entry of a master file (RFC 1035, 5.1), without a line's end; it reads back to
/// the record. One of another type, of which nothing is kept, is a `NULL`.
pub fn write_record(alloc: Global, out: &mut Vec<u8>, record: &Record) -> Result<(), AllocError>
    ensures { OnOk result (out.new.items ≡ out.old.items ++ record_text «record».now) }
{
    record.owner.write(out)?;
    write_data(alloc, out, &record.value)
}

// The record of the only one of the entries.
fn read_only_record<'a>(
    alloc: Global,
    entries: &mut Entries<'a>,
    fields: &mut Vec<&'a [u8]>,
    origin: &Name,
) -> Result<Record, ZoneFault>
    ensures read { IfOk result (λ r. only_record entries.old origin.now ≡ Ok r) }
    ensures refused { IfErr result
        (λ fault. fault.cause ≢ ZoneCause.Memory → only_record entries.old origin.now ≡ Err fault) }
    ensures memory { IfErr result (λ fault. fault.cause ≡ ZoneCause.Memory → fault.line ≡ 1) }
{
    let record = read_first_record(alloc, entries, fields, origin)?;
    check_no_entry(entries, fields)?;
    Ok(record)
}

// The record of the first of the entries.
fn read_first_record<'a>(
    alloc: Global,
    entries: &mut Entries<'a>,
    fields: &mut Vec<&'a [u8]>,
    origin: &Name,
) -> Result<Record, ZoneFault>
    ensures read { IfOk result
        (λ r. only_record entries.old origin.now ≡ record_at_end r entries.new) }
    ensures refused { IfErr result
        (λ fault. fault.cause ≢ ZoneCause.Memory → only_record entries.old origin.now ≡ Err fault) }
    ensures memory { IfErr result (λ fault. fault.cause ≡ ZoneCause.Memory → fault.line ≡ 1) }
{
    let head = entries.next_entry(fields)?.ok_or(ZoneFault {
        line: 1,
        cause: ZoneCause::MissingField,
    })?;
    read_stated_record(alloc, head.is_indented, fields, origin).map_err(|cause| ZoneFault::at(
        head.line, cause,
    ))
}

// That there is no further entry.
fn check_no_entry<'a>(
    entries: &mut Entries<'a>,
    fields: &mut Vec<&'a [u8]>,
) -> Result<(), ZoneFault>
    ensures none { OnOk result (entries.old ≡ []) }
    ensures refused { IfErr result (λ fault. fault.cause ≢ ZoneCause.Memory
        → (r : Record) → record_at_end r entries.old ≡ Err fault) }
    ensures memory { IfErr result (λ fault. fault.cause ≡ ZoneCause.Memory → fault.line ≡ 1) }
{
    match entries.next_entry(fields)? {
        Some(further) => Err(ZoneFault {
            line: further.line,
            cause: ZoneCause::ExtraField,
        }),
        None => Ok(()),
    }
}

// The record that an entry states by itself, with no owner before it.
fn read_stated_record(
    alloc: Global,
    is_indented: bool,
    fields: &[&[u8]],
    origin: &Name,
) -> Result<Record, ZoneCause>
    ensures read { IfOk result
        (λ r. stated_record is_indented (octets_of fields.now) origin.now ≡ Ok r) }
    ensures refused { IfErr result (λ cause. cause ≢ ZoneCause.Memory
        → stated_record is_indented (octets_of fields.now) origin.now ≡ Err cause) }
{
    match read_statement(alloc, is_indented, fields, origin, None) {
        Ok(Statement::Record(record)) => Ok(record),
        Ok(Statement::Origin(_) | Statement::Ttl) => Err(ZoneCause::MissingField),
        Err(cause @ (ZoneCause::Include | ZoneCause::Generate | ZoneCause::Memory)) => Err(cause),
        Err(_) if states_directive(is_indented, fields) => Err(ZoneCause::MissingField),
        Err(cause) => Err(cause),
    }
}

// Whether the fields are those of a directive.
fn states_directive(is_indented: bool, fields: &[&[u8]]) -> bool
    ensures { result ≡ state_directive is_indented (octets_of fields.now) }
{
    match fields.first() {
        Some(field) => !is_indented && is_directive(field),
        None => false,
    }
}
