//! What an entry of a master file states (RFC 1035, 5.1).
ghost use Rattle.std.specs.Prelude.{◌≡◌, ◌≢◌, Ok, Err, IfOk, IfErr};
ghost use Rattle.std.specs.Option.{option_copied};
ghost use Rattle.sipl_names.specs.LabelSlices.{octets_of};
ghost use Rattle.sipl_masterfile.specs.Statements.{statement_of, directive_or_record, directive_of, origin_directive, ttl_directive, record_of_owner, from_type, after_ttl, after_class, is_other_class, is_numbered_class, is_directive, begins_with_digit, ttl_is_first};

use crate::fault::ZoneCause;
use crate::rdata::read_data;
use crate::reader::{check_end, first_field, last_name};
use crate::ttl::read_ttl;
use sipl_names::Name;
use sipl_records::{Record, are_digits};
use std::alloc::Global;

// What an entry states: a record, a new origin, or a ttl, which is checked and not kept.
#[derive(Debug, Drop)]
pub(crate) enum Statement {
    Record(Record),
    Origin(Name),
    Ttl,
}

// Reads an entry's fields, with the origin and the last owner before it. An indented entry has no
// field for its owner.
pub(crate) fn read_statement(
    alloc: Global,
    is_indented: bool,
    fields: &[&[u8]],
    origin: &Name,
    owner: Option<&Name>,
) -> Result<Statement, ZoneCause>
    ensures read { IfOk result (λ statement. statement_of is_indented (octets_of fields.now)
        origin.now (option_copied owner.entry) ≡ Ok statement) }
    ensures refused { IfErr result (λ cause. cause ≢ ZoneCause.Memory
        → statement_of is_indented (octets_of fields.now) origin.now (option_copied owner.entry)
        ≡ Err cause) }
{
    if !is_indented {
        return read_from_margin(alloc, fields, origin);
    }
    let owner = owner.ok_or(ZoneCause::NoOwner)?;
    let owner = owner.dup(alloc)?;
    read_record_of(alloc, owner, fields, origin)
}

// A directive, or a record with its owner.
fn read_from_margin(alloc: Global, fields: &[&[u8]], origin: &Name) -> Result<Statement, ZoneCause>
    ensures read { IfOk result (λ statement.
        directive_or_record origin.now (octets_of fields.now) ≡ Ok statement) }
    ensures refused { IfErr result (λ cause. cause ≢ ZoneCause.Memory
        → directive_or_record origin.now (octets_of fields.now) ≡ Err cause) }
{
    let (field, rest) = first_field(fields)?;
    if is_directive(field) {
        return read_directive(alloc, field, rest, origin);
    }
    let owner = Name::from_text(alloc, field, origin)?;
    read_record_of(alloc, owner, rest, origin)
}

// The record of an owner.
fn read_record_of(
    alloc: Global,
    owner: Name,
    fields: &[&[u8]],
    origin: &Name,
) -> Result<Statement, ZoneCause>
    ensures read { IfOk result (λ statement.
        record_of_owner owner origin.now (octets_of fields.now) ≡ Ok statement) }
    ensures refused { IfErr result (λ cause. cause ≢ ZoneCause.Memory
        → record_of_owner owner origin.now (octets_of fields.now) ≡ Err cause) }
{
    let value = read_data(alloc, from_type(fields)?, origin)?;
    Ok(Statement::Record(Record { owner, value }))
}

// A directive, whose word is read without case.
fn read_directive(
    alloc: Global,
    word: &[u8],
    fields: &[&[u8]],
    origin: &Name,
) -> Result<Statement, ZoneCause>
    ensures read { IfOk result (λ statement.
        directive_of word.now origin.now (octets_of fields.now) ≡ Ok statement) }
    ensures refused { IfErr result (λ cause. cause ≢ ZoneCause.Memory
        → directive_of word.now origin.now (octets_of fields.now) ≡ Err cause) }
{
    if word.eq_ignore_ascii_case(b"$ORIGIN") {
        read_origin(alloc, fields, origin)
    } else if word.eq_ignore_ascii_case(b"$TTL") {
        read_ttl_directive(fields)
    } else if word.eq_ignore_ascii_case(b"$INCLUDE") {
        Err(ZoneCause::Include)
    } else if word.eq_ignore_ascii_case(b"$GENERATE") {
        Err(ZoneCause::Generate)
    } else {
        Err(ZoneCause::MissingField)
    }
}

// The new origin of `$ORIGIN`, which is relative to the origin before it (RFC 1035, 5.1).
fn read_origin(alloc: Global, fields: &[&[u8]], origin: &Name) -> Result<Statement, ZoneCause>
    ensures read { IfOk result (λ statement.
        origin_directive origin.now (octets_of fields.now) ≡ Ok statement) }
    ensures refused { IfErr result (λ cause. cause ≢ ZoneCause.Memory
        → origin_directive origin.now (octets_of fields.now) ≡ Err cause) }
{
    Ok(Statement::Origin(last_name(alloc, fields, origin)?))
}

// The ttl of `$TTL` (RFC 2308, 4), which is checked and not kept.
fn read_ttl_directive(fields: &[&[u8]]) -> Result<Statement, ZoneCause>
    ensures { result ≡ ttl_directive (octets_of fields.now) }
{
    let (field, rest) = first_field(fields)?;
    read_ttl(field).ok_or(ZoneCause::BadNumber)?;
    check_end(rest)?;
    Ok(Statement::Ttl)
}

// The fields from the type on, after a ttl and a class in either order, each of which may be
// missing.
fn from_type<'a>(fields: &'a [&'a [u8]]) -> Result<&'a [&'a [u8]], ZoneCause>
    ensures read { IfOk result (λ rest.
        from_type (octets_of fields.now) ≡ Ok (octets_of rest.now)) }
    ensures refused { IfErr result (λ cause. from_type (octets_of fields.now) ≡ Err cause) }
{
    if ttl_is_first(fields) {
        after_class(after_ttl(fields)?)
    } else {
        after_ttl(after_class(fields)?)
    }
}

// Whether a ttl is first: a field that begins with a digit.
fn ttl_is_first(fields: &[&[u8]]) -> bool
    ensures { result ≡ ttl_is_first (octets_of fields.now) }
{
    match fields.first() {
        Some([first, ..]) => first.is_ascii_digit(),
        _ => false,
    }
}

// The fields after a ttl, if one is first.
fn after_ttl<'a>(fields: &'a [&'a [u8]]) -> Result<&'a [&'a [u8]], ZoneCause>
    ensures read { IfOk result (λ rest.
        after_ttl (octets_of fields.now) ≡ Ok (octets_of rest.now)) }
    ensures refused { IfErr result (λ cause. after_ttl (octets_of fields.now) ≡ Err cause) }
{
    if !ttl_is_first(fields) {
        return Ok(fields);
    }
    let (field, rest) = first_field(fields)?;
    read_ttl(field).ok_or(ZoneCause::BadNumber)?;
    Ok(rest)
}

// The fields after a class, if one is first, which is `IN`.
fn after_class<'a>(fields: &'a [&'a [u8]]) -> Result<&'a [&'a [u8]], ZoneCause>
    ensures read { IfOk result (λ rest.
        after_class (octets_of fields.now) ≡ Ok (octets_of rest.now)) }
    ensures refused { IfErr result (λ cause. after_class (octets_of fields.now) ≡ Err cause) }
{
    let Some((field, rest)) = fields.split_first() else {
        return Ok(fields);
    };
    if field.eq_ignore_ascii_case(b"IN") {
        return Ok(rest);
    }
    if is_other_class(field) {
        return Err(ZoneCause::ClassNotIn);
    }
    Ok(fields)
}

// Whether the field is a class other than `IN` (RFC 1035, 3.2.4).
fn is_other_class(field: &[u8]) -> bool
    ensures { result ≡ is_other_class field.now }
{
    field.eq_ignore_ascii_case(b"CH")
        || field.eq_ignore_ascii_case(b"HS")
        || field.eq_ignore_ascii_case(b"CS")
        || is_numbered_class(field)
}

// Whether the field is a class by its number, as `CLASS3` (RFC 3597, 5).
fn is_numbered_class(field: &[u8]) -> bool
    ensures { result ≡ is_numbered_class field.now }
{
    if field.len() <= 5 {
        return false;
    }
    let (word, digits) = field.split_at(5);
    word.eq_ignore_ascii_case(b"CLASS") && are_digits(digits)
}

// Whether the field begins with the `$` of a directive.
pub(crate) fn is_directive(field: &[u8]) -> bool
    ensures { result ≡ is_directive field.now }
{
    matches!(field, [b'$', ..])
}
