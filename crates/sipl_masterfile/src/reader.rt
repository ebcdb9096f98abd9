//! The fields of an entry, read from left to right up to the first cause (RFC 1035, 5.1).
ghost use Rattle.std.specs.Prelude.{◌≡◌, ◌≢◌, [], ◌∷◌, Ok, Err, IfOk, IfErr, MatchOption};
ghost use Rattle.sipl_names.specs.LabelSlices.{octets_of};
ghost use Rattle.sipl_names.specs.NameText.{symbols};
ghost use Rattle.sipl_masterfile.specs.Readers.{first, last, at_end, name_in, number_in, string_of, octets_of_symbols, BeginsWithOctet};

use crate::fault::ZoneCause;
use sipl_names::{InvalidName, Name, read_escape};
use sipl_records::{Boxed, Sequence, read_number};
use std::alloc::Global;

// The maximum number of octets of a character string (RFC 1035, 3.3).
const MAX_STRING_LEN: usize = 255;

// The first field, and the fields after it.
pub(crate) fn first_field<'a>(
    fields: &'a [&'a [u8]],
) -> Result<(&'a [u8], &'a [&'a [u8]]), ZoneCause>
    ensures read { IfOk result (λ next.
        octets_of fields.now ≡ next.0.now ∷ octets_of next.1.now) }
    ensures refused { IfErr result (λ cause.
        (cause ≡ ZoneCause.MissingField) × (octets_of fields.now ≡ [])) }
{
    let (field, rest) = fields.split_first().ok_or(ZoneCause::MissingField)?;
    Ok((*field, rest))
}

// That no field follows.
pub(crate) fn check_end(fields: &[&[u8]]) -> Result<(), ZoneCause>
    ensures { result ≡ at_end (octets_of fields.now) }
{
    if fields.is_empty() {
        Ok(())
    } else {
        Err(ZoneCause::ExtraField)
    }
}

// A number of 16 bits, and the fields after it.
pub(crate) fn first_number<'a>(fields: &'a [&'a [u8]]) -> Result<(u16, &'a [&'a [u8]]), ZoneCause>
    ensures read { IfOk result (λ next.
        first number_in (octets_of fields.now) ≡ Ok (next.0, octets_of next.1.now)) }
    ensures refused { IfErr result (λ cause.
        first number_in (octets_of fields.now) ≡ Err cause) }
{
    let (field, rest) = first_field(fields)?;
    let number = read_number(field, u64::from(u16::MAX)).ok_or(ZoneCause::BadNumber)?;
    Ok((number as u16, rest))
}

// A name relative to the origin, after which no field follows.
pub(crate) fn last_name(alloc: Global, fields: &[&[u8]], origin: &Name) -> Result<Name, ZoneCause>
    ensures read { IfOk result (λ name.
        last (name_in origin.now) (octets_of fields.now) ≡ Ok name) }
    ensures refused { IfErr result (λ cause. cause ≢ ZoneCause.Memory
        → last (name_in origin.now) (octets_of fields.now) ≡ Err cause) }
{
    let (field, rest) = first_field(fields)?;
    let name = Name::from_text(alloc, field, origin)?;
    check_end(rest)?;
    Ok(name)
}

// A character string, and the fields after it.
pub(crate) fn first_string<'a>(
    alloc: Global,
    fields: &'a [&'a [u8]],
) -> Result<(Boxed<Sequence<u8>>, &'a [&'a [u8]]), ZoneCause>
    ensures read { IfOk result (λ next.
        first string_of (octets_of fields.now) ≡ Ok (next.0, octets_of next.1.now)) }
    ensures refused { IfErr result (λ cause. cause ≢ ZoneCause.Memory
        → first string_of (octets_of fields.now) ≡ Err cause) }
{
    let (field, rest) = first_field(fields)?;
    let string = read_string(alloc, field)?;
    let string = Boxed::new(alloc, Sequence::from_vec(string))?;
    Ok((string, rest))
}

// The octets of a character string. A backslash that begins no escape comes before the length.
fn read_string(alloc: Global, text: &[u8]) -> Result<Vec<u8>, ZoneCause>
    ensures read { IfOk result (λ string. string_of text.now ≡ Ok string.items) }
    ensures refused { IfErr result (λ cause. cause ≢ ZoneCause.Memory
        → string_of text.now ≡ Err cause) }
{
    let mut string = Vec::with_capacity(alloc, text.len().min(MAX_STRING_LEN))?;
    let mut is_too_long = false;
    let mut rest = text;
    while let Some((octet, tail)) = next_octet(rest)? {
        if string.len() < MAX_STRING_LEN {
            string.push_reserved(octet);
        } else {
            is_too_long = true;
        }
        rest = tail;
    }
    if is_too_long {
        return Err(ZoneCause::StringTooLong);
    }
    Ok(string)
}

// The first octet of a character string, and the text after it; None at the text's end.
fn next_octet(text: &[u8]) -> Result<Option<(u8, &[u8])>, ZoneCause>
    ensures next { IfOk result
        (λ next. MatchOption next (text.now ≡ [])
        (λ parts. BeginsWithOctet text.now parts.0 parts.1.now)) }
    ensures refused { IfErr result
        (λ cause. (cause ≡ ZoneCause.InName InvalidName.BadEscape)
        × (octets_of_symbols (symbols 0 text.now) ≡ Err cause)) }
{
    let Some((first, tail)) = text.split_first() else {
        return Ok(None);
    };
    if *first != b'\\' {
        return Ok(Some((*first, tail)));
    }
    let (octet, len) = read_escape(tail).ok_or(ZoneCause::InName(InvalidName::BadEscape))?;
    Ok(Some((octet, &tail[len..])))
}
