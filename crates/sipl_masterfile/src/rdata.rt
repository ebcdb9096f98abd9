//! The types of records and their data (RFC 1035, 5.1), read and printed.
ghost use Rattle.std.specs.Prelude.{◌≡◌, ◌≢◌, ◌++◌, Ok, Err, decimal, IfOk, IfErr, OnOk};
ghost use Rattle.std.specs.List.{list_all};
ghost use Rattle.std.specs.Str.{str_eq_ignore_ascii_case};
ghost use Rattle.sipl_names.specs.LabelSlices.{octets_of};
ghost use Rattle.sipl_names.specs.NamePrint.{is_special, printed_octet, text_of};
ghost use Rattle.sipl_records.specs.Addresses.{text_of_address};
ghost use Rattle.sipl_records.specs.Kinds.{text_of_kind};
ghost use Rattle.sipl_masterfile.specs.Rdata.{data_of, data_of_kind, address4_data, address6_data, alias_data, service_data, pointer_data, kind_of_type, is_numbered_kind, are_generic, is_type, is_type_octet};
ghost use Rattle.sipl_masterfile.specs.RecordPrint.{data_text, spaced_field, string_field};

use crate::fault::ZoneCause;
use crate::reader::{check_end, first_field, first_number, first_string, last_name};
use sipl_names::{Name, begins_with_letter};
use sipl_records::{Address, Boxed, Data, Ipv6Address, Kind, read_ipv4, read_ipv6};
use std::alloc::{AllocError, Global};

// The data of the fields from the type on.
pub(crate) fn read_data(alloc: Global, fields: &[&[u8]], origin: &Name) -> Result<Data, ZoneCause>
    ensures read { IfOk result (λ value.
        data_of origin.now (octets_of fields.now) ≡ Ok value) }
    ensures refused { IfErr result (λ cause. cause ≢ ZoneCause.Memory
        → data_of origin.now (octets_of fields.now) ≡ Err cause) }
{
    let (word, fields) = first_field(fields)?;
    if !is_type(word) {
        return Err(ZoneCause::MissingField);
    }
    match kind_of_type(word) {
        Some(_) if are_generic(fields) => Err(ZoneCause::GenericForm),
        Some(kind) => read_kind(alloc, kind, fields, origin),
        None if is_numbered_kind(word) => Err(ZoneCause::GenericForm),
        None => Ok(Data::Bare),
    }
}

// The data of a kind.
fn read_kind(alloc: Global, kind: Kind, fields: &[&[u8]], origin: &Name) -> Result<Data, ZoneCause>
    ensures read { IfOk result (λ value.
        data_of_kind kind origin.now (octets_of fields.now) ≡ Ok value) }
    ensures refused { IfErr result (λ cause. cause ≢ ZoneCause.Memory
        → data_of_kind kind origin.now (octets_of fields.now) ≡ Err cause) }
{
    match kind {
        Kind::Address4 => read_address4(fields),
        Kind::Address6 => read_address6(fields),
        Kind::Alias => read_alias(alloc, fields, origin),
        Kind::Service => read_service(alloc, fields, origin),
        Kind::Pointer => read_pointer(alloc, fields, origin),
        Kind::Exists => Ok(Data::Bare),
    }
}

// An IPv4 address (RFC 1035, 3.4.1).
fn read_address4(fields: &[&[u8]]) -> Result<Data, ZoneCause>
    ensures { result ≡ address4_data (octets_of fields.now) }
{
    let (field, rest) = first_field(fields)?;
    let address = read_ipv4(field)?;
    check_end(rest)?;
    Ok(Data::Address4(address))
}

// An IPv6 address (RFC 3596, 2.2).
fn read_address6(fields: &[&[u8]]) -> Result<Data, ZoneCause>
    ensures { result ≡ address6_data (octets_of fields.now) }
{
    let (field, rest) = first_field(fields)?;
    let address = read_ipv6(field)?;
    check_end(rest)?;
    Ok(Data::Address6(Ipv6Address::from_number(address)))
}

// The canonical name of an alias (RFC 1035, 3.3.1).
fn read_alias(alloc: Global, fields: &[&[u8]], origin: &Name) -> Result<Data, ZoneCause>
    ensures read { IfOk result (λ value.
        alias_data origin.now (octets_of fields.now) ≡ Ok value) }
    ensures refused { IfErr result (λ cause. cause ≢ ZoneCause.Memory
        → alias_data origin.now (octets_of fields.now) ≡ Err cause) }
{
    Ok(Data::Alias(last_name(alloc, fields, origin)?))
}

// A server of a service (RFC 2782).
fn read_service(alloc: Global, fields: &[&[u8]], origin: &Name) -> Result<Data, ZoneCause>
    ensures read { IfOk result (λ value.
        service_data origin.now (octets_of fields.now) ≡ Ok value) }
    ensures refused { IfErr result (λ cause. cause ≢ ZoneCause.Memory
        → service_data origin.now (octets_of fields.now) ≡ Err cause) }
{
    let (priority, rest) = first_number(fields)?;
    let (weight, rest) = first_number(rest)?;
    let (port, rest) = first_number(rest)?;
    let target = last_name(alloc, rest, origin)?;
    Ok(Data::Service {
        priority,
        weight,
        port,
        target,
    })
}

// A pointer to a domain's services (RFC 3403, 4.1).
fn read_pointer(alloc: Global, fields: &[&[u8]], origin: &Name) -> Result<Data, ZoneCause>
    ensures read { IfOk result (λ value.
        pointer_data origin.now (octets_of fields.now) ≡ Ok value) }
    ensures refused { IfErr result (λ cause. cause ≢ ZoneCause.Memory
        → pointer_data origin.now (octets_of fields.now) ≡ Err cause) }
{
    let (order, rest) = first_number(fields)?;
    let (preference, rest) = first_number(rest)?;
    let (flags, rest) = first_string(alloc, rest)?;
    let (services, rest) = first_string(alloc, rest)?;
    let (regexp, rest) = first_string(alloc, rest)?;
    let replacement = Boxed::new(alloc, last_name(alloc, rest, origin)?)?;
    Ok(Data::Pointer {
        order,
        preference,
        flags,
        services,
        regexp,
        replacement,
    })
}

// Appends the type and the data of a record, each field after a space. Data of which nothing is kept
// are of type `NULL` (RFC 1035, 3.3.10).
pub(crate) fn write_data(alloc: Global, out: &mut Vec<u8>, data: &Data) -> Result<(), AllocError>
    ensures { OnOk result (out.new.items ≡ out.old.items ++ data_text «data».now) }
{
    match data {
        Data::Address4(number) => {
            write_kind(out, Kind::Address4)?;
            write_address(out, Address::V4(*number))
        }
        Data::Address6(address) => {
            write_kind(out, Kind::Address6)?;
            write_address(out, Address::V6(address.number()))
        }
        Data::Alias(target) => {
            write_kind(out, Kind::Alias)?;
            write_name(out, target)
        }
        Data::Service {
            priority,
            weight,
            port,
            target,
        } => {
            write_kind(out, Kind::Service)?;
            write_number(alloc, out, u64::from(*priority))?;
            write_number(alloc, out, u64::from(*weight))?;
            write_number(alloc, out, u64::from(*port))?;
            write_name(out, target)
        }
        Data::Pointer {
            order,
            preference,
            flags,
            services,
            regexp,
            replacement,
        } => {
            write_kind(out, Kind::Pointer)?;
            write_number(alloc, out, u64::from(*order))?;
            write_number(alloc, out, u64::from(*preference))?;
            write_strings(
                out,
                flags.get().as_slice(),
                services.get().as_slice(),
                regexp.get().as_slice(),
            )?;
            write_name(out, replacement.get())
        }
        Data::Bare => out.extend_from_slice(b" NULL"),
    }
}

// Appends a space and the mnemonic of a kind.
fn write_kind(out: &mut Vec<u8>, kind: Kind) -> Result<(), AllocError>
    ensures { OnOk result (out.new.items ≡ out.old.items ++ spaced_field (text_of_kind kind)) }
{
    out.push(b' ')?;
    out.extend_from_slice(kind.name().as_bytes())
}

// Appends a space and an address.
fn write_address(out: &mut Vec<u8>, address: Address) -> Result<(), AllocError>
    ensures { OnOk result (out.new.items ≡ out.old.items ++ spaced_field (text_of_address address)) }
{
    out.push(b' ')?;
    address.write(out)
}

// Appends a space and a number.
fn write_number(alloc: Global, out: &mut Vec<u8>, number: u64) -> Result<(), AllocError>
    ensures { OnOk result (out.new.items ≡ out.old.items ++ spaced_field (decimal number)) }
{
    let text = format!(in alloc; " {number}")?;
    out.extend_from_slice(text.as_bytes())
}

// Appends a space and a name.
fn write_name(out: &mut Vec<u8>, name: &Name) -> Result<(), AllocError>
    ensures { OnOk result (out.new.items ≡ out.old.items ++ spaced_field (text_of name.now)) }
{
    out.push(b' ')?;
    name.write(out)
}

// Appends three character strings.
fn write_strings(
    out: &mut Vec<u8>,
    first: &[u8],
    second: &[u8],
    third: &[u8],
) -> Result<(), AllocError>
    ensures { OnOk result (out.new.items ≡ out.old.items
        ++ (string_field first.now ++ string_field second.now ++ string_field third.now)) }
{
    write_string(out, first)?;
    write_string(out, second)?;
    write_string(out, third)
}

// Appends a space and a character string in quotes.
fn write_string(out: &mut Vec<u8>, octets: &[u8]) -> Result<(), AllocError>
    ensures { OnOk result (out.new.items ≡ out.old.items ++ string_field octets.now) }
{
    out.extend_from_slice(b" \"")?;
    for octet in octets {
        write_octet(out, *octet)?;
    }
    out.push(b'"')?;
    Ok(())
}

// Appends an octet of a character string, with the escapes of names.
fn write_octet(out: &mut Vec<u8>, octet: u8) -> Result<(), AllocError>
    ensures { OnOk result (out.new.items ≡ out.old.items ++ printed_octet octet) }
{
    if !octet.is_ascii_graphic() {
        out.push(b'\\')?;
        out.push(b'0' + octet / 100)?;
        out.push(b'0' + octet / 10 % 10)?;
        out.push(b'0' + octet % 10)?;
        return Ok(());
    }
    if is_special(octet) {
        out.push(b'\\')?;
    }
    out.push(octet)?;
    Ok(())
}

// Whether the octet has a meaning of its own in a master file.
fn is_special(octet: u8) -> bool
    ensures { result ≡ is_special octet }
{
    matches!(
        octet,
        b'.' | b'\\' | b'"' | b';' | b'(' | b')' | b'@' | b'$'
    )
}

// The kind whose mnemonic is this type, in either case.
fn kind_of_type(word: &[u8]) -> Option<Kind>
    ensures { result ≡ kind_of_type word.now }
{
    if is_mnemonic(word, Kind::Address4) {
        Some(Kind::Address4)
    } else if is_mnemonic(word, Kind::Address6) {
        Some(Kind::Address6)
    } else if is_mnemonic(word, Kind::Alias) {
        Some(Kind::Alias)
    } else if is_mnemonic(word, Kind::Service) {
        Some(Kind::Service)
    } else if is_mnemonic(word, Kind::Pointer) {
        Some(Kind::Pointer)
    } else {
        None
    }
}

// Whether a type is the mnemonic of a kind, in either case.
fn is_mnemonic(word: &[u8], kind: Kind) -> bool
    ensures { result ≡ str_eq_ignore_ascii_case word.now (text_of_kind kind) }
{
    word.eq_ignore_ascii_case(kind.name().as_bytes())
}

// Whether the type is that of a kind by its number (RFC 3597, 5).
fn is_numbered_kind(word: &[u8]) -> bool
    ensures { result ≡ is_numbered_kind word.now }
{
    word.eq_ignore_ascii_case(b"TYPE1")
        || word.eq_ignore_ascii_case(b"TYPE5")
        || word.eq_ignore_ascii_case(b"TYPE28")
        || word.eq_ignore_ascii_case(b"TYPE33")
        || word.eq_ignore_ascii_case(b"TYPE35")
}

// Whether the data are of the generic form, which begins with `\#` (RFC 3597, 5).
fn are_generic(fields: &[&[u8]]) -> bool
    ensures { result ≡ are_generic (octets_of fields.now) }
{
    match fields.first() {
        Some(field) => *field == b"\\#".as_slice(),
        None => false,
    }
}

// Whether the field is a type: a letter, and then letters, digits and hyphens.
fn is_type(field: &[u8]) -> bool
    ensures { result ≡ is_type field.now }
{
    begins_with_letter(field) && has_type_octets(field)
}

// Whether a type can have each of the octets.
fn has_type_octets(field: &[u8]) -> bool
    ensures { result ≡ list_all is_type_octet field.now }
{
    field.iter().all(|octet| is_type_octet(*octet))
}

// Whether a type can have the octet after its first letter.
fn is_type_octet(octet: u8) -> bool
    ensures { result ≡ is_type_octet octet }
{
    octet.is_ascii_alphanumeric() || octet == b'-'
}
