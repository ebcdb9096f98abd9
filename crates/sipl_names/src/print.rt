// How a name is printed (RFC 1035, 5.1).
ghost use Rattle.std.specs.Prelude.{◌≡◌, ◌+◌, ◌≤◌, ◌<◌, ◌++◌, length, IsOk, OnOk, vec_len, vec_capacity};
ghost use Rattle.sipl_names.specs.NamePrint.{is_special, printed_octet, printed_label, text_of};
ghost use Rattle.sipl_names.specs.Wire.{IsWire, IsNameWire, labels_of_wire};

use crate::MAX_NAME_TEXT_LEN;
use crate::wire::split_label;
use std::alloc::AllocError;

// Reserves space for the text of the labels. Its octets are counted only where a longer text would
// not fit.
pub(crate) fn reserve_text(out: &mut Vec<u8>, wire: &[u8]) -> Result<(), AllocError>
    requires { IsNameWire wire.now }
    ensures items { out.new.items ≡ out.old.items }
    ensures reserved { OnOk result
        (vec_len out.new + length (text_of (labels_of_wire wire.now)) ≤ vec_capacity out.new) }
    ensures capacity { vec_capacity out.old ≤ vec_capacity out.new }
    ensures succeeds { vec_len out.old + length (text_of (labels_of_wire wire.now))
        ≤ vec_capacity out.old → IsOk result }
{
    if out.capacity() - out.len() >= MAX_NAME_TEXT_LEN {
        return Ok(());
    }
    out.reserve(text_len(wire))
}

// How many octets the text of the labels has.
fn text_len(wire: &[u8]) -> usize
    requires { IsNameWire wire.now }
    ensures { result ≡ length (text_of (labels_of_wire wire.now)) }
{
    if wire.is_empty() {
        return 1;
    }
    let mut len = 0;
    let mut rest = wire;
    while let Some((label, tail)) = split_label(rest) {
        len += label_text_len(label);
        rest = tail;
    }
    len
}

fn label_text_len(label: &[u8]) -> usize
    requires { length label.now < 256 }
    ensures { result ≡ length (printed_label label.now) }
{
    let mut len = 1;
    for octet in label {
        len += octet_text_len(*octet);
    }
    len
}

fn octet_text_len(octet: u8) -> usize
    ensures { result ≡ length (printed_octet octet) }
{
    if !octet.is_ascii_graphic() {
        4
    } else if is_special(octet) {
        2
    } else {
        1
    }
}

// Appends the text of the labels, for which space is reserved.
pub(crate) fn write_text(out: &mut Vec<u8>, wire: &[u8])
    requires wire { IsWire wire.now }
    requires reserved { vec_len out.old + length (text_of (labels_of_wire wire.now))
        ≤ vec_capacity out.old }
    ensures text { out.new.items ≡ out.old.items ++ text_of (labels_of_wire wire.now) }
    ensures capacity { vec_capacity out.new ≡ vec_capacity out.old }
{
    if wire.is_empty() {
        out.push_reserved(b'.');
        return;
    }
    let mut rest = wire;
    while let Some((label, tail)) = split_label(rest) {
        write_label(out, label);
        rest = tail;
    }
}

fn write_label(out: &mut Vec<u8>, label: &[u8])
    requires { vec_len out.old + length (printed_label label.now) ≤ vec_capacity out.old }
    ensures text { out.new.items ≡ out.old.items ++ printed_label label.now }
    ensures capacity { vec_capacity out.new ≡ vec_capacity out.old }
{
    for octet in label {
        write_octet(out, *octet);
    }
    out.push_reserved(b'.');
}

fn write_octet(out: &mut Vec<u8>, octet: u8)
    requires { vec_len out.old + length (printed_octet octet) ≤ vec_capacity out.old }
    ensures text { out.new.items ≡ out.old.items ++ printed_octet octet }
    ensures capacity { vec_capacity out.new ≡ vec_capacity out.old }
{
    if !octet.is_ascii_graphic() {
        out.push_reserved(b'\\');
        out.push_reserved(b'0' + octet / 100);
        out.push_reserved(b'0' + octet / 10 % 10);
        out.push_reserved(b'0' + octet % 10);
        return;
    }
    if is_special(octet) {
        out.push_reserved(b'\\');
    }
    out.push_reserved(octet);
}

// Whether the octet has a meaning of its own in a master file.
fn is_special(octet: u8) -> bool
    ensures { result ≡ is_special octet }
{
    matches!(
        octet,
        b'.' | b'\\' | b'"' | b';' | b'(' | b')' | b'@' | b'$'
    )
}
