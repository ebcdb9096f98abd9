// A name's text in a master file (RFC 1035, 5.1).
ghost use Rattle.std.specs.Prelude.{◌≡◌, ◌+◌, ◌-◌, ◌<◌, ◌≤◌, [], length, drop, None, Some, IfOk, IfErr, MatchOption, MatchResult, OnOk, slice_set};
ghost use Rattle.sipl_names.specs.Labels.{label_fault};
ghost use Rattle.sipl_names.specs.NameText.{symbols, labels_from};
ghost use Rattle.sipl_names.specs.Reading.{Spells, BeginsWith, IsBadEscape};
ghost use Rattle.smallvec.specs.SmallVec.{small_vec_len};

use crate::escape::read_escape;
use crate::fault::InvalidName;
use crate::wire::{WireBuf, check_label};

// An octet of a label, or the dot that ends a label.
#[derive(Clone, Copy)]
pub(crate) enum Token {
    Octet(u8),
    Dot,
}

// Appends the wire form of the labels of a text, in lower case, to an empty `wire` that has the
// capacity for it, and returns whether the name is absolute: a dot ends the text.
pub(crate) fn read_labels(wire: &mut WireBuf, text: &[u8]) -> Result<bool, InvalidName>
    requires empty { wire.old.items ≡ [] }
    requires reserved { length text.now + 1 ≤ wire.old.capacity }
    ensures read { IfOk result (λ is_absolute. Spells text.now wire.new.items is_absolute) }
    ensures refused { IfErr result (λ fault. labels_from [] (symbols 0 text.now) ≡ Err fault) }
{
    // Where the length of the current label is: it is written when the label ends.
    let mut start = 0;
    wire.push_reserved(0);
    let mut rest = text;
    while let Some((token, tail)) = next_token(rest)? {
        match token {
            Token::Octet(octet) => wire.push_reserved(octet.to_ascii_lowercase()),
            Token::Dot => {
                end_label(wire, start)?;
                if tail.is_empty() {
                    return Ok(true);
                }
                start = wire.len();
                wire.push_reserved(0);
            }
        }
        rest = tail;
    }
    end_label(wire, start)?;
    Ok(false)
}

// The first octet or dot, and the text after it; None at the text's end.
fn next_token(text: &[u8]) -> Result<Option<(Token, &[u8])>, InvalidName>
    ensures next { IfOk result
        (λ next. MatchOption next (text.now ≡ [])
        (λ parts. BeginsWith text.now parts.0 parts.1.now)) }
    ensures refused { IfErr result (λ fault. IsBadEscape text.now fault) }
{
    let Some((first, tail)) = text.split_first() else {
        return Ok(None);
    };
    match first {
        b'.' => Ok(Some((Token::Dot, tail))),
        b'\\' => {
            let (octet, len) = read_escape(tail).ok_or(InvalidName::BadEscape)?;
            Ok(Some((Token::Octet(octet), &tail[len..])))
        }
        octet => Ok(Some((Token::Octet(*octet), tail))),
    }
}

// Ends the label whose length belongs at `start`.
fn end_label(wire: &mut WireBuf, start: usize) -> Result<(), InvalidName>
    requires { start < small_vec_len wire.old }
    ensures fault { MatchResult result
        (λ _. label_fault (drop (start + 1) wire.old.items) ≡ None)
        (λ fault. label_fault (drop (start + 1) wire.old.items) ≡ Some fault) }
    ensures length_written { OnOk result
        (wire.new.items ≡ slice_set wire.old.items start (small_vec_len wire.old - (start + 1))) }
    ensures capacity { wire.new.capacity ≡ wire.old.capacity }
{
    check_label(&wire[start + 1..])?;
    wire[start] = (wire.len() - (start + 1)) as u8;
    Ok(())
}
