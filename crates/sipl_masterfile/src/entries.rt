// The entries of a master file's text (RFC 1035, 5.1).
ghost use Rattle.std.specs.Prelude.{◌≡◌, ◌≢◌, ◌+◌, ◌<◌, ◌≤◌, Bool, [], ◌∷◌, length, Ok, Err, IfOk, IfErr, OnErr, MatchOption};
ghost use Rattle.sipl_names.specs.LabelSlices.{octets_of};
ghost use Rattle.sipl_masterfile.specs.Entries.{entries_at, entries_of, prepend_entry};
ghost use Rattle.sipl_masterfile.specs.Scanning.{begun_at, IsFaulty};

use crate::fault::{ZoneCause, ZoneFault};
use crate::tokens::{Token, is_blank, next_token};
use std::marker::Model;

// A text's entries that have not been read.
#[derive(Debug, Drop)]
pub(crate) struct Entries<'a> {
    rest: &'a [u8],
    // How many line ends come before the rest.
    line_ends: u64,
}

// Where an entry begins: the number of its first line, counted from 1, and whether that line begins
// with a blank.
#[derive(Clone, Copy, Debug, PartialEq, Eq)]
pub(crate) struct EntryHead {
    pub(crate) line: u64,
    pub(crate) is_indented: bool,
}

impl<'a> Model for Entries<'a> {
    ghost use Rattle.std.specs.Prelude.{◌+◌, ◌≤◌, List, length};
    ghost use Rattle.sipl_masterfile.specs.Entries.{Entry, entries_at};

    ghost Value = { List Entry };

    ghost view = { λ e. entries_at (e.line_ends + 1) e.rest.now };

    ghost invariant = { λ e. e.line_ends + length e.rest.now ≤ 18446744073709551615 };
}

impl<'a> Entries<'a> {
    // The entries of a text.
    pub(crate) fn new(text: &'a [u8]) -> Self
        ensures value { result ≡ entries_of text.now }
        ensures few { length result ≤ length text.now }
    {
        Entries {
            rest: text,
            line_ends: 0,
        }
    }

    // Reads the next entry that has fields, and replaces `fields` by them; None where there is none.
    // Linear in the octets that are read.
    pub(crate) fn next_entry(
        &mut self,
        fields: &mut Vec<&'a [u8]>,
    ) -> Result<Option<EntryHead>, ZoneFault>
        ensures read { IfOk result (λ next. MatchOption next (self.old ≡ [])
            (λ head. self.old ≡ record {
              line = head.line;
              is_indented = head.is_indented;
              content = Ok (octets_of fields.new.items);
            } ∷ self.new)) }
        ensures refused { IfErr result
            (λ fault. fault.cause ≢ ZoneCause.Memory → IsFaulty self.old fault) }
        ensures memory { IfErr result (λ fault. fault.cause ≡ ZoneCause.Memory → fault.line ≡ 1) }
    {
        while let Some(first) = self.rest.first() {
            let head = EntryHead {
                line: self.line_ends + 1,
                is_indented: is_blank(*first),
            };
            let (rest, line_ends) = read_fields(self.rest, head.line, fields)?;
            self.rest = rest;
            self.line_ends += line_ends;
            if !fields.is_empty() {
                return Ok(Some(head));
            }
        }
        Ok(None)
    }
}

// Replaces `fields` by those of the text's first entry, which begins in this line, and returns the
// text after it and how many line ends it has.
fn read_fields<'a>(
    text: &'a [u8],
    line: u64,
    fields: &mut Vec<&'a [u8]>,
) -> Result<(&'a [u8], u64), ZoneFault>
    ensures read { IfOk result (λ next. entries_at line text.now
        ≡ prepend_entry (begun_at line text.now fields.new.items)
        (entries_at (line + next.1) next.0.now)) }
    ensures shorter { IfOk result (λ next. next.1 + length next.0.now ≤ length text.now) }
    ensures progress { IfOk result
        (λ next. 0 < length text.now → length next.0.now < length text.now) }
    ensures refused { IfErr result
        (λ fault. fault.cause ≢ ZoneCause.Memory → IsFaulty (entries_at line text.now) fault) }
    ensures memory { IfErr result (λ fault. fault.cause ≡ ZoneCause.Memory → fault.line ≡ 1) }
{
    fields.clear();
    let unbalanced = ZoneFault {
        line,
        cause: ZoneCause::Parenthesis,
    };
    let mut rest = text;
    let mut line_ends = 0;
    let mut depth: usize = 0;
    while let Some((token, tail)) = next_token(rest) {
        rest = tail;
        match token {
            Token::Blank | Token::Comment => {}
            Token::Field(octets) => fields.push(octets)?,
            Token::Opening => depth += 1,
            Token::Closing if depth > 0 => depth -= 1,
            Token::Closing => return Err(unbalanced),
            Token::OpenQuote => return Err(ZoneFault {
                line,
                cause: ZoneCause::OpenQuote,
            }),
            Token::LineEnd => {
                line_ends += 1;
                if depth == 0 {
                    return Ok((rest, line_ends));
                }
            }
        }
    }
    if depth > 0 {
        return Err(unbalanced);
    }
    Ok((rest, line_ends))
}
