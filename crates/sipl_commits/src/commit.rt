//! Commits: each is a line and a body.
ghost use Rattle.std.specs.Prelude.{◌≡◌, ℕ, ◌<◌, ◌^◌, ◌++◌, IfOk, IfSome, OnOk, OnErr};
ghost use Rattle.std.specs.Prelude.{MatchOption, Some};
ghost use Rattle.sipl_commits.specs.Commits.{IsCut, IsNext, line_start, line_text, next_point, written};
ghost use Rattle.sipl_commits.specs.Seals.{Octets, number_text, sealed};
ghost use Rattle.sipl_commits.specs.Tails.{HasNoNext};
ghost use Rattle.sipl_commits.specs.declared.point.Point.{Point};

use crate::point::Point;
use crate::seal::{SEAL_LEN, push_digest, push_number, push_seal};
use std::alloc::{AllocError, Global};

/// The length of a commit's line, without its own digest.
pub(crate) const TEXT_LEN: usize = 107;

/// The length of a commit's line.
pub(crate) const LINE_LEN: usize = TEXT_LEN + SEAL_LEN;

// Where the length of the body is in a commit's line.
const LEN_START: usize = 25;

const LEN_END: usize = 41;

/// How a commit's line begins.
pub(crate) const LINE_START: &[u8] = b"\tcommit ";

/// A commit that was read: its body, and the point after it.
#[derive(Clone, Copy, Debug)]
pub struct Commit<'a> {
    /// The body.
    pub body: &'a [u8],
    /// The point after it.
    pub point: Point,
}

/// Appends a commit of this body after a point, and returns the point after it. The only error is an
/// allocation failure, and leaves `out` as it was.
pub fn write_commit(
    alloc: Global,
    out: &mut Vec<u8>,
    point: &Point,
    body: &[u8],
) -> Result<Point, AllocError>
    ensures text { OnOk result (out.new.items ≡ out.old.items ++ written point.now body.now) }
    ensures point { IfOk result (λ next. next ≡ next_point point.now body.now) }
    ensures same { OnErr result (out.new.items ≡ out.old.items) }
{
    let next = point.next(body);
    let mut text = line_of(alloc, &next, body.len())?;
    text.extend_from_slice(body)?;
    out.extend_from_slice(&text)?;
    Ok(next)
}

// The line of a commit with this point after it, and a body of this length.
fn line_of(alloc: Global, point: &Point, len: usize) -> Result<Vec<u8>, AllocError>
    ensures { IfOk result (λ line. line.items ≡ sealed (line_text point.now len)) }
{
    let mut line = line_text(alloc, point, len)?;
    push_seal(alloc, &mut line)?;
    Ok(line)
}

// That line without its own digest.
#[tactic(auto, unfolding(crate::specs::Commits::line_text))]
fn line_text(alloc: Global, point: &Point, len: usize) -> Result<Vec<u8>, AllocError>
    ensures { IfOk result (λ line. line.items ≡ line_text point.now len) }
{
    let mut line = line_start(alloc, point.number)?;
    line.push(b' ')?;
    push_number(alloc, &mut line, len as u64)?;
    line.push(b' ')?;
    push_digest(alloc, &mut line, &point.digest)?;
    line.push(b' ')?;
    Ok(line)
}

/// The start of a commit's line, with its number.
#[tactic(auto, unfolding(crate::specs::Commits::line_start))]
pub(crate) fn line_start(alloc: Global, number: u64) -> Result<Vec<u8>, AllocError>
    ensures { IfOk result (λ line. line.items ≡ line_start number) }
{
    let mut line = Vec::from_slice(alloc, LINE_START)?;
    push_number(alloc, &mut line, number)?;
    Ok(line)
}

/// The commit after a point that a text begins with whole, and the text after it.
pub(crate) fn next_commit<'a>(
    alloc: Global,
    text: &'a [u8],
    point: &Point,
) -> Result<Option<(Commit<'a>, &'a [u8])>, AllocError>
    ensures { IfOk result (λ found. MatchOption found (HasNoNext point.now text.now)
        (λ next. IsNext text.now point.now next.0 next.1.now)) }
{
    let Some((body, rest)) = split_body(text) else {
        return Ok(None);
    };
    let next = point.next(body);
    let line = line_of(alloc, &next, body.len())?;
    if text.starts_with(&line) {
        Ok(Some((Commit { body, point: next }, rest)))
    } else {
        Ok(None)
    }
}

// The body of the commit that a text begins with, by the length in its line, and the text after it.
fn split_body(text: &[u8]) -> Option<(&[u8], &[u8])>
    ensures cut { IfSome result (λ found. IsCut text.now found.0.now found.1.now) }
    ensures only { (p : Point) (body rest : Octets) → text.now ≡ written p body ++ rest
        → MatchOption result ⊥ (λ found. (found.0.now ≡ body) × (found.1.now ≡ rest)) }
{
    if text.len() < LINE_LEN {
        return None;
    }
    let (line, rest) = text.split_at(LINE_LEN);
    rest.split_at_checked(read_number(&line[LEN_START..LEN_END])?)
}

// A number of 16 hexadecimal digits.
fn read_number(digits: &[u8]) -> Option<usize>
    ensures { (n : ℕ) → n < 2 ^ 64 → digits.now ≡ number_text n → result ≡ Some n }
{
    let mut octets = [0; 8];
    hex::decode_to_slice(digits, &mut octets).ok()?;
    usize::try_from(u64::from_be_bytes(octets)).ok()
}
