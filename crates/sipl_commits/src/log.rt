//! Logs: a head, and commits.
ghost use Rattle.std.specs.Prelude.{◌≡◌, ◌++◌, flat_map, IfErr, IfOk, OnErr, OnOk};
ghost use Rattle.sipl_commits.specs.Commits.{after, one_if_any};
ghost use Rattle.sipl_commits.specs.Logs.{HeadFails, IsChain, IsRead, LogFails, log_head, log_text};

use crate::commit::{Commit, next_commit, write_commit};
use crate::fault::LogFault;
use crate::point::Point;
use crate::seal::{has_line, push_digest, push_number, push_seal};
use crate::state::CHECKPOINT_START;
use crate::tail::has_other;
use std::alloc::{AllocError, Global};

// How the head of a log begins, and its length without its own digest.
const HEAD_START: &[u8] = b"siplocd log 2 ";

const HEAD_LEN: usize = 96;

/// A log that was read.
#[derive(Drop)]
pub struct Log<'a> {
    /// The commits, each after the one before it.
    pub commits: Vec<Commit<'a>>,
    /// The point after them.
    pub last: Point,
    /// What a write left that did not end.
    pub tail: &'a [u8],
}

impl Log<'_> {
    /// The changes of all commits, in their order.
    pub fn changes(&self, alloc: Global) -> Result<Vec<u8>, AllocError>
        ensures { IfOk result (λ changes. changes.items
            ≡ flat_map (λ commit. commit.body.now) self.now.commits.items) }
    {
        let mut changes = Vec::new(alloc);
        for commit in &self.commits {
            changes.extend_from_slice(commit.body)?;
        }
        Ok(changes)
    }
}

/// Appends the head of a log whose first commit follows this point. The only error is an allocation
/// failure, and leaves `out` as it was.
pub fn write_head(alloc: Global, out: &mut Vec<u8>, point: &Point) -> Result<(), AllocError>
    ensures text { OnOk result (out.new.items ≡ out.old.items ++ log_head point.now) }
    ensures same { OnErr result (out.new.items ≡ out.old.items) }
{
    let head = head_of(alloc, point)?;
    out.extend_from_slice(&head)
}

/// The octets of a log whose first commit follows this point, with changes in one commit, if there are any;
/// and the point after that. The only error is an allocation failure.
pub fn log_of(alloc: Global, point: &Point, changes: &[u8]) -> Result<(Vec<u8>, Point), AllocError>
    ensures text { IfOk result (λ made.
        made.0.items ≡ log_text point.now (one_if_any changes.now)) }
    ensures last { IfOk result (λ made. made.1 ≡ after point.now (one_if_any changes.now)) }
{
    let mut text = head_of(alloc, point)?;
    if changes.is_empty() {
        return Ok((text, *point));
    }
    let last = write_commit(alloc, &mut text, point, changes)?;
    Ok((text, last))
}

/// Reads a log after a point: all of a commit or nothing of it.
pub fn read_log<'a>(alloc: Global, octets: &'a [u8], point: &Point) -> Result<Log<'a>, LogFault>
    ensures read { IfOk result (λ log. IsRead octets.now point.now log) }
    ensures fault { IfErr result (λ fault. LogFails fault octets.now point.now) }
{
    let commits = after_head(alloc, octets, point)?;
    let log = read_commits(alloc, commits, point)?;
    if has_other(alloc, log.tail, log.last.number)? {
        return Err(LogFault::Commit(octets.len() - log.tail.len()));
    }
    Ok(log)
}

// The octets after the head of a log.
fn after_head<'a>(alloc: Global, octets: &'a [u8], point: &Point) -> Result<&'a [u8], LogFault>
    ensures head { IfOk result (λ rest. octets.now ≡ log_head point.now ++ rest.now) }
    ensures fault { IfErr result (λ fault. HeadFails fault octets.now point.now) }
{
    let head = head_of(alloc, point)?;
    if let Some(rest) = octets.strip_prefix(head.as_slice()) {
        return Ok(rest);
    }
    if octets.starts_with(CHECKPOINT_START) {
        return Err(LogFault::FirstFormat);
    }
    if has_line(alloc, octets, HEAD_START, HEAD_LEN)? {
        return Err(LogFault::OtherState);
    }
    Err(LogFault::Head)
}

// The head of a log whose first commit follows this point.
#[tactic(auto, unfolding(crate::specs::Logs::head_text))]
fn head_of(alloc: Global, point: &Point) -> Result<Vec<u8>, AllocError>
    ensures { IfOk result (λ head. head.items ≡ log_head point.now) }
{
    let mut head = Vec::from_slice(alloc, HEAD_START)?;
    push_number(alloc, &mut head, point.number)?;
    head.push(b' ')?;
    push_digest(alloc, &mut head, &point.digest)?;
    head.push(b' ')?;
    push_seal(alloc, &mut head)?;
    Ok(head)
}

// Reads commits after a point, up to where none is whole.
fn read_commits<'a>(alloc: Global, text: &'a [u8], point: &Point) -> Result<Log<'a>, AllocError>
    ensures { IfOk result (λ log. IsChain text.now point.now log) }
{
    let mut commits = Vec::new(alloc);
    let mut last = *point;
    let mut tail = text;
    while let Some((commit, rest)) = next_commit(alloc, tail, &last)? {
        commits.push(commit)?;
        last = commit.point;
        tail = rest;
    }
    Ok(Log {
        commits,
        last,
        tail,
    })
}
