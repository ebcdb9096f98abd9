//! The line that ends a text: its digest.
ghost use Rattle.std.specs.Prelude.{◌≡◌, ◌++◌, IfOk, OnOk};
ghost use Rattle.std.specs.Bool.{Decides};
ghost use Rattle.sipl_commits.specs.Seals.{Begins, HasLine, digest_text, number_text, seal_line, seal_of, sealed};
ghost use Rattle.sha2.specs.Sha256.{sha256};

use sha2::{Digest, Sha256};
use std::alloc::{AllocError, Global};

/// The length of the line with a digest.
pub(crate) const SEAL_LEN: usize = 72;

/// The line with a digest.
#[tactic(auto, unfolding(crate::specs::Seals::seal_line))]
pub(crate) fn seal_line(alloc: Global, digest: &[u8; 32]) -> Result<Vec<u8>, AllocError>
    ensures { IfOk result (λ line. line.items ≡ seal_line digest.now) }
{
    let mut line = Vec::from_slice(alloc, b"sha256 ")?;
    push_digest(alloc, &mut line, digest)?;
    line.push(b'\n')?;
    Ok(line)
}

/// Whether a text begins with a line of this start, this long without its own digest, which it has.
pub(crate) fn has_line(
    alloc: Global,
    text: &[u8],
    start: &[u8],
    len: usize,
) -> Result<bool, AllocError>
    ensures { IfOk result (λ has. Decides has (HasLine start.now len text.now)) }
{
    let Some((line, rest)) = text.split_at_checked(len) else {
        return Ok(false);
    };
    if !line.starts_with(start) {
        return Ok(false);
    }
    begins_with_seal(alloc, rest, line)
}

// Whether a text begins with the line with the digest of the one before it.
fn begins_with_seal(alloc: Global, text: &[u8], before: &[u8]) -> Result<bool, AllocError>
    ensures { IfOk result (λ does. Decides does (Begins text.now (seal_of before.now))) }
{
    let line = seal_line(alloc, &Sha256::digest(before))?;
    Ok(text.starts_with(&line))
}

/// Appends the line with the digest of a text to it. Returns the digest.
pub(crate) fn push_seal(alloc: Global, text: &mut Vec<u8>) -> Result<[u8; 32], AllocError>
    ensures text { OnOk result (text.new.items ≡ sealed text.old.items) }
    ensures digest { IfOk result (λ digest. digest ≡ sha256 text.old.items) }
{
    let digest = Sha256::digest(text.as_slice());
    let line = seal_line(alloc, &digest)?;
    text.extend_from_slice(&line)?;
    Ok(digest)
}

/// Appends a digest, in hexadecimal digits.
#[tactic(auto, unfolding(crate::specs::Seals::digest_text))]
pub(crate) fn push_digest(
    alloc: Global,
    out: &mut Vec<u8>,
    digest: &[u8; 32],
) -> Result<(), AllocError>
    ensures { OnOk result (out.new.items ≡ out.old.items ++ digest_text digest.now) }
{
    let digits = hex::encode(alloc, digest.as_slice())?;
    out.extend_from_slice(digits.as_bytes())
}

/// Appends a number, in hexadecimal digits.
#[tactic(auto, unfolding(crate::specs::Seals::number_text, crate::specs::Seals::number_octets))]
pub(crate) fn push_number(alloc: Global, out: &mut Vec<u8>, number: u64) -> Result<(), AllocError>
    ensures { OnOk result (out.new.items ≡ out.old.items ++ number_text number) }
{
    let octets = number.to_be_bytes();
    let digits = hex::encode(alloc, octets.as_slice())?;
    out.extend_from_slice(digits.as_bytes())
}
