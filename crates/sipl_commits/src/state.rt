//! States: a line with the format, a body, and a line with their digest.
ghost use Rattle.std.specs.Prelude.{◌≡◌, ◌≢◌, ◌++◌, IfErr, IfOk, IfNone, IfSome, OnErr, OnOk};
ghost use Rattle.sipl_commits.specs.Seals.{HasParts, Octets, sealed};
ghost use Rattle.sipl_commits.specs.States.{IsState, StateFails, state_digest, state_text};

use crate::fault::StateFault;
use crate::seal::{SEAL_LEN, push_seal, seal_line};
use sha2::{Digest, Sha256};
use std::alloc::{AllocError, Global};

/// How a file of the first format begins.
pub(crate) const CHECKPOINT_START: &[u8] = b"# page ";

// The first line of a state.
const STATE_LINE: &[u8] = b"siplocd state 2\n";

/// A state that was read.
#[derive(Clone, Copy, Debug)]
pub struct State<'a> {
    /// Its lines.
    pub body: &'a [u8],
    /// Its digest.
    pub digest: [u8; 32],
}

/// Appends a state of this body. Returns its digest. The only error is an allocation failure, and leaves
/// `out` as it was.
pub fn write_state(alloc: Global, out: &mut Vec<u8>, body: &[u8]) -> Result<[u8; 32], AllocError>
    ensures text { OnOk result (out.new.items ≡ out.old.items ++ state_text body.now) }
    ensures digest { IfOk result (λ digest. digest ≡ state_digest body.now) }
    ensures same { OnErr result (out.new.items ≡ out.old.items) }
{
    let mut text = Vec::from_slice(alloc, STATE_LINE)?;
    text.extend_from_slice(body)?;
    let digest = push_seal(alloc, &mut text)?;
    out.extend_from_slice(&text)?;
    Ok(digest)
}

/// Reads a state, all of it or nothing.
pub fn read_state(alloc: Global, octets: &[u8]) -> Result<State<'_>, StateFault>
    ensures read { IfOk result (λ state. IsState octets.now state) }
    ensures fault { IfErr result (λ fault. StateFails fault octets.now) }
{
    if octets.starts_with(CHECKPOINT_START) {
        return Err(StateFault::FirstFormat);
    }
    if !octets.starts_with(STATE_LINE) {
        return Err(StateFault::Format);
    }
    let Some((text, line)) = split_seal(octets) else {
        return Err(StateFault::Digest);
    };
    let Some(body) = text.strip_prefix(STATE_LINE) else {
        return Err(StateFault::Digest);
    };
    let digest = Sha256::digest(text);
    if seal_line(alloc, &digest)?.as_slice() == line {
        Ok(State { body, digest })
    } else {
        Err(StateFault::Digest)
    }
}

// A text without its last octets, which may be its digest, and these.
fn split_seal(text: &[u8]) -> Option<(&[u8], &[u8])>
    ensures cut { IfSome result (λ parts. HasParts text.now parts.0.now parts.1.now) }
    ensures short { IfNone result ((before : Octets) → text.now ≢ sealed before) }
{
    let len = text.len().checked_sub(SEAL_LEN)?;
    Some(text.split_at(len))
}
