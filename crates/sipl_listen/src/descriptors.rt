ghost use Rattle.std.specs.Prelude.{◌≤◌, ◌<◌};

use std::alloc::Global;
use std::fs;
use std::rt::Files;

// How many descriptors are kept at least for what is no client.
const MIN_KEPT: usize = 32;

// How many of them are for files, standard streams and control connections.
const OTHERS: usize = 20;

/// The maximum number of clients at a time: `wanted`, or where that is less, the process's limit of open
/// files less 32, or less 20 and the `listeners`, where these are more; but at least one, if any is wanted.
/// Where the limit can't be read, or there is none, it is `wanted`.
pub fn max_clients<R: Files>(rt: &R, alloc: Global, wanted: usize, listeners: usize) -> usize
    ensures no_more { result ≤ wanted }
    ensures some { 0 < wanted → 0 < result }
{
    let kept = OTHERS.saturating_add(listeners).max(MIN_KEPT);
    match max_open(rt, alloc) {
        Some(limit) => wanted.min(limit.saturating_sub(kept).max(1)),
        None => wanted,
    }
}

// The system's limit of descriptors, if it has one.
fn max_open<R: Files>(rt: &R, alloc: Global) -> Option<usize> {
    let text = fs::read_to_string(&(rt, alloc), "/proc/self/limits").ok()?;
    for line in text.as_str().lines() {
        if let Some(limits) = line.strip_prefix("Max open files") {
            return limits
                .split_ascii_whitespace()
                .next()?
                .parse::<usize>()
                .ok();
        }
    }
    None
}
