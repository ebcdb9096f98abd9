//! The thread that claims pages, and writes states.
use crate::daemon::Daemon;
use crate::journal::claims::{Claimed, Claims, archive_page};
use sipl_process::{CloseFault, Host};
use sipl_settings::OnFailure;
use sipl_state::Turned;
use std::fs::File;
use std::rt::Files;
use std::sync::Wait;
use std::time::{Clock, Duration, Instant};

// How long a claim waits for receipts that are on their way, in milliseconds.
const PATIENCE: u64 = 5;

// How long it is until a page is archived again that could not be, in milliseconds, and with how many others
// that wait meanwhile the daemon ends.
const AGAIN: u64 = 1_000;

const MAX_WAITING: usize = 8;

// What is said once that page is archived.
const ARCHIVED: &str = "siplocd: archive: written again";

/// Claims pages until the daemon is to stop. A fault stops it: then the journal is not what callers were
/// told, or a page can't be archived, or the state can't be written, unless it is to go on then.
pub(crate) fn claim_pages<H: Host>(host: &H, daemon: &Daemon, claims: &mut Claims) {
    for _ in host.forever() {
        if daemon.stop.is_asked() {
            break;
        }
        claim_once(host, daemon, claims);
    }
}

/// Claims the pages that were turned, but for those whose receipts are on their way. Where one could not be
/// archived they wait until clients are served, unless too many do.
pub(crate) fn claim_turned<R: Files<File = File> + Wait + Clock>(
    rt: &R,
    daemon: &Daemon,
    claims: &mut Claims,
) {
    for _ in rt.forever() {
        if claims.has_unarchived() && may_wait(rt, daemon) {
            break;
        }
        if let Some(turned) = claims.take_unarchived() {
            keep_or_wait(rt, daemon, claims, turned, true);
            continue;
        }
        match claims.claim_next(rt, &daemon.pages) {
            Ok(Claimed::Page) => keep_claimed(rt, daemon, claims),
            Ok(Claimed::NotYet | Claimed::Nothing) => break,
            Err(fault) => {
                fail(rt, daemon, claims, CloseFault::Claim(fault));
                break;
            }
        }
    }
}

// Tries to claim the next page, and waits where that is not to be claimed yet. A page that could not be
// archived comes before it.
fn claim_once<H: Host>(host: &H, daemon: &Daemon, claims: &mut Claims) {
    if let Some(turned) = claims.take_unarchived() {
        daemon.stop.pause(host, Duration::from_millis(AGAIN));
        keep_or_wait(host, daemon, claims, turned, true);
        return;
    }
    let claimed = claims.claim_next(host, &daemon.pages);
    let waiting = daemon.pages.waiting(host) as u64;
    daemon
        .observed
        .tell_pages(host, daemon.pages.claimed(), waiting);
    match claimed {
        Ok(Claimed::Page) => keep_claimed(host, daemon, claims),
        Ok(Claimed::NotYet) => daemon.stop.pause(host, Duration::from_millis(PATIENCE)),
        Ok(Claimed::Nothing) => daemon.pages.wait_for_page(host),
        Err(fault) => fail(host, daemon, claims, CloseFault::Claim(fault)),
    }
}

// Keeps the page that was claimed.
fn keep_claimed<R: Files<File = File> + Wait + Clock>(
    rt: &R,
    daemon: &Daemon,
    claims: &mut Claims,
) {
    if let Some(turned) = claims.take() {
        keep_or_wait(rt, daemon, claims, turned, false);
    }
}

// Keeps a page that was claimed. Where it can't be archived, and the daemon is to go on then, it is kept
// until that is tried again.
fn keep_or_wait<R: Files<File = File> + Wait + Clock>(
    rt: &R,
    daemon: &Daemon,
    claims: &mut Claims,
    turned: Turned,
    has_waited: bool,
) {
    match keep(rt, daemon, &turned) {
        Ok(()) => {
            use_again(rt, daemon, turned);
            if has_waited {
                daemon.pages.hold_up(false);
                daemon.observed.say(rt, ARCHIVED);
            }
        }
        Err(CloseFault::Archive(error)) if may_wait(rt, daemon) => {
            if !has_waited {
                daemon.observed.say_waiting(rt, &error);
            }
            claims.put_unarchived(turned);
            daemon.pages.hold_up(true);
        }
        Err(fault) => {
            drop(turned);
            fail(rt, daemon, claims, fault);
        }
    }
}

// Whether a page may wait until it can be archived.
fn may_wait<R: Wait>(rt: &R, daemon: &Daemon) -> bool {
    daemon.on_failure == OnFailure::Read && daemon.pages.waiting(rt) < MAX_WAITING
}

// Keeps the space of a page that was claimed and kept.
fn use_again<R: Wait>(rt: &R, daemon: &Daemon, turned: Turned) {
    let Turned { page, .. } = turned;
    daemon.pages.spaces.put_journal(rt, page.into_space());
}

// Keeps a fault, and asks for the stop.
fn fail<R: Files<File = File> + Wait + Clock>(
    rt: &R,
    daemon: &Daemon,
    claims: &mut Claims,
    fault: CloseFault,
) {
    claims.fail(fault);
    daemon.stop.ask(rt);
}

// Archives a page that was claimed, and writes the state after it, if these are to be. Where that fails, and
// the daemon is to go on then, changes are refused only where the log is not as it was.
fn keep<R: Files<File = File> + Wait + Clock>(
    rt: &R,
    daemon: &Daemon,
    turned: &Turned,
) -> Result<(), CloseFault> {
    archive_page(rt, daemon.archive.as_ref(), &turned.page)?;
    let (Some(changes), Some(checkpoint)) = (&daemon.source.changes, turned.checkpoint) else {
        return Ok(());
    };
    let begun = Instant::now(rt).ok();
    match changes.write_state(rt, checkpoint, turned.page.result()) {
        Ok(()) => {
            daemon.observed.tell_state(rt, begun);
            Ok(())
        }
        Err(error) if daemon.on_failure == OnFailure::End => Err(CloseFault::State(error)),
        Err(error) => {
            if !changes.has_failed() {
                daemon.observed.say_going_on(rt, &error);
            }
            Ok(())
        }
    }
}
