//! The thread that writes the log of a state anew where changes could not be written, if the daemon is to go
//! on then.
use crate::daemon::Daemon;
use sipl_process::Host;
use sipl_state::Changes;
use std::time::Duration;

// How often it tries, in milliseconds.
const PAUSE: u64 = 1_000;

// What is said once changes can be written.
const MENDED: &str = "siplocd: state: written again, changes are accepted";

/// Looks each second whether changes could not be written, and writes the log anew then, until the daemon is
/// to stop.
pub(crate) fn mend_changes<H: Host>(host: &H, daemon: &Daemon) {
    let Some(changes) = &daemon.source.changes else {
        return;
    };
    let mut is_told = false;
    for _ in host.forever() {
        if daemon.stop.is_asked() {
            break;
        }
        is_told = mend_once(host, daemon, changes, is_told);
        daemon.stop.pause(host, Duration::from_millis(PAUSE));
    }
}

// Tries once, where that is to be. A failure is told once, and so is its end. Returns whether one is told
// that has not ended.
fn mend_once<H: Host>(host: &H, daemon: &Daemon, changes: &Changes, is_told: bool) -> bool {
    if !changes.has_failed() {
        return false;
    }
    if let (false, Err(error)) = (is_told, changes.check(host)) {
        daemon.observed.say_refusing(host, &error);
    }
    match changes.mend(host) {
        Ok(()) => {
            daemon.observed.say(host, MENDED);
            false
        }
        Err(_) => true,
    }
}
