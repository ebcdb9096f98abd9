//! The end of a daemon: its service is closed, all pages are claimed, and the state is written.
use crate::daemon::Daemon;
use crate::journal::claims::Claims;
use crate::journal::pages::Pages;
use sipl_archive::Archive;
use sipl_book::Page;
use sipl_observed::Observed;
use sipl_process::CloseFault;
use sipl_settings::OnFailure;
use sipl_state::{Changes, Source};
use std::fs::File;
use std::rt::Files;
use std::sync::Wait;
use std::time::{Clock, Instant};

impl Daemon {
    /// Closes the service, claims the events of all pages, archives them, and writes the state. Returns how
    /// many events there were. The fault is the first one, from the start of the daemon on.
    pub(crate) fn close<R: Files<File = File> + Wait + Clock>(
        self,
        rt: &R,
        claims: &mut Claims,
    ) -> Result<u64, CloseFault> {
        let Daemon {
            source,
            archive,
            pages,
            clients,
            controls,
            mover,
            on_failure,
            observed,
            scrapers,
            ..
        } = self;
        let Source {
            service,
            tally,
            changes,
            ..
        } = source;
        if let (OnFailure::Read, Some(changes)) = (on_failure, &changes) {
            let _ = changes.mend(rt);
        }
        let ended = match service.close() {
            Ok(last) => {
                let ended = end(
                    rt,
                    claims,
                    &pages,
                    archive.as_ref(),
                    changes.as_ref(),
                    &last,
                    &observed,
                );
                drop(last);
                ended
            }
            Err((fault, service)) => {
                drop(service);
                Err(CloseFault::Close(fault))
            }
        };
        drop(archive);
        drop(pages);
        drop(tally);
        drop(changes);
        drop(mover);
        drop(clients);
        drop(controls);
        drop(observed);
        drop(scrapers);
        ended
    }
}

// Claims the events of all pages, archives them, and writes the state, also where a page can't be written.
// Returns how many events there were.
fn end<R: Files<File = File> + Wait + Clock>(
    rt: &R,
    claims: &mut Claims,
    pages: &Pages,
    archive: Option<&Archive>,
    changes: Option<&Changes>,
    last: &Page,
    observed: &Observed,
) -> Result<u64, CloseFault> {
    if let Err(fault) = claims.end(rt, pages, archive, last) {
        if let (CloseFault::State(_) | CloseFault::Archive(_), Some(changes)) = (&fault, changes) {
            // Its log may have been removed or changed: then the state of a page can't be written, and no
            // file but that of the last has all that was replied to.
            let _ = changes.end(rt, last.result());
        }
        return Err(fault);
    }
    // The first event has the number 0.
    let events = last.next();
    let Some(changes) = changes else {
        return Ok(events);
    };
    let begun = Instant::now(rt).ok();
    match changes.end(rt, last.result()) {
        Ok(()) => {
            observed.tell_state(rt, begun);
            Ok(events)
        }
        Err(error) => Err(CloseFault::State(error)),
    }
}
