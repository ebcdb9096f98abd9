//! A service whose changes are kept.
ghost use Rattle.std.specs.Prelude.{IfErr, IfOk};
ghost use Rattle.sipl_book.specs.Pages.{IsPage};
ghost use Rattle.sipl_state.specs.Turning.{IsUnturned};

use crate::changes::Changes;
use crate::pending::Checkpoint;
use crate::tally::Tally;
use sipl_book::{Event, Page};
use sipl_service::{Service, ServiceFault};
use std::alloc::Global;
use std::sync::{Mutex, Wait};

/// A service, its zones as they are, and the file of its changes, if there is one. Locks are taken
/// in this order: the tally, the changes, the service.
#[derive(Drop)]
pub struct Source {
    pub alloc: Global,
    pub service: Service,
    pub tally: Mutex<Tally>,
    pub changes: Option<Changes>,
}

/// A page that was turned, and the checkpoint of the state after it, if that is to be written.
#[derive(Drop)]
pub struct Turned {
    pub page: Page,
    pub checkpoint: Option<Checkpoint>,
}

impl Source {
    /// A service without zones, holds or events, whose changes are in no file.
    pub fn new(alloc: Global, service: Service) -> Source {
        Source {
            alloc,
            service,
            tally: Mutex::new(Tally::new(alloc)),
            changes: None,
        }
    }

    /// Whether changes could not be written to their file, and can't be kept until it is mended.
    pub fn has_failed(&self) -> bool {
        match &self.changes {
            Some(changes) => changes.has_failed(),
            None => false,
        }
    }

    /// Whether the file of changes is so long, with those up to a place, that a state is to be written.
    pub fn is_log_long(&self, place: u64) -> bool {
        match &self.changes {
            Some(changes) => changes.is_long_at(place),
            None => false,
        }
    }

    /// Turns the page. Where the file of changes has become long it gets a checkpoint there, and the state
    /// after the page is to be written. The new journal has this space, if there is one.
    pub fn turn_page<R: Wait>(
        &self,
        rt: &R,
        space: Option<Vec<Event>>,
    ) -> Result<Turned, ServiceFault>
        ensures page { IfOk result (λ turned. IsPage turned.page) }
        ensures refused { IfErr result IsUnturned }
    {
        let Some(changes) = &self.changes else {
            let page = self.service.turn_page_into(rt, space)?;
            return Ok(Turned {
                page,
                checkpoint: None,
            });
        };
        let mut pending = changes.lock(rt);
        let page = self.service.turn_page_into(rt, space)?;
        let checkpoint = if pending.is_long() && !changes.has_failed() {
            changes.push_checkpoint(&mut pending).ok()
        } else {
            None
        };
        Ok(Turned { page, checkpoint })
    }
}
