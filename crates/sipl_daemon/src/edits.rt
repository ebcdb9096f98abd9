//! Edits of the zones, which are reported in the log.
ghost use Rattle.sipl_book.specs.declared.event.Event.TheVariants.{Change};
ghost use Rattle.sipl_service.specs.Passes.{GetsReceipt};

use crate::daemon::Daemon;
use sipl_book::{Done, Edit};
use sipl_names::Name;
use sipl_observed::Story;
use sipl_service::{Pass, ServiceFault};
use std::alloc::AllocError;
use std::sync::Wait;
use std::sync::atomic::AtomicU64;
use std::time::Clock;

impl Daemon {
    /// Edits the zones, as the source does, and reports that in the log.
    pub(crate) fn edit<R: Wait + Clock>(
        &self,
        rt: &R,
        pass: &mut Pass,
        edit: Edit,
        place: &AtomicU64,
    ) -> Result<Done, ServiceFault>
        ensures { GetsReceipt (λ done. done.number) (λ done. Change edit)
            pass.old pass.new result }
    {
        let story = self.story_of(rt, &edit);
        let outcome = self.source.edit(rt, pass, edit, place);
        if let Ok(Some(story)) = &story {
            story.tell(rt, &self.observed, &outcome);
        }
        drop(story);
        outcome
    }

    // What is to be reported of an edit, if the log has edits.
    fn story_of<R: Wait + Clock>(&self, rt: &R, edit: &Edit) -> Result<Option<Story>, AllocError> {
        if !self.observed.tells_edits() {
            return Ok(None);
        }
        let unloaded = match edit {
            Edit::Unload(apex) => self.records_of(rt, apex),
            _ => 0,
        };
        Ok(Some(Story::new(rt, self.alloc, edit, unloaded)?))
    }

    // How many records a zone has.
    fn records_of<R: Wait>(&self, rt: &R, apex: &Name) -> u64 {
        let tally = self.source.tally.lock(rt);
        tally.zones().get(apex).copied().unwrap_or(0)
    }
}
