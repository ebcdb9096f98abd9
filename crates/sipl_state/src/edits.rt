//! The changes of the zones, the holds and the time: each is made, and appended to those that are to be
//! written to the file of changes.
ghost use Rattle.std.specs.Prelude.{◌≡◌, ◌≤◌, ◌^◌, ◌++◌, OnErr, OnOk};
ghost use Rattle.sipl_book.specs.declared.event.Event.TheVariants.{Change, Hold, Release, Advance};
ghost use Rattle.sipl_service.specs.Passes.{GetsReceipt};
ghost use Rattle.sipl_state.specs.Places.{place_after};

use crate::pending::Pending;
use crate::source::Source;
use sipl_book::{Done, Edit};
use sipl_choice::Endpoint;
use sipl_lines::{clock_text, edit_text, hold_text, release_text};
use sipl_service::{Pass, ServiceFault};
use std::sync::Wait;
use std::sync::atomic::{AtomicU64, Ordering};

impl Source {
    /// Edits the zones, and appends the change to those that are to be written to the file of changes, if
    /// there is one. Then `place` is at least the place in the file where the change ends.
    pub fn edit<R: Wait>(
        &self,
        rt: &R,
        pass: &mut Pass,
        edit: Edit,
        place: &AtomicU64,
    ) -> Result<Done, ServiceFault>
        ensures { GetsReceipt (λ done. done.number) (λ done. Change edit)
            pass.old pass.new result }
    {
        let mut tally = self.tally.lock(rt);
        let step = tally.step_of(self.alloc, &edit)?;
        let done = self.append_edit(rt, pass, edit, place)?;
        tally.follow(step);
        Ok(done)
    }

    /// Holds an endpoint, as `edit` makes an edit.
    pub fn hold<R: Wait>(
        &self,
        rt: &R,
        pass: &mut Pass,
        endpoint: &Endpoint,
        ms: u64,
        place: &AtomicU64,
    ) -> Result<u64, ServiceFault>
        ensures { GetsReceipt (λ number. number) (λ number. Hold endpoint.now ms)
            pass.old pass.new result }
    {
        let _tally = self.tally.lock(rt);
        self.append_hold(rt, pass, endpoint, ms, place)
    }

    /// Ends the hold of an endpoint, as `edit` makes an edit.
    pub fn release<R: Wait>(
        &self,
        rt: &R,
        pass: &mut Pass,
        endpoint: &Endpoint,
        place: &AtomicU64,
    ) -> Result<u64, ServiceFault>
        ensures { GetsReceipt (λ number. number) (λ number. Release endpoint.now)
            pass.old pass.new result }
    {
        let _tally = self.tally.lock(rt);
        self.append_release(rt, pass, endpoint, place)
    }

    /// Sets the time, as `edit` makes an edit.
    pub fn advance<R: Wait>(
        &self,
        rt: &R,
        pass: &mut Pass,
        to: u64,
        place: &AtomicU64,
    ) -> Result<u64, ServiceFault>
        ensures receipt { GetsReceipt (λ number. number) (λ number. Advance to)
            pass.old pass.new result }
        ensures limit { OnOk result (to ≤ 2 ^ 52) }
    {
        let _tally = self.tally.lock(rt);
        self.append_advance(rt, pass, to, place)
    }

    /// Sets the time, and not in the file of changes: the next hold or release there has it.
    pub fn move_time<R: Wait>(&self, rt: &R, pass: &mut Pass, to: u64) -> Result<u64, ServiceFault>
        ensures receipt { GetsReceipt (λ number. number) (λ number. Advance to)
            pass.old pass.new result }
    {
        let _tally = self.tally.lock(rt);
        self.service.advance(rt, pass, to)
    }

    // Makes an edit and appends it to the file of changes, where there is one.
    fn append_edit<R: Wait>(
        &self,
        rt: &R,
        pass: &mut Pass,
        edit: Edit,
        place: &AtomicU64,
    ) -> Result<Done, ServiceFault>
        ensures { GetsReceipt (λ done. done.number) (λ done. Change edit)
            pass.old pass.new result }
    {
        let Some(changes) = &self.changes else {
            return self.service.edit(rt, pass, edit);
        };
        let text = edit_text(self.alloc, &edit)?;
        let mut pending = changes.lock(rt);
        self.push_edit(rt, pass, edit, &text, &mut pending, place)
    }

    // Makes an edit, and appends its text to the changes that are not in the file yet.
    fn push_edit<R: Wait>(
        &self,
        rt: &R,
        pass: &mut Pass,
        edit: Edit,
        text: &[u8],
        pending: &mut Pending,
        place: &AtomicU64,
    ) -> Result<Done, ServiceFault>
        ensures receipt { GetsReceipt (λ done. done.number) (λ done. Change edit)
            pass.old pass.new result }
        ensures appended { OnOk result
            (pending.new.text.items ≡ pending.old.text.items ++ text.now) }
        ensures place { OnOk result (pending.new.end ≡ place_after pending.old.end text.now) }
        ensures refused { OnErr result (pending.new.text.items ≡ pending.old.text.items) }
        ensures same { OnErr result (pending.new ≡ record pending.old { text = pending.new.text }) }
    {
        pending.reserve(text.len())?;
        let done = self.service.edit(rt, pass, edit)?;
        place.fetch_max(pending.push(text), Ordering::SeqCst);
        Ok(done)
    }

    // Makes a hold, as `append_edit` makes an edit. The time is in the file before it: no one moves it
    // meanwhile, since the tally is locked.
    fn append_hold<R: Wait>(
        &self,
        rt: &R,
        pass: &mut Pass,
        endpoint: &Endpoint,
        ms: u64,
        place: &AtomicU64,
    ) -> Result<u64, ServiceFault>
        ensures { GetsReceipt (λ number. number) (λ number. Hold endpoint.now ms)
            pass.old pass.new result }
    {
        let Some(changes) = &self.changes else {
            return self.service.hold(rt, pass, endpoint, ms);
        };
        let text = hold_text(self.alloc, endpoint, ms)?;
        let mut pending = changes.lock(rt);
        let now = self.service.now(rt);
        let text = pending.text_at(now, &text)?;
        pending.reserve(text.len())?;
        let number = self.service.hold(rt, pass, endpoint, ms)?;
        place.fetch_max(pending.push_at(now, &text), Ordering::SeqCst);
        Ok(number)
    }

    // Ends a hold, as `append_edit` makes an edit.
    fn append_release<R: Wait>(
        &self,
        rt: &R,
        pass: &mut Pass,
        endpoint: &Endpoint,
        place: &AtomicU64,
    ) -> Result<u64, ServiceFault>
        ensures { GetsReceipt (λ number. number) (λ number. Release endpoint.now)
            pass.old pass.new result }
    {
        let Some(changes) = &self.changes else {
            return self.service.release(rt, pass, endpoint);
        };
        let text = release_text(self.alloc, endpoint)?;
        let mut pending = changes.lock(rt);
        let now = self.service.now(rt);
        let text = pending.text_at(now, &text)?;
        pending.reserve(text.len())?;
        let number = self.service.release(rt, pass, endpoint)?;
        place.fetch_max(pending.push_at(now, &text), Ordering::SeqCst);
        Ok(number)
    }

    // Sets the time, as `append_edit` makes an edit.
    fn append_advance<R: Wait>(
        &self,
        rt: &R,
        pass: &mut Pass,
        to: u64,
        place: &AtomicU64,
    ) -> Result<u64, ServiceFault>
        ensures receipt { GetsReceipt (λ number. number) (λ number. Advance to)
            pass.old pass.new result }
        ensures limit { OnOk result (to ≤ 2 ^ 52) }
    {
        let Some(changes) = &self.changes else {
            return self.service.advance(rt, pass, to);
        };
        let text = clock_text(self.alloc, to)?;
        let mut pending = changes.lock(rt);
        pending.reserve(text.len())?;
        let number = self.service.advance(rt, pass, to)?;
        place.fetch_max(pending.push_at(to, &text), Ordering::SeqCst);
        Ok(number)
    }
}
