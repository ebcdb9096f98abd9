//! What was claimed.
use crate::journal::pages::Pages;
use crate::journal::spaces::MAX_RECEIPTS;
use sipl_archive::Archive;
use sipl_book::Page;
use sipl_process::CloseFault;
use sipl_service::{ClaimFault, Ledger, Receipts};
use sipl_state::Turned;
use std::alloc::{AllocError, Global};
use std::collections::VecDeque;
use std::fs::File;
use std::mem;
use std::rt::Files;
use std::sync::Wait;

/// What was claimed, the receipts that are to be added to it, the page that is to be claimed next, the one
/// that was claimed and could not be archived, and the fault with which the daemon is to end, if there are
/// any.
#[derive(Drop)]
pub(crate) struct Claims {
    ledger: Ledger,
    handed: VecDeque<Receipts>,
    next: Option<Turned>,
    unarchived: Option<Turned>,
    fault: Option<CloseFault>,
}

/// What became of a try to claim the next page.
#[derive(Clone, Copy)]
pub(crate) enum Claimed {
    /// It is claimed.
    Page,
    /// Receipts of it are on their way, or an allocation failed.
    NotYet,
    /// No page waits.
    Nothing,
}

impl Claims {
    /// Nothing was claimed.
    pub(crate) fn new(alloc: Global) -> Claims {
        let mut ledger = Ledger::new(alloc);
        ledger.keep_spaces(MAX_RECEIPTS);
        Claims {
            ledger,
            handed: VecDeque::new(alloc),
            next: None,
            unarchived: None,
            fault: None,
        }
    }

    /// Takes the page out that is to be claimed next, or was claimed last.
    pub(crate) fn take(&mut self) -> Option<Turned> {
        self.next.take()
    }

    /// Keeps a page that was claimed and could not be archived.
    pub(crate) fn put_unarchived(&mut self, turned: Turned) {
        drop(self.unarchived.replace(turned));
    }

    /// Whether there is one.
    pub(crate) fn has_unarchived(&self) -> bool {
        self.unarchived.is_some()
    }

    /// Takes that page out, if there is one.
    pub(crate) fn take_unarchived(&mut self) -> Option<Turned> {
        self.unarchived.take()
    }

    /// Keeps the fault with which the daemon is to end.
    pub(crate) fn fail(&mut self, fault: CloseFault) {
        drop(self.fault.replace(fault));
    }

    /// Tries to claim the next page. It stays here until it is taken out.
    pub(crate) fn claim_next<R: Wait>(
        &mut self,
        rt: &R,
        pages: &Pages,
    ) -> Result<Claimed, ClaimFault> {
        self.put_next(rt, pages);
        self.put_handed(rt, pages);
        if self.add_handed().is_err() {
            return Ok(Claimed::NotYet);
        }
        let claimed = self.claim()?;
        if let Claimed::Page = claimed {
            pages.count_claimed();
            pages.spaces.put_receipts(rt, &mut self.ledger);
        }
        Ok(claimed)
    }

    // Takes the next page that was turned, if there is none here.
    fn put_next<R: Wait>(&mut self, rt: &R, pages: &Pages) {
        if self.next.is_none() {
            drop(mem::replace(&mut self.next, pages.take_next(rt)));
        }
    }

    // Takes the receipts that were handed over, if there are none to add.
    fn put_handed<R: Wait>(&mut self, rt: &R, pages: &Pages) {
        if self.handed.is_empty() {
            drop(mem::replace(&mut self.handed, pages.take_handed(rt)));
        }
    }

    // Adds the receipts that are to be. Where an allocation fails, those that are left are added later.
    fn add_handed(&mut self) -> Result<(), AllocError> {
        for _ in 0..self.handed.len() {
            let Some(receipts) = self.handed.pop_front() else {
                break;
            };
            if let Err(receipts) = self.ledger.add(receipts) {
                self.handed.push_front_reserved(receipts);
                return Err(AllocError);
            }
        }
        Ok(())
    }

    // Tries to claim the page, if there is one.
    fn claim(&mut self) -> Result<Claimed, ClaimFault> {
        let Some(turned) = &self.next else {
            return Ok(Claimed::Nothing);
        };
        match self.ledger.claim(&turned.page) {
            Ok(()) => Ok(Claimed::Page),
            Err(ClaimFault::Unclaimed(_) | ClaimFault::Memory) => Ok(Claimed::NotYet),
            Err(fault) => Err(fault),
        }
    }

    /// Claims all pages that were turned, and then the last one, when all receipts were handed over, and
    /// archives them. The fault is the first one, from the start of the daemon on.
    pub(crate) fn end<R: Files<File = File> + Wait>(
        &mut self,
        rt: &R,
        pages: &Pages,
        archive: Option<&Archive>,
        last: &Page,
    ) -> Result<(), CloseFault> {
        if let Some(fault) = self.fault.take() {
            return Err(fault);
        }
        self.archive_again(rt, archive)?;
        self.add_handed()?;
        self.put_handed(rt, pages);
        self.add_handed()?;
        for _ in 0..=pages.waiting(rt) {
            self.put_next(rt, pages);
            self.finish_next(rt, archive)?;
        }
        self.ledger.claim(last)?;
        archive_page(rt, archive, last)
    }

    // Archives the page that could not be archived, if there is one.
    fn archive_again<R: Files<File = File>>(
        &mut self,
        rt: &R,
        archive: Option<&Archive>,
    ) -> Result<(), CloseFault> {
        if let Some(turned) = &self.unarchived {
            archive_page(rt, archive, &turned.page)?;
        }
        drop(self.unarchived.take());
        Ok(())
    }

    // Claims the page that is to be claimed next, if there is one, and archives it.
    fn finish_next<R: Files<File = File>>(
        &mut self,
        rt: &R,
        archive: Option<&Archive>,
    ) -> Result<(), CloseFault> {
        if let Some(turned) = &self.next {
            self.ledger.claim(&turned.page)?;
            archive_page(rt, archive, &turned.page)?;
        }
        drop(self.next.take());
        Ok(())
    }
}

/// Archives a page, if there is an archive.
pub(crate) fn archive_page<R: Files<File = File>>(
    rt: &R,
    archive: Option<&Archive>,
    page: &Page,
) -> Result<(), CloseFault> {
    let Some(archive) = archive else {
        return Ok(());
    };
    match archive.keep(rt, page) {
        Ok(()) => Ok(()),
        Err(error) => Err(CloseFault::Archive(error)),
    }
}
