//! A service as a desk.
ghost use Rattle.std.specs.Prelude.{◌≡◌, []};

use crate::desk::Desk;
use crate::reply::{write_key, write_refusal};
use sipl_book::{Done, Edit, Extent, Handed, Page};
use sipl_choice::Endpoint;
use sipl_evidence::Evidence;
use sipl_service::{OpenGate, Pass, Service, ServiceFault};
use sipl_srv::Draws;
use sipl_uri::Question;
use std::alloc::Global;
use std::marker::Model;
use std::sync::Wait;

/// A service that threads share, as the desk of one caller: the calls are those of the service, with
/// the caller's pass. It keeps the pages that the caller turns.
#[derive(Drop)]
pub struct ServiceDesk<'a, R: Wait> {
    rt: &'a R,
    service: &'a Service,
    pass: Pass,
    pages: Vec<Page>,
}

impl<'a, R: Wait> Model for ServiceDesk<'a, R> {
    ghost use Rattle.sipl_lines.specs.ServiceDesk.{CallerState};

    ghost Value = { CallerState };

    ghost view = { λ desk. record {
      client = desk.service.now.client;
      held = desk.service.now.held;
      pass = desk.pass;
      pages = desk.pages.items;
    } };
}

impl<'a, R: Wait> ServiceDesk<'a, R> {
    /// The desk of the caller who has this pass, and has turned no page. Does not allocate.
    pub fn new(alloc: Global, rt: &'a R, service: &'a Service, pass: Pass) -> Self
        ensures { result ≡ record {
          client = service.now.client;
          held = service.now.held;
          pass = pass;
          pages = [];
        } }
    {
        ServiceDesk {
            rt,
            service,
            pass,
            pages: Vec::new(alloc),
        }
    }

    /// The pass, with the receipts of all calls, and the pages that were turned, in their order.
    pub fn into_parts(self) -> (Pass, Vec<Page>)
        ensures pass { result.0 ≡ self.entry.pass }
        ensures pages { result.1.items ≡ self.entry.pages }
    {
        (self.pass, self.pages)
    }
}

impl<'a, R: Wait> Desk for ServiceDesk<'a, R> {
    ghost use Rattle.sipl_lines.specs.ServiceDesk.{caller_rules};

    type Fault = ServiceFault;

    ghost rules = { caller_rules };

    fn find(
        &mut self,
        _alloc: Global,
        question: Question,
        draws: &Draws,
    ) -> Result<Handed, ServiceFault> {
        let (rt, pass) = (self.rt, &mut self.pass);
        let told = self.service.lookup(rt, pass, &question, draws, &OpenGate)?;
        Ok(Handed {
            number: told.number(),
            answer: told.into_answer(),
        })
    }

    fn change(&mut self, edit: Edit) -> Result<Done, ServiceFault> {
        self.service.edit(self.rt, &mut self.pass, edit)
    }

    fn hold(&mut self, endpoint: &Endpoint, ms: u64) -> Result<u64, ServiceFault> {
        self.service.hold(self.rt, &mut self.pass, endpoint, ms)
    }

    fn release(&mut self, endpoint: &Endpoint) -> Result<u64, ServiceFault> {
        self.service.release(self.rt, &mut self.pass, endpoint)
    }

    fn advance(&mut self, to: u64) -> Result<u64, ServiceFault> {
        self.service.advance(self.rt, &mut self.pass, to)
    }

    fn now(&self) -> u64 {
        self.service.now(self.rt)
    }

    fn zone_octets(&self) -> Option<u64> {
        None
    }

    fn deps(&mut self, _alloc: Global, question: Question) -> Result<Evidence, ServiceFault> {
        self.service.deps(self.rt, &question)
    }

    fn repair(&mut self, _alloc: Global) -> Result<(), ServiceFault> {
        self.service.repair(self.rt)
    }

    fn page(&mut self) -> Result<Extent, ServiceFault> {
        // Space for the page comes before it is turned, so that it is not lost.
        self.pages.reserve(1)?;
        let page = self.service.turn_page(self.rt)?;
        let extent = page.extent();
        self.pages.push_reserved(page);
        Ok(extent)
    }

    fn pause(&mut self) {}

    fn write_fault(fault: ServiceFault, out: &mut Vec<u8>) {
        match fault {
            ServiceFault::Contended(key) => {
                out.extend_from_slice(b"err L1").unwrap();
                write_key(out, &key);
                out.push_reserved(b'\n');
            }
            fault => write_refusal(out, fault.code()).unwrap(),
        }
    }
}
