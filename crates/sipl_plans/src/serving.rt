//! The addresses of servers, one record set after another.
ghost use Rattle.std.specs.Prelude.{◌≡◌, ◌≤◌, List, [], length, IfOk, OnOk, MatchOption};
ghost use Rattle.sipl_records.specs.declared.kind.Kind.{Kind};
ghost use Rattle.sipl_choice.specs.FamilyKinds.{address_kinds};
ghost use Rattle.sipl_evidence.specs.Looks.{and_then, done};
ghost use Rattle.sipl_evidence.specs.Walks.{walk_asking};
ghost use Rattle.sipl_plans.specs.Stages.{asking_later, serving_after, serving_left};

use crate::layout::{Layout, Source};
use crate::look::reserve_first;
use sipl_choice::{Families, Transport};
use sipl_evidence::Walk;
use sipl_records::{Address, Sequence};
use sipl_srv::Pick;
use std::alloc::{AllocError, Global};
use std::collections::VecDeque;
use std::mem;

// Where a run is among the addresses of servers.
#[derive(Drop)]
pub(crate) struct Serving {
    pub transport: Transport,
    // The servers whose addresses are all read.
    pub servers: Vec<Source>,
    // The server that is read, and the later ones.
    pub picks: VecDeque<Pick>,
    // The addresses of the server that is read, of the first kinds.
    pub found: Vec<Address>,
    // The place of the next kind of its addresses.
    pub next_kind: usize,
}

impl Serving {
    // At the first kind of addresses of the first pick.
    pub(crate) fn start(alloc: Global, transport: Transport, picks: Sequence<Pick>) -> Self
        ensures { (kinds : List Kind)
            → serving_left kinds result ≡ asking_later kinds transport picks [] }
    {
        Serving {
            transport,
            servers: Vec::new(alloc),
            picks: VecDeque::from(picks.into_vec()),
            found: Vec::new(alloc),
            next_kind: 0,
        }
    }

    // The walk of the next kind of addresses, of the server that is read or else of the next one;
    // `None` where all are read.
    pub(crate) fn next_walk(
        &mut self,
        alloc: Global,
        families: Families,
    ) -> Result<Option<Walk>, AllocError>
        ensures { IfOk result (λ next. MatchOption next
            (serving_left (address_kinds families) self.old
            ≡ done (Layout.Servers self.new.transport self.new.servers.items))
            (λ walk. serving_left (address_kinds families) self.old
            ≡ and_then (walk_asking walk) (serving_after (address_kinds families) self.new))) }
    {
        let kinds = families.kinds();
        if self.next_kind >= kinds.len() {
            self.finish_server(alloc)?;
        }
        let (Some(pick), Some(kind)) = (self.picks.front(), kinds.get(self.next_kind)) else {
            return Ok(None);
        };
        let walk = Walk::start(pick.target.dup(alloc)?, *kind);
        self.next_kind += 1;
        Ok(Some(walk))
    }

    // Goes on from the server that is read to the next one.
    fn finish_server(&mut self, alloc: Global) -> Result<(), AllocError>
        ensures left { OnOk result ((kinds : List Kind) → length kinds ≤ self.old.next_kind
            → serving_left kinds self.new ≡ serving_left kinds self.old) }
        ensures next_kind { OnOk result (self.new.next_kind ≡ 0) }
    {
        self.next_kind = 0;
        reserve_first(&mut self.servers, self.picks.len())?;
        let Some(pick) = self.picks.pop_front() else {
            return Ok(());
        };
        let found = mem::replace(&mut self.found, Vec::new(alloc));
        self.servers.push(Source {
            priority: pick.priority,
            weight: pick.weight,
            port: pick.port,
            addresses: Sequence::from_vec(found),
        })?;
        Ok(())
    }
}
