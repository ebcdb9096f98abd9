ghost use Rattle.std.specs.Prelude.{◌≡◌, ◌≢◌, ◌<◌, true, [], ◌∷◌, None, map, IfOk, IfSome};
ghost use Rattle.std.specs.Arc.{arc_value};
ghost use Rattle.sipl_plans.specs.Findings.{IsSound};
ghost use Rattle.sipl_plans.specs.Plan.{draw};
ghost use Rattle.sipl_plans.specs.Servers.{HasFewServers};
ghost use Rattle.sipl_book.specs.Entries.{after_change, depends_on};
ghost use Rattle.sipl_book.specs.Indexed.{HasKeysOf, needs};
ghost use Rattle.sipl_book.specs.Kept.{IsDrawnFree, first_place};

use sipl_evidence::{Evidence, Item};
use sipl_outages::{Board, Held};
use sipl_plans::{Answer, Finding, Layout, draw};
use sipl_records::Key;
use sipl_srv::{Draws, first_of_two};
use sipl_uri::Question;
use std::alloc::{AllocError, Global};
use std::marker::Model;
use std::mem;
use std::sync::Arc;

/// What a book keeps of a question: its route, and the record sets that decide it. It is
/// current while none of these sets has changed.
#[derive(Drop)]
pub struct Entry {
    id: u64,
    is_current: bool,
    finding: Finding,
    // The answers where nothing is held, once they were drawn, of at most two servers: by the place of the
    // server that is first.
    free: [Option<Answer>; 2],
}

impl Model for Entry {
    ghost use Rattle.sipl_book.specs.Entries.{EntryState};

    ghost Value = { EntryState };

    ghost view = { λ e. record { id = e.id; is_current = e.is_current; found = e.finding } };

    ghost use Rattle.sipl_book.specs.Kept.{AreKeptFor};

    ghost invariant = { λ e. AreKeptFor e.finding.layout e.free };
}

impl Entry {
    // A current entry that the event of this number made.
    pub(crate) fn new(id: u64, finding: Finding) -> Self
        ensures { result ≡ record { id = id; is_current = true; found = finding } }
    {
        Entry {
            id,
            is_current: true,
            finding,
            free: [None, None],
        }
    }

    // The finding.
    pub(crate) fn into_finding(self) -> Finding
        ensures { result ≡ self.found }
    {
        let Entry { finding, free, .. } = self;
        drop(free);
        finding
    }

    // Replaces the finding, and returns the old one. The entry is current.
    pub(crate) fn renew(&mut self, finding: Finding) -> Finding
        ensures { self.new ≡ record { id = self.old.id; is_current = true; found = finding } }
    {
        self.is_current = true;
        self.free = [None, None];
        mem::replace(&mut self.finding, finding)
    }

    // Keeps a copy of the answer that was drawn for these random words and holds by this policy, where
    // nothing is held and there are at most two servers. Contracts do not see it.
    pub(crate) fn keep_answer(
        &mut self,
        alloc: Global,
        draws: &Draws,
        board: &Board,
        held: Held,
        answer: &Answer,
    )
        requires { answer.now ≡ draw self.old.found.layout board.now.holds draws.now held }
        ensures { self.new ≡ self.old }
    {
        if !board.is_empty() {
            return;
        }
        let Some(place) = first_place(self.layout(), draws) else {
            return;
        };
        if let Ok(copy) = answer.dup(alloc) {
            self.free[place] = Some(copy);
        }
    }

    // Makes a current entry outdated that has the key, whose set changed, in its evidence. Returns
    // whether it did so. Constant time but for hashing.
    pub(crate) fn outdate(&mut self, key: &Key) -> bool
        ensures needs { result ≡ needs key.now self.old }
        ensures after { self.new ≡ after_change (key.now ∷ []) self.old }
    {
        let is_outdated = self.needs(key);
        self.is_current = self.is_current && !is_outdated;
        is_outdated
    }

    // Whether the entry is current and has the key in its evidence. Constant time but for hashing.
    pub(crate) fn needs(&self, key: &Key) -> bool
        ensures { result ≡ needs key.now self.now }
    {
        self.is_current && self.has_key(key)
    }

    // Whether the evidence has the same keys as these items, in the same order.
    pub(crate) fn has_keys_of(&self, others: &[Item]) -> bool
        ensures { result ≡ true → HasKeysOf others.now self.now }
    {
        have_same_keys(self.finding.evidence().items(), others)
    }

    // Whether the key is in the evidence. Constant time but for hashing.
    pub(crate) fn has_key(&self, key: &Key) -> bool
        ensures { result ≡ depends_on (key.now ∷ []) self.now }
    {
        self.finding.evidence().find(key).is_some()
    }

    /// The number of the event that made the entry.
    pub fn id(&self) -> u64
        ensures { result ≡ self.now.id }
    {
        self.id
    }

    /// Whether none of the record sets has changed since they were read.
    pub fn is_current(&self) -> bool
        ensures { result ≡ self.now.is_current }
    {
        self.is_current
    }

    /// The question.
    pub fn question(&self) -> &Question
        ensures { result.now ≡ self.now.found.question }
    {
        self.finding.question()
    }

    /// The route: at most 32 servers of at most 64 addresses each.
    pub fn layout(&self) -> &Layout
        ensures layout { result.now ≡ self.now.found.layout }
        ensures few { HasFewServers self.now.found.layout }
    {
        self.finding.layout()
    }

    /// Whether the answer for these random words and holds is worth keeping: nothing is held, there are at
    /// most two servers, and no answer is kept for their order.
    pub fn wants_answer(&self, draws: &Draws, board: &Board) -> bool
        ensures free { result ≡ true → board.now.holds.ends ≡ [] }
        ensures few { result ≡ true → first_place self.now.found.layout draws.now ≢ None }
    {
        match first_place(self.layout(), draws) {
            Some(place) => board.is_empty() && self.free[place].is_none(),
            None => false,
        }
    }

    /// The answer of the route for these random words and holds, by a policy on held endpoints. An answer
    /// that is kept shares its targets with all others: then it does not allocate. Else linear in the
    /// targets. The only error is an allocation failure.
    pub fn draw(
        &self,
        alloc: Global,
        draws: &Draws,
        board: &Board,
        held: Held,
    ) -> Result<Answer, AllocError>
        ensures { IfOk result (λ answer. answer
            ≡ draw self.now.found.layout board.now.holds draws.now held) }
    {
        if board.is_empty()
            && let Some(answer) = self.kept(draws)
        {
            return answer.dup(alloc);
        }
        draw(alloc, self.layout(), draws, board, held)
    }

    // The answer that is kept for the order that these random words give.
    fn kept(&self, draws: &Draws) -> Option<&Answer>
        ensures { IfSome result
            (λ answer. IsDrawnFree self.now.found.layout draws.now answer.now) }
    {
        let place = first_place(self.layout(), draws)?;
        self.free[place].as_ref()
    }

    /// The record sets that the route looks at, in the order of reading: at most 80,648.
    pub fn evidence(&self) -> &Evidence
        ensures evidence { result.now ≡ self.now.found.items }
        ensures sound { IsSound self.now.found }
    {
        self.finding.evidence()
    }

    /// The record sets that the route looks at, in the order of reading. They are shared with the
    /// entry: constant time. Does not allocate: the only error is that 2^63 others share them.
    pub fn share_evidence(&self) -> Result<Arc<Evidence>, AllocError>
        ensures { IfOk result (λ shared. arc_value shared ≡ self.now.found.items) }
    {
        self.finding.share_evidence()
    }
}

// Whether these items have the same keys, in the same order.
fn have_same_keys(items: &[Item], others: &[Item]) -> bool
    ensures { result ≡ true → map (λ i. i.key) items.now ≡ map (λ i. i.key) others.now }
{
    let mut pairs = items.iter().zip(others);
    items.len() == others.len() && pairs.all(|(item, other)| item.key() == other.key())
}

// The place of the server that is first in the order of at most two; `None` for more.
fn first_place(layout: &Layout, draws: &Draws) -> Option<usize>
    ensures within { IfSome result (λ place. place < 2) }
    ensures first { result ≡ first_place layout.now draws.now }
{
    let Layout::Servers(_, servers) = layout else {
        return None;
    };
    match servers.len() {
        1 => Some(0),
        2 => Some(first_of_two(servers.as_slice(), draws)),
        _ => None,
    }
}
