ghost use Rattle.std.specs.Prelude.{◌≡◌, IfOk, IfSome, IfNone};
ghost use Rattle.std.specs.Arc.{arc_value};
ghost use Rattle.std.specs.Bool.{Decides};
ghost use Rattle.std.specs.Cmp.{partial_equiv_from_equiv};
ghost use Rattle.sipl_outages.specs.Holds.{no_holds};
ghost use Rattle.sipl_zonestore.specs.SameZones.{same_zones};
ghost use Rattle.sipl_book.specs.Machine.{empty_state};
ghost use Rattle.sipl_book.specs.SameState.{same_state, same_state-equivalence};

use sipl_names::Name;
use sipl_outages::{Board, SharedBoard};
use sipl_records::Record;
use sipl_zonestore::Zones;
use std::alloc::{AllocError, Global};
use std::marker::Model;
use std::sync::Arc;

/// What events lead to: the loaded zones with their records, the holds and the time. Two states are
/// equal where their apexes, records, holds and times are, each in its order; the maximum
/// number of held endpoints does not count.
#[derive(Drop)]
pub struct State {
    parts: Parts,
}

// The zones and the holds, which other states may share. The holds are those of a board.
#[derive(Drop)]
enum Parts {
    Empty,
    Own(Zones, Board),
    Shared(Arc<Zones>, SharedBoard),
}

impl Model for State {
    ghost use Rattle.sipl_book.specs.Machine.{State as MachineState};

    ghost Value = { MachineState };

    ghost use Rattle.sipl_book.specs.StateFields.{state_in};

    ghost view = { state_in };
}

impl State {
    /// Nothing is loaded or held, at time 0. Does not allocate.
    pub fn empty() -> Self
        ensures { result ≡ empty_state }
    {
        State {
            parts: Parts::Empty,
        }
    }

    // The state of these zones and holds. Does not allocate.
    pub(crate) fn of(zones: Zones, board: Board) -> Self
        ensures { result ≡ record { zones = zones; holds = board.holds } }
    {
        State {
            parts: Parts::Own(zones, board),
        }
    }

    // The state of these zones and holds, which others may share. Does not allocate.
    pub(crate) fn shared(zones: Arc<Zones>, board: SharedBoard) -> Self
        ensures { result ≡ record { zones = arc_value zones; holds = board.holds } }
    {
        State {
            parts: Parts::Shared(zones, board),
        }
    }

    /// A copy, which shares the zones and the holds where they are shared; else it is linear in both. The
    /// only error is an allocation failure (or 2^63 that share them).
    pub fn dup(&self, alloc: Global) -> Result<Self, AllocError>
        ensures { IfOk result (λ copy. copy ≡ self.now) }
    {
        let parts = match &self.parts {
            Parts::Empty => Parts::Empty,
            Parts::Own(zones, board) => {
                let board = board.dup(alloc)?;
                let Ok(zones) = zones.dup(alloc) else {
                    drop(board);
                    return Err(AllocError);
                };
                Parts::Own(zones, board)
            }
            Parts::Shared(zones, board) => {
                let zones = Arc::try_clone(zones)?;
                let Ok(board) = board.dup(alloc) else {
                    drop(zones);
                    return Err(AllocError);
                };
                Parts::Shared(zones, board)
            }
        };
        Ok(State { parts })
    }

    /// The apexes of the loaded zones, in the order of addition.
    pub fn apexes(&self) -> &[Name]
        ensures { result.now ≡ self.now.zones.apexes }
    {
        match &self.parts {
            Parts::Empty => &[],
            Parts::Own(zones, _) => zones.apexes(),
            Parts::Shared(zones, _) => zones.apexes(),
        }
    }

    /// All records, in the order of addition.
    pub fn records(&self) -> &[Record]
        ensures { result.now ≡ self.now.zones.records }
    {
        match &self.parts {
            Parts::Empty => &[],
            Parts::Own(zones, _) => zones.records(),
            Parts::Shared(zones, _) => zones.records(),
        }
    }

    /// The holds and the time; `None` where nothing is held, at time 0, and no board was kept for it.
    pub fn board(&self) -> Option<&Board>
        ensures board { IfSome result (λ board. board.now.holds ≡ self.now.holds) }
        ensures none { IfNone result (self.now.holds ≡ no_holds) }
    {
        match &self.parts {
            Parts::Empty => None,
            Parts::Own(_, board) => Some(board),
            Parts::Shared(_, board) => Some(board.get()),
        }
    }

    // Whether nothing is held, at time 0.
    fn holds_nothing(&self) -> bool
        ensures { Decides result (self.now.holds ≡ no_holds) }
    {
        match self.board() {
            Some(board) => board.is_empty() && board.now() == 0,
            None => true,
        }
    }

    // Whether the holds and the times of both are the same.
    fn same_holds(&self, other: &State) -> bool
        ensures { Decides result (self.now.holds ≡ other.now.holds) }
    {
        match (self.board(), other.board()) {
            (Some(a), Some(b)) => a.same_holds(b),
            (Some(_), None) => self.holds_nothing(),
            (None, _) => other.holds_nothing(),
        }
    }

    // Whether the apexes and the records of both are the same, each in its order.
    fn same_zones(&self, other: &State) -> bool
        ensures { result ≡ same_zones self.now.zones other.now.zones }
    {
        self.apexes() == other.apexes() && self.records() == other.records()
    }
}

impl PartialEq for State {
    ghost eq = { same_state };

    ghost laws = { partial_equiv_from_equiv same_state-equivalence };

    fn eq(&self, other: &Self) -> bool {
        self.same_holds(other) && self.same_zones(other)
    }
}

impl Eq for State {
    ghost laws = { same_state-equivalence };
}
