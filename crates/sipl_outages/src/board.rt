ghost use Rattle.std.specs.Prelude.{◌≡◌, ◌≢◌, ◌≤◌, ◌↔◌, [], length, filter, nat_lt, None, IsTrue, IfOk, Err};
ghost use Rattle.std.specs.Bool.{Decides};
ghost use Rattle.indexmap.specs.IndexMap.{IsUnique};
ghost use Rattle.sipl_choice.specs.Endpoints.{same_endpoint};
ghost use Rattle.sipl_outages.specs.Holds.{no_holds, is_held, is_new_hold, refusal_of};
ghost use Rattle.sipl_outages.specs.Holds.BoardEvent.{Hold, Release, Advance};
ghost use Rattle.sipl_outages.specs.Board.{Finds, IsConsistent, Makes};

use crate::fault::BoardFault;
use indexmap::IndexMap;
use indexmap::map::Slice;
use sipl_choice::Endpoint;
use std::alloc::{AllocError, Global};
use std::marker::Model;

/// The greatest number of endpoints that a board holds.
pub const MAX_HOLDS: usize = 4096;

/// The latest time, in milliseconds: 2^52.
pub const MAX_TIME: u64 = 1 << 52;

/// Endpoints that are held, each until a time, and the present time. A held endpoint is left out
/// of the targets of a request, or tried last (RFC 3263, 4.3, and `Held`).
///
/// An endpoint is held while the present time is before the end of its hold. Holds that ran out
/// are not kept.
#[derive(Drop)]
pub struct Board {
    time: u64,
    ends: IndexMap<Endpoint, u64>,
    max_holds: usize,
}

impl Model for Board {
    ghost use Rattle.sipl_outages.specs.Board.{BoardState};

    ghost Value = { BoardState };

    ghost use Rattle.sipl_outages.specs.BoardView.{state_of, IsValidBoard};

    ghost view = { state_of };

    ghost invariant = { IsValidBoard };
}

impl Board {
    /// A board at time 0 on which at most 4,096 endpoints can be held (`MAX_HOLDS`). Does not
    /// allocate.
    pub fn new(alloc: Global) -> Self
        ensures empty { result.holds ≡ no_holds }
        ensures limit { result.max_holds ≡ 4096 }
    {
        Board::with(alloc, MAX_HOLDS)
    }

    /// A board at time 0 on which at most this many endpoints can be held. Does not allocate.
    pub fn with(alloc: Global, max_holds: usize) -> Self
        requires { max_holds ≤ 4096 }
        ensures empty { result.holds ≡ no_holds }
        ensures limit { result.max_holds ≡ max_holds }
    {
        Board {
            time: 0,
            ends: IndexMap::new(alloc),
            max_holds,
        }
    }

    /// The present time, in milliseconds.
    pub fn now(&self) -> u64
        ensures now { result ≡ self.now.holds.now }
        ensures consistent { IsConsistent self.now }
    {
        self.time
    }

    /// How many endpoints are held.
    pub fn len(&self) -> usize
        ensures len { result ≡ length self.now.holds.ends }
        ensures consistent { IsConsistent self.now }
    {
        self.ends.len()
    }

    /// Whether no endpoint is held.
    pub fn is_empty(&self) -> bool
        ensures empty { IsTrue result ↔ (self.now.holds.ends ≡ []) }
        ensures consistent { IsConsistent self.now }
    {
        self.ends.is_empty()
    }

    /// Whether an endpoint is held. Constant time but for hashing.
    pub fn is_held(&self, endpoint: &Endpoint) -> bool
        ensures held { result ≡ is_held self.now.holds endpoint.now }
        ensures consistent { IsConsistent self.now }
    {
        self.ends.contains_key(endpoint)
    }

    /// The held endpoints with the ends of their holds, in milliseconds, in the order in which the holds
    /// began.
    pub fn ends(&self) -> Slice<'_, Endpoint, u64>
        ensures ends { result ≡ self.now.holds.ends }
        ensures consistent { IsConsistent self.now }
    {
        self.ends.as_slice()
    }

    /// Whether the two boards have the same time, and hold the same endpoints to the same ends, in the
    /// same order. Their maxima do not count. Linear in the number of held endpoints. Does not
    /// allocate.
    pub fn same_holds(&self, other: &Board) -> bool
        ensures { Decides result (self.now.holds ≡ other.now.holds) }
    {
        self.time == other.time && self.ends.as_slice() == other.ends.as_slice()
    }

    /// Holds an endpoint for some milliseconds from now. One that is held already is held to the
    /// later of the two ends. A hold of 0 ms of an endpoint that is not held changes nothing.
    /// Constant time but for hashing. Allocates only for an endpoint that is not held.
    ///
    /// The fault is the first one: an end after 2^52 (O2), a new hold where as many endpoints are
    /// held as the board's maximum (O4).
    pub fn hold(&mut self, endpoint: &Endpoint, ms: u64) -> Result<(), BoardFault>
        ensures event { Makes (Hold endpoint.now ms) self.old self.new result }
        ensures memory { result ≡ Err BoardFault.Memory
            → IsTrue (is_new_hold endpoint.now ms self.old.holds) }
        ensures faultless { result ≡ Err BoardFault.Memory
            → refusal_of self.old.max_holds (Hold endpoint.now ms) self.old.holds ≡ None }
    {
        if ms > MAX_TIME - self.time {
            return Err(BoardFault::TooFar);
        }
        let end = self.time + ms;
        match self.ends.get(endpoint).copied() {
            Some(old) => {
                self.ends.insert(*endpoint, old.max(end))?;
            }
            None if ms == 0 => {}
            None if self.ends.len() >= self.max_holds => return Err(BoardFault::BoardFull),
            None => {
                self.ends.insert(*endpoint, end)?;
            }
        }
        Ok(())
    }

    /// Ends the hold of an endpoint. O3 where it is not held. Linear in the number of held
    /// endpoints. Does not allocate.
    pub fn release(&mut self, endpoint: &Endpoint) -> Result<(), BoardFault>
        ensures event { Makes (Release endpoint.now) self.old self.new result }
        ensures memory { result ≢ Err BoardFault.Memory }
    {
        let Some(_) = self.ends.shift_remove(endpoint) else {
            return Err(BoardFault::NotHeld);
        };
        Ok(())
    }

    /// Sets the time, and drops the holds that end at or before it. Linear in the number of held
    /// endpoints. Does not allocate.
    ///
    /// The fault is the first one: a time before the present one (O1), a time after 2^52 (O2).
    pub fn advance(&mut self, to: u64) -> Result<(), BoardFault>
        ensures event { Makes (Advance to) self.old self.new result }
        ensures memory { result ≢ Err BoardFault.Memory }
    {
        if to < self.time {
            return Err(BoardFault::ClockBack);
        }
        if to > MAX_TIME {
            return Err(BoardFault::TooFar);
        }
        drop_ended(&mut self.ends, to);
        self.time = to;
        Ok(())
    }

    /// The fault that `hold` would find, if there is one. Does not allocate. Constant time but for hashing.
    pub fn check_hold(&self, endpoint: &Endpoint, ms: u64) -> Result<(), BoardFault>
        ensures { Finds (Hold endpoint.now ms) self.now result }
    {
        let longest = MAX_TIME - self.time;
        if ms > longest {
            return Err(BoardFault::TooFar);
        }
        let is_new = !self.is_held(endpoint) && ms != 0;
        if is_new && self.len() >= self.max_holds {
            return Err(BoardFault::BoardFull);
        }
        Ok(())
    }

    /// The fault that `release` would find, if there is one. Does not allocate. Constant time but for
    /// hashing.
    pub fn check_release(&self, endpoint: &Endpoint) -> Result<(), BoardFault>
        ensures { Finds (Release endpoint.now) self.now result }
    {
        if self.is_held(endpoint) {
            Ok(())
        } else {
            Err(BoardFault::NotHeld)
        }
    }

    /// The fault that `advance` would find, if there is one. Does not allocate.
    pub fn check_advance(&self, to: u64) -> Result<(), BoardFault>
        ensures { Finds (Advance to) self.now result }
    {
        if to < self.now() {
            return Err(BoardFault::ClockBack);
        }
        if to > MAX_TIME {
            return Err(BoardFault::TooFar);
        }
        Ok(())
    }

    // A board without holds, at the same time and with the same maximum. Does not allocate.
    pub(crate) fn without_holds(&self, alloc: Global) -> Self
        ensures { result ≡ record {
          holds = record { now = self.now.holds.now; ends = [] };
          max_holds = self.now.max_holds;
        } }
    {
        let mut board = Board::with(alloc, self.max_holds);
        board.time = self.time;
        board
    }

    /// A copy. The only error is an allocation failure.
    pub fn dup(&self, alloc: Global) -> Result<Self, AllocError>
        ensures { IfOk result (λ copy. copy ≡ self.now) }
    {
        let mut ends = IndexMap::new(alloc);
        ends.extend(&self.ends)?;
        Ok(Board {
            time: self.time,
            ends,
            max_holds: self.max_holds,
        })
    }
}

// Drops the holds that end at or before this time.
fn drop_ended(ends: &mut IndexMap<Endpoint, u64>, to: u64)
    ensures ends { ends.new.entries ≡ filter (λ hold. nat_lt to hold.1) ends.old.entries }
    ensures unique { IsUnique same_endpoint ends.new }
{
    ends.retain(
        |_: &Endpoint, end: &mut u64| -> bool
            ensures { (result ≡ nat_lt to end.old) × (end.new ≡ end.old) }
        { to < *end },
    );
}
