//! Boards whose copies are shared until the next change.
ghost use Rattle.std.specs.Prelude.{◌≡◌, ◌≢◌, ◌≤◌, ◌^◌, [], None, IsTrue, IfOk, OnErr, Err};
ghost use Rattle.std.specs.Arc.{arc_value};
ghost use Rattle.sipl_outages.specs.Holds.{is_new_hold, refusal_of};
ghost use Rattle.sipl_outages.specs.Holds.BoardEvent.{Hold, Release, Advance};
ghost use Rattle.sipl_outages.specs.Board.{Makes};

use crate::board::Board;
use crate::fault::BoardFault;
use sipl_choice::Endpoint;
use std::alloc::{AllocError, Global};
use std::marker::Model;
use std::sync::Arc;

/// A board that shares its copies: no hold is copied twice between two changes. Contracts see the
/// board.
#[derive(Drop)]
pub struct ShareableBoard {
    alloc: Global,
    board: Board,
    // The board as it is, where it was shared since the last change and something is held.
    shared: Option<Arc<Board>>,
}

impl Model for ShareableBoard {
    ghost use Rattle.std.specs.Prelude.{◌≡◌, IfSome};
    ghost use Rattle.std.specs.Arc.{arc_value};
    ghost use Rattle.sipl_outages.specs.Board.{BoardState};

    ghost Value = { BoardState };

    ghost view = { λ shareable. shareable.board };

    ghost invariant = { λ shareable. IfSome shareable.shared
        (λ shared. arc_value shared ≡ shareable.board) };
}

impl ShareableBoard {
    /// The board. Does not allocate.
    pub fn new(alloc: Global, board: Board) -> Self
        ensures { result ≡ board }
    {
        ShareableBoard {
            alloc,
            board,
            shared: None,
        }
    }

    /// The board.
    pub fn get(&self) -> &Board
        ensures { result.now ≡ self.now }
    {
        &self.board
    }

    /// The board. Does not allocate.
    pub fn into_board(self) -> Board
        ensures { result ≡ self }
    {
        self.board
    }

    /// Holds an endpoint, as `Board::hold` does.
    pub fn hold(&mut self, endpoint: &Endpoint, ms: u64) -> Result<(), BoardFault>
        ensures event { Makes (Hold endpoint.now ms) self.old self.new result }
        ensures memory { result ≡ Err BoardFault.Memory
            → IsTrue (is_new_hold endpoint.now ms self.old.holds) }
        ensures faultless { result ≡ Err BoardFault.Memory
            → refusal_of self.old.max_holds (Hold endpoint.now ms) self.old.holds ≡ None }
    {
        self.board.hold(endpoint, ms)?;
        self.shared = None;
        Ok(())
    }

    /// Ends the hold of an endpoint, as `Board::release` does. Does not allocate.
    pub fn release(&mut self, endpoint: &Endpoint) -> Result<(), BoardFault>
        ensures event { Makes (Release endpoint.now) self.old self.new result }
        ensures memory { result ≢ Err BoardFault.Memory }
    {
        self.board.release(endpoint)?;
        self.shared = None;
        Ok(())
    }

    /// Sets the time, as `Board::advance` does. Does not allocate.
    pub fn advance(&mut self, to: u64) -> Result<(), BoardFault>
        ensures event { Makes (Advance to) self.old self.new result }
        ensures memory { result ≢ Err BoardFault.Memory }
    {
        self.board.advance(to)?;
        self.shared = None;
        Ok(())
    }

    /// The board as it is, as a value that is shared until the next change: constant time where there
    /// was no change since the last call, else linear in the held endpoints, which are copied. Does not
    /// allocate where nothing is held. The first change after it drops this share.
    ///
    /// The only error is an allocation failure (or 2^63 that share the value); then nothing changes.
    pub fn share(&mut self) -> Result<SharedBoard, AllocError>
        ensures board { IfOk result (λ shared. shared ≡ self.old) }
        ensures memory { OnErr result (self.old.holds.ends ≢ []) }
        ensures unchanged { self.new ≡ self.old }
    {
        if self.board.is_empty() {
            return Ok(SharedBoard::without_holds(self.alloc, &self.board));
        }
        if let Some(shared) = &self.shared {
            return SharedBoard::of(shared);
        }
        let board = Arc::new(self.alloc, self.board.dup(self.alloc)?)?;
        let shared = SharedBoard::of(&board)?;
        self.shared = Some(board);
        Ok(shared)
    }
}

/// A board as it was when it was shared. Contracts see the board.
#[derive(Drop)]
pub struct SharedBoard {
    kept: Kept,
}

// A board without holds takes no memory, so it is not shared.
#[derive(Drop)]
enum Kept {
    Empty(Board),
    Shared(Arc<Board>),
}

impl Model for SharedBoard {
    ghost use Rattle.sipl_outages.specs.Board.{BoardState};
    ghost use Rattle.sipl_outages.specs.SharedBoard.{board_in};

    ghost Value = { BoardState };

    ghost view = { λ shared. board_in shared.kept };
}

impl SharedBoard {
    // The board, which nothing is held on.
    fn without_holds(alloc: Global, board: &Board) -> Self
        requires { board.now.holds.ends ≡ [] }
        ensures { result ≡ board.now }
    {
        SharedBoard {
            kept: Kept::Empty(board.without_holds(alloc)),
        }
    }

    // A share of the board. The only error is that 2^63 others share it.
    fn of(board: &Arc<Board>) -> Result<Self, AllocError>
        ensures { IfOk result (λ shared. shared ≡ arc_value board.now) }
    {
        Ok(SharedBoard {
            kept: Kept::Shared(Arc::try_clone(board)?),
        })
    }

    /// A copy, which shares the board. Does not allocate: the only error is that 2^63 others share it.
    pub fn dup(&self, alloc: Global) -> Result<Self, AllocError>
        ensures { IfOk result (λ copy. copy ≡ self.now) }
    {
        match &self.kept {
            Kept::Empty(board) => {
                let copy = board.dup(alloc)?;
                Ok(SharedBoard {
                    kept: Kept::Empty(copy),
                })
            }
            Kept::Shared(board) => SharedBoard::of(board),
        }
    }

    /// The board.
    pub fn get(&self) -> &Board
        ensures { result.now ≡ self.now }
    {
        match &self.kept {
            Kept::Empty(board) => board,
            Kept::Shared(board) => board,
        }
    }
}
