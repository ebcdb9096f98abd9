ghost use Rattle.std.specs.Prelude.{◌≡◌, ◌<◌, ◌≤◌, ◌==◌, ℕ, [], length, take, drop, slice_index_or};
ghost use Rattle.sipl_service.specs.Receipts.{IsAscending, due, later};
ghost use Rattle.sipl_service.specs.declared.receipt.Receipt.{Receipt as AReceipt};

use crate::receipt::Receipt;
use std::collections::VecDeque;
use std::marker::Model;

/// Receipts that a pass has handed over, in their order: the number of each is less than those of the
/// later ones.
#[derive(Drop)]
pub struct Receipts {
    queue: VecDeque<Receipt>,
}

impl Model for Receipts {
    ghost use Rattle.std.specs.Prelude.{List};
    ghost use Rattle.sipl_service.specs.declared.receipt.Receipt.{Receipt};

    ghost Value = { List Receipt };

    ghost use Rattle.sipl_service.specs.Receipts.{IsAscending};

    ghost view = { λ receipts. receipts.queue.items };

    ghost invariant = { λ receipts. IsAscending receipts.queue.items };
}

impl Receipts {
    // These receipts. Does not allocate.
    pub(crate) fn from_vec(receipts: Vec<Receipt>) -> Self
        requires { IsAscending receipts.items }
        ensures { result ≡ receipts.items }
    {
        Receipts {
            queue: VecDeque::from_vec(receipts),
        }
    }

    // Their space: they are dropped.
    pub(crate) fn into_space(self) -> Vec<Receipt>
        ensures { result.items ≡ [] }
    {
        let mut space = Vec::from(self.queue);
        space.clear();
        space
    }

    /// How many there are.
    pub fn len(&self) -> usize
        ensures { result ≡ length self.now }
    {
        self.queue.len()
    }

    // For how many there is space.
    pub(crate) fn capacity(&self) -> usize
        ensures { length self.now ≤ result }
    {
        self.queue.capacity()
    }

    /// Whether there are none.
    pub fn is_empty(&self) -> bool
        ensures { result ≡ (length self.now == 0) }
    {
        self.queue.is_empty()
    }

    /// The receipt at a place, from 0.
    pub fn get(&self, place: usize) -> &Receipt
        requires { place < length self.now }
        ensures receipt { result.now ≡ slice_index_or self.now place result.now }
        ensures ascending { IsAscending self.now }
    {
        &self.queue[place]
    }

    // How many have numbers below the end: they are before the others.
    pub(crate) fn count_due(&self, end: u64) -> usize
        ensures within { result ≤ length self.now }
        ensures due { take result self.now ≡ due end self.now }
        ensures later { drop result self.now ≡ later end self.now }
        ensures below { (k : ℕ) (d : AReceipt) → k < result
            → (slice_index_or self.now k d).number < end }
    {
        let len = self.len();
        for place in 0..len {
            if self.queue[place].number >= end {
                return place;
            }
        }
        len
    }

    // Drops those with numbers below the end. Does not allocate.
    pub(crate) fn let_go(&mut self, end: u64)
        ensures { self.new ≡ later end self.old }
    {
        let count = self.count_due(end);
        for _gone in 0..count {
            drop(self.queue.pop_front());
        }
    }
}
