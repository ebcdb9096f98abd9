ghost use Rattle.std.specs.Prelude.{◌≡◌, ◌<◌, ◌≤◌, ◌+◌, ◌^◌, ◌++◌, ◌∷◌, [], max, vec_len, vec_capacity};

use crate::receipt::Receipt;
use crate::receipts::Receipts;
use std::alloc::Global;
use std::marker::Model;
use std::mem;

/// What a caller knows of a service: the receipts of its calls since it handed over, in their order, and
/// one more than the greatest number of an event that it has seen, its front. Each call of a pass has a
/// number from the front on: what a caller receives is never older than what it did, or saw, before.
#[derive(Drop)]
pub struct Pass {
    pub(crate) receipts: Vec<Receipt>,
    pub(crate) front: u64,
    alloc: Global,
}

impl Model for Pass {
    ghost use Rattle.sipl_service.specs.Passes.{PassState};

    ghost Value = { PassState };

    ghost use Rattle.sipl_service.specs.Passes.{IsPass};

    ghost view = { λ pass. record { receipts = pass.receipts.items; front = pass.front } };

    ghost invariant = { λ pass.
        IsPass (record { receipts = pass.receipts.items; front = pass.front }) };
}

impl Pass {
    // A pass that has seen nothing.
    pub(crate) fn new(alloc: Global) -> Self
        ensures { result ≡ record { receipts = []; front = 0 } }
    {
        Pass {
            receipts: Vec::new(alloc),
            front: 0,
            alloc,
        }
    }

    /// The receipts of the calls since the pass handed over, in their order.
    pub fn receipts(&self) -> &[Receipt]
        ensures { result.now ≡ self.now.receipts }
    {
        &self.receipts
    }

    /// One more than the greatest number of an event that was seen; at first 0.
    pub fn front(&self) -> u64
        ensures { result ≡ self.now.front }
    {
        self.front
    }

    /// Takes the receipts out, for a `Ledger`. The front stays. Does not allocate.
    pub fn hand_over(&mut self) -> Receipts
        ensures receipts { result ≡ self.old.receipts }
        ensures front { self.new ≡ record { receipts = []; front = self.old.front } }
    {
        Receipts::from_vec(mem::replace(&mut self.receipts, Vec::new(self.alloc)))
    }

    /// Takes the receipts out as `hand_over` does, and goes on in the space of others, which are dropped.
    pub fn hand_over_into(&mut self, space: Receipts) -> Receipts
        ensures receipts { result ≡ self.old.receipts }
        ensures front { self.new ≡ record { receipts = []; front = self.old.front } }
    {
        Receipts::from_vec(mem::replace(&mut self.receipts, space.into_space()))
    }

    /// Two callers meet: both have then seen what one of them had. Does not allocate.
    pub fn meet(&mut self, other: &mut Pass)
        ensures own { self.new ≡ record {
          receipts = self.old.receipts;
          front = max self.old.front other.old.front;
        } }
        ensures others { other.new ≡ record {
          receipts = other.old.receipts;
          front = max self.old.front other.old.front;
        } }
    {
        let front = self.front.max(other.front);
        self.front = front;
        other.front = front;
    }
}

// Adds the receipt of a call, for which there is space, to those of its caller, who has then seen the event.
// Returns its number.
pub(crate) fn add_receipt(receipts: &mut Vec<Receipt>, front: &mut u64, receipt: Receipt) -> u64
    requires space { vec_len receipts.old < vec_capacity receipts.old }
    requires limit { receipt.number ≤ 2 ^ 52 }
    ensures number { result ≡ receipt.number }
    ensures receipts { receipts.new.items ≡ receipts.old.items ++ receipt ∷ [] }
    ensures front { front.new ≡ receipt.number + 1 }
{
    let number = receipt.number;
    receipts.push_reserved(receipt);
    *front = number + 1;
    number
}
