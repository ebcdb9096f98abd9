// The space of hand-overs whose receipts were dropped.
ghost use Rattle.std.specs.Prelude.{◌≡◌, [], IfSome};

use crate::receipts::Receipts;
use std::alloc::Global;
use std::mem;

// The least number of receipts for which the space is kept.
const MIN_CAPACITY: usize = 32;

// The space of hand-overs of which no receipt is left, for callers to go on in.
#[derive(Drop)]
pub(crate) struct Spaces {
    alloc: Global,
    kept: Vec<Receipts>,
    // The maximum number of those that are kept.
    max: usize,
}

impl Spaces {
    // No space, and none is kept.
    pub fn new(alloc: Global) -> Self
        ensures kept { result.kept.items ≡ [] }
        ensures max { result.max ≡ 0 }
    {
        Spaces {
            alloc,
            kept: Vec::new(alloc),
            max: 0,
        }
    }

    // Sets the maximum number of those that are kept from now on.
    pub fn set_max(&mut self, max: usize)
        ensures { self.new ≡ record self.old { max = max } }
    {
        self.max = max;
    }

    // Keeps that of a hand-over, where no receipt of it is left and it is for at least 32.
    pub fn keep(&mut self, handed: &mut Receipts)
        ensures { handed.new ≡ handed.old }
    {
        if !handed.is_empty() || handed.capacity() < MIN_CAPACITY || self.kept.len() >= self.max {
            return;
        }
        if self.kept.reserve(1).is_err() {
            return;
        }
        let nothing = Receipts::from_vec(Vec::new(self.alloc));
        self.kept.push_reserved(mem::replace(handed, nothing));
    }

    // Takes one, if there is one.
    pub fn take(&mut self) -> Option<Receipts>
        ensures { IfSome result (λ space. space ≡ []) }
    {
        match self.kept.pop() {
            Some(space) if space.is_empty() => Some(space),
            _ => None,
        }
    }
}
