ghost use Rattle.std.specs.Prelude.{◌++◌};
ghost use Rattle.std.proofs.Common.{rules};
ghost use Rattle.std.specs.Hash as fed;
ghost use Rattle.std.specs.Cmp.Rules.{comparing, hashing};
ghost use Rattle.sipl_evidence.specs.Spots.{same_spot};

use std::hash::{Hash, Hasher};

// A place in one of many lists: the number of the list, and the index in it.
#[derive(Clone, Copy)]
pub(crate) struct Spot {
    pub(crate) list: u64,
    pub(crate) index: usize,
}

impl PartialEq for Spot {
    ghost eq = { same_spot };

    ghost laws = { Prim.search (comparing, rules) };

    fn eq(&self, other: &Spot) -> bool {
        self.list == other.list && self.index == other.index
    }
}

impl Eq for Spot {
    ghost laws = { Prim.search (comparing, rules) };
}

impl Hash for Spot {
    ghost hash_input = { λ a. fed.u64 a.list ++ fed.usize a.index };

    ghost respects_eq = { Prim.search (hashing, rules) };

    fn hash<H: Hasher>(&self, state: &mut H) {
        self.list.hash(state);
        self.index.hash(state);
    }
}
