ghost use Rattle.std.specs.Prelude.{◌≡◌};
ghost use Rattle.sipl_evidence.specs.Dependents.{code_of_key};

use sipl_records::Key;
use std::hash::{FoldHasher, Hash, Hasher};

// The code of a key: a hash of its owner's octets and its kind.
pub(crate) fn code_of_key(key: &Key) -> u64
    ensures { result ≡ code_of_key key.now }
{
    let mut state = FoldHasher::default();
    key.hash(&mut state);
    state.finish()
}
