ghost use Rattle.std.specs.Prelude.{◌≡◌};
ghost use Rattle.sipl_records.specs.Codes.{code_of_name};

use sipl_names::Name;
use std::hash::{FoldHasher, Hash, Hasher};

/// The code of a name: a hash of its octets, below 2^32. Names that are equal have one code, and few
/// others have it.
pub fn name_code(name: &Name) -> u32
    ensures { result ≡ code_of_name name.now }
{
    let mut state = FoldHasher::default();
    name.hash(&mut state);
    (state.finish() % 4_294_967_296) as u32
}
