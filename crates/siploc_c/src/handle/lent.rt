ghost use Rattle.std.specs.Prelude.{◌≡◌};
ghost use types.Logic.{sem};
ghost use Rattle.siploc_c.specs.Lending.{LendsSession};

use super::Handle;
use crate::embedded::Embedded;

impl Handle {
    /// The session.
    pub(crate) fn embedded(&mut self) -> &mut Embedded
        ensures* writes_back { sem 𝓛 (LendsSession self.entry result) }
        ensures value { result.now ≡ self.old.value }
    {
        unsafe { &mut *(self.at as *mut Embedded) }
    }
}
