//! What C has of a session: its address, which owns it. The raw pointers are only here and in `lent`.
ghost use Rattle.std.specs.Prelude.{◌≡◌, Option, Some};
ghost use Rattle.siploc_c.specs.Codes.{embedded_code, embedded_or_none_code};
ghost use Rattle.siploc_c.specs.Embedded.{EmbeddedState};
ghost use Rattle.siploc_c.specs.Owned.{owned, owned_if};

mod lent;

use crate::embedded::Embedded;
use std::alloc::Global;
use std::marker::Model;

/// A session of C's: the address that [`Room::fill`] wrote.
#[repr(C)]
pub struct Handle {
    at: *mut u8,
    pub ghost value: { EmbeddedState } by { embedded_code },
}

impl Model for Handle {
    ghost also_owns = { λ handle. owned handle.at handle.value };
}

/// Room for the address of a session.
#[repr(C)]
pub struct Room {
    at: *mut u8,
    pub ghost value: { Option EmbeddedState } by { embedded_or_none_code },
}

impl Model for Room {
    ghost also_owns = { λ room. owned_if room.at room.value };
}

impl Room {
    /// Writes the address of a session, which is a handle then. An address that was here is lost.
    pub(crate) fn fill(&mut self, embedded: Box<Embedded>)
        ensures { self.new.value ≡ Some embedded.value }
    {
        self.at = Box::into_raw(embedded) as *mut u8;
    }
}

impl Handle {
    /// The session, which C gives back.
    pub(crate) fn into_box(self, alloc: Global) -> Box<Embedded>
        ensures { result.value ≡ self.value }
    {
        let Handle { at } = self;
        unsafe { Box::from_raw(alloc, at as *mut Embedded) }
    }
}

// Its session may go to another thread, and any thread may free its block.
unsafe impl Send for Handle {}
