//! A session whose octets its caller brings.
ghost use Rattle.std.specs.Prelude.{◌≡◌, IfOk, IfErr, OnOk};
ghost use Rattle.sipl_lines.specs.Session.{at_desk, session_protocol};
ghost use Rattle.sipl_lines.specs.Takes.{Takes, TakesFirst};
ghost use Rattle.sipl_lines.specs.Talk.{new_talk};

use crate::desk::Desk;
use crate::lines::{OutOfMemory, Pending};
use crate::session::Session;
use std::alloc::{AllocError, Global};
use std::marker::Model;

/// A session whose octets its caller brings, piece by piece, as they come: it reads and writes nothing.
///
/// The octets may be cut anywhere into pieces, also within a line: the replies are those that [`serve`]
/// writes for all lines that have come to their end. Between two pieces the octets of a line without an
/// end are kept, at most 65,538 of them: with so many a line is too long, whatever follows. Their space is
/// reserved by [`Talk::new`].
///
/// [`serve`]: crate::serve
#[derive(Drop)]
pub struct Talk {
    pending: Pending,
    session: Session,
}

impl Model for Talk {
    ghost use Rattle.sipl_lines.specs.Talk.{TalkState};

    ghost Value = { TalkState };

    ghost view = { λ talk. record { pending = talk.pending; session = talk.session } };
}

impl Talk {
    /// A talk that had no octets. An error says that the space for a line could not be reserved.
    pub fn new(alloc: Global) -> Result<Self, AllocError>
        ensures { IfOk result (λ talk. talk ≡ new_talk) }
    {
        Ok(Talk {
            pending: Pending::new(alloc)?,
            session: Session::new(),
        })
    }

    /// Whether the session has ended. From then on a line has no reply.
    pub fn has_ended(&self) -> bool
        ensures { result ≡ self.now.session.ended }
    {
        self.session.has_ended()
    }

    /// Processes each line that ends in `octets`, after the octets that are kept, and appends the replies to
    /// `out`. The octets after the last line end are kept. The end of the input is no part of this: a line
    /// without an end has no reply.
    ///
    /// The desk has a pause after each 1,024 lines of a call. The one before more octets are waited for is
    /// the caller's to make.
    ///
    /// Where an allocation fails, a reply is `err Memory`, as in [`serve`]. An error says that the space
    /// for a short reply could not be reserved. Then the octets up to the end of the line before have been
    /// taken, and no others: nothing of the line has been done, and the rest can be put again.
    ///
    /// [`serve`]: crate::serve
    pub fn put<D: Desk>(
        &mut self,
        alloc: Global,
        desk: &mut D,
        octets: &[u8],
        out: &mut Vec<u8>,
    ) -> Result<(), OutOfMemory>
        ensures ok { OnOk result (Takes (session_protocol D.rules)
            (at_desk desk.old self.old.session) self.old.pending octets.now out.old.items
            (at_desk desk.new self.new.session) self.new.pending out.new.items) }
        ensures err { IfErr result (λ fault. TakesFirst (session_protocol D.rules) fault.taken
            (at_desk desk.old self.old.session) self.old.pending octets.now out.old.items
            (at_desk desk.new self.new.session) self.new.pending out.new.items) }
    {
        self.pending
            .feed(alloc, desk, octets, &mut self.session, out)
    }
}
