//! What a line server serves.
ghost use Rattle.std.specs.Prelude.{◌≡◌, OnOk, OnErr};
ghost use Rattle.sipl_lines.specs.Items.{Item};
ghost use Rattle.sipl_lines.specs.Protocol.{IsLineProtocol, Protocol};
ghost use Rattle.sipl_lines.specs.Replies.{AppendsReply};

use crate::desk::Desk;
use crate::session::Session;
use std::alloc::{AllocError, Global};

/// Lines that have replies, such as a session's. `D` is what they act on beside what the
/// conversation keeps itself.
pub(crate) trait Conversation<D> {
    ghost protocol: { Protocol };

    // The state of the conversation with what it acts on.
    ghost state: { D → Self → protocol.State };

    /// Whether the conversation has ended. From then on a line has no reply.
    fn has_ended(&self, desk: &D) -> bool
        ensures { result ≡ protocol.has_ended (state desk.now self.now) };

    /// Processes a line, which has no line end, and appends its reply to `out`. An error says that
    /// the space for the reply could not be reserved: then nothing has changed.
    fn process_line(
        &mut self,
        alloc: Global,
        desk: &mut D,
        line: &[u8],
        out: &mut Vec<u8>,
    ) -> Result<(), AllocError>
        ensures ok { OnOk result (AppendsReply protocol (state desk.old self.old)
            (Item.line line.now) out.old.items (state desk.new self.new) out.new.items) }
        ensures err { OnErr result (state desk.new self.new ≡ state desk.old self.old) }
        ensures err_out { OnErr result (out.new.items ≡ out.old.items) };

    /// Processes the end of the input, and appends its reply to `out`. An error is as with a line.
    fn finish(&mut self, alloc: Global, desk: &mut D, out: &mut Vec<u8>) -> Result<(), AllocError>
        ensures ok { OnOk result (AppendsReply protocol (state desk.old self.old)
            Item.end_of_input out.old.items (state desk.new self.new) out.new.items) }
        ensures err { OnErr result (state desk.new self.new ≡ state desk.old self.old) }
        ensures err_out { OnErr result (out.new.items ≡ out.old.items) };

    /// A pause: before a read, and after each 1,024 lines. It has no reply.
    fn pause(&self, desk: &mut D)
        ensures { protocol.MayPause (state desk.old self.now) (state desk.new self.now) };

    ghost is_line_protocol: { IsLineProtocol protocol };
}

/// A session, at a desk.
impl<D: Desk> Conversation<D> for Session {
    ghost use Rattle.sipl_lines.specs.Session.{at_desk, session_protocol};
    ghost use Rattle.sipl_lines.specs.SessionLaws.{session_rules};

    ghost protocol = { session_protocol D.rules };

    ghost state = { at_desk };

    ghost is_line_protocol = { session_rules D.rules };

    fn has_ended(&self, _desk: &D) -> bool {
        Session::has_ended(self)
    }

    fn process_line(
        &mut self,
        alloc: Global,
        desk: &mut D,
        line: &[u8],
        out: &mut Vec<u8>,
    ) -> Result<(), AllocError> {
        Session::process_line(self, alloc, desk, line, out)
    }

    fn finish(&mut self, alloc: Global, desk: &mut D, out: &mut Vec<u8>) -> Result<(), AllocError> {
        Session::finish(self, alloc, desk, out)
    }

    fn pause(&self, desk: &mut D) {
        desk.pause();
    }
}
