ghost use Rattle.std.specs.Prelude.{◌≡◌, ◌≢◌, ◌+◌, ◌≤◌, ◌++◌, length, IfOk, OnOk, OnErr, IsOk, vec_len, vec_capacity};
ghost use Rattle.sipl_uri.specs.QuestionText.{question_text, scheme_text, host_text, port_text, transport_param};
ghost use Rattle.sipl_uri.specs.Appended.{IsAppended};

use itoa::Buffer;
use sipl_choice::Transport;
use sipl_names::Name;
use sipl_records::Address;
use std::alloc::{AllocError, Global};

/// The maximum number of octets of a question's text: `sips:`, a name of at most 1,004 octets
/// ([`sipl_names::MAX_NAME_TEXT_LEN`]), `:65535` and `;transport=sctp`.
pub const MAX_QUESTION_TEXT_LEN: usize = 1030;

/// The host that a request is sent to: the TARGET of RFC 3263, 4.
#[derive(Debug, PartialEq, Eq, Hash, Drop)]
pub enum Target {
    /// A numeric address.
    Numeric(Address),
    /// A domain name.
    Domain(Name),
}

impl Target {
    /// A copy of the target. The only error is an allocation failure; a numeric address has none.
    pub fn dup(&self, alloc: Global) -> Result<Self, AllocError>
        ensures value { IfOk result (λ copy. copy ≡ self.now) }
        ensures memory { OnErr result ((address : Address) → self.now ≢ Target.Numeric address) }
    {
        match self {
            Target::Numeric(address) => Ok(Target::Numeric(*address)),
            Target::Domain(name) => Ok(Target::Domain(name.dup(alloc)?)),
        }
    }

    // Appends the target as a host. An error can leave a part of it.
    fn write(&self, out: &mut Vec<u8>) -> Result<(), AllocError>
        ensures ok { OnOk result (out.new.items ≡ out.old.items ++ host_text self.now) }
        ensures err { OnErr result (IsAppended out.old.items out.new.items) }
        ensures capacity { vec_capacity out.old ≤ vec_capacity out.new }
        ensures succeeds { vec_len out.old + length (host_text self.now) ≤ vec_capacity out.old
            → IsOk result }
    {
        match self {
            Target::Domain(name) => name.write(out),
            Target::Numeric(Address::V4(number)) => Address::V4(*number).write(out),
            Target::Numeric(Address::V6(number)) => {
                out.push(b'[')?;
                Address::V6(*number).write(out)?;
                out.push(b']')?;
                Ok(())
            }
        }
    }
}

/// What a SIP or SIPS URI asks of the locator (RFC 3263, 4).
#[derive(Debug, PartialEq, Eq, Hash, Drop)]
pub struct Question {
    /// Whether the scheme is `sips`.
    pub secure: bool,
    pub target: Target,
    /// The port, where the URI gives one.
    pub port: Option<u16>,
    /// The transport, where the URI gives one: with `sips`, TLS.
    pub transport: Option<Transport>,
}

impl Question {
    /// A copy of the question. The only error is an allocation failure.
    pub fn dup(&self, alloc: Global) -> Result<Self, AllocError>
        ensures value { IfOk result (λ copy. copy ≡ self.now) }
        ensures memory { OnErr result
            ((address : Address) → self.now.target ≢ Target.Numeric address) }
    {
        Ok(Question {
            secure: self.secure,
            target: self.target.dup(alloc)?,
            port: self.port,
            transport: self.transport,
        })
    }

    /// Appends the question as a URI (RFC 3261, 19.1.1), such as
    /// `sips:example.com.:5070;transport=tls`: at most 1,030 octets, [`MAX_QUESTION_TEXT_LEN`]. What
    /// a URI asks reads back as the same question ([`crate::laws::printed_questions_read_back`]). It
    /// succeeds where the capacity of `out` holds the text. An `Err` leaves `out` as it was.
    pub fn write(&self, out: &mut Vec<u8>) -> Result<(), AllocError>
        ensures ok { OnOk result (out.new.items ≡ out.old.items ++ question_text self.now) }
        ensures err { OnErr result (out.new.items ≡ out.old.items) }
        ensures capacity { vec_capacity out.old ≤ vec_capacity out.new }
        ensures succeeds { vec_len out.old + length (question_text self.now)
            ≤ vec_capacity out.old → IsOk result }
    {
        let len = out.len();
        let written = self.write_parts(out);
        if written.is_err() {
            out.truncate(len);
        }
        written
    }

    // Appends the question. An error can leave a part of it.
    fn write_parts(&self, out: &mut Vec<u8>) -> Result<(), AllocError>
        ensures ok { OnOk result (out.new.items ≡ out.old.items ++ question_text self.now) }
        ensures err { OnErr result (IsAppended out.old.items out.new.items) }
        ensures capacity { vec_capacity out.old ≤ vec_capacity out.new }
        ensures succeeds { vec_len out.old + length (question_text self.now)
            ≤ vec_capacity out.old → IsOk result }
    {
        out.extend_from_slice(scheme_text(self.secure).as_bytes())?;
        self.target.write(out)?;
        write_port(out, self.port)?;
        write_transport(out, self.transport)
    }
}

// The scheme and its colon.
fn scheme_text(secure: bool) -> &'static str
    ensures { result.now ≡ scheme_text secure }
{
    if secure { "sips:" } else { "sip:" }
}

// Appends the port after its colon, if there is one. An error can leave a part of it.
fn write_port(out: &mut Vec<u8>, port: Option<u16>) -> Result<(), AllocError>
    ensures ok { OnOk result (out.new.items ≡ out.old.items ++ port_text port) }
    ensures err { OnErr result (IsAppended out.old.items out.new.items) }
    ensures capacity { vec_capacity out.old ≤ vec_capacity out.new }
    ensures succeeds { vec_len out.old + length (port_text port) ≤ vec_capacity out.old
        → IsOk result }
{
    let Some(port) = port else {
        return Ok(());
    };
    out.push(b':')?;
    out.extend_from_slice(Buffer::new().format(port).as_bytes())
}

// Appends the transport parameter, if there is one. An error can leave a part of it.
fn write_transport(out: &mut Vec<u8>, transport: Option<Transport>) -> Result<(), AllocError>
    ensures ok { OnOk result (out.new.items ≡ out.old.items ++ transport_param transport) }
    ensures err { OnErr result (IsAppended out.old.items out.new.items) }
    ensures capacity { vec_capacity out.old ≤ vec_capacity out.new }
    ensures succeeds { vec_len out.old + length (transport_param transport) ≤ vec_capacity out.old
        → IsOk result }
{
    let Some(transport) = transport else {
        return Ok(());
    };
    out.extend_from_slice(b";transport=")?;
    out.extend_from_slice(transport.name().as_bytes())
}
