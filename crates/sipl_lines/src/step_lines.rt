// How the steps of a call are written.
ghost use Rattle.std.specs.Prelude.{◌≡◌, ◌+◌, ◌*◌, ◌≤◌, [], ◌∷◌, ◌++◌, length, vec_len, vec_capacity};
ghost use Rattle.sipl_lines.specs.Calls.{endpoint_fields, hold_in, hold_line, step_line, steps_text};
ghost use Rattle.sipl_lines.specs.ReplyText.{counts_line};

use crate::reply::{write_counts, write_number, write_word};
use sipl_choice::Endpoint;
use sipl_failover::{Failover, Step};

// The maximum length in octets of a step's line, which is that of `send`: its attempt, the
// transport's name, the address's text, the port, and the branch.
const MAX_STEP_LINE_LEN: usize = 128;

// The maximum length in octets of a transport's name, an address's text and a port, with a space
// before each.
const MAX_ENDPOINT_FIELDS_LEN: usize = 66;

// Appends the lines of a call's steps to space that is reserved.
pub(crate) fn write_steps(out: &mut Vec<u8>, failover: &Failover, steps: &[Step])
    requires { vec_len out.old + MAX_STEP_LINE_LEN * length steps.now ≤ vec_capacity out.old }
    ensures ok { out.new.items ≡ out.old.items ++ steps_text failover.now steps.now }
    ensures len { vec_len out.new ≤ vec_len out.old + MAX_STEP_LINE_LEN * length steps.now }
    ensures capacity { vec_capacity out.old ≤ vec_capacity out.new }
{
    for step in steps {
        write_step(out, failover, *step);
    }
}

// Appends the line of a step to space that is reserved.
fn write_step(out: &mut Vec<u8>, failover: &Failover, step: Step)
    requires { vec_len out.old + MAX_STEP_LINE_LEN ≤ vec_capacity out.old }
    ensures ok { out.new.items ≡ out.old.items ++ step_line failover.now step }
    ensures len { vec_len out.new ≤ vec_len out.old + MAX_STEP_LINE_LEN }
    ensures capacity { vec_capacity out.old ≤ vec_capacity out.new }
{
    match step {
        Step::Send(attempt) => write_send(out, failover, attempt),
        Step::Resend => write_resend(out, failover),
        Step::Ack(attempt) => write_number_line(out, b"ack", u64::from(attempt)),
        Step::Hold(endpoint, ms) => write_hold(out, &endpoint, ms),
        Step::Deliver(code) => write_number_line(out, b"deliver", u64::from(code)),
        Step::Exhausted => write_counts(out, b"exhausted", &[]),
    }
}

// Appends the line of a word and a number to space that is reserved.
fn write_number_line(out: &mut Vec<u8>, word: &[u8], number: u64)
    requires space { vec_len out.old + MAX_STEP_LINE_LEN ≤ vec_capacity out.old }
    requires word { length word.now ≤ 7 }
    ensures ok { out.new.items ≡ out.old.items ++ counts_line word.now (number ∷ []) }
    ensures len { vec_len out.new ≤ vec_len out.old + MAX_STEP_LINE_LEN }
    ensures capacity { vec_capacity out.old ≤ vec_capacity out.new }
{
    out.extend_from_slice(word).unwrap();
    write_number(out, number);
    out.push_reserved(b'\n');
}

// Appends the line that says where an attempt is sent to space that is reserved.
fn write_send(out: &mut Vec<u8>, failover: &Failover, attempt: u32)
    requires { vec_len out.old + MAX_STEP_LINE_LEN ≤ vec_capacity out.old }
    ensures ok { out.new.items ≡ out.old.items ++ step_line failover.now (Step.Send attempt) }
    ensures len { vec_len out.new ≤ vec_len out.old + MAX_STEP_LINE_LEN }
    ensures capacity { vec_capacity out.old ≤ vec_capacity out.new }
{
    let Ok(target) = failover.endpoint(attempt) else {
        return;
    };
    out.extend_from_slice(b"send").unwrap();
    write_number(out, u64::from(attempt));
    write_endpoint(out, &target);
    out.push_reserved(b' ');
    failover.branch(attempt, out).unwrap();
    out.push_reserved(b'\n');
}

// Appends the line that says that the running attempt is sent again to space that is reserved.
fn write_resend(out: &mut Vec<u8>, failover: &Failover)
    requires { vec_len out.old + MAX_STEP_LINE_LEN ≤ vec_capacity out.old }
    ensures ok { out.new.items ≡ out.old.items ++ step_line failover.now Step.Resend }
    ensures len { vec_len out.new ≤ vec_len out.old + MAX_STEP_LINE_LEN }
    ensures capacity { vec_capacity out.old ≤ vec_capacity out.new }
{
    if let Some(attempt) = failover.cancel_target() {
        write_number_line(out, b"resend", u64::from(attempt));
    }
}

// Appends the line that says which endpoint is held to space that is reserved.
fn write_hold(out: &mut Vec<u8>, endpoint: &Endpoint, ms: u64)
    requires { vec_len out.old + MAX_STEP_LINE_LEN ≤ vec_capacity out.old }
    ensures ok { out.new.items ≡ out.old.items ++ hold_line endpoint.now ms }
    ensures len { vec_len out.new ≤ vec_len out.old + MAX_STEP_LINE_LEN }
    ensures capacity { vec_capacity out.old ≤ vec_capacity out.new }
{
    out.extend_from_slice(b"hold").unwrap();
    write_endpoint(out, endpoint);
    write_number(out, ms);
    out.push_reserved(b'\n');
}

// Appends a transport, an address and a port, with a space before each, to space that is reserved.
fn write_endpoint(out: &mut Vec<u8>, endpoint: &Endpoint)
    requires { vec_len out.old + MAX_ENDPOINT_FIELDS_LEN ≤ vec_capacity out.old }
    ensures ok { out.new.items ≡ out.old.items ++ endpoint_fields endpoint.now }
    ensures len { vec_len out.new ≤ vec_len out.old + MAX_ENDPOINT_FIELDS_LEN }
    ensures capacity { vec_capacity out.old ≤ vec_capacity out.new }
{
    write_word(out, endpoint.transport.name().as_bytes());
    out.push_reserved(b' ');
    endpoint.address.write(out).unwrap();
    write_number(out, u64::from(endpoint.port));
}

// The endpoint that is held by one of the steps, and for how many milliseconds.
pub(crate) fn hold_of(steps: &[Step]) -> Option<(Endpoint, u64)>
    ensures { result ≡ hold_in steps.now }
{
    for step in steps {
        if let Step::Hold(endpoint, ms) = step {
            return Some((*endpoint, *ms));
        }
    }
    None
}
