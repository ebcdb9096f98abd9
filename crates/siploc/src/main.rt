//! A locator of SIP servers (RFC 3263): sessions on standard input and output, or over TCP.
#![tactic(auto)]

mod arguments;
mod program;
mod serve;

use std::process::ExitCode;

fn main(rt: HostRuntime) -> ExitCode {
    program::start(&rt, &rt)
}
