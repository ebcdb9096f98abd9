//! Calls of the libraries whose allocations fail.
//!
//! The argument names a call. It is made, and again where an allocation of it failed. The exit status
//! says what came of it: 0 where the first was right, 3 where an allocation of it failed, all was as
//! before, and the second was right, 2 where an allocation failed before the call, 1 else.
#![tactic(auto)]

mod book;
mod call;
mod existence;
mod plans;
mod service;
mod texts;
mod values;

use crate::book::{change_call, commit_call, find_call, lease_call};
use crate::call::Outcome;
use crate::existence::{add_names_call, outdate_call};
use crate::plans::{draw_call, give_call, load_call};
use crate::service::{
    Turned, add_to_ledger_call, claim_call, claim_page_call, edit_call, lookup_call, turn_call,
};
use crate::texts::{parse_call, read_zone_call};
use crate::values::Asked;
use sipl_outages::Held;
use std::alloc::Global;
use std::env;
use std::process::ExitCode;
use std::rt::Env;
use std::sync::Wait;

fn named_call<R: Wait>(rt: &R, alloc: Global, name: &str) -> Option<Outcome> {
    match name {
        "read_zone" => read_zone_call(alloc),
        "parse" => parse_call(alloc),
        "load" => load_call(alloc),
        "add_names" => add_names_call(alloc),
        "give" => give_call(alloc, Asked::Bob),
        "give_ancestor" => give_call(alloc, Asked::Deep),
        "draw" => draw_call(alloc, Held::Out),
        "draw_held_last" => draw_call(alloc, Held::Last),
        "change" => change_call(alloc),
        "outdate" => outdate_call(alloc),
        "find" => find_call(alloc, Asked::Bob),
        "find_wildcard" => find_call(alloc, Asked::Deep),
        "commit_checked" => commit_call(alloc),
        "lease" => lease_call(alloc),
        "edit" => edit_call(rt, alloc),
        "lookup" => lookup_call(rt, alloc, Asked::Bob),
        "lookup_wildcard" => lookup_call(rt, alloc, Asked::Deep),
        "turn_page" => turn_call(rt, alloc),
        "claim" => claim_call(rt, alloc),
        "add_to_ledger" => add_to_ledger_call(rt, alloc),
        "claim_page" => claim_page_call(rt, alloc, Turned::AfterThem),
        "claim_last_page" => claim_page_call(rt, alloc, Turned::Never),
        _ => None,
    }
}

// The first argument.
fn argument<R: Env + AllocGlobal>(rt: &R) -> Option<String> {
    match env::args(rt) {
        Ok(mut args) => {
            let name = args.nth(1);
            drop(args);
            name
        }
        Err(_) => None,
    }
}

fn run<R: Wait + Env + AllocGlobal>(rt: &R) -> Option<Outcome> {
    let name = argument(rt)?;
    let outcome = named_call(rt, rt.alloc(), name.as_str());
    drop(name);
    outcome
}

fn main(rt: HostRuntime) -> ExitCode {
    ExitCode::from(match run(&rt) {
        Some(Outcome::Right) => 0,
        Some(Outcome::RightAfterRefusal) => 3,
        Some(Outcome::Wrong) => 1,
        None => 2,
    })
}
