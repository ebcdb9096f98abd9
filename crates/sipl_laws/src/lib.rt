//! Laws that join those of several crates; no other crate uses it.
#![tactic(auto)]

pub mod laws;
