//! Metrics of a program, as Prometheus scrapes them: their text, a histogram of times, and the requests of
//! HTTP for them.
#![tactic(auto)]

mod connection;
mod exposition;
mod histogram;
mod request;

pub use connection::{read_head, read_rest, write_all};
pub use exposition::Exposition;
pub use histogram::Histogram;
pub use request::{Asked, MAX_HEAD_LEN, read_request, write_reply};
