//! What the clients of a daemon send: the readers of their sessions, and the course of these.
#![tactic(auto)]

mod asking;
mod course;
mod http;
mod input;

pub use asking::Asking;
pub use course::Course;
pub use http::begins_request;
pub use input::Input;
