//! SIP and SIPS URIs (RFC 3261, 19.1.1) and the questions that they ask.
#![tactic(auto)]

mod fault;
mod host;
pub mod laws;
mod octet;
mod params;
mod parts;
mod question;
mod uri;

pub use fault::UriFault;
pub use question::{MAX_QUESTION_TEXT_LEN, Question, Target};
pub use uri::Uri;
