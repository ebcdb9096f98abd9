//! Tests of sessions and scripts by calls of the libraries: streams that fail, pauses, and what no line
//! shows. What the program replies is in `tests/sessions/`, and in `tests/campaigns/streams`.
#![tactic(auto)]

#[cfg(test)]
mod assertions;
#[cfg(test)]
mod books;
#[cfg(test)]
mod failures;
#[cfg(test)]
mod pauses;
#[cfg(test)]
mod rows;
#[cfg(test)]
mod settings;
#[cfg(test)]
mod streams;
