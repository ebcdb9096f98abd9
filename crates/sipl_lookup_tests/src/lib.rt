//! The tests of the libraries below the book, and of the octets of states and logs, by public calls alone.
//! They are in a crate of their own, since a crate that has tests is proved a second time for them.
#![tactic(auto)]

#[cfg(test)]
mod assertions;
#[cfg(test)]
mod choice;
#[cfg(test)]
mod commits;
#[cfg(test)]
mod evidence;
#[cfg(test)]
mod failover;
#[cfg(test)]
mod formats;
#[cfg(test)]
mod outages;
#[cfg(test)]
mod plans;
#[cfg(test)]
mod repair;
#[cfg(test)]
mod srv;
#[cfg(test)]
mod tx;
#[cfg(test)]
mod zonestore;
