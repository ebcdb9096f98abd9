//! The tests of the service, by public calls alone: of what a session under `siploc serve` does not show.
//! The rest is in `tests/sessions/service`.
#![tactic(auto)]

#[cfg(test)]
mod calls;
#[cfg(test)]
mod claims;
#[cfg(test)]
mod copies;
#[cfg(test)]
mod deps;
#[cfg(test)]
mod gates;
#[cfg(test)]
mod lookups;
#[cfg(test)]
mod readme;
#[cfg(test)]
mod replay;
#[cfg(test)]
mod threads;
#[cfg(test)]
mod told;
#[cfg(test)]
mod values;
#[cfg(test)]
mod versions;
