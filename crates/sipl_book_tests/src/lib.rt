//! The README's example, and what a book shows to callers of the library only. What it replies is in
//! `tests/sessions/workers`, and in `tests/campaigns/orders`.
#![tactic(auto)]

#[cfg(test)]
mod counts;
#[cfg(test)]
mod page_order;
#[cfg(test)]
mod page_states;
#[cfg(test)]
mod readme;
#[cfg(test)]
mod values;
