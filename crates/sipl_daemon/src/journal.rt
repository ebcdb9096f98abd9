//! The journal: its pages are turned, claimed when the receipts of their events are in, and archived.
pub(crate) mod claimer;
pub(crate) mod claims;
mod close;
pub(crate) mod mender;
pub(crate) mod pages;
pub(crate) mod spaces;
