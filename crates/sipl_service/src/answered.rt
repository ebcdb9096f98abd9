//! What a call under the lock returns.
use crate::receipt::Receipt;
use crate::told::Told;
use sipl_plans::Finding;

/// The answer that a caller receives, and the receipt for it.
#[derive(Drop)]
pub(crate) struct Answered {
    pub told: Told,
    pub receipt: Receipt,
    // What the book no longer has, which is dropped after the lock.
    pub released: Option<Finding>,
}
