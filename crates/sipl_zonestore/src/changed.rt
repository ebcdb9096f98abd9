use sipl_records::{Key, Sequence};

/// What an edit changed.
#[derive(Debug, Drop)]
pub struct Changed {
    /// The keys whose sets differ, each once: those of record sets (RFC 2181, 5) in the order of their
    /// first places in the old records followed by the new ones, then those of existence (RFC 4592,
    /// 2.2.3).
    pub keys: Sequence<Key>,
    /// How many of the keys are those of record sets, which are the first.
    pub sets: usize,
}
