/// What a worker is to do.
#[derive(Clone, Copy, Debug, PartialEq, Eq)]
pub(crate) enum Act {
    /// Begin a run, for itself or under a lease.
    Start,
    /// Read the set that its run wants.
    Read,
    /// Commit its finding.
    Commit,
    /// Settle its lease with its finding.
    Settle,
    /// End its run.
    Abandon,
}
