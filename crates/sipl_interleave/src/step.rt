use sipl_book::Edit;
use sipl_choice::Endpoint;
use sipl_srv::Draws;
use sipl_uri::Question;

/// A step of a world: a call of the book, or what a worker does next. Workers are numbered from 0.
#[derive(Drop)]
pub enum Step {
    /// Edits the zones.
    Change(Edit),
    /// Holds an endpoint for so many milliseconds.
    Hold(Endpoint, u64),
    /// Ends the hold of an endpoint.
    Release(Endpoint),
    /// Sets the clock to this time, in milliseconds.
    Advance(u64),
    /// Returns the answer to a question that has a current entry, for these random words.
    Hand(Question, Draws),
    /// A worker begins to look up a question.
    Start(usize, Question),
    /// A worker reads the record set that its run wants.
    Read(usize),
    /// A worker commits its finding, for these random words.
    Commit(usize, Draws),
    /// A worker leases the first queued entry, and begins to look up its question.
    Lease(usize),
    /// A worker settles its lease with its finding.
    Settle(usize),
    /// A worker ends its run, and returns its lease if it has one.
    Abandon(usize),
    /// Forgets the entry of a question.
    Forget(Question),
    /// Turns the page of the journal, and drops it.
    Page,
}
