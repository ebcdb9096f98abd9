use crate::fault::WorldFault;
use sipl_book::{Done, Extent, Handed, Uncommitted};
use sipl_evidence::Item;
use sipl_uri::Question;

/// The result of a step.
#[derive(Drop)]
pub enum Reply {
    /// The zones were edited.
    Changed(Done),
    /// An endpoint was held or released, or the clock was set: the number of the event.
    Moved(u64),
    /// An answer, which was that of a current entry, or was committed.
    Answered(Handed),
    /// A worker began a run.
    Started,
    /// A worker read this record set.
    Read(Item),
    /// A worker leased the entry of this question, and began a run.
    Leased(Question),
    /// A worker settled its lease.
    Settled,
    /// A worker ended its run.
    Abandoned,
    /// An entry was forgotten.
    Forgotten,
    /// The page was turned: the number of its first event, and how many events it has.
    Paged(Extent),
    /// A finding was not committed or settled, and why.
    Uncommitted(Uncommitted),
    /// The step was refused.
    Refused(WorldFault),
}
