//! What a daemon keeps of its service beside the journal, and reads again when it starts: the zones, the
//! holds and the time, in a state and the changes since then.
#![tactic(auto)]

mod changes;
mod edits;
mod files;
mod first_format;
mod pending;
mod restoring;
mod source;
mod state_files;
mod tally;
mod time;
mod written;

pub use changes::Changes;
pub use files::real_path;
pub use pending::Checkpoint;
pub use restoring::{FoundFiles, Restored, StateFault, check_state, restore};
pub use source::{Source, Turned};
pub use tally::Tally;
pub use time::HostTime;
