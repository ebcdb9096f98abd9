//! What a daemon writes and reads again: its state, and the pages of its journal, which are replayed.
#![tactic(auto)]

mod archive;
mod folder;
mod items;
mod plain;
mod runs;
mod state;
mod zones;

pub use archive::Archive;
pub use folder::is_passed_over;
pub use items::replies_to;
pub use runs::{ReplayFault, Replayed, replay};
pub use state::{
    Made, checkpoint_of, checkpoint_text, find_checkpoint, made_of, state_text, whole_len,
};
