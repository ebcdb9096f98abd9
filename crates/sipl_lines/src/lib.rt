//! The line server: sessions of commands and scripts of steps on a reader and a writer, changes as the lines
//! of a session, the check of a zone's text, and the settings of the program.
#![tactic(auto)]

mod book;
mod calls;
mod check;
mod command;
mod command_lines;
mod command_text;
mod conversation;
mod desk;
mod desk_commands;
mod draws_field;
mod gather;
pub mod laws;
mod lines;
mod play;
mod reply;
mod script;
mod script_line;
mod script_reply;
mod script_step;
mod server;
mod service_desk;
mod session;
mod settings;
mod step_lines;
mod talk;
mod tapped;

pub use book::{serve_book, serve_book_within};
pub use check::check_zone;
pub use command::{CommandWord, MAX_LINE_LEN, MAX_ZONE_LINES};
pub use command_lines::{is_change, is_find, item_of, reply_of, split_line, taken_by};
pub use command_text::{
    clock_text, edit_text, hold_text, release_text, write_clock, write_event, write_hold,
    write_number, write_record_line, write_zone_line,
};
pub use desk::{Desk, EventDesk, MAX_REFUSAL_LEN, OnlyEvents};
pub use lines::OutOfMemory;
pub use script::{play_script, play_script_within};
pub use server::{Ended, MAX_READS, ServeFault, serve, serve_within};
pub use service_desk::ServiceDesk;
pub use settings::{Settings, SettingsFault, read_table};
pub use talk::Talk;
pub use tapped::Tapped;
