//! What a client tells of a command: its information, and how it ended, with the texts of log.json and exit.json.
#![tactic(auto)]

mod fault;
mod info;
mod laws;
mod read;
mod times;
mod write;

pub use fault::InfoFault;
pub use info::{Entry, Info, Value};
pub use laws::{
    a_written_text_is_read_back, of_a_shown_key_the_last_entry_counts, what_is_shown_has_no_float,
};
pub use read::{read_exit, read_head};
pub use times::{Exit, Head};
pub use write::{
    exit_members, info_json, json_line, text_json, time_json, value_json, write_exit, write_head,
};
