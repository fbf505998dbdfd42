//! The command words of the log server, read by clap.
#![tactic(auto)]

mod command;
mod commands;
mod forms;
mod read;

pub use command::{ArgFault, Command, Opts};
pub use commands::{MOST_LANES, MOST_WORKERS};
pub use forms::options_stand_in_any_order;
pub use read::read_words;
