//! Event logs: lines, of which a crash leaves those before a flush or those after it.
#![tactic(auto)]

mod log;
mod open;
mod theorems;

pub use log::EventLog;
pub use theorems::{event_logs_stay, lines_are_recovered_in_one_way};
