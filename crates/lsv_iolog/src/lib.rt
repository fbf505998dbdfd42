//! Logs by number: a log is a head, a list of records, an exit or none, and a count of cuts, of which a crash leaves
//! what stood before a call or what stands after it.
#![tactic(auto)]

mod append;
mod commit;
mod cut;
mod fault;
mod laws;
mod lines;
mod log;
mod open;
mod pieces;
mod view;

pub use fault::{LogFault, ViewFault};
pub use laws::{a_log_is_recovered_in_one_way, later_states_are_ordered, logs_stay};
pub use log::IoLog;
pub use view::{LogView, Renewed};
