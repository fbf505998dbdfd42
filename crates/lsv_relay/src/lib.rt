//! The store-first relay: a finished log goes to one host, message by message. It is marked as relayed only when that
//! server has acknowledged all of it and then ended the connection.
#![tactic(auto)]

mod answer;
mod fault;
mod laws;
mod open;
mod relay;
mod run;
mod start;
mod take;

pub use fault::RelayFault;
pub use laws::{a_crash_leaves_what_is_kept, a_stored_log_is_relayed, what_is_relayed};
pub use open::is_relayed;
pub use relay::Relay;
pub use run::RelayEnd;
