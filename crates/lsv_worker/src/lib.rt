//! A worker: the links of one port, as connections. It puts the messages that are read into an inbox, as jobs, and writes
//! the keepers' replies.
#![tactic(auto)]

mod inbox;
mod incoming;
mod laws;
mod link;
mod memory;
mod outgoing;
mod route;
mod size;
mod worker;

pub use inbox::Inbox;
pub use incoming::{Incoming, Stage, Why};
pub use laws::{a_new_worker_stands, connections_end};
pub use link::{Blocked, Link, Phase};
pub use memory::MemInbox;
pub use outgoing::{Outgoing, Sending};
pub use route::Route;
pub use size::job_size;
pub use worker::Worker;
