//! An outgoing link: connections to a host, one after another; and a link in memory that follows a script.
#![tactic(auto)]

mod connection;
mod link;
mod memory;

pub use connection::{Connection, Look};
pub use link::{Link, LinkFault};
pub use memory::{Answer, Cut, MemLink};
