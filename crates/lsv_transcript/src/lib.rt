//! What is sent of a stored log, in order, and how it is read for it: records that are passed over, and the messages of
//! the next ones.
#![tactic(auto)]

mod messages;
mod opening;
mod passing;

pub use messages::{Batch, next_messages};
pub use opening::{hello_message, restart_message};
pub use passing::pass_over;
