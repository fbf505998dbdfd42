//! Sends the complete logs of a store to another server, by rising number.
#![tactic(auto)]

mod fault;
mod forward;
mod gaps;
mod laws;
mod notices;
mod numbers;
mod outcome;

pub use fault::{ForwardFault, NumbersFault};
pub use forward::forward_logs;
pub use gaps::Gaps;
pub use laws::a_log_that_is_sent_is_connected_to;
pub use notices::RelayNotices;
pub use outcome::Outcome;
