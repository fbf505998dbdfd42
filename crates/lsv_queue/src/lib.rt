//! A bounded queue of several senders and one receiver. Of each sender the receiver takes what was put, in that order,
//! whatever the threads' schedule.
#![tactic(auto)]

mod merge;
mod queue;
mod rule;
mod settling;
mod view;

pub use lsv_base::NoMem;
pub use lsv_session::Full;
pub use merge::{what_is_taken_is_a_merge, what_is_taken_is_known_by_its_key};
pub use queue::{Gap, InPass, OutPass, Queue, make};
pub use rule::InOrder;
pub use settling::settle;
pub use view::{Letter, Sent, Taken, View};
