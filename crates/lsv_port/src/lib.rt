//! The port that a server's connections come through: links that are opened, read, written and closed, told by edges.
#![tactic(auto)]

mod bell;
mod ledger;
mod memory;
mod port;
mod step;

pub use bell::{Bell, NoBell};
pub use ledger::ledgers_compose;
pub use memory::{Asked, MemPort};
pub use port::{Gave, Port, PortFault, Ready, Took};
pub use step::Step;
