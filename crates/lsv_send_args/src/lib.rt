//! The command line of `sudo_sendlog`, read by clap.
#![tactic(auto)]

mod fault;
mod port;
mod program;
mod request;
mod what;

pub use fault::{Unfit, WordsFault};
pub use request::{Request, read_request};
pub use what::{Resumption, What};
