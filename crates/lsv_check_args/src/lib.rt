//! The command line of `sudo_logcheck`, read by clap.
#![tactic(auto)]

mod program;
mod request;
mod words;

pub use lsv_args::ArgFault;
pub use request::{Form, Request, read_request};
