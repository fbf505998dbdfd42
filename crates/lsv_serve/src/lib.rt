//! The top call of `sudo_logsrvd`.
#![tactic(auto)]

mod laws;
mod load;
mod once;
mod outside;
mod posts;
mod program;
mod relay;
mod serve;
mod status;
mod text;

pub use laws::{an_empty_store_may_be_served, words_ask_for_few_lanes, words_ask_for_few_workers};
pub use load::serve_load;
pub use once::run_once;
pub use outside::{Kept, Options, Outside};
pub use program::{command_of, logsrvd};
pub use relay::run_relay;
pub use serve::run_serve;
pub use status::Status;
