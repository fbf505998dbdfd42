//! One connection, from a source to a sink, over the store of one lane.
#![tactic(auto)]

mod answers;
mod once;
mod reader;
mod run;

pub use once::{OnceEnd, serve_once};
