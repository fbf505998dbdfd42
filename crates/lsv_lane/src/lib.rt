//! The lane of a store.
#![tactic(auto)]

mod bay;
mod lane;

pub use bay::Bay;
pub use lane::{StoreLane, Unopened};
