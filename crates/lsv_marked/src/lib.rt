//! A law over a run of `relay` and whole histories of the session machine: a log that the run marked is held by the other server.
#![tactic(auto)]

mod laws;

pub use laws::marked_means_held;
