//! Laws of runs with many connections: a legal conversation is served, whatever others send.
#![tactic(auto)]

mod laws;

pub use laws::{a_legal_conversation_is_served_among_others, a_log_that_is_held_is_not_restarted};
