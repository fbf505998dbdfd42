//! A server over the stores of its lanes.
#![tactic(auto)]

mod laws;
mod notices;
mod run;

pub use laws::{
    a_legal_conversation_is_served_by_its_home_lane, a_legal_conversation_over_a_link_is_served,
    lanes_keep_apart,
};
pub use notices::{Notices, Site};
pub use run::{End, Stored, serve_store};
