//! A log that is read while it is written: each look gives its next record, or says that there is none yet.
#![tactic(auto)]

mod end;
mod fault;
mod follow;
mod following;
mod laws;
mod others;

pub use end::FollowEnd;
pub use fault::FollowFault;
pub use follow::{Follow, Seen};
pub use following::follow_log;
pub use laws::{
    a_damaged_log_is_followed_as_it_is_played, a_log_that_goes_on_is_followed,
    a_look_that_finds_a_cut_ends_it, a_stored_log_is_followed, later_states_are_ordered,
    what_is_put_is_played, what_was_given_is_the_logs, what_was_given_stays,
};
pub use others::{Nobody, Others};
