//! Laws over whole histories of the session machine: a log that a client sent, and that was acknowledged, is held by the server.
#![tactic(auto)]

mod examples;
mod laws;
mod steps;

pub use examples::{
    a_log_that_others_go_on_with_is_not_held, a_relay_can_be_acknowledged,
    a_relay_goes_on_after_the_first_record_of_its_point, a_sender_awaits_what_it_reaches,
    each_connection_has_sent_its_own,
};
pub use laws::{
    a_connection_that_gets_a_point_still_writes, a_conversation_is_a_visit,
    a_log_that_was_sent_is_held, a_marked_log_is_held, a_passed_on_log_is_held,
    a_relayed_log_is_held, a_sent_log_is_held, what_is_promised_is_in_the_images,
    what_is_replayed_is_storable, what_was_answered_is_read, what_was_read_was_answered,
    what_was_sent_is_brought, who_begins_a_log_and_gets_a_point_writes_it,
};
pub use steps::a_played_log_is_held;
