//! The session machine: what a log server is, as definitions, and laws over them; and the plain functions of it that
//! whatever runs the machine calls.
#![tactic(auto)]

mod connections;
mod examples;
mod judgement;
mod laws;
mod outcomes;
mod waiting;

pub use connections::{is_running, log_of, same};
pub use examples::{
    a_log_above_the_last_number_has_two_writers, a_promise_can_be_lost, an_uncut_log_may_come_back,
    images_of_a_moment_go_together, no_history_serves_both_starts,
};
pub use judgement::{fault_refusal, judged};
pub use laws::{
    a_log_has_one_writer, records_are_shown, runs_join, the_event_log_is_of_the_history,
    the_invariant_is_kept, what_is_promised_is_held, what_is_promised_was_sent,
    what_is_shown_is_masked,
};
pub use outcomes::{
    a_legal_conversation_is_served, an_accepted_restart_keeps_its_point, no_fault_without_failure,
    nothing_is_said_after_a_shut, one_job_has_one_outcome, who_is_shut_is_dead,
};
pub use waiting::{forget, insert_once, note, remove};
