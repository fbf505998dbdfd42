//! The keeper of a lane: it holds the lane's sessions and logs, and a turn of it is one of the session machine, whatever
//! device calls fail and wherever the machine stops.
#![tactic(auto)]

mod accept;
mod events;
mod exit;
mod fault;
mod keeper;
mod laws;
mod leave;
mod logs;
mod open;
mod outcome;
mod own;
mod policy;
mod record;
mod report;
mod restart;
mod resume;
mod tail;
mod turn;
mod work;

pub use fault::StoreFault;
pub use keeper::Keeper;
pub use laws::{
    a_number_that_was_told_is_drawn, a_run_recovers_turn_by_turn, a_turn_keeps_event_lines,
    all_runs_recover, more_room_changes_nothing, runs_recover,
};
pub use policy::{LaneId, Policy};
