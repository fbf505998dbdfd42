//! Laws of several lanes: no lane writes a log of another, and over all lanes together a log has one writer. It has no code.
#![tactic(auto)]

mod examples;
mod laws;

pub use examples::{
    a_later_restart_may_name_any_log, lanes_that_share_a_log_have_two_writers,
    two_lanes_can_keep_to_their_logs,
};
pub use laws::{
    a_lane_writes_its_own_logs, a_log_has_one_writer_in_all, a_restart_goes_to_its_logs_lane,
    each_lane_gets_its_jobs, lanes_touch_their_own_files,
};
