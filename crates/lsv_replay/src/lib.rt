//! `sudoreplay`: a stored log is played, or followed while it is written, or the logs of a store are listed.
#![tactic(auto)]

mod fault;
mod gaps;
mod laws;
mod listing;
mod numbers;
mod program;
mod status;

pub use fault::ListFault;
pub use gaps::{Gaps, NoGaps};
pub use laws::{
    a_followed_log_is_shown, a_stored_log_is_found, a_stored_log_is_shown, stored_logs_are_listed,
};
pub use listing::list_logs;
pub use numbers::last_number;
pub use program::{are_text, request_of, sudoreplay};
pub use status::ReplayStatus;
