//! `sudo_logcheck`: what is found of the logs of a store.
#![tactic(auto)]

mod laws;
mod numbers;
mod program;

pub use laws::{a_log_is_found_in_one_way, a_value_fixes_the_bytes};
pub use lsv_verdict::{CheckNotices, CheckStatus};
pub use program::sudo_logcheck;
