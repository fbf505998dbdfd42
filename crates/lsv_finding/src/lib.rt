//! What is found of one log of a store: none, a damaged one, or a stored one.
#![tactic(auto)]

mod check;
mod checked;
mod laws;
mod look;
mod records;

pub use check::check_log;
pub use checked::{CheckFault, Checked};
pub use laws::{a_finding_is_what_recovery_says, what_reads_whole_is_stored};
