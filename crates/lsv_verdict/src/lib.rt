//! What is said of the logs of a store: each is judged and shown, and they are summed up.
#![tactic(auto)]

mod controls;
mod digest;
mod drawn;
mod judge;
mod laws;
mod notices;
mod object;
mod status;
mod sums;
mod text;
mod verdict;
mod walk;

pub use drawn::lanes_of;
pub use laws::{a_digest_fixes_the_bytes, one_verdict_is_one_line};
pub use notices::CheckNotices;
pub use status::CheckStatus;
pub use sums::Sums;
pub use verdict::{Class, Verdict};
pub use walk::{Stop, check_logs, line_of_sums};
