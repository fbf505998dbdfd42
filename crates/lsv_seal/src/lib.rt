//! The seal of a store: a chain of digests, one line for each log that was sealed.
#![tactic(auto)]

mod chain;
mod line;

pub use chain::{a_value_fixes_what_it_seals, first, next};
pub use line::{Line, LineFault};
