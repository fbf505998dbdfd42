//! Searches for logs: expressions as sudoreplay(8) has them, and what they say of the head of a log.
#![tactic(auto)]

mod bad;
mod date;
mod expr;
mod matching;
mod name;
mod pattern;
mod read;
mod step;
mod test;
mod token;

pub use bad::{BadWord, bad_word, the_reason_is_by_what_is_due};
pub use expr::{Expr, ExprFault};
pub use matching::matches;
pub use name::Name;
pub use read::read_expr;
