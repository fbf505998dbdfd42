//! Kept formatters: calls of which it is known that they write the line of an event in their form.
#![tactic(auto)]

mod formatter;
mod lines;

pub use formatter::{Formatter, LineWriter};
pub use lines::{JsonLines, SudoLines};
