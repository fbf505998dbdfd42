//! The load that the server can give itself: conversations of clients, and a summary of the logs that they leave.
#![tactic(auto)]

mod lines;
mod load;
mod totals;

pub use lines::summary;
pub use load::conversation;
pub use totals::Totals;
