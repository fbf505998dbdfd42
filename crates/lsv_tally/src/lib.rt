//! What is found of the event logs of a store: each line is read, and all are counted.
#![tactic(auto)]

mod laws;
mod line;
mod look;
mod object;
mod reading;
mod tally;
mod text;
mod verdict;
mod walk;

pub use laws::a_written_line_is_an_event;
pub use tally::{Tally, TallyFault};
pub use verdict::EventVerdict;
pub use walk::{EventSums, check_events};
