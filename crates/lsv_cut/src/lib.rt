//! The next message at the front of bytes, and a reader of the pieces in which they come.
#![tactic(auto)]

mod cut;
mod laws;
mod reader;

pub use cut::{Cut, cut_next};
pub use laws::{bytes_have_one_cut, what_is_cut_is_the_next_job};
pub use reader::PieceReader;
