//! Sessions passed straight on to another server, byte for byte, with that server's own commit points.
#![tactic(auto)]

mod end;
mod fault;
mod kept;
mod laws;
mod live;
mod meter;
mod pair;
mod trouble;

pub use end::{Came, End, PIECE};
pub use fault::LiveFault;
pub use kept::{Rest, Unsent};
pub use laws::commit_points_are_bounded;
pub use live::{Down, Live};
pub use meter::Meter;
pub use pair::Pair;
pub use trouble::Trouble;
