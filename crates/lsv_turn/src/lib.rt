//! The turns of a lane: what does them, and what they are kept on.
#![tactic(auto)]

mod lane;
mod mem;
mod none;
mod tape;

pub use lane::Lane;
pub use mem::{KeptTurn, MemTape};
pub use none::NoTape;
pub use tape::Tape;
