//! Disks and a port for tests: a disk fails or ends its calls as planned, another is written by another program while
//! it is used, and the port notes how it is used.
#![tactic(auto)]

mod beside;
mod hostile;
mod watched;

pub use beside::{Beside, Writer};
pub use hostile::{FILLS, Hostile, Plan};
pub use watched::Watched;
