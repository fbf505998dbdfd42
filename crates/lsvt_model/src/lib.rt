//! The session machine in memory: the plain function that computes what a log server answers and stores where no device
//! fails.
#![tactic(auto)]

mod connections;
mod limits;
mod logs;
mod model;
mod points;
mod records;
mod settings;
mod told;
mod turn;
mod work;

pub use logs::Log;
pub use model::Model;
pub use records::Records;
pub use settings::{EventLines, RunSettings};
