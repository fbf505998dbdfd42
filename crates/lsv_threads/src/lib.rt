//! A server's threads: one for each worker and one for each lane, with queues between them.
#![tactic(auto)]

mod closing;
mod dealing;
mod desk;
mod gates;
mod give;
mod idle;
mod lane_side;
mod lane_thread;
mod meanwhile;
mod parkings;
mod purse;
mod rotation;
mod running;
mod serve;
mod shares;
mod sides;
mod take;
mod worker_side;
mod worker_thread;

pub use closing::{Served, serve_threads};
pub use dealing::{Dealt, deal};
pub use desk::Desk;
pub use gates::Gates;
pub use idle::Idle;
pub use lane_side::LaneSide;
pub use lane_thread::{LaneBack, LaneGiven, LaneThread};
pub use meanwhile::{Meanwhile, Parking};
pub use parkings::Parkings;
pub use running::{Rooms, run_all};
pub use shares::Shares;
pub use sides::{LaneParts, WorkerParts};
pub use worker_side::WorkerSide;
pub use worker_thread::{WorkerBack, WorkerGiven, WorkerThread};
