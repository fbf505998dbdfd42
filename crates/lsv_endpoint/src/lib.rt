//! An endpoint over a worker and its port: what comes on the port's links becomes jobs, and the replies to them bytes.
#![tactic(auto)]

mod endpoint;
mod mode;

pub use endpoint::WorkerEndpoint;
