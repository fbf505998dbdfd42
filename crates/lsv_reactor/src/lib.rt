//! A server's loop on one thread: it turns what serves each port, one after another, and lets a lane do the turns of their
//! jobs between. A post is an endpoint of one lane, which the loop serves.
#![tactic(auto)]

mod deliver;
mod endpoint;
mod rounds;
mod visit;

pub use endpoint::{Endpoint, EndpointEnd};
pub use rounds::{PortsEnd, serve};
