//! The outgoing link over TCP. It tells no content, and counts its faults.
#![tactic(auto)]

mod link;

pub use link::TcpLink;
