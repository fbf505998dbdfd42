//! `sudo_sendlog`: one stored log is sent to a server.
#![tactic(auto)]

mod fault;
mod laws;
mod look;
mod messages;
mod open;
mod print;
mod program;
mod sender;
mod status;
mod visible;
mod world;

pub use laws::{
    a_stored_log_is_sent, an_identifier_is_one_line, an_other_end_serves, sent_means_held,
};
pub use program::{request_of, sudo_sendlog};
pub use status::SendStatus;
