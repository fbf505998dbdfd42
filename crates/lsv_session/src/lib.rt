//! The jobs and replies of connections, and the table of a lane: what each connection is doing, and which one writes a log.
#![tactic(auto)]

mod connection;
mod full;
mod job;
mod laws;
mod messages;
mod reply;
mod table;

pub use connection::{ConnId, ConnState};
pub use full::Full;
pub use job::{Body, Fault, Job};
pub use laws::{
    a_longer_stream_begins_with_the_same_jobs, jobs_are_cut_from_the_front,
    one_stream_has_one_list_of_jobs, the_jobs_are_the_messages_of_the_frames, two_parts_are_one,
    what_the_server_says_is_short,
};
pub use messages::{refusal_message, server_hello};
pub use reply::{Reply, ReplyBody};
pub use table::{ClaimFault, Table};
