//! A conversation over an outgoing link: what a speaker says is written, and what is read is handed to it, message by
//! message.
#![tactic(auto)]

mod connection;
mod conversation;
mod drain;
mod ends;
mod hear;
mod judging;
mod put;
mod read;
mod speaker;
mod talk;
mod text;

pub use connection::run;
pub use conversation::converse;
pub use ends::{Cause, End, Judged, LONGEST_ID, MOST_HEARD, MOST_PUT, TalkFault, Wants};
pub use judging::judge;
pub use speaker::Speaker;
