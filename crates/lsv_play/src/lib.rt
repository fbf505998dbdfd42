//! Playing one log: what is shown of its records on a screen, how long is waited before each, and which bytes are put.
#![tactic(auto)]

mod ahead;
mod fault;
mod laws;
mod mem_screen;
mod options;
mod playing;
mod screen;
mod show;
mod wait;

pub use fault::PlayFault;
pub use laws::{a_log_that_was_not_cut_reads_the_same, a_stored_log_is_played};
pub use mem_screen::MemScreen;
pub use options::Options;
pub use playing::play_log;
pub use screen::{Item, Screen};
pub use show::{play, play_record};
pub use wait::wait_of;
