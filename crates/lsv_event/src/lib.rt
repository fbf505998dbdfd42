//! Events of sessions, and their lines: in sudo's style, and as JSON.
#![tactic(auto)]

mod controls;
mod date;
mod escape;
mod event;
mod json_form;
mod laws;
mod line;
mod sudo_form;

pub use event::{Event, Kind, Peer};
pub use json_form::json_line;
pub use laws::one_event_is_one_line;
pub use sudo_form::sudo_line;
