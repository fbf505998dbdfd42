//! What is kept on disk of the relaying of a log, for one host. At each moment a crash leaves what was kept before a call
//! or what is kept after it, and in place of another identifier perhaps nothing.
#![tactic(auto)]

mod aim;
mod commit;
mod keeping;
mod laws;
mod open;
mod room;
mod state;

pub use aim::Aim;
pub use keeping::Keeping;
pub use laws::{a_crash_leaves_what_stands, keepings_stay, what_is_kept_is_one};
pub use open::{is_marked, is_marked_at};
pub use state::{Kept, State};
