//! The journal: two slots for bodies of a fixed size, of which a selector byte chooses the last entry. That is the
//! one before an append or the one after it, wherever a call of the disk fails or a crash comes.
#![tactic(auto)]

mod append;
mod create;
mod fault;
mod gates;
mod journal;
mod open;
mod slot;
mod theorems;

pub use fault::JournalFault;
pub use journal::Journal;
pub use theorems::{absent_journals, images_hold_the_last_entry, journals_stay, own_files};
