//! Which logs of a store have a folder.
#![tactic(auto)]

mod folders;

pub use folders::Folders;
