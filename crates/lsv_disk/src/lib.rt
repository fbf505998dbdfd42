//! The disk model: many files, what a read of them gives, and what a crash may leave of them; and a disk in memory
//! that is exactly that model.
#![tactic(auto)]

mod disk;
mod file;
mod memory;
mod no_mem;
mod synced;
mod throughout;

pub use disk::{Disk, DiskFault};
pub use file::{FileId, Owner, Part};
pub use memory::{Fill, MemDisk};
pub use no_mem::NoMem;
pub use synced::write_synced;
pub use throughout::{Claim, reads_compose, throughout_composes, throughout_widens};
