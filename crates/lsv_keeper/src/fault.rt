use lsv_disk::{FileId, Owner};
use thiserror::Error;

/// Why a store isn't opened.
#[derive(Clone, Copy, Debug, PartialEq, Eq, Error)]
pub enum StoreFault {
    /// A device call on a file of this owner failed.
    #[error("a call on a file of the store failed")]
    Device(Owner),
    /// The numbers' last entry isn't one of the lane's, or this file of the event log is absent or shorter than the last
    /// entry says.
    #[error("a file of the store is damaged")]
    Damaged(FileId),
    /// The store is of another number of lanes.
    #[error("the store is of {kept} lanes, and not of {asked}")]
    LanesDiffer {
        /// As the number file says.
        kept: u32,
        asked: u32,
    },
    /// Out of memory.
    #[error("out of memory")]
    NoMem,
}
