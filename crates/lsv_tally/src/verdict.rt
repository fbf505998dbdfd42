//! What is said of the event log of a lane.

use crate::tally::Tally;

/// What is said of the event log of a lane.
#[derive(Clone, Copy, Debug, PartialEq, Eq)]
pub struct EventVerdict {
    pub lane: u32,
    /// What was found. None if a read of its files failed.
    pub found: Option<Tally>,
}
