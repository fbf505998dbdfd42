ghost use Rattle.std.specs.Prelude.{◌≡◌};
ghost use Rattle.lsv_finding.specs.declared.checked.CheckFault.TheVariants as faults;

use lsv_bundle::Body;
use lsv_disk::{DiskFault, Part};
use lsv_info::{Exit, Head};
use thiserror::Error;

/// What is kept of what was found of a log.
#[derive(Debug, Drop)]
pub enum Checked {
    /// There is no log of this number, and no file of its content has bytes.
    Nowhere,
    /// Its journal is absent or has no entry, and yet this file of its content has bytes.
    Unlisted(Part),
    /// It has an entry and isn't opened: this file is absent or short, or it is the head and no head.
    Closed(Part),
    /// It is opened, and damaged.
    Broken {
        head: Head,
        /// What its last entry says.
        body: Body,
        /// The count of the records before the fault.
        count: u64,
        /// Their elapsed time in nanoseconds.
        elapsed: u64,
        /// The part at fault.
        part: Part,
    },
    /// It is a stored log.
    Sound {
        head: Head,
        /// What its last entry says.
        body: Body,
        /// How the command ended. None if the log is incomplete, or its exit is unreadable.
        exit: Option<Exit>,
    },
}

/// Why a log isn't checked.
#[derive(Clone, Copy, Debug, PartialEq, Eq, Error)]
pub enum CheckFault {
    /// A device call on its files failed.
    #[error("a read of its files failed")]
    Disk,
    /// Out of memory.
    #[error("out of memory")]
    NoMem,
}

impl From<DiskFault> for CheckFault {
    ghost from_gives = { λ _ fault. fault ≡ faults.Disk };

    fn from(_: DiskFault) -> Self {
        CheckFault::Disk
    }
}
