use lsv_base::{NoMem, Point};
use lsv_bundle::BundleFault;
use lsv_disk::Part;
use lsv_record::TimingFault;
use std::alloc::AllocError;
use thiserror::Error;

/// Why a log isn't read. Each call gives only those that it names.
#[derive(Clone, Copy, Debug, PartialEq, Eq, Error)]
pub enum ViewFault {
    /// There is no log of this number.
    #[error("there is no such log")]
    Absent,
    /// The log has an entry, and this is the first part at fault.
    #[error("the log is damaged")]
    Damaged(Part),
    /// A device call on a file of this log failed.
    #[error("a call on a file of the log failed")]
    Disk,
    /// Out of memory.
    #[error("out of memory")]
    NoMem,
}

/// Why a call of a log failed. Each call gives only those that it names.
#[derive(Clone, Copy, Debug, PartialEq, Eq, Error)]
pub enum LogFault {
    /// There is no log of this number.
    #[error("there is no such log")]
    Absent,
    /// The log has an entry, and this is the first part at fault.
    #[error("the log is damaged")]
    Damaged(Part),
    /// The log has its exit, and ends there.
    #[error("the log is complete")]
    Complete,
    /// No record ends at this point.
    #[error("no record ends at this point")]
    NoPoint(Point),
    /// A device call on a file of this log failed.
    #[error("a call on a file of the log failed")]
    Disk,
    /// The log answered `Disk` before, and wasn't opened again.
    #[error("the log failed before, and was not opened again")]
    Broken,
    /// This file would pass 2^40 bytes; of `Slots`, the count of cuts would pass 2^63 - 1.
    #[error("a file of the log is full")]
    Full(Part),
    /// The elapsed time, so far this one, would reach 2^63 nanoseconds.
    #[error("the log would last too long")]
    TooLong(Point),
    /// Out of memory.
    #[error("out of memory")]
    NoMem,
}

impl From<NoMem> for LogFault {
    ghost use Rattle.std.specs.Prelude.{◌≡◌};
    ghost use Rattle.lsv_iolog.specs.declared.fault.LogFault.TheVariants as faults;

    ghost from_gives = { λ _ fault. fault ≡ faults.NoMem };

    fn from(_: NoMem) -> Self {
        LogFault::NoMem
    }
}

impl From<AllocError> for LogFault {
    ghost use Rattle.std.specs.Prelude.{◌≡◌};
    ghost use Rattle.lsv_iolog.specs.declared.fault.LogFault.TheVariants as faults;

    ghost from_gives = { λ _ fault. fault ≡ faults.NoMem };

    fn from(_: AllocError) -> Self {
        LogFault::NoMem
    }
}

impl From<ViewFault> for LogFault {
    ghost use Rattle.std.specs.Prelude.{◌≡◌};
    ghost use Rattle.lsv_iolog.specs.Faults.{of_view};

    ghost from_gives = { λ fault given. given ≡ of_view fault };

    fn from(fault: ViewFault) -> Self {
        match fault {
            ViewFault::Absent => LogFault::Absent,
            ViewFault::Damaged(part) => LogFault::Damaged(part),
            ViewFault::Disk => LogFault::Disk,
            ViewFault::NoMem => LogFault::NoMem,
        }
    }
}

impl From<NoMem> for ViewFault {
    ghost use Rattle.std.specs.Prelude.{◌≡◌};
    ghost use Rattle.lsv_iolog.specs.declared.fault.ViewFault.TheVariants as faults;

    ghost from_gives = { λ _ fault. fault ≡ faults.NoMem };

    fn from(_: NoMem) -> Self {
        ViewFault::NoMem
    }
}

impl From<AllocError> for ViewFault {
    ghost use Rattle.std.specs.Prelude.{◌≡◌};
    ghost use Rattle.lsv_iolog.specs.declared.fault.ViewFault.TheVariants as faults;

    ghost from_gives = { λ _ fault. fault ≡ faults.NoMem };

    fn from(_: AllocError) -> Self {
        ViewFault::NoMem
    }
}

impl From<BundleFault> for LogFault {
    ghost use Rattle.std.specs.Prelude.{◌≡◌};
    ghost use Rattle.lsv_iolog.specs.Faults.{fault_of};

    ghost from_gives = { λ fault given. given ≡ fault_of fault };

    fn from(fault: BundleFault) -> Self {
        match fault {
            BundleFault::Disk => LogFault::Disk,
            BundleFault::Broken => LogFault::Broken,
            BundleFault::Damaged(part) => LogFault::Damaged(part),
            BundleFault::Full(part) => LogFault::Full(part),
            BundleFault::NoMem => LogFault::NoMem,
        }
    }
}

impl From<TimingFault> for ViewFault {
    ghost use Rattle.std.specs.Prelude.{◌≡◌};
    ghost use Rattle.lsv_iolog.specs.Faults.{fault_of_timing};

    ghost from_gives = { λ fault given. given ≡ fault_of_timing fault };

    fn from(fault: TimingFault) -> Self {
        match fault {
            TimingFault::NoMem => ViewFault::NoMem,
            TimingFault::BadLine | TimingFault::TooLong => ViewFault::Damaged(Part::Timing),
        }
    }
}
