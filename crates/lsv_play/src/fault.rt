ghost use Rattle.std.specs.Prelude.{◌≡◌};
ghost use Rattle.lsv_play.specs.Faults.{of_log};
ghost use Rattle.lsv_play.specs.declared.fault.PlayFault.TheVariants as faults;

use lsv_base::{NoMem, SinkFault};
use lsv_disk::Part;
use lsv_iolog::ViewFault;
use thiserror::Error;

/// Why a log isn't played to its end.
#[derive(Clone, Copy, Debug, PartialEq, Eq, Error)]
pub enum PlayFault {
    /// There is no log of this number.
    #[error("there is no such log")]
    Absent,
    /// This part of the log is at fault.
    #[error("the log is damaged")]
    Damaged(Part),
    /// The log was cut since it was opened.
    #[error("the log was cut while it was played")]
    Resumed,
    /// A device call on a file of the log failed.
    #[error("a call on a file of the log failed")]
    Disk,
    /// The screen failed.
    #[error("the screen failed")]
    Screen,
    /// Out of memory.
    #[error("out of memory")]
    NoMem,
}

impl From<ViewFault> for PlayFault {
    ghost from_gives = { λ fault given. given ≡ of_log fault };

    fn from(fault: ViewFault) -> Self {
        match fault {
            ViewFault::Absent => PlayFault::Absent,
            ViewFault::Damaged(part) => PlayFault::Damaged(part),
            ViewFault::Disk => PlayFault::Disk,
            ViewFault::NoMem => PlayFault::NoMem,
        }
    }
}

impl From<SinkFault> for PlayFault {
    ghost from_gives = { λ _ given. given ≡ faults.Screen };

    fn from(_: SinkFault) -> Self {
        PlayFault::Screen
    }
}

impl From<NoMem> for PlayFault {
    ghost from_gives = { λ _ given. given ≡ faults.NoMem };

    fn from(_: NoMem) -> Self {
        PlayFault::NoMem
    }
}
