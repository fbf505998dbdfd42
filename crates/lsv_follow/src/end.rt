ghost use Rattle.std.specs.Prelude.{◌≡◌};
ghost use Rattle.lsv_play.specs.declared.fault.PlayFault.TheVariants as plays;
ghost use Rattle.lsv_follow.specs.Faults.{of_look, of_opening};
ghost use Rattle.lsv_follow.specs.declared.end.FollowEnd.TheVariants as ends;

use crate::FollowFault;
use lsv_base::SinkFault;
use lsv_iolog::ViewFault;
use lsv_play::PlayFault;
use thiserror::Error;

/// Why a log isn't followed to its end.
#[derive(Clone, Copy, Debug, PartialEq, Eq, Error)]
pub enum FollowEnd {
    /// The log was cut since it was opened: it had `seen` cuts then, and has `now`.
    #[error("the log was cut while it was followed")]
    Resumed { seen: u64, now: u64 },
    /// The log was removed since it was opened.
    #[error("the log was removed while it was followed")]
    Removed,
    /// For an hour the log had no further record, and it isn't complete.
    #[error("the log stayed quiet")]
    Quiet,
    /// It isn't read or shown further, for a reason as in play.
    #[error("the log is not followed further")]
    Fault(PlayFault),
}

impl From<ViewFault> for FollowEnd {
    ghost from_gives = { λ fault given. given ≡ of_opening fault };

    fn from(fault: ViewFault) -> Self {
        FollowEnd::Fault(PlayFault::from(fault))
    }
}

impl From<FollowFault> for FollowEnd {
    ghost from_gives = { λ fault given. given ≡ of_look fault };

    fn from(fault: FollowFault) -> Self {
        match fault {
            FollowFault::Resumed { seen, now } => FollowEnd::Resumed { seen, now },
            FollowFault::Log(ViewFault::Absent) => FollowEnd::Removed,
            FollowFault::Log(ViewFault::Damaged(part)) => {
                FollowEnd::Fault(PlayFault::Damaged(part))
            }
            FollowFault::Log(ViewFault::Disk) => FollowEnd::Fault(PlayFault::Disk),
            FollowFault::Log(ViewFault::NoMem) => FollowEnd::Fault(PlayFault::NoMem),
            FollowFault::NoMem => FollowEnd::Fault(PlayFault::NoMem),
        }
    }
}

impl From<SinkFault> for FollowEnd {
    ghost from_gives = { λ _ given. given ≡ ends.Fault plays.Screen };

    fn from(_: SinkFault) -> Self {
        FollowEnd::Fault(PlayFault::Screen)
    }
}
