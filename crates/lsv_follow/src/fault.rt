ghost use Rattle.std.specs.Prelude.{◌≡◌};
ghost use Rattle.lsv_follow.specs.Faults.{of_log};

use lsv_iolog::ViewFault;
use thiserror::Error;

/// Why a log isn't followed further.
#[derive(Clone, Copy, Debug, PartialEq, Eq, Error)]
pub enum FollowFault {
    /// The log was cut since it was opened: it had `seen` cuts then, and has `now`.
    #[error("the log was cut while it was followed")]
    Resumed { seen: u64, now: u64 },
    /// The log can't be read: it is absent or damaged, or a device call failed.
    #[error("the log cannot be read")]
    Log(ViewFault),
    /// Out of memory.
    #[error("out of memory")]
    NoMem,
}

impl From<ViewFault> for FollowFault {
    ghost from_gives = { λ fault given. given ≡ of_log fault };

    fn from(fault: ViewFault) -> Self {
        match fault {
            ViewFault::NoMem => FollowFault::NoMem,
            fault => FollowFault::Log(fault),
        }
    }
}
