ghost use Rattle.std.specs.Prelude.{◌≡◌, if◌then◌else◌};
ghost use Rattle.lsv_forward.specs.Logs.{is_left, is_unreached};

use lsv_dialogue::Cause;
use lsv_relay::RelayFault;

/// What became of a log in a run.
#[derive(Debug, Drop)]
pub enum Outcome {
    /// No log has this number, or it isn't complete.
    Passed,
    /// It was marked before. Nobody was connected to.
    Marked,
    /// It was relayed, and is marked now.
    Relayed,
    /// It was connected to, and isn't marked: how the connection ended.
    Pending(Cause),
    /// It is complete and not marked. Nobody was connected to, since a connection to the host couldn't be made before.
    Untried,
    /// The log, or what is kept of its relaying, couldn't be opened. Nobody was connected to.
    Unopened(RelayFault),
    /// It was connected to, and a file of the log, or of what is kept of its relaying, was at fault.
    Failed(RelayFault),
}

impl Outcome {
    /// 1 if the log is complete and isn't known to be marked, else 0.
    pub fn left(&self) -> u32
        ensures { result ≡ (if is_left self.now then 1 else 0) }
    {
        match self {
            Outcome::Passed | Outcome::Marked | Outcome::Relayed => 0,
            Outcome::Pending(_) | Outcome::Untried | Outcome::Unopened(_) | Outcome::Failed(_) => 1,
        }
    }

    /// Whether a connection to the host couldn't be made.
    pub(crate) fn is_unreached(&self) -> bool
        ensures { result ≡ is_unreached self.now }
    {
        match self {
            Outcome::Pending(Cause::Unreached) => true,
            Outcome::Pending(_)
            | Outcome::Passed
            | Outcome::Marked
            | Outcome::Relayed
            | Outcome::Untried
            | Outcome::Unopened(_)
            | Outcome::Failed(_) => false,
        }
    }
}
