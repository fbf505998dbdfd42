//! How many logs there are of each kind.
ghost use Rattle.std.specs.Prelude.{◌≡◌};
ghost use Rattle.lsv_verdict.specs.Sums.{no_sums, status_of, with_class};

use crate::CheckStatus;
use crate::verdict::Class;

/// The counts of logs of each kind.
#[derive(Clone, Copy, Debug, PartialEq, Eq)]
pub struct Sums {
    pub complete: u64,
    pub incomplete: u64,
    pub damaged: u64,
    pub unread: u64,
    pub absent: u64,
}

impl Sums {
    /// None yet.
    pub(crate) fn new() -> Self
        ensures { result ≡ no_sums }
    {
        Sums {
            complete: 0,
            incomplete: 0,
            damaged: 0,
            unread: 0,
            absent: 0,
        }
    }

    /// With one more of this kind.
    pub(crate) fn with(mut self, class: Class) -> Self
        ensures { result ≡ with_class self class }
    {
        match class {
            Class::Complete => self.complete = self.complete.saturating_add(1),
            Class::Incomplete => self.incomplete = self.incomplete.saturating_add(1),
            Class::Damaged => self.damaged = self.damaged.saturating_add(1),
            Class::Unread => self.unread = self.unread.saturating_add(1),
            Class::Absent => self.absent = self.absent.saturating_add(1),
        }
        self
    }

    /// How a run ends with these sums.
    pub fn status(self) -> CheckStatus
        ensures { result ≡ status_of self }
    {
        if 0 < self.unread {
            CheckStatus::ReadFault
        } else if 0 < self.damaged {
            CheckStatus::Damaged
        } else {
            CheckStatus::Sound
        }
    }
}
