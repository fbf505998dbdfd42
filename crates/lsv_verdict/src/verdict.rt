//! What is said of one number.
ghost use Rattle.std.specs.Prelude.{◌≡◌};
ghost use Rattle.lsv_verdict.specs.Verdicts.{class_found};

use lsv_base::LogNo;
use lsv_finding::Checked;

/// What is said of a log.
#[derive(Debug, Drop)]
pub struct Verdict {
    pub number: LogNo,
    /// What was found. None if a read of its files failed.
    pub found: Option<Checked>,
    /// Whether it is complete and marked as relayed.
    pub relayed: bool,
    /// The digest of its committed bytes, if it is complete and that is asked for.
    pub digest: Option<[u8; 32]>,
}

/// The kinds of verdicts.
#[derive(Clone, Copy, Debug, PartialEq, Eq)]
pub enum Class {
    /// A stored log with its exit.
    Complete,
    /// A stored log without an exit.
    Incomplete,
    /// A log that is neither stored nor absent, or files of a log without an entry.
    Damaged,
    /// A read failed.
    Unread,
    /// No log.
    Absent,
}

/// The kind of the last entry of a complete log.
pub(crate) const COMPLETE: u8 = 3;

impl Verdict {
    ghost use Rattle.lsv_verdict.specs.Verdicts.{class_of};

    /// Its kind.
    pub fn class(&self) -> Class
        ensures { result ≡ class_of self.now }
    {
        match &self.found {
            None => Class::Unread,
            Some(found) => class_of(found),
        }
    }
}

/// The kind of a verdict of what was found.
pub(crate) fn class_of(found: &Checked) -> Class
    ensures { result ≡ class_found found.now }
{
    match found {
        Checked::Nowhere => Class::Absent,
        Checked::Unlisted(_) | Checked::Closed(_) | Checked::Broken { .. } => Class::Damaged,
        Checked::Sound { body, .. } => {
            if body.kind == COMPLETE {
                Class::Complete
            } else {
                Class::Incomplete
            }
        }
    }
}
