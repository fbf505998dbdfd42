use lsv_disk::DiskFault;
use thiserror::Error;

/// Why a call of a journal failed.
#[derive(Clone, Copy, Debug, PartialEq, Eq, Error)]
pub enum JournalFault {
    /// A device call on a file of this journal failed.
    #[error("a call on a file of the journal failed")]
    Disk,
    /// The journal answered `Disk` before, and wasn't opened again.
    #[error("the journal failed before, and was not opened again")]
    Broken,
}

impl From<DiskFault> for JournalFault {
    ghost use Rattle.std.specs.Prelude.{◌≡◌};
    ghost use Rattle.lsv_journal.specs.declared.fault.JournalFault.TheVariants.{Disk};

    ghost from_gives = { λ _ fault. fault ≡ Disk };

    fn from(_: DiskFault) -> Self {
        JournalFault::Disk
    }
}
