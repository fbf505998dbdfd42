use lsv_journal::JournalFault;
use thiserror::Error;

/// Why the numbers of a lane aren't opened.
#[derive(Clone, Copy, Debug, PartialEq, Eq, Error)]
pub enum SeqFault {
    /// A device call on a file of the numbers failed.
    #[error("a call on the number file failed")]
    Disk,
    /// The numbers were drawn for another number of lanes.
    #[error("the number file is of {kept} lanes, and not of {asked}")]
    LanesDiffer {
        /// As the file says.
        kept: u32,
        asked: u32,
    },
    /// The last entry isn't one of this lane's.
    #[error("the number file is damaged")]
    Damaged,
}

impl From<JournalFault> for SeqFault {
    ghost use Rattle.std.specs.Prelude.{◌≡◌};
    ghost use Rattle.lsv_seq.specs.declared.fault.SeqFault.TheVariants.{Disk};

    ghost from_gives = { λ _ fault. fault ≡ Disk };

    fn from(_: JournalFault) -> Self {
        SeqFault::Disk
    }
}

/// Why no number is drawn.
#[derive(Clone, Copy, Debug, PartialEq, Eq, Error)]
pub enum DrawFault {
    /// The next number would have more than six digits of base 36; the last one drawn.
    #[error("all log numbers were drawn; the last is {0}")]
    Spent(u32),
    /// A device call on a file of the numbers failed. The next draw opens them again.
    #[error("a call on the number file failed")]
    Disk,
    /// The file was opened again, and its last entry is another one.
    #[error("the number file was changed by somebody else")]
    Changed {
        /// The bytes of the entry that was kept.
        kept: [u8; 12],
        /// Those of the last entry as the file reads.
        now: Option<[u8; 12]>,
    },
}

impl From<JournalFault> for DrawFault {
    ghost use Rattle.std.specs.Prelude.{◌≡◌};
    ghost use Rattle.lsv_seq.specs.declared.fault.DrawFault.TheVariants.{Disk};

    ghost from_gives = { λ _ fault. fault ≡ Disk };

    fn from(_: JournalFault) -> Self {
        DrawFault::Disk
    }
}
