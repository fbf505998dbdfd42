ghost use Rattle.std.specs.Prelude.{◌≡◌};
ghost use Rattle.lsv_replay.specs.Faults.{of_numbers};
ghost use Rattle.lsv_replay.specs.declared.fault.ListFault.TheVariants as faults;

use lsv_base::{NoMem, SinkFault};
use lsv_disk::Part;
use lsv_seq::SeqFault;
use thiserror::Error;

/// Why a listing isn't whole, or not of sound logs alone.
#[derive(Clone, Copy, Debug, PartialEq, Eq, Error)]
pub enum ListFault {
    /// All is listed, but of the first log that is damaged this part is at fault; or nothing is, since a number file is.
    #[error("a log is damaged")]
    Damaged(Part),
    /// A device call on a file of a log or of the numbers failed.
    #[error("a call on a file of the store failed")]
    Disk,
    /// The screen failed.
    #[error("the screen failed")]
    Screen,
    /// Out of memory.
    #[error("out of memory")]
    NoMem,
}

impl From<SeqFault> for ListFault {
    ghost from_gives = { λ fault given. given ≡ of_numbers fault };

    fn from(fault: SeqFault) -> Self {
        match fault {
            SeqFault::Disk => ListFault::Disk,
            SeqFault::Damaged | SeqFault::LanesDiffer { .. } => ListFault::Damaged(Part::Slots),
        }
    }
}

impl From<SinkFault> for ListFault {
    ghost from_gives = { λ _ given. given ≡ faults.Screen };

    fn from(_: SinkFault) -> Self {
        ListFault::Screen
    }
}

impl From<NoMem> for ListFault {
    ghost from_gives = { λ _ given. given ≡ faults.NoMem };

    fn from(_: NoMem) -> Self {
        ListFault::NoMem
    }
}
