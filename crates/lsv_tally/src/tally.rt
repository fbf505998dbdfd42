ghost use Rattle.std.specs.Prelude.{◌≡◌};
ghost use Rattle.lsv_tally.specs.declared.tally.TallyFault.TheVariants as faults;

use lsv_base::NoMem;
use thiserror::Error;

/// What is found of the event log of a lane.
#[derive(Clone, Copy, Debug, PartialEq, Eq)]
pub enum Tally {
    /// Its journal is absent or has no entry, and its file is absent or empty.
    Nowhere,
    /// Its journal is absent or has no entry, and yet its file has bytes.
    Unlisted,
    /// Its file is absent, or shorter than its journal says.
    Short,
    /// After this many lines comes one that is no event.
    Bad { lines: u64 },
    /// After this many lines the committed bytes end without a line feed.
    Torn { lines: u64 },
    /// It has this many lines, and its journal counts another number.
    Miscounted { lines: u64, counted: u64 },
    /// Each line is an event, and its journal counts as many. The committed bytes too.
    Sound { lines: u64, bytes: u64 },
}

/// Why an event log isn't read.
#[derive(Clone, Copy, Debug, PartialEq, Eq, Error)]
pub enum TallyFault {
    /// A device call on its files failed.
    #[error("a read of its files failed")]
    Disk,
    /// Out of memory.
    #[error("out of memory")]
    NoMem,
}

impl From<NoMem> for TallyFault {
    ghost from_gives = { λ _ fault. fault ≡ faults.NoMem };

    fn from(_: NoMem) -> Self {
        TallyFault::NoMem
    }
}
