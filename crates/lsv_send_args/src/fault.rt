//! Why words are no command.

ghost use Rattle.std.specs.Prelude.{◌≡◌};
ghost use Rattle.lsv_send_args.specs.declared.fault.WordsFault.TheVariants as faults;

use lsv_base::NoMem;
use std::alloc::AllocError;
use thiserror::Error;

/// What is out of its form in words that clap takes.
#[derive(Clone, Copy, Debug, Error, PartialEq, Eq)]
pub enum Unfit {
    #[error("-p takes a port, from 1 to 65535")]
    Port,
    #[error("-r takes a resume point in seconds, as 12 or 1.5")]
    ResumePoint,
    #[error("-s takes an elapsed time in seconds, as 12 or 1.5")]
    StopPoint,
    #[error("-i needs -r, the resume point")]
    IdAlone,
    #[error("-r needs -i, the log's identifier at the server")]
    PointAlone,
    #[error("-A and -R exclude each other")]
    AcceptAndReject,
    #[error("-A and -R send no records, so -i isn't taken with them")]
    AloneWithId,
    #[error("-A and -R send no records, so -r isn't taken with them")]
    AloneWithPoint,
    #[error("-A and -R send no records, so -s isn't taken with them")]
    AloneWithStop,
}

/// Why words were not read.
#[derive(Clone, Copy, Debug, Error, PartialEq, Eq)]
pub enum WordsFault {
    /// clap refuses them.
    #[error("usage")]
    Refused,
    /// clap takes them, and a value or a pair of options is out of its form.
    #[error("usage")]
    Unfit(Unfit),
    #[error("out of memory")]
    NoMem,
}

impl From<NoMem> for WordsFault {
    ghost from_gives = { λ _ fault. fault ≡ faults.NoMem };

    fn from(_: NoMem) -> Self {
        WordsFault::NoMem
    }
}

impl From<AllocError> for WordsFault {
    ghost from_gives = { λ _ fault. fault ≡ faults.NoMem };

    fn from(_: AllocError) -> Self {
        WordsFault::NoMem
    }
}
