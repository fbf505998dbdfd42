use lsv_disk::{DiskFault, Part};
use std::alloc::{AllocError, AllocFailed};
use thiserror::Error;

/// Why a call of a bundle failed. Each call gives only those that it names.
#[derive(Clone, Copy, Debug, PartialEq, Eq, Error)]
pub enum BundleFault {
    /// A device call on a file of this bundle failed.
    #[error("a call on a file of the bundle failed")]
    Disk,
    /// The bundle answered `Disk` before, and wasn't opened again.
    #[error("the bundle failed before, and was not opened again")]
    Broken,
    /// This data file is absent, or shorter than the last entry says.
    #[error("a data file is absent, or shorter than the last entry says")]
    Damaged(Part),
    /// This file would pass 2^40 bytes.
    #[error("a data file would pass 2^40 bytes")]
    Full(Part),
    /// Out of memory.
    #[error("out of memory")]
    NoMem,
}

impl From<DiskFault> for BundleFault {
    ghost use Rattle.std.specs.Prelude.{◌≡◌};
    ghost use Rattle.lsv_bundle.specs.declared.fault.BundleFault.TheVariants.{Disk};

    ghost from_gives = { λ _ fault. fault ≡ Disk };

    fn from(_: DiskFault) -> Self {
        BundleFault::Disk
    }
}

impl From<AllocError> for BundleFault {
    ghost use Rattle.std.specs.Prelude.{◌≡◌};
    ghost use Rattle.lsv_bundle.specs.declared.fault.BundleFault.TheVariants.{NoMem};

    ghost from_gives = { λ _ fault. fault ≡ NoMem };

    fn from(_: AllocError) -> Self {
        BundleFault::NoMem
    }
}

impl<T: Drop> From<AllocFailed<T>> for BundleFault {
    ghost use Rattle.std.specs.Prelude.{◌≡◌};
    ghost use Rattle.lsv_bundle.specs.declared.fault.BundleFault.TheVariants.{NoMem};

    ghost from_gives = { λ _ fault. fault ≡ NoMem };

    fn from(_: AllocFailed<T>) -> Self {
        BundleFault::NoMem
    }
}
