use std::alloc::{AllocError, AllocFailed};
use thiserror::Error;

/// Memory ran out.
#[derive(Clone, Copy, Debug, PartialEq, Eq, Error)]
#[error("out of memory")]
pub struct NoMem;

impl From<AllocError> for NoMem {
    fn from(_: AllocError) -> Self {
        NoMem
    }
}

impl<T: Drop> From<AllocFailed<T>> for NoMem {
    fn from(_: AllocFailed<T>) -> Self {
        NoMem
    }
}
