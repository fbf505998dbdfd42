// The calls of a disk, as a fault names them.
use std::alloc::AllocError;
use std::fmt::Display;
use std::io::ErrorKind;
use std::{fmt, io};

/// Which call failed.
#[derive(Clone, Copy)]
pub enum Call {
    Create,
    Length,
    Read,
    Write,
    Sync,
}

impl Display for Call {
    fn fmt<W: fmt::Write>(&self, f: &mut fmt::Formatter<W>) -> fmt::Result {
        f.write_str(match self {
            Call::Create => "create",
            Call::Length => "length",
            Call::Read => "read",
            Call::Write => "write",
            Call::Sync => "sync",
        })
    }
}

/// Why a call on a file of the store failed.
#[derive(Drop)]
pub enum CallFault {
    /// The system's error.
    Io(io::Error),
    /// A log is to be made, and its folder exists: another log may stand in it.
    FolderExists,
}

impl From<io::Error> for CallFault {
    fn from(e: io::Error) -> Self {
        CallFault::Io(e)
    }
}

impl From<ErrorKind> for CallFault {
    fn from(kind: ErrorKind) -> Self {
        CallFault::Io(kind.into())
    }
}

impl From<AllocError> for CallFault {
    fn from(e: AllocError) -> Self {
        CallFault::Io(e.into())
    }
}
