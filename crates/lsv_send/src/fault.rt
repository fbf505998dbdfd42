//! Why a sender stops.
ghost use Rattle.std.specs.Prelude.{◌≡◌};
ghost use Rattle.lsv_send.specs.declared.fault.SendFault.TheVariants as faults;

use lsv_base::{NoMem, SinkFault};
use lsv_iolog::ViewFault;
use std::alloc::AllocError;

/// Why a sender stops before all is sent.
#[derive(Clone, Copy, Debug, PartialEq, Eq)]
pub enum SendFault {
    /// The log isn't read on.
    Log(ViewFault),
    /// A line wasn't printed.
    Sink,
    /// Out of memory.
    NoMem,
}

impl From<NoMem> for SendFault {
    ghost from_gives = { λ _ fault. fault ≡ faults.NoMem };

    fn from(_: NoMem) -> Self {
        SendFault::NoMem
    }
}

impl From<AllocError> for SendFault {
    ghost from_gives = { λ _ fault. fault ≡ faults.NoMem };

    fn from(_: AllocError) -> Self {
        SendFault::NoMem
    }
}

impl From<SinkFault> for SendFault {
    ghost from_gives = { λ _ fault. fault ≡ faults.Sink };

    fn from(_: SinkFault) -> Self {
        SendFault::Sink
    }
}

impl From<ViewFault> for SendFault {
    ghost from_gives = { λ log fault. fault ≡ faults.Log log };

    fn from(fault: ViewFault) -> Self {
        SendFault::Log(fault)
    }
}
