ghost use Rattle.std.specs.Prelude.{◌≡◌};
ghost use Rattle.lsv_msg.specs.declared.fault.MsgFault.TheVariants as faults;
ghost use Rattle.lsv_msg.specs.declared.fault.EncodeFault.TheVariants as encode_faults;

use lsv_base::NoMem;
use lsv_wire::WireFault;
use std::alloc::{AllocError, AllocFailed};
use thiserror::Error;

/// Why bytes are no message. Fields are judged from front to back, a message inside a field wholly before the next
/// field; then the fault that ends the list of fields, and last that there is no member.
#[derive(Clone, Copy, Debug, PartialEq, Eq, Error)]
pub enum MsgFault {
    /// The bytes are no list of fields. The place counts from the first byte of the message that the field stands in.
    #[error("{0}")]
    Wire(WireFault),
    /// No member of the message's oneof is set.
    #[error("the message is of no known type")]
    Untyped,
    /// A second field of this number, which comes once at most, or a second member of a oneof, of this number.
    #[error("field {0} comes twice")]
    Twice(u32),
    /// A known field of this number has another type.
    #[error("field {0} has another type")]
    WrongType(u32),
    #[error("out of memory")]
    NoMem,
}

impl From<WireFault> for MsgFault {
    ghost from_gives = { λ fault e. e ≡ faults.Wire fault };

    fn from(fault: WireFault) -> Self {
        MsgFault::Wire(fault)
    }
}

impl From<NoMem> for MsgFault {
    ghost from_gives = { λ _ e. e ≡ faults.NoMem };

    fn from(_: NoMem) -> Self {
        MsgFault::NoMem
    }
}

impl From<AllocError> for MsgFault {
    ghost from_gives = { λ _ e. e ≡ faults.NoMem };

    fn from(_: AllocError) -> Self {
        MsgFault::NoMem
    }
}

impl<T: Drop> From<AllocFailed<T>> for MsgFault {
    ghost from_gives = { λ _ e. e ≡ faults.NoMem };

    fn from(_: AllocFailed<T>) -> Self {
        MsgFault::NoMem
    }
}

/// Why a message isn't written.
#[derive(Clone, Copy, Debug, PartialEq, Eq, Error)]
pub enum EncodeFault {
    /// The canonical bytes are this many, more than a frame holds.
    #[error("a message of {0} bytes is longer than a frame holds")]
    TooLong(u64),
    #[error("out of memory")]
    NoMem,
}

impl From<NoMem> for EncodeFault {
    ghost from_gives = { λ _ e. e ≡ encode_faults.NoMem };

    fn from(_: NoMem) -> Self {
        EncodeFault::NoMem
    }
}
