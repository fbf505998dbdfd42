use lsv_base::NoMem;
use thiserror::Error;

/// Why the numbers of a store aren't read.
#[derive(Clone, Copy, Debug, PartialEq, Eq, Error)]
pub enum NumbersFault {
    /// A device call on a number file of this lane failed.
    #[error("a call on the number file of lane {0} failed")]
    Disk(u32),
    /// The last entry of this lane's number file isn't one of the lane's.
    #[error("the number file of lane {0} is damaged")]
    Damaged(u32),
}

/// Why the logs of a store weren't gone through.
#[derive(Clone, Copy, Debug, PartialEq, Eq, Error)]
pub enum ForwardFault {
    /// The numbers of the store aren't read.
    #[error("the numbers of the store aren't read")]
    Numbers(NumbersFault),
    /// Out of memory.
    #[error("out of memory")]
    NoMem,
}

impl From<NumbersFault> for ForwardFault {
    ghost use Rattle.std.specs.Prelude.{◌≡◌};
    ghost use Rattle.lsv_forward.specs.declared.fault.ForwardFault.TheVariants.{Numbers};

    ghost from_gives = { λ fault given. given ≡ Numbers fault };

    fn from(fault: NumbersFault) -> Self {
        ForwardFault::Numbers(fault)
    }
}

impl From<NoMem> for ForwardFault {
    ghost use Rattle.std.specs.Prelude.{◌≡◌};
    ghost use Rattle.lsv_forward.specs.declared.fault.ForwardFault.TheVariants as faults;

    ghost from_gives = { λ _ given. given ≡ faults.NoMem };

    fn from(_: NoMem) -> Self {
        ForwardFault::NoMem
    }
}
