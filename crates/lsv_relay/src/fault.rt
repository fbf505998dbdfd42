use lsv_base::NoMem;
use lsv_bundle::BundleFault;
use lsv_iolog::ViewFault;
use thiserror::Error;

/// Why a call of a relay failed. Each call gives only those that it names. `NoMem` never stands within another fault.
#[derive(Clone, Copy, Debug, PartialEq, Eq, Error)]
pub enum RelayFault {
    /// The log has no exit yet.
    #[error("the log is not complete")]
    Incomplete,
    /// The log is absent or damaged, or a read of it failed.
    #[error("{0}")]
    Log(ViewFault),
    /// What is kept of the relaying is damaged, or a device call on its files failed.
    #[error("{0}")]
    State(BundleFault),
    /// Out of memory.
    #[error("out of memory")]
    NoMem,
}

impl From<NoMem> for RelayFault {
    ghost use Rattle.std.specs.Prelude.{◌≡◌};
    ghost use Rattle.lsv_relay.specs.declared.fault.RelayFault.TheVariants as faults;

    ghost from_gives = { λ _ fault. fault ≡ faults.NoMem };

    fn from(_: NoMem) -> Self {
        RelayFault::NoMem
    }
}

impl From<ViewFault> for RelayFault {
    ghost use Rattle.std.specs.Prelude.{◌≡◌};
    ghost use Rattle.lsv_relay.specs.Faults.{of_log};

    ghost from_gives = { λ fault given. given ≡ of_log fault };

    fn from(fault: ViewFault) -> Self {
        match fault {
            ViewFault::NoMem => RelayFault::NoMem,
            fault => RelayFault::Log(fault),
        }
    }
}

impl From<BundleFault> for RelayFault {
    ghost use Rattle.std.specs.Prelude.{◌≡◌};
    ghost use Rattle.lsv_relay.specs.Faults.{of_state};

    ghost from_gives = { λ fault given. given ≡ of_state fault };

    fn from(fault: BundleFault) -> Self {
        match fault {
            BundleFault::NoMem => RelayFault::NoMem,
            fault => RelayFault::State(fault),
        }
    }
}
