ghost use Rattle.std.specs.Prelude.{◌≡◌, ℕ, List, ◌++◌, IsErr, OnOk, OnErr};
ghost use Rattle.lsv_defs.specs.Pieces.{IsPrefix};
ghost use Rattle.lsv_base.specs.Outside.{HasCause};

use thiserror::Error;

/// A write failed.
#[derive(Clone, Copy, Debug, PartialEq, Eq, Error)]
#[error("a write failed")]
pub struct SinkFault;

/// Where bytes go, as standard output.
pub trait Sink {
    /// Whether this type tells its content: what was put is promised where it does.
    ghost tells: { Type 0 };

    /// The bytes that were put.
    ghost put: { Self → List ℕ };

    /// How often a write has failed.
    ghost faults: { Self → ℕ };

    /// Puts all of these bytes, or at a fault some first part of them.
    fn write(&mut self, bytes: &[u8]) -> Result<(), SinkFault>
        ensures put { tells → OnOk result (put self.new ≡ put self.old ++ bytes.now) }
        ensures failed { tells → OnErr result ((front : List ℕ) × IsPrefix front bytes.now × (put self.new ≡ put self.old ++ front)) }
        ensures cause { HasCause (IsErr result) (faults self.old) (faults self.new) };
}
