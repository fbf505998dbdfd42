ghost use Rattle.std.specs.Prelude.{◌≡◌, ℕ, List, [], ◌∷◌, ◌++◌, IsErr, OnOk, OnErr};
ghost use Rattle.lsv_base.specs.Outside.{HasCause};
ghost use Rattle.lsv_play.specs.declared.screen.Item.{Item};
ghost use Rattle.lsv_play.specs.Items.{IsPart};

use lsv_base::{Bytes, SinkFault};

/// What is shown on a screen.
#[derive(Debug, Drop)]
pub enum Item {
    /// This many nanoseconds are waited.
    Wait(u64),
    /// These bytes are put.
    Put(Bytes),
}

/// What a session is shown on, such as a terminal.
pub trait Screen {
    /// This type tells its content. What was shown is promised only if it does.
    ghost tells: { Type 0 };

    /// What was waited and put, in order.
    ghost shown: { Self → List Item };

    /// How often a call has failed.
    ghost faults: { Self → ℕ };

    /// Waits this many nanoseconds, or fails.
    fn wait(&mut self, nanos: u64) -> Result<(), SinkFault>
        ensures shown { tells → OnOk result (shown self.new ≡ shown self.old ++ Item.Wait nanos ∷ []) }
        ensures failed { tells → OnErr result (shown self.new ≡ shown self.old) }
        ensures cause { HasCause (IsErr result) (faults self.old) (faults self.new) };

    /// Puts all of these bytes at once, or at a fault some first part of them.
    fn put(&mut self, bytes: &[u8]) -> Result<(), SinkFault>
        ensures shown { tells → OnOk result (shown self.new ≡ shown self.old ++ Item.Put bytes.now ∷ []) }
        ensures failed { OnErr result ((part : List Item) × IsPart part (Item.Put bytes.now ∷ []) × (tells → shown self.new ≡ shown self.old ++ part)) }
        ensures cause { HasCause (IsErr result) (faults self.old) (faults self.new) };
}
