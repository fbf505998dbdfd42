ghost use Rattle.std.specs.Prelude.{◌≡◌};
ghost use Rattle.lsv_port.specs.Memory.Script.{fails_turn, is_stop};

use lsv_base::Bytes;

/// What happens next at a port whose links are fixed beforehand.
#[derive(Debug, Drop)]
pub enum Step {
    /// A link of this number is opened. A number that was opened before, or above 1,000,000, is passed over.
    Open(u32),
    /// Bytes arrive on a link. After its Last none do.
    Give(u32, Bytes),
    /// A link takes this many bytes more. Until its first Room it takes all.
    Room(u32, u32),
    /// A link's input ends after the bytes that have arrived.
    Last(u32),
    /// A link's next read or write fails.
    Break(u32),
    /// The turn fails.
    BreakTurn,
    /// Nothing happens.
    Wake,
    /// The server is to end.
    Stop,
}

impl Step {
    /// Whether it makes the turn fail.
    pub(crate) fn fails_turn(&self) -> bool
        ensures { result ≡ fails_turn self.now }
    {
        matches!(self, Step::BreakTurn)
    }

    /// Whether it tells Stop.
    pub(crate) fn is_stop(&self) -> bool
        ensures { result ≡ is_stop self.now }
    {
        matches!(self, Step::Stop)
    }
}
