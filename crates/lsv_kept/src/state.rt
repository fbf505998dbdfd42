ghost use Rattle.std.specs.Prelude.{◌≡◌};
ghost use Rattle.lsv_kept.specs.Value.{with_point};

use lsv_base::Bytes;

/// The peer's identifier of a log, and the last commit point that it sent for it, in nanoseconds.
#[derive(Debug, Drop)]
pub struct Kept {
    pub id: Bytes,
    pub point: Option<u64>,
}

/// What is kept of the relaying of a log.
#[derive(Debug, Drop)]
pub enum State {
    Nothing,
    Kept(Kept),
    /// The log is relayed.
    Done,
}

impl State {
    /// Keeps this point of the identifier, if one is kept.
    pub(crate) fn set_point(&mut self, point: u64)
        ensures { self.new ≡ with_point point self.old }
    {
        if let State::Kept(kept) = self {
            kept.point = Some(point);
        }
    }
}
