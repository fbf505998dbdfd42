ghost use Rattle.std.specs.Prelude.{◌≡◌};

use lsv_base::LogNo;

/// A connection: the worker that serves it, and the worker's own count of connections. No worker gives a number twice.
#[derive(Clone, Copy, Debug, PartialEq, Eq, PartialOrd, Ord, Hash)]
pub struct ConnId {
    pub worker: u32,
    pub seq: u64,
}

/// What a connection is doing.
#[derive(Clone, Copy, Debug, PartialEq, Eq)]
pub enum ConnState {
    /// Nothing was said yet. So is each connection that the table doesn't know.
    Fresh,
    /// It said hello.
    Greeted,
    /// It gave an alert, and no session runs.
    Alerted,
    /// A command runs; its records go into this log, where there is one.
    Running(Option<LogNo>),
    /// It was shut: what it still sends is dropped.
    Dead,
}

impl ConnState {
    /// A copy, for a state that is passed on twice.
    #[inline(always)]
    pub fn copied(&self) -> ConnState
        ensures { result ≡ self.now }
    {
        *self
    }
}
