use lsv_base::{Bytes, LogNo, NoMem, TimeSpec};
use lsv_request::Request;
use lsv_session::ConnId;
use std::alloc::Global;

/// What a run is set to, but for its texts: the lane and the number of lanes, and whether exits have event lines.
#[derive(Clone, Copy, Debug, PartialEq, Eq)]
pub struct RunSettings {
    pub lane: u32,
    pub lanes: u32,
    pub log_exit: bool,
}

/// A call that writes the lines of events.
pub trait EventLines {
    ghost use Rattle.std.specs.Prelude.{◌≡◌, ℕ, List, Option, IfOk};
    ghost use Rattle.lsv_base.specs.declared.time.TimeSpec.{TimeSpec};
    ghost use Rattle.lsv_request.specs.declared.request.Request.{Request};
    ghost use Rattle.lsv_session.specs.declared.connection.ConnId.{ConnId};

    /// The line that it writes of a request that comes at a moment from a connection, with the log that it names.
    ghost line_of: { Self → TimeSpec → ConnId → Request → Option ℕ → List ℕ };

    /// Writes this line.
    fn line(
        &self,
        alloc: Global,
        now: TimeSpec,
        conn: ConnId,
        asked: &Request,
        log: Option<LogNo>,
    ) -> Result<Bytes, NoMem>
        ensures { IfOk result (λ line. line ≡ line_of self.now now conn asked.now log) };
}
