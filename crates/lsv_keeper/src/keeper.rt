ghost use Rattle.std.specs.Prelude.{◌≡◌};
ghost use Rattle.lsv_keeper.specs.Views.{view_of};
ghost use Rattle.lsv_keeper.specs.Value.{sessions_of};
ghost use Rattle.lsv_seq.specs.Value.{last_of};

use crate::logs::OpenLogs;
use lsv_base::{Bytes, List, LogNo};
use lsv_eventlog::EventLog;
use lsv_hook::{Formatter, LineWriter};
use lsv_mask::{Prompt, Search};
use lsv_seq::Numbers;
use lsv_session::{ConnId, Table};
use std::alloc::Global;

/// The keeper of a lane: its connections, its logs, its numbers and its event log. Each call is handed the disk that it
/// was opened over, and nothing else changes that lane's files.
#[derive(Drop)]
pub struct Keeper<F: LineWriter, H: Search> {
    pub(crate) alloc: Global,
    pub(crate) lane: u32,
    pub(crate) lanes: u32,
    pub(crate) log_exit: bool,
    pub(crate) texts: List<Bytes>,
    pub(crate) formatter: Formatter<F>,
    pub(crate) prompt: Prompt<H>,
    pub(crate) table: Table,
    pub(crate) logs: OpenLogs,
    pub(crate) numbers: Numbers,
    pub(crate) events: EventLog,
    pub(crate) waiting: Vec<LogNo>,
    pub(crate) noting: Vec<ConnId>,
}

impl<F: LineWriter, H: Search> Keeper<F, H> {
    /// The connection that writes a log.
    pub fn owner(&self, number: LogNo) -> Option<ConnId>
        ensures { result ≡ (sessions_of (view_of self.now)).owner number }
    {
        self.table.owner(number)
    }

    /// The last log number that was drawn, 0 where none was.
    pub fn last_number(&self) -> u32
        ensures { result ≡ last_of (view_of self.now).numbers }
    {
        self.numbers.last()
    }
}
