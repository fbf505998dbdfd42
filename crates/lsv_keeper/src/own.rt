//! A connection comes to write a log.

ghost use Rattle.std.specs.Prelude.{◌≤◌, Some};
ghost use Rattle.lsv_session.specs.Table.{room_for, spare_owners};
ghost use Rattle.lsv_session.specs.declared.connection.ConnState.TheVariants.{Running};
ghost use Rattle.lsv_keeper.specs.Logs.{spare_logs};
ghost use Rattle.lsv_keeper.specs.Calls.{ComesToOwn, ReservesLog};
ghost use Rattle.lsv_keeper.specs.Value.{room, sessions_of};
ghost use Rattle.lsv_keeper.specs.Views.{view_of};

use crate::Keeper;
use crate::logs::OpenLog;
use lsv_base::{LogNo, NoMem};
use lsv_hook::LineWriter;
use lsv_mask::Search;
use lsv_session::{ConnId, ConnState};

impl<F: LineWriter, H: Search> Keeper<F, H> {
    /// Room for one more log that a connection writes. Nothing else is otherwise.
    pub(crate) fn reserve_log(&mut self) -> Result<(), NoMem>
        ensures { ReservesLog result (view_of self.old) (view_of self.new) }
    {
        self.table.reserve_owners(1)?;
        self.logs.reserve()
    }

    /// The connection writes this log, which nobody writes, from now on. There is room for it.
    pub(crate) fn own(&mut self, conn: ConnId, number: LogNo, its: OpenLog)
        requires owners { 1 ≤ spare_owners (view_of self.old).table }
        requires logs { 1 ≤ spare_logs (view_of self.old).logs }
        requires room { room_for ((sessions_of (view_of self.old)).states conn) (Running (Some number)) ≤ room (view_of self.old) }
        ensures { ComesToOwn conn number its (view_of self.old) (view_of self.new) }
    {
        let _ = self.table.claim(number, conn);
        let _ = self.table.set(conn, ConnState::Running(Some(number)));
        self.logs.put(number, its);
    }
}
