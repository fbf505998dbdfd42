//! Restarts: a connection goes on with a log.

ghost use Rattle.std.specs.Prelude.{◌≤◌};
ghost use Rattle.lsv_base.specs.declared.time.TimeSpec.{TimeSpec};
ghost use Rattle.lsv_request.specs.declared.request.Request.TheVariants as request;
ghost use Rattle.lsv_machine.specs.Machine.{Machine};
ghost use Rattle.lsv_keeper.specs.Calls.{ReservesLog, Resumes};
ghost use Rattle.lsv_keeper.specs.Jobs.{DoesRequest};
ghost use Rattle.lsv_keeper.specs.Represents.{Represents};
ghost use Rattle.lsv_keeper.specs.Value.{room};
ghost use Rattle.lsv_keeper.specs.Views.{view_of};

use crate::Keeper;
use crate::logs::OpenLog;
use crate::outcome::Outcome;
use crate::resume::{restart_refusal, resume_log};
use lsv_base::{LogNo, Point};
use lsv_disk::Disk;
use lsv_hook::LineWriter;
use lsv_iolog::LogFault;
use lsv_mask::Search;
use lsv_request::{Refusal, Restart};
use lsv_session::{ConnId, ConnState};

impl<F: LineWriter, H: Search> Keeper<F, H> {
    /// Goes on with a log that nobody writes after its first record that ends at a point, and drops the records after that
    /// one; or refuses the connection.
    pub(crate) fn restart<D: Disk>(
        &mut self,
        disk: &mut D,
        conn: ConnId,
        restart: Restart,
    ) -> Outcome
        requires stands { D.tells → (m : Machine) × Represents (view_of self.old) (D.view disk.old) m }
        requires room { 1 ≤ room (view_of self.old) }
        ensures done { (now : TimeSpec) → DoesRequest D.tells now conn (request.Restart restart) result (view_of self.old) (view_of self.new) (D.view disk.old) (D.view disk.new) }
    {
        if self.table.owner(restart.log).is_some() {
            return self.refuse(disk, conn, Refusal::LogInUse);
        }
        match self.resume(disk, restart.log, restart.point) {
            Ok(its) => {
                self.own(conn, restart.log, its);
                Outcome::Nothing
            }
            Err(fault) => {
                self.enter_state(disk, conn, ConnState::Dead);
                Outcome::Refused(restart_refusal(fault))
            }
        }
    }

    /// Makes room for one more log that is written, and then opens and cuts this one.
    fn resume<D: Disk>(
        &mut self,
        disk: &mut D,
        number: LogNo,
        point: Point,
    ) -> Result<OpenLog, LogFault>
        ensures reserved { ReservesLog result (view_of self.old) (view_of self.new) }
        ensures resumed { Resumes D.tells number point (view_of self.old).texts result (D.view disk.old) (D.view disk.new) }
    {
        if self.reserve_log().is_err() {
            return Err(LogFault::NoMem);
        }
        resume_log(self.alloc, disk, &self.prompt, &self.texts, number, point)
    }
}
