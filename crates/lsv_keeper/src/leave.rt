//! Connections that come to their end: refused, gone, or shut; and what they wrote.

ghost use Rattle.std.specs.Prelude.{◌≡◌, ◌≤◌, ℕ, true, false, [], Some, None};
ghost use Rattle.lsv_base.specs.declared.time.TimeSpec.{TimeSpec};
ghost use Rattle.lsv_session.specs.declared.connection.ConnState.{ConnState};
ghost use Rattle.lsv_session.specs.declared.job.Body.{Body};
ghost use Rattle.lsv_machine.specs.Machine.{Machine, is_dead};
ghost use Rattle.lsv_machine.specs.Work.{plain, refused};
ghost use Rattle.lsv_keeper.specs.Calls.{ComesInto, DoesCall, LetsLogGo, Releases};
ghost use Rattle.lsv_keeper.specs.Frames.{EntersState};
ghost use Rattle.lsv_keeper.specs.Represents.{Represents};
ghost use Rattle.lsv_keeper.specs.Views.{view_of};
ghost use Rattle.lsv_session.specs.Table.{room_for};
ghost use Rattle.lsv_session.specs.declared.job.Body.TheVariants as bodies;
ghost use Rattle.lsv_machine.specs.Machine.{log_of};
ghost use Rattle.lsv_machine.specs.Answers.{refusal};
ghost use Rattle.lsv_machine.specs.History.{is_look};
ghost use Rattle.lsv_keeper.specs.Leaving.{TakenOut};
ghost use Rattle.lsv_keeper.specs.Value.{KeeperView, room, sessions_of, settings_of};
ghost use Rattle.lsv_keeper.specs.declared.outcome.Outcome.{Outcome};
ghost use Rattle.lsv_keeper.specs.Causes.{LetsGo};

use crate::Keeper;
use crate::logs::OpenLog;
use crate::outcome::Outcome;
use lsv_base::LogNo;
use lsv_disk::Disk;
use lsv_hook::LineWriter;
use lsv_machine::{forget, log_of, remove};
use lsv_mask::Search;
use lsv_request::Refusal;
use lsv_session::{Body, ConnId, ConnState};

impl<F: LineWriter, H: Search> Keeper<F, H> {
    /// The connection comes into a state in which it writes no log: the one that it wrote is flushed, without a commit
    /// point, and let go.
    pub(crate) fn enter_state<D: Disk>(&mut self, disk: &mut D, conn: ConnId, state: ConnState)
        requires stands { D.tells → (m : Machine) × Represents (view_of self.old) (D.view disk.old) m }
        requires writes_none { log_of state ≡ None }
        requires room { room_for ((sessions_of (view_of self.old)).states conn) state ≤ room (view_of self.old) }
        ensures { ComesInto D.tells conn state (view_of self.old) (view_of self.new) (D.view disk.old) (D.view disk.new) }
    {
        match log_of(self.table.state(conn)) {
            Some(log) => match self.logs.take(log) {
                Some(its) => self.let_go(disk, conn, state, log, its),
                None => self.release(conn, state, log),
            },
            None => {
                let _ = self.table.set(conn, state);
            }
        }
    }

    /// The log that the connection wrote, and that was taken out, is flushed, without a commit point, and the connection
    /// comes into a state in which it writes no log.
    pub(crate) fn let_go<D: Disk>(
        &mut self,
        disk: &mut D,
        conn: ConnId,
        state: ConnState,
        log: LogNo,
        its: OpenLog,
    )
        requires taken_out { D.tells → (before : KeeperView) × (m : Machine) × TakenOut log its before (view_of self.old) × Represents before (D.view disk.old) m }
        requires writes_none { log_of state ≡ None }
        requires room { room_for ((sessions_of (view_of self.old)).states conn) state ≤ room (view_of self.old) }
        ensures gone { LetsLogGo D.tells (λ before. TakenOut log its before (view_of self.old)) (LetsGo log (view_of self.old) (view_of self.new) (D.view disk.old) (D.view disk.new)) log conn state (view_of self.old) (view_of self.new) (D.view disk.old) (D.view disk.new) }
        ensures enters { EntersState conn state (view_of self.old) (view_of self.new) }
    {
        let mut its = its;
        let _ = its.log.flush(disk);
        self.release(conn, state, log);
    }

    /// The connection comes into a state, and nobody writes the log any more.
    pub(crate) fn release(&mut self, conn: ConnId, state: ConnState, log: LogNo)
        requires room { room_for ((sessions_of (view_of self.old)).states conn) state ≤ room (view_of self.old) }
        ensures { Releases log conn state (view_of self.old) (view_of self.new) }
    {
        remove(&mut self.waiting, log);
        self.table.release_log(log);
        let _ = self.table.set(conn, state);
    }

    /// The connection is refused.
    pub(crate) fn refuse<D: Disk>(&mut self, disk: &mut D, conn: ConnId, why: Refusal) -> Outcome
        requires stands { D.tells → (m : Machine) × Represents (view_of self.old) (D.view disk.old) m }
        requires room { 1 ≤ room (view_of self.old) }
        ensures is { result ≡ Outcome.Refused why }
        ensures done { (now : TimeSpec) → DoesCall D.tells now conn (λ m job. (is_dead (m.states conn) ≡ false) × (is_look (refusal conn why) ≡ false) × ((n : ℕ) → plain (settings_of (view_of self.old)) now job n m ≡ refused conn why m))
            [] ⊥ ⊥ result (view_of self.old) (view_of self.new) (D.view disk.old) (D.view disk.new) }
    {
        self.enter_state(disk, conn, ConnState::Dead);
        Outcome::Refused(why)
    }

    /// The connection went.
    pub(crate) fn farewell<D: Disk>(&mut self, disk: &mut D, conn: ConnId) -> Outcome
        requires stands { D.tells → (m : Machine) × Represents (view_of self.old) (D.view disk.old) m }
        ensures is { result ≡ Outcome.Farewell }
        ensures done { (now : TimeSpec) → DoesCall D.tells now conn (λ m job. (job.body ≡ bodies.Gone) × (is_dead (m.states conn) ≡ false))
            [] ⊥ ⊥ result (view_of self.old) (view_of self.new) (D.view disk.old) (D.view disk.new) }
    {
        forget(&mut self.noting, conn);
        self.enter_state(disk, conn, ConnState::Fresh);
        Outcome::Farewell
    }

    /// A job of a dead connection is dropped, and a `Gone` forgets the connection.
    pub(crate) fn drop_job<D: Disk>(&mut self, disk: &mut D, conn: ConnId, body: &Body) -> Outcome
        requires stands { D.tells → (m : Machine) × Represents (view_of self.old) (D.view disk.old) m }
        ensures is { result ≡ Outcome.Nothing }
        ensures done { (now : TimeSpec) → DoesCall D.tells now conn (λ m job. (job.body ≡ body.now) × (is_dead (m.states conn) ≡ true))
            [] ⊥ ⊥ result (view_of self.old) (view_of self.new) (D.view disk.old) (D.view disk.new) }
    {
        if let Body::Gone = body {
            forget(&mut self.noting, conn);
            self.enter_state(disk, conn, ConnState::Fresh);
        }
        Outcome::Nothing
    }
}
