//! Records.

ghost use Rattle.std.specs.Prelude.{◌≡◌, ◌≤◌, ◌<◌, false, Some, vec_capacity, vec_len, []};
ghost use Rattle.lsv_base.specs.declared.time.TimeSpec.{TimeSpec};
ghost use Rattle.lsv_record.specs.Records.{IsValid};
ghost use Rattle.lsv_request.specs.declared.request.Request.TheVariants as request;
ghost use Rattle.lsv_session.specs.declared.job.Body.TheVariants as bodies;
ghost use Rattle.lsv_machine.specs.Machine.{Machine, is_dead, log_of};
ghost use Rattle.lsv_keeper.specs.Calls.{DoesCall, DoesIfWriting, LetsLogGo};
ghost use Rattle.lsv_keeper.specs.Jobs.{DoesRequest};
ghost use Rattle.lsv_keeper.specs.Logs.{IsWindowFit};
ghost use Rattle.lsv_keeper.specs.Represents.{Represents};
ghost use Rattle.lsv_keeper.specs.Moved.{MaskMoved};
ghost use Rattle.lsv_keeper.specs.Rows.{outcome_of};
ghost use Rattle.lsv_keeper.specs.Value.{KeeperView, room, sessions_of};
ghost use Rattle.lsv_keeper.specs.declared.logs.OpenLog.{OpenLog};
ghost use Rattle.lsv_session.specs.declared.connection.ConnState.TheVariants.{Dead};
ghost use Rattle.lsv_keeper.specs.Views.{view_of};
ghost use Rattle.lsv_keeper.specs.Causes.{Does};

use crate::Keeper;
use crate::logs::{Appended, log_refusal};
use crate::outcome::{Outcome, outcome_of};
use lsv_base::LogNo;
use lsv_disk::Disk;
use lsv_hook::LineWriter;
use lsv_machine::{insert_once, log_of};
use lsv_mask::Search;
use lsv_msg::ClientMessage;
use lsv_record::Record;
use lsv_request::Refusal;
use lsv_session::{ConnId, ConnState};

/// The numbers of a window are of 32 bits, which only their reading shows.
pub(crate) fn fits_window(message: &ClientMessage)
    ensures { IsWindowFit message.now }
{
    if let ClientMessage::Winsize(m) = message {
        let _rows = m.rows;
        let _cols = m.cols;
    }
}

impl<F: LineWriter, H: Search> Keeper<F, H> {
    /// A valid record goes to the log that the connection writes, masked as it is after the others, and the log waits for
    /// its commit point. A log that doesn't take it is let go, and so is one for which memory runs out.
    #[inline(always)]
    pub(crate) fn record<D: Disk>(
        &mut self,
        disk: &mut D,
        conn: ConnId,
        state: ConnState,
        r: Record,
    ) -> Outcome
        requires stands { D.tells → (m : Machine) × Represents (view_of self.old) (D.view disk.old) m }
        requires room { 1 ≤ room (view_of self.old) }
        requires state { state ≡ (sessions_of (view_of self.old)).states conn }
        requires valid { IsValid r }
        ensures done { (now : TimeSpec) → DoesRequest D.tells now conn (request.Record r) result (view_of self.old) (view_of self.new) (D.view disk.old) (D.view disk.new) }
    {
        let Some(log) = log_of(state) else {
            return Outcome::Nothing;
        };
        if self.waiting.reserve(1).is_err() {
            return self.want_memory(disk, conn);
        }
        outcome_of(self.take_record(disk, conn, log, r))
    }

    /// A valid record goes to this log, which waits for its commit point then: there is room for it among the waiting. A reason
    /// alone comes back, since an outcome is large to move.
    #[inline(always)]
    fn take_record<D: Disk>(
        &mut self,
        disk: &mut D,
        conn: ConnId,
        log: LogNo,
        r: Record,
    ) -> Option<Refusal>
        requires stands { D.tells → (m : Machine) × Represents (view_of self.old) (D.view disk.old) m }
        requires room { 1 ≤ room (view_of self.old) }
        requires waiting { vec_len self.old.waiting < vec_capacity self.old.waiting }
        requires valid { IsValid r }
        ensures { (now : TimeSpec) → DoesIfWriting D.tells now conn log (request.Record r) (outcome_of result) (view_of self.old) (view_of self.new) (D.view disk.old) (D.view disk.new) }
    {
        let mut r = r;
        match self.logs.append(log, &self.prompt, &self.texts, &mut r) {
            Appended::Staged => {
                let _ = insert_once(&mut self.waiting, log);
                None
            }
            Appended::Refused(fault) => {
                self.release_refused(disk, conn, log);
                Some(log_refusal(fault))
            }
            Appended::NotOpen => None,
        }
    }

    /// A log that refused a record is taken out and let go, and its connection is shut. It stands apart, since a log is
    /// large to move, and room for one would be cleared for each record.
    #[cold]
    #[inline(never)]
    fn release_refused<D: Disk>(&mut self, disk: &mut D, conn: ConnId, log: LogNo)
        requires moved { D.tells → (before : KeeperView) × (its : OpenLog) × (m : Machine) × MaskMoved log its before (view_of self.old) × Represents before (D.view disk.old) m }
        requires room { 1 ≤ room (view_of self.old) }
        ensures { LetsLogGo D.tells (λ before. (its : OpenLog) × MaskMoved log its before (view_of self.old)) (Does [] ⊥ ⊥ (view_of self.old) (view_of self.new) (D.view disk.old) (D.view disk.new)) log conn Dead (view_of self.old) (view_of self.new) (D.view disk.old) (D.view disk.new) }
    {
        let Some(its) = self.logs.take(log) else {
            return;
        };
        self.let_go(disk, conn, ConnState::Dead, log, its);
    }

    /// Memory runs out: the connection is refused, and the log that it wrote let go.
    pub(crate) fn want_memory<D: Disk>(&mut self, disk: &mut D, conn: ConnId) -> Outcome
        requires stands { D.tells → (m : Machine) × Represents (view_of self.old) (D.view disk.old) m }
        requires room { 1 ≤ room (view_of self.old) }
        ensures is { result ≡ Outcome.Refused Refusal.OutOfMemory }
        ensures done { (now : TimeSpec) → DoesCall D.tells now conn (λ m job. (is_dead (m.states conn) ≡ false) × (job.body ≡ bodies.Gone → ⊥))
            [] ⊥ ⊥ result (view_of self.old) (view_of self.new) (D.view disk.old) (D.view disk.new) }
    {
        self.enter_state(disk, conn, ConnState::Dead);
        Outcome::Refused(Refusal::OutOfMemory)
    }
}
