//! Exits.

ghost use Rattle.std.specs.Prelude.{◌≡◌, ◌≤◌, true, None, Ok, IfErr, IsSome, OnOk, [], ◌∷◌, IsErrOf};
ghost use Rattle.lsv_base.specs.Time.{nanos_of};
ghost use Rattle.lsv_msg.specs.declared.messages.ClientMessage.{ClientMessage};
ghost use Rattle.lsv_request.specs.declared.request.Request.TheVariants as request;
ghost use Rattle.lsv_machine.specs.Failures.{AsksFor};
ghost use Rattle.lsv_machine.specs.Judgement.{judged};
ghost use Rattle.lsv_machine.specs.Machine.{Machine, log_of};
ghost use Rattle.lsv_keeper.specs.Exits.{LineAdded, LineRefused};
ghost use Rattle.lsv_keeper.specs.Calls.{DoesCall, DoesIfWriting};
ghost use Rattle.lsv_keeper.specs.Frames.{LineKeeps};
ghost use Rattle.lsv_keeper.specs.Jobs.{DoesRequest};
ghost use Rattle.lsv_keeper.specs.Represents.{Represents};
ghost use Rattle.lsv_keeper.specs.Value.{event_line, room, sessions_of};
ghost use Rattle.lsv_keeper.specs.Views.{view_of};
ghost use Rattle.lsv_keeper.specs.Causes.{IsFaultRefusal};

use crate::Keeper;
use crate::logs::log_refusal;
use crate::outcome::Outcome;
use lsv_base::{LogNo, TimeSpec};
use lsv_disk::Disk;
use lsv_event::{Event, Peer};
use lsv_hook::LineWriter;
use lsv_info::Exit;
use lsv_iolog::LogFault;
use lsv_machine::log_of;
use lsv_mask::Search;
use lsv_request::Refusal;
use lsv_session::{ConnId, ConnState};

impl<F: LineWriter, H: Search> Keeper<F, H> {
    /// A session ends, and the log that it has: by one flush its exit is set and all its records are committed, then its
    /// event line is added if exits have one, and then it is answered. A line that is refused leaves the exit set.
    pub(crate) fn exit<D: Disk>(
        &mut self,
        disk: &mut D,
        now: TimeSpec,
        conn: ConnId,
        state: ConnState,
        exit: Exit,
    ) -> Outcome
        requires stands { D.tells → (m : Machine) × Represents (view_of self.old) (D.view disk.old) m }
        requires room { 1 ≤ room (view_of self.old) }
        requires state { state ≡ (sessions_of (view_of self.old)).states conn }
        requires asked { (message : ClientMessage) × (judged state message ≡ Ok (request.Exit exit)) }
        requires timed { IsSome (nanos_of now) }
        ensures done { DoesRequest D.tells now conn (request.Exit exit) result (view_of self.old) (view_of self.new) (D.view disk.old) (D.view disk.new) }
    {
        match log_of(state) {
            Some(log) => self.end_log(disk, now, conn, log, exit),
            None => self.end_session(disk, now, conn, exit),
        }
    }

    /// A session that has no log ends.
    fn end_session<D: Disk>(
        &mut self,
        disk: &mut D,
        now: TimeSpec,
        conn: ConnId,
        exit: Exit,
    ) -> Outcome
        requires stands { D.tells → (m : Machine) × Represents (view_of self.old) (D.view disk.old) m }
        requires room { 1 ≤ room (view_of self.old) }
        requires timed { IsSome (nanos_of now) }
        requires run { IsSome (nanos_of exit.run) }
        ensures { DoesCall D.tells now conn (λ m job. (log_of (m.states conn) ≡ None) × AsksFor (m.states conn) job.body (request.Exit exit)) (conn ∷ []) ((view_of self.old).log_exit ≡ true) (IsFaultRefusal result)
            result (view_of self.old) (view_of self.new) (D.view disk.old) (D.view disk.new) }
    {
        self.enter_state(disk, conn, ConnState::Dead);
        match self.exit_line(disk, now, conn, None, exit) {
            Ok(()) => Outcome::Shut,
            Err(why) => Outcome::Refused(why),
        }
    }

    /// A log ends, and its session.
    fn end_log<D: Disk>(
        &mut self,
        disk: &mut D,
        now: TimeSpec,
        conn: ConnId,
        log: LogNo,
        exit: Exit,
    ) -> Outcome
        requires stands { D.tells → (m : Machine) × Represents (view_of self.old) (D.view disk.old) m }
        requires room { 1 ≤ room (view_of self.old) }
        requires timed { IsSome (nanos_of now) }
        requires run { IsSome (nanos_of exit.run) }
        ensures { DoesIfWriting D.tells now conn log (request.Exit exit) result (view_of self.old) (view_of self.new) (D.view disk.old) (D.view disk.new) }
    {
        let Some(mut its) = self.logs.take(log) else {
            return Outcome::Nothing;
        };
        if its.log.is_complete() {
            self.release(conn, ConnState::Dead, log);
            return Outcome::Nothing;
        }
        match its.log.finish(disk, &exit) {
            Ok(point) => {
                self.release(conn, ConnState::Dead, log);
                match self.exit_line(disk, now, conn, Some(log), exit) {
                    Ok(()) => Outcome::Finished(point),
                    Err(why) => Outcome::Refused(why),
                }
            }
            Err(fault) => match fault {
                LogFault::Disk => {
                    self.release(conn, ConnState::Dead, log);
                    Outcome::Refused(Refusal::DeviceFault)
                }
                _ => {
                    self.let_go(disk, conn, ConnState::Dead, log, its);
                    Outcome::Refused(log_refusal(fault))
                }
            },
        }
    }

    /// The event line of an exit is added, where exits have one.
    fn exit_line<D: Disk>(
        &mut self,
        disk: &mut D,
        now: TimeSpec,
        conn: ConnId,
        log: Option<LogNo>,
        exit: Exit,
    ) -> Result<(), Refusal>
        requires timed { IsSome (nanos_of now) }
        requires run { IsSome (nanos_of exit.run) }
        ensures frame { LineKeeps D.tells (conn ∷ []) ((view_of self.old).log_exit ≡ true) result (IsErrOf result Refusal.DeviceFault) (view_of self.old) (view_of self.new) (D.view disk.old) (D.view disk.new) }
        ensures added { D.tells → OnOk result ((m : Machine) → Represents (view_of self.old) (D.view disk.old) m
            → LineAdded conn (event_line (view_of self.old).kind now conn (request.Exit exit) log) m (view_of self.old) (view_of self.new) (D.view disk.new)) }
        ensures refused { D.tells → IfErr result (λ why. (m : Machine) → Represents (view_of self.old) (D.view disk.old) m
            → LineRefused (event_line (view_of self.old).kind now conn (request.Exit exit) log) why m (view_of self.old) (view_of self.new) (D.view disk.old) (D.view disk.new)) }
    {
        if !self.log_exit {
            return Ok(());
        }
        let peer = Peer {
            worker: conn.worker,
            seq: conn.seq,
        };
        let event = Event::Exit {
            at: now,
            peer,
            log,
            exit,
        };
        self.add_line(disk, conn, &event)
    }
}
