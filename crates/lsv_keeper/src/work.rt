//! Jobs: what a connection brings is judged, worked on and answered.

ghost use Rattle.std.specs.Prelude.{◌≡◌, ◌≤◌, false, Ok, IsSome};
ghost use Rattle.lsv_base.specs.Time.{nanos_of};
ghost use Rattle.lsv_msg.specs.declared.messages.ClientMessage.{ClientMessage};
ghost use Rattle.lsv_session.specs.declared.job.Body.TheVariants as bodies;
ghost use Rattle.lsv_machine.specs.Judgement.{judged};
ghost use Rattle.lsv_machine.specs.Machine.{Machine, is_dead};
ghost use Rattle.lsv_keeper.specs.Calls.{AnswersJob};
ghost use Rattle.lsv_keeper.specs.Jobs.{DoesJob, DoesRequest};
ghost use Rattle.lsv_keeper.specs.Logs.{IsWindowFit};
ghost use Rattle.lsv_keeper.specs.Replies.{room_in};
ghost use Rattle.lsv_keeper.specs.Represents.{Represents};
ghost use Rattle.lsv_keeper.specs.Value.{AreWhole, room, sessions_of};
ghost use Rattle.lsv_keeper.specs.Views.{view_of};
ghost use Rattle.lsv_keeper.specs.Causes.{BringsLine, MayAnswer, Says};

use crate::Keeper;
use crate::outcome::{Outcome, put_replies};
use crate::record::fits_window;
use lsv_base::TimeSpec;
use lsv_disk::Disk;
use lsv_hook::LineWriter;
use lsv_machine::{fault_refusal, judged};
use lsv_mask::Search;
use lsv_msg::ClientMessage;
use lsv_request::Request;
use lsv_session::{Body, ConnId, ConnState, Job, Reply};

impl<F: LineWriter, H: Search> Keeper<F, H> {
    /// A job is done, and its replies are put at the end, for which there is room.
    pub(crate) fn answer_job<D: Disk>(
        &mut self,
        disk: &mut D,
        now: TimeSpec,
        job: Job,
        out: &mut Vec<Reply>,
    )
        requires timed { IsSome (nanos_of now) }
        requires stands { D.tells → (m : Machine) × Represents (view_of self.old) (D.view disk.old) m }
        requires places { 1 ≤ room (view_of self.old) }
        requires replies { 2 ≤ room_in out.old }
        ensures done { AnswersJob D.tells now job (view_of self.old) (view_of self.new) out.old out.new (D.view disk.old) (D.view disk.new) }
        ensures says { AreWhole (view_of self.old).logs → Says (λ k. k ≡ job.conn) (λ k. MayAnswer (BringsLine (view_of self.old).log_exit job.body) (view_of self.old) (D.view disk.old) (D.view disk.new)) out.old.items out.new.items }
    {
        let Job { conn, body } = job;
        let outcome = self.answer(disk, now, conn, body);
        put_replies(self.alloc, out, conn, outcome);
    }

    /// What a connection brings is done, or dropped where it was shut.
    fn answer<D: Disk>(&mut self, disk: &mut D, now: TimeSpec, conn: ConnId, body: Body) -> Outcome
        requires timed { IsSome (nanos_of now) }
        requires stands { D.tells → (m : Machine) × Represents (view_of self.old) (D.view disk.old) m }
        requires room { 1 ≤ room (view_of self.old) }
        ensures done { DoesJob D.tells now conn body result (view_of self.old) (view_of self.new) (D.view disk.old) (D.view disk.new) }
    {
        let state = self.table.state(conn);
        if let ConnState::Dead = state {
            return self.drop_job(disk, conn, &body);
        }
        self.act(disk, now, conn, state, body)
    }

    /// What a connection brings that wasn't shut is done.
    fn act<D: Disk>(
        &mut self,
        disk: &mut D,
        now: TimeSpec,
        conn: ConnId,
        state: ConnState,
        body: Body,
    ) -> Outcome
        requires timed { IsSome (nanos_of now) }
        requires state { state ≡ (sessions_of (view_of self.old)).states conn }
        requires alive { is_dead ((sessions_of (view_of self.old)).states conn) ≡ false }
        requires stands { D.tells → (m : Machine) × Represents (view_of self.old) (D.view disk.old) m }
        requires room { 1 ≤ room (view_of self.old) }
        ensures done { DoesJob D.tells now conn body result (view_of self.old) (view_of self.new) (D.view disk.old) (D.view disk.new) }
    {
        match body {
            Body::Msg(message) => self.hear(disk, now, conn, state, message),
            Body::Bad(fault) => self.refuse(disk, conn, fault_refusal(fault)),
            Body::Gone => self.farewell(disk, conn),
        }
    }

    /// A message of a connection that wasn't shut is judged, and then worked on or refused. Each kind of data is judged by
    /// itself, so that its record is made where it is used, and not moved as one of all requests.
    fn hear<D: Disk>(
        &mut self,
        disk: &mut D,
        now: TimeSpec,
        conn: ConnId,
        state: ConnState,
        message: ClientMessage,
    ) -> Outcome
        requires timed { IsSome (nanos_of now) }
        requires state { state ≡ (sessions_of (view_of self.old)).states conn }
        requires alive { is_dead ((sessions_of (view_of self.old)).states conn) ≡ false }
        requires stands { D.tells → (m : Machine) × Represents (view_of self.old) (D.view disk.old) m }
        requires room { 1 ≤ room (view_of self.old) }
        ensures done { DoesJob D.tells now conn (bodies.Msg message) result (view_of self.old) (view_of self.new) (D.view disk.old) (D.view disk.new) }
    {
        match message {
            ClientMessage::Ttyin(m) => self.judge(disk, now, conn, state, ClientMessage::Ttyin(m)),
            ClientMessage::Ttyout(m) => {
                self.judge(disk, now, conn, state, ClientMessage::Ttyout(m))
            }
            ClientMessage::Stdin(m) => self.judge(disk, now, conn, state, ClientMessage::Stdin(m)),
            ClientMessage::Stdout(m) => {
                self.judge(disk, now, conn, state, ClientMessage::Stdout(m))
            }
            ClientMessage::Stderr(m) => {
                self.judge(disk, now, conn, state, ClientMessage::Stderr(m))
            }
            other => self.hear_apart(disk, now, conn, state, other),
        }
    }

    /// The same of a message that is rarer than data.
    #[cold]
    #[inline(never)]
    fn hear_apart<D: Disk>(
        &mut self,
        disk: &mut D,
        now: TimeSpec,
        conn: ConnId,
        state: ConnState,
        message: ClientMessage,
    ) -> Outcome
        requires timed { IsSome (nanos_of now) }
        requires state { state ≡ (sessions_of (view_of self.old)).states conn }
        requires alive { is_dead ((sessions_of (view_of self.old)).states conn) ≡ false }
        requires stands { D.tells → (m : Machine) × Represents (view_of self.old) (D.view disk.old) m }
        requires room { 1 ≤ room (view_of self.old) }
        ensures done { DoesJob D.tells now conn (bodies.Msg message) result (view_of self.old) (view_of self.new) (D.view disk.old) (D.view disk.new) }
    {
        self.judge(disk, now, conn, state, message)
    }

    /// A message is judged, and then worked on or refused.
    #[inline(always)]
    fn judge<D: Disk>(
        &mut self,
        disk: &mut D,
        now: TimeSpec,
        conn: ConnId,
        state: ConnState,
        message: ClientMessage,
    ) -> Outcome
        requires timed { IsSome (nanos_of now) }
        requires state { state ≡ (sessions_of (view_of self.old)).states conn }
        requires alive { is_dead ((sessions_of (view_of self.old)).states conn) ≡ false }
        requires stands { D.tells → (m : Machine) × Represents (view_of self.old) (D.view disk.old) m }
        requires room { 1 ≤ room (view_of self.old) }
        ensures done { DoesJob D.tells now conn (bodies.Msg message) result (view_of self.old) (view_of self.new) (D.view disk.old) (D.view disk.new) }
    {
        fits_window(&message);
        match judged(state.copied(), message) {
            Ok(request) => self.work(disk, now, conn, state, request),
            Err(why) => self.refuse(disk, conn, why),
        }
    }

    /// A request that its judgement lets through is worked on.
    #[inline(always)]
    fn work<D: Disk>(
        &mut self,
        disk: &mut D,
        now: TimeSpec,
        conn: ConnId,
        state: ConnState,
        request: Request,
    ) -> Outcome
        requires timed { IsSome (nanos_of now) }
        requires state { state ≡ (sessions_of (view_of self.old)).states conn }
        requires asked { (message : ClientMessage) × IsWindowFit message × (judged state message ≡ Ok request) }
        requires stands { D.tells → (m : Machine) × Represents (view_of self.old) (D.view disk.old) m }
        requires room { 1 ≤ room (view_of self.old) }
        ensures done { DoesRequest D.tells now conn request result (view_of self.old) (view_of self.new) (D.view disk.old) (D.view disk.new) }
    {
        match request {
            Request::Record(r) => self.record(disk, conn, state, r),
            other => self.work_apart(disk, now, conn, state, other),
        }
    }

    /// The same of a request that is rarer than a record: what a function may hold is cleared where it begins.
    #[cold]
    #[inline(never)]
    fn work_apart<D: Disk>(
        &mut self,
        disk: &mut D,
        now: TimeSpec,
        conn: ConnId,
        state: ConnState,
        request: Request,
    ) -> Outcome
        requires timed { IsSome (nanos_of now) }
        requires state { state ≡ (sessions_of (view_of self.old)).states conn }
        requires asked { (message : ClientMessage) × IsWindowFit message × (judged state message ≡ Ok request) }
        requires stands { D.tells → (m : Machine) × Represents (view_of self.old) (D.view disk.old) m }
        requires room { 1 ≤ room (view_of self.old) }
        ensures done { DoesRequest D.tells now conn request result (view_of self.old) (view_of self.new) (D.view disk.old) (D.view disk.new) }
    {
        match request {
            Request::Hello => self.greet(disk, conn),
            Request::Accept(accept) => self.accept(disk, now, conn, state, accept),
            Request::Reject(report) => self.reject(disk, now, conn, state, report),
            Request::Alert(report) => self.alert(disk, now, conn, state, report),
            Request::Restart(restart) => self.restart(disk, conn, restart),
            Request::Record(r) => self.record(disk, conn, state, r),
            Request::Exit(exit) => self.exit(disk, now, conn, state, exit),
        }
    }
}
