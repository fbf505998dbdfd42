ghost use Rattle.std.specs.Prelude.{◌≡◌, ◌+◌, ◌^◌, nat_le, nat_lt, false, length, ◌∷◌, [], if◌then◌else◌, Some, None, Ok, IfOk, OnOk, SomeIff, IsTrue};
ghost use Rattle.lsv_machine.specs.Answers.{Shut, farewell, say};
ghost use Rattle.lsv_machine.specs.Machine.{LogState.There, forgets, is_dead, log_of, with_log, with_owner, with_state};
ghost use Rattle.lsv_machine.specs.Work.{adds_line, answered, before_line, can_cut, cut_to, dropped, empty_log, ends, finished, has_line, last_number, line_fits, makes, next_number, opened, opens, plain, refused, restarted, sets_exit, silently, taken, work};
ghost use Rattle.lsvt_model.specs.Inner.{Gives, adds_any, fits_any, noted};
ghost use Rattle.lsvt_model.specs.Inner.{IsLineOf, drawn, next_of};
ghost use Rattle.lsvt_model.specs.Views.{machine_of, settings_of, stored_of};
ghost use Rattle.lsv_request.specs.declared.request.Request.TheVariants as request;
ghost use Rattle.lsv_session.specs.declared.connection.ConnState.TheVariants.{Running};

use crate::limits::{covered, end_with, fits_file};
use crate::logs::{Log, add_record, find_log, finish_log, owner_of, put_log, resume_log};
use crate::points::first;
use crate::told::Told;
use crate::{EventLines, Model, Records, RunSettings};
use lsv_base::{Bytes, LogNo, NoMem, TimeSpec};
use lsv_info::{write_exit, write_head};
use lsv_machine::{fault_refusal, insert_once, is_running, judged, log_of, note};
use lsv_record::Record;
use lsv_request::{Accept, Refusal, Request, Restart};
use lsv_session::{Body, ConnId, ConnState, Job};

/// This many cuts can't be counted.
const CUTS_LIMIT: u64 = 9_223_372_036_854_775_808;

/// The event log has no more bytes.
const LONGEST_LINES: u128 = 1_099_511_627_776;

impl Model {
    /// What a job does where memory is ample and no device fails.
    pub(crate) fn act<E: EventLines>(
        &mut self,
        set: RunSettings,
        events: &E,
        job: Job,
        now: TimeSpec,
    ) -> Result<Told, NoMem>
        ensures { IfOk result (λ told. Gives (plain (settings_of set (E.line_of events.now)) now job (next_number (settings_of set (E.line_of events.now)) (machine_of self.old)) (machine_of self.old)) job.conn told (machine_of self.new)) }
    {
        let conn = job.conn;
        if self.is_dead(conn) {
            return self.drop_job(conn, job.body);
        }
        match job.body {
            Body::Msg(message) => match judged(self.state(conn), message) {
                Ok(asked) => self.answer(set, events, now, conn, asked),
                Err(why) => self.refuse(conn, why),
            },
            Body::Bad(fault) => self.refuse(conn, fault_refusal(fault)),
            Body::Gone => self.farewell(conn),
        }
    }

    fn is_dead(&self, conn: ConnId) -> bool
        ensures { result ≡ is_dead ((machine_of self.now).states conn) }
    {
        matches!(self.state(conn), ConnState::Dead)
    }

    /// A job of a dead connection is dropped, and a `Gone` forgets the connection.
    fn drop_job(&mut self, conn: ConnId, body: Body) -> Result<Told, NoMem>
        ensures { IfOk result (λ told. Gives (dropped conn body (machine_of self.old)) conn told (machine_of self.new)) }
    {
        match body {
            Body::Msg(_) | Body::Bad(_) => Ok(Told::Nothing),
            Body::Gone => {
                self.forget(conn)?;
                Ok(Told::Nothing)
            }
        }
    }

    fn farewell(&mut self, conn: ConnId) -> Result<Told, NoMem>
        ensures { IfOk result (λ told. Gives (record { answers = farewell conn; line = []; machine = forgets conn (machine_of self.old) }) conn told (machine_of self.new)) }
    {
        self.forget(conn)?;
        Ok(Told::Farewell)
    }

    /// The connection is refused.
    fn refuse(&mut self, conn: ConnId, why: Refusal) -> Result<Told, NoMem>
        ensures { IfOk result (λ told. Gives (refused conn why (machine_of self.old)) conn told (machine_of self.new)) }
    {
        self.leave(conn, ConnState::Dead)?;
        Ok(Told::Refused(why))
    }

    /// The work of a request that its judgement lets through, and its event line.
    fn answer<E: EventLines>(
        &mut self,
        set: RunSettings,
        events: &E,
        now: TimeSpec,
        conn: ConnId,
        asked: Request,
    ) -> Result<Told, NoMem>
        ensures { IfOk result (λ told. Gives (answered (settings_of set (E.line_of events.now)) now conn ((machine_of self.old).states conn) (Ok asked) (next_number (settings_of set (E.line_of events.now)) (machine_of self.old)) (machine_of self.old)) conn told (machine_of self.new)) }
    {
        let state = self.state(conn);
        let line = self.event_line(set, events, now, conn, &asked)?;
        self.work(set, conn, state, asked, line)
    }

    /// The work of a request, and its event line if there is one.
    fn work(
        &mut self,
        set: RunSettings,
        conn: ConnId,
        state: ConnState,
        asked: Request,
        line: Option<Bytes>,
    ) -> Result<Told, NoMem>
        requires { IsLineOf asked line }
        ensures { IfOk result (λ told. Gives (noted line conn (before_line state asked (next_of set (machine_of self.old)) (machine_of self.old)) (machine_of self.old) (work conn state asked (next_of set (machine_of self.old)) (machine_of self.old))) conn told (machine_of self.new)) }
    {
        match asked {
            Request::Hello => self.enter(conn, ConnState::Greeted, None),
            Request::Accept(accept) => self.accept(set, conn, state, accept, line),
            Request::Reject(_) if is_running(state) => self.stay(conn, line),
            Request::Reject(_) => self.end(conn, line),
            Request::Alert(_) if is_running(state) => self.stay(conn, line),
            Request::Alert(_) => self.enter(conn, ConnState::Alerted, line),
            Request::Restart(restart) => self.restart(conn, restart),
            Request::Record(r) => match log_of(state) {
                Some(log) => self.take(conn, log, r),
                None => Ok(Told::Nothing),
            },
            Request::Exit(exit) => match log_of(state) {
                Some(log) => {
                    let text = write_exit(self.alloc, &exit)?;
                    self.finish(conn, log, text, line)
                }
                None => self.end(conn, line),
            },
        }
    }

    /// The number that the next accept draws: of the lane, the first or the next one. None where all were given.
    fn next_number(&self, set: RunSettings) -> Option<LogNo>
        ensures { result ≡ drawn set (machine_of self.now) }
    {
        let number = match self.last {
            None => u64::from(set.lane) + 1,
            Some(last) => u64::from(last.get()) + u64::from(set.lanes),
        };
        LogNo::new(u32::try_from(number).ok()?)
    }

    /// The event line of a request, where it has one.
    fn event_line<E: EventLines>(
        &self,
        set: RunSettings,
        events: &E,
        now: TimeSpec,
        conn: ConnId,
        asked: &Request,
    ) -> Result<Option<Bytes>, NoMem>
        ensures { IfOk result (λ line. line ≡ (if has_line (settings_of set (E.line_of events.now)) asked.now
            then Some (E.line_of events.now now conn asked.now (if opens ((machine_of self.now).states conn) asked.now then drawn set (machine_of self.now) else log_of ((machine_of self.now).states conn)))
            else None)) }
    {
        if !has_line(set, asked) {
            return Ok(None);
        }
        let state = self.state(conn);
        let log = if opens(state, asked) {
            self.next_number(set)
        } else {
            log_of(state)
        };
        Ok(Some(events.line(self.alloc, now, conn, asked, log)?))
    }

    /// Adds the event line of a connection, and says whether the event log takes it.
    fn add_line(&mut self, conn: ConnId, line: &Bytes) -> Result<bool, NoMem>
        ensures fits { IfOk result (λ fits. fits ≡ line_fits line.now (machine_of self.old)) }
        ensures machine { IfOk result (λ fits. machine_of self.new ≡ (if fits then adds_line conn line.now (machine_of self.old) else machine_of self.old)) }
    {
        let line = line.as_slice();
        if !takes_line(self.lines.as_slice(), self.fresh.as_slice(), line) {
            return Ok(false);
        }
        self.fresh.add(line)?;
        note(&mut self.noting, conn)?;
        Ok(true)
    }

    /// The same where there is a line.
    fn add_any(&mut self, conn: ConnId, line: Option<Bytes>) -> Result<bool, NoMem>
        ensures fits { IfOk result (λ fits. fits ≡ fits_any line (machine_of self.old)) }
        ensures machine { IfOk result (λ fits. machine_of self.new ≡ (if fits then adds_any conn line (machine_of self.old) else machine_of self.old)) }
    {
        match line {
            Some(line) => self.add_line(conn, &line),
            None => Ok(true),
        }
    }

    /// The connection leaves a line and goes on.
    fn stay(&mut self, conn: ConnId, line: Option<Bytes>) -> Result<Told, NoMem>
        ensures { IfOk result (λ told. Gives (noted line conn (machine_of self.old) (machine_of self.old) (silently (machine_of self.old))) conn told (machine_of self.new)) }
    {
        if !self.add_any(conn, line)? {
            return self.refuse(conn, Refusal::LogFull);
        }
        Ok(Told::Nothing)
    }

    /// The connection leaves a line and comes into a state.
    fn enter(&mut self, conn: ConnId, state: ConnState, line: Option<Bytes>) -> Result<Told, NoMem>
        ensures { IfOk result (λ told. Gives (noted line conn (machine_of self.old) (machine_of self.old) (silently (with_state conn state (machine_of self.old)))) conn told (machine_of self.new)) }
    {
        if !self.add_any(conn, line)? {
            return self.refuse(conn, Refusal::LogFull);
        }
        self.set_state(conn, state)?;
        Ok(Told::Nothing)
    }

    /// The connection leaves a line, and its session ends.
    fn end(&mut self, conn: ConnId, line: Option<Bytes>) -> Result<Told, NoMem>
        ensures { IfOk result (λ told. Gives (noted line conn (machine_of self.old) (machine_of self.old) (ends conn (say conn Shut ∷ []) (machine_of self.old))) conn told (machine_of self.new)) }
    {
        if !self.add_any(conn, line)? {
            return self.refuse(conn, Refusal::LogFull);
        }
        self.leave(conn, ConnState::Dead)?;
        Ok(Told::Shut)
    }

    fn accept(
        &mut self,
        set: RunSettings,
        conn: ConnId,
        state: ConnState,
        accept: Accept,
        line: Option<Bytes>,
    ) -> Result<Told, NoMem>
        ensures { IfOk result (λ told. Gives (noted line conn (before_line state (request.Accept accept) (next_of set (machine_of self.old)) (machine_of self.old)) (machine_of self.old) (work conn state (request.Accept accept) (next_of set (machine_of self.old)) (machine_of self.old))) conn told (machine_of self.new)) }
    {
        if is_running(state) {
            return self.stay(conn, line);
        }
        if !accept.expect_iobufs {
            return self.enter(conn, ConnState::Running(None), line);
        }
        let head = write_head(self.alloc, &accept.head)?;
        match self.next_number(set) {
            Some(number) => self.open(conn, head, number, line),
            None => self.refuse(conn, Refusal::NumbersSpent),
        }
    }

    /// A log of this head is made, and the connection writes it; or the head doesn't fit its file.
    fn open(
        &mut self,
        conn: ConnId,
        head: Bytes,
        number: LogNo,
        line: Option<Bytes>,
    ) -> Result<Told, NoMem>
        requires { nat_lt last_number number ≡ false }
        ensures { IfOk result (λ told. Gives (noted line conn (makes number head (machine_of self.old)) (machine_of self.old) (opened conn head number (machine_of self.old))) conn told (machine_of self.new)) }
    {
        self.last = Some(number);
        if !fits_file(&head) {
            return self.refuse(conn, Refusal::LogFull);
        }
        if !self.add_any(conn, line)? {
            let owner = owner_of(&self.logs, number);
            self.make(number, head, owner)?;
            return self.refuse(conn, Refusal::LogFull);
        }
        self.make(number, head, Some(conn))?;
        self.set_state(conn, ConnState::Running(Some(number)))?;
        Ok(Told::Log(number))
    }

    /// A log without records is there, and this connection, or none, writes it.
    fn make(&mut self, number: LogNo, head: Bytes, owner: Option<ConnId>) -> Result<(), NoMem>
        ensures { OnOk result (machine_of self.new ≡ with_owner number owner (with_log number (There (empty_log head) 0) (machine_of self.old))) }
    {
        let log = Log {
            number,
            head,
            records: Records::new(self.alloc),
            exit: None,
            cuts: 0,
            promised: 0,
            owner,
        };
        put_log(&mut self.logs, log)
    }

    /// A log that nobody writes is gone on with at a point; or it is refused.
    fn restart(&mut self, conn: ConnId, restart: Restart) -> Result<Told, NoMem>
        ensures { IfOk result (λ told. Gives (restarted conn restart.log restart.point (machine_of self.old)) conn told (machine_of self.new)) }
    {
        let point = restart.point.nanos();
        let Some(log) = find_log(&self.logs, restart.log) else {
            return self.refuse(conn, Refusal::NoSuchLog);
        };
        if log.owner.is_some() {
            return self.refuse(conn, Refusal::LogInUse);
        }
        if log.exit.is_some() {
            return self.refuse(conn, Refusal::LogComplete);
        }
        let Some(kept) = first(log.records.as_slice(), point) else {
            return self.refuse(conn, Refusal::NoSuchResumePoint);
        };
        let Some(cuts) = cuts_with(log, kept) else {
            return self.refuse(conn, Refusal::LogFull);
        };
        resume_log(&mut self.logs, restart.log, kept, point, cuts, conn);
        self.set_state(conn, ConnState::Running(Some(restart.log)))?;
        Ok(Told::Nothing)
    }

    /// A record goes to the end of a log, masked as it is after the others; or the log doesn't take it.
    fn take(&mut self, conn: ConnId, number: LogNo, r: Record) -> Result<Told, NoMem>
        ensures { IfOk result (λ told. Gives (taken conn number r ((machine_of self.old).logs number) (machine_of self.old)) conn told (machine_of self.new)) }
    {
        let Some(log) = find_log(&self.logs, number) else {
            return Ok(Told::Nothing);
        };
        let Some(end) = end_with(self.alloc, &log.records, &r)? else {
            return self.refuse(conn, Refusal::LogFull);
        };
        let r = covered(self.alloc, &self.texts, log.records.as_slice(), r)?;
        add_record(&mut self.logs, number, r, end)?;
        insert_once(&mut self.waiting, number)?;
        Ok(Told::Nothing)
    }

    /// A log ends, and its session: all its records are promised; or the exit doesn't fit its file.
    fn finish(
        &mut self,
        conn: ConnId,
        number: LogNo,
        exit: Bytes,
        line: Option<Bytes>,
    ) -> Result<Told, NoMem>
        ensures { IfOk result (λ told. Gives (noted line conn (sets_exit number exit ((machine_of self.old).logs number) (machine_of self.old)) (machine_of self.old) (finished conn number exit ((machine_of self.old).logs number) (machine_of self.old))) conn told (machine_of self.new)) }
    {
        let Some(log) = find_log(&self.logs, number) else {
            return self.stay(conn, line);
        };
        if !fits_file(&exit) {
            return self.refuse(conn, Refusal::LogFull);
        }
        let end = log.records.elapsed();
        let is_told = self.add_any(conn, line)?;
        finish_log(&mut self.logs, number, exit, is_told);
        if !is_told {
            return self.refuse(conn, Refusal::LogFull);
        }
        self.leave(conn, ConnState::Dead)?;
        Ok(Told::Finished(end))
    }
}

/// The number of cuts with one that leaves this many records. None where it can't be counted.
fn cuts_with(log: &Log, kept: usize) -> Option<u64>
    ensures { SomeIff result (IsTrue (can_cut kept (stored_of log.now))) (cut_to kept (stored_of log.now)).cuts }
{
    if log.records.as_slice().len() <= kept {
        return Some(log.cuts);
    }
    let cuts = log.cuts.checked_add(1)?;
    if cuts < CUTS_LIMIT { Some(cuts) } else { None }
}

/// Whether the event log takes a line after those of this turn.
fn takes_line(lines: &[u8], fresh: &[u8], line: &[u8]) -> bool
    ensures { result ≡ nat_le (length lines.now + length fresh.now + length line.now) (2 ^ 40) }
{
    lines.len() as u128 + fresh.len() as u128 + line.len() as u128 <= LONGEST_LINES
}

/// Whether an accept opens a log.
fn opens(state: ConnState, asked: &Request) -> bool
    ensures { result ≡ opens state asked.now }
{
    match asked {
        Request::Accept(accept) => !is_running(state) && accept.expect_iobufs,
        _ => false,
    }
}

/// Whether a request has an event line.
fn has_line(set: RunSettings, asked: &Request) -> bool
    ensures { (line : _) → result ≡ has_line (settings_of set line) asked.now }
{
    match asked {
        Request::Accept(_) | Request::Reject(_) | Request::Alert(_) => true,
        Request::Exit(_) => set.log_exit,
        Request::Hello | Request::Restart(_) | Request::Record(_) => false,
    }
}
