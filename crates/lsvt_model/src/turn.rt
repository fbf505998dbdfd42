ghost use Rattle.std.specs.Prelude.{◌≡◌, ◌++◌, [], true, map, OnOk, IfOk};
ghost use Rattle.lsv_machine.specs.Answers.{reply_of};
ghost use Rattle.lsv_machine.specs.Turns.{with_lines};
ghost use Rattle.lsvt_model.specs.Turning.{after, after_turn, commit, commits, done, flushed, flushes, told, told_in_turn};
ghost use Rattle.lsvt_model.specs.Views.{machine_of, settings_of};

use crate::logs::{find_log, promise_log};
use crate::points::time_of;
use crate::told::{put_replies, say};
use crate::{EventLines, Model, RunSettings};
use lsv_base::{LogNo, NoMem, TimeSpec};
use lsv_msg::ServerMessage;
use lsv_session::{Job, Reply};
use std::mem;

impl Model {
    /// A turn: its jobs one after another, and then its end. The replies are in order.
    pub fn turn<E: EventLines>(
        &mut self,
        set: RunSettings,
        events: &E,
        jobs: Vec<Job>,
        now: TimeSpec,
    ) -> Result<Vec<Reply>, NoMem>
        ensures replies { IfOk result (λ replies. replies.items ≡ map reply_of (told_in_turn (settings_of set (E.line_of events.now)) now jobs.items (machine_of self.old))) }
        ensures machine { OnOk result (machine_of self.new ≡ after_turn (settings_of set (E.line_of events.now)) now jobs.items (machine_of self.old)) }
    {
        let mut replies = Vec::new(self.alloc);
        self.answer_jobs(set, events, jobs, now, &mut replies)?;
        self.flush_lines()?;
        self.flush_logs(&mut replies)?;
        Ok(replies)
    }

    /// Does jobs, one after another, and puts their replies at the end.
    fn answer_jobs<E: EventLines>(
        &mut self,
        set: RunSettings,
        events: &E,
        jobs: Vec<Job>,
        now: TimeSpec,
        replies: &mut Vec<Reply>,
    ) -> Result<(), NoMem>
        ensures replies { OnOk result (replies.new.items ≡ replies.old.items ++ map reply_of (told (settings_of set (E.line_of events.now)) now jobs.items (machine_of self.old))) }
        ensures machine { OnOk result (machine_of self.new ≡ after (settings_of set (E.line_of events.now)) now jobs.items (machine_of self.old)) }
    {
        for job in jobs {
            self.answer_job(set, events, job, now, replies)?;
        }
        Ok(())
    }

    /// Does a job, and puts its replies at the end.
    fn answer_job<E: EventLines>(
        &mut self,
        set: RunSettings,
        events: &E,
        job: Job,
        now: TimeSpec,
        replies: &mut Vec<Reply>,
    ) -> Result<(), NoMem>
        ensures replies { OnOk result (replies.new.items ≡ replies.old.items ++ map reply_of (done (settings_of set (E.line_of events.now)) now job (machine_of self.old)).answers) }
        ensures machine { OnOk result (machine_of self.new ≡ (done (settings_of set (E.line_of events.now)) now job (machine_of self.old)).machine) }
    {
        let conn = job.conn;
        let told = self.act(set, events, job, now)?;
        put_replies(self.alloc, replies, conn, told)
    }

    /// The event lines of the turn become lines of the event log.
    fn flush_lines(&mut self) -> Result<(), NoMem>
        ensures { OnOk result (machine_of self.new ≡ with_lines true (machine_of self.old)) }
    {
        self.lines.add(self.fresh.as_slice())?;
        self.fresh.truncate(0);
        self.noting.clear();
        Ok(())
    }

    /// The logs that wait have their commit points.
    fn flush_logs(&mut self, replies: &mut Vec<Reply>) -> Result<(), NoMem>
        ensures replies { OnOk result (replies.new.items ≡ replies.old.items ++ map reply_of (commits (machine_of self.old).waiting (record (machine_of self.old) { waiting = [] }))) }
        ensures machine { OnOk result (machine_of self.new ≡ flushed (machine_of self.old).waiting (record (machine_of self.old) { waiting = [] })) }
    {
        let waiting = mem::replace(&mut self.waiting, Vec::new(self.alloc));
        for number in waiting {
            self.flush_log(number, replies)?;
        }
        Ok(())
    }

    /// The writer of a log has a commit point at its elapsed time.
    fn flush_log(&mut self, number: LogNo, replies: &mut Vec<Reply>) -> Result<(), NoMem>
        ensures replies { OnOk result (replies.new.items ≡ replies.old.items ++ map reply_of (commit (machine_of self.old) number)) }
        ensures machine { OnOk result (machine_of self.new ≡ flushes number (machine_of self.old)) }
    {
        let Some(log) = find_log(&self.logs, number) else {
            return Ok(());
        };
        let Some(writer) = log.owner else {
            return Ok(());
        };
        let end = log.records.elapsed();
        promise_log(&mut self.logs, number);
        replies.push(say(writer, ServerMessage::CommitPoint(time_of(end))))?;
        Ok(())
    }
}
