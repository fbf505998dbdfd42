//! Both servers of a conversation.

ghost use Rattle.std.specs.Prelude.{[], IfOk};
ghost use Rattle.lsv_keeper.specs.Value.{IsResting};
ghost use Rattle.lsv_keeper.specs.Views.{view_of};

use crate::kept::{Kept, event_lines, keeper_turn, open_keeper, stored_logs};
use crate::lines::{conn_of, job_of, settings_of, texts_of};
use crate::show::{ends_lines, log_lines, reply_lines};
use crate::unwatched::Unwatched;
use anyhow::Result;
use lsv_base::{Bytes, LogNo, NoMem, TimeSpec};
use lsv_request::Request;
use lsv_session::{ConnId, Job};
use lsvt_model::{EventLines, Model, RunSettings};
use std::alloc::Global;
use std::mem;

/// Up to which number logs are looked for.
const MOST_LOGS: u32 = 100;

/// The machine's event lines are no part of the conversations.
struct NoLines;

impl EventLines for NoLines {
    ghost line_of = { λ _ _ _ _ _. [] };

    fn line(
        &self,
        alloc: Global,
        _now: TimeSpec,
        _conn: ConnId,
        _asked: &Request,
        _log: Option<LogNo>,
    ) -> Result<Bytes, NoMem> {
        Ok(Bytes::new(alloc))
    }
}

/// Prints what both say; or, where they differ, what each says.
fn print_both(rt: &HostRuntime, machine: &str, keeper: &str) -> Result<()> {
    print!(rt; "{machine}")?;
    if machine != keeper {
        print!(rt; "the keeper says otherwise:\n{keeper}")?;
    }
    Ok(())
}

/// The lines of the machine's logs; is_whole: with those of their heads and exits.
fn machine_logs(alloc: Global, model: &Model, is_whole: bool) -> Result<String> {
    let mut lines = String::new(alloc);
    for log in model.logs() {
        let records = &log.records;
        let text = log_lines(
            alloc,
            log.number,
            records.as_slice(),
            records.elapsed(),
            log.cuts,
            log.exit.is_some(),
        )?;
        lines.push_str(text.as_str())?;
        if is_whole {
            let exit = match &log.exit {
                Some(exit) => exit.as_slice(),
                None => &[],
            };
            lines.push_str(ends_lines(alloc, log.head.as_slice(), exit)?.as_str())?;
        }
    }
    Ok(lines)
}

/// A job of a line.
fn job_in(alloc: Global, line: &str) -> Result<Job> {
    let (word, rest) = line.split_once(' ').unwrap_or((line, ""));
    job_of(alloc, conn_of(word)?, rest)
}

/// The machine in memory and the keeper over a disk in memory, and the jobs of a turn for each.
#[derive(Drop)]
pub struct Servers {
    settings: RunSettings,
    has_prompts: bool,
    is_whole: bool,
    model: Model,
    disk: Unwatched,
    keeper: Kept,
    jobs: Vec<Job>,
    same_jobs: Vec<Job>,
}

impl Servers {
    /// Both over an empty store, by the words of a heading.
    pub fn begin(alloc: Global, heading: &str) -> Result<Self>
        ensures { IfOk result (λ s. IsResting (view_of s.keeper)) }
    {
        let settings = settings_of(heading)?;
        let has_prompts = heading.contains("prompts on");
        let is_whole = heading.ends_with("whole");
        let model = Model::new(alloc, texts_of(alloc, has_prompts)?);
        let mut disk = Unwatched::new(alloc)?;
        let keeper = open_keeper(alloc, &mut disk, settings, texts_of(alloc, has_prompts)?)?;
        Ok(Servers {
            settings,
            has_prompts,
            is_whole,
            model,
            disk,
            keeper,
            jobs: Vec::new(alloc),
            same_jobs: Vec::new(alloc),
        })
    }

    /// One job more of the turn.
    pub fn push(&mut self, alloc: Global, line: &str) -> Result<()>
        requires { IsResting (view_of self.old.keeper) }
        ensures { IsResting (view_of self.new.keeper) }
    {
        self.jobs.push(job_in(alloc, line)?)?;
        self.same_jobs.push(job_in(alloc, line)?)?;
        Ok(())
    }

    /// The turn ends, and its replies are printed.
    pub fn turn(&mut self, rt: &HostRuntime) -> Result<()>
        requires { IsResting (view_of self.old.keeper) }
        ensures { IsResting (view_of self.new.keeper) }
    {
        let alloc = rt.alloc();
        let now = TimeSpec { sec: 0, nsec: 0 };
        let jobs = mem::replace(&mut self.jobs, Vec::new(alloc));
        let same_jobs = mem::replace(&mut self.same_jobs, Vec::new(alloc));
        let machine = self.model.turn(self.settings, &NoLines, jobs, now)?;
        let replies = keeper_turn(alloc, &mut self.keeper, &mut self.disk, same_jobs)?;
        print_both(
            rt,
            reply_lines(alloc, &machine)?.as_str(),
            reply_lines(alloc, &replies)?.as_str(),
        )
    }

    /// The program ends, and another run begins.
    pub fn stop(&mut self, alloc: Global) -> Result<()>
        requires { IsResting (view_of self.old.keeper) }
        ensures { IsResting (view_of self.new.keeper) }
    {
        self.model.stop(texts_of(alloc, self.has_prompts)?);
        let texts = texts_of(alloc, self.has_prompts)?;
        self.keeper = open_keeper(alloc, &mut self.disk, self.settings, texts)?;
        Ok(())
    }

    /// The conversation ends, and its logs are printed.
    pub fn end(&mut self, rt: &HostRuntime) -> Result<()> {
        let alloc = rt.alloc();
        print_both(
            rt,
            machine_logs(alloc, &self.model, self.is_whole)?.as_str(),
            stored_logs(alloc, &mut self.disk, MOST_LOGS, self.is_whole)?.as_str(),
        )?;
        if self.is_whole {
            let lines = event_lines(alloc, &self.disk, self.settings.lane)?;
            print!(rt; "{lines}")?;
        }
        Ok(())
    }
}
