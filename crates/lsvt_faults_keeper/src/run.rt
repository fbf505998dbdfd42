//! One run of a script over a hostile disk.

ghost use Rattle.std.specs.Prelude.{IfOk, IfSome};
ghost use Rattle.lsv_keeper.specs.Value.{IsResting};
ghost use Rattle.lsv_keeper.specs.Views.{view_of};

use crate::checker::breach;
use crate::history::{Answer, answers_of};
use crate::lines::NOW;
use crate::recorder::Recorder;
use crate::script::{Script, job_of};
use anyhow::Result;
use lsv_base::List;
use lsv_hook::{Formatter, SudoLines};
use lsv_keeper::{Keeper, LaneId, Policy, StoreFault, more_room_changes_nothing};
use lsv_mask::{Prompt, TextSearch};
use lsv_session::{Job, Reply};
use lsvt_doubles::{FILLS, Hostile, Plan};
use std::alloc::Global;
use std::mem;

/// A keeper of sudo's lines and of the search that is linear.
pub type Kept = Keeper<SudoLines, TextSearch>;

/// A run of a script: its disk, and what has happened.
#[derive(Drop)]
pub struct Run {
    alloc: Global,
    pub disk: Hostile,
    /// The jobs of the turn under way.
    lines: Vec<String>,
    pub recorder: Recorder,
    /// How many of the last things that happened are the jobs of a turn that was cut.
    pub cut: usize,
    /// Whether it stands at its end, before the script's.
    has_ended: bool,
    /// The first breach.
    pub breach: Option<String>,
}

/// Opens the store of a disk.
pub fn open_keeper(alloc: Global, disk: &mut Hostile) -> Result<Kept, StoreFault>
    ensures { IfOk result (λ k. IsResting (view_of k)) }
{
    let policy = Policy {
        formatter: Formatter::sudo(),
        log_exit: true,
        texts: List::new(alloc),
        prompt: Prompt::new(TextSearch),
    };
    Keeper::open(alloc, disk, LaneId { number: 0, of: 1 }, policy)
}

/// Opens the store of a disk, and once more where that failed.
fn open_again(alloc: Global, disk: &mut Hostile) -> Option<Kept>
    ensures { IfSome result (λ k. IsResting (view_of k)) }
{
    match open_keeper(alloc, disk) {
        Ok(keeper) => Some(keeper),
        Err(_) => open_keeper(alloc, disk).ok(),
    }
}

/// The keeper's replies to a turn of these jobs.
fn keeper_turn(
    alloc: Global,
    keeper: &mut Kept,
    disk: &mut Hostile,
    jobs: Vec<Job>,
) -> Result<Vec<Reply>>
    requires { IsResting (view_of keeper.old) }
    ensures { IsResting (view_of keeper.new) }
{
    let mut replies = Vec::new(alloc);
    more_room_changes_nothing::<Hostile>();
    keeper.ready(jobs.len(), &mut replies)?;
    keeper.turn(disk, NOW, jobs, &mut replies);
    Ok(replies)
}

/// The jobs of these lines.
fn jobs_of(alloc: Global, lines: &[String]) -> Result<Vec<Job>> {
    let mut jobs = Vec::new(alloc);
    for line in lines {
        jobs.push(job_of(alloc, line.as_str())?)?;
    }
    Ok(jobs)
}

/// Plays a script on an empty disk that this befalls.
pub fn play(alloc: Global, script: &Script, plan: Plan) -> Result<Run> {
    let mut run = Run::new(alloc, Hostile::new(alloc, plan)?);
    run.recorder.begin()?;
    if let Some(keeper) = open_again(alloc, &mut run.disk) {
        run.play(keeper, &script.lines)?;
    }
    Ok(run)
}

impl Run {
    fn new(alloc: Global, disk: Hostile) -> Self {
        Run {
            alloc,
            disk,
            lines: Vec::new(alloc),
            recorder: Recorder::new(alloc),
            cut: 0,
            has_ended: false,
            breach: None,
        }
    }

    /// Plays lines, up to where the machine stops.
    fn play(&mut self, mut keeper: Kept, lines: &[String]) -> Result<()>
        requires { IsResting (view_of keeper) }
    {
        for line in lines {
            match line.as_str() {
                "turn" => self.turn(&mut keeper)?,
                "stop" => self.stop(&mut keeper)?,
                line => self.push(line)?,
            }
        }
        Ok(())
    }

    /// One job more of the turn.
    fn push(&mut self, line: &str) -> Result<()> {
        let mut text = String::new(self.alloc);
        text.push_str(line)?;
        Ok(self.lines.push(text)?)
    }

    /// The turn ends. What happened is noted, and what a crash may then leave is looked at.
    fn turn(&mut self, keeper: &mut Kept) -> Result<()>
        requires { IsResting (view_of keeper.old) }
        ensures { IsResting (view_of keeper.new) }
    {
        let lines = mem::replace(&mut self.lines, Vec::new(self.alloc));
        if self.has_ended {
            return Ok(());
        }
        self.disk.forget_failures();
        let jobs = jobs_of(self.alloc, &lines)?;
        let replies = keeper_turn(self.alloc, keeper, &mut self.disk, jobs)?;
        self.note(&lines, &answers_of(self.alloc, &replies)?)
    }

    /// What happened in a turn is noted: its jobs, and its end, where it wasn't cut.
    fn note(&mut self, lines: &[String], answers: &[Answer]) -> Result<()> {
        let refused = self.recorder.refused;
        let told = self.recorder.note_jobs(&self.disk, lines, answers)?;
        if self.disk.was_cut() {
            self.cut = lines.len();
            self.has_ended = true;
            return Ok(());
        }
        let rest = answers.get(told..).unwrap_or(&[]);
        self.recorder.note_tail(&self.disk, rest)?;
        self.check_refusals(self.recorder.refused.saturating_sub(refused))?;
        self.check()
    }

    /// A call that failed on a file of a log refuses no connection but the one that asks something of that log.
    fn check_refusals(&mut self, refused: u64) -> Result<()> {
        if refused > 1 && self.disk.has_failed_at_logs() {
            self.breach = Some(format!(in self.alloc; "a fault of one log refuses {refused}")?);
        }
        Ok(())
    }

    /// The program ends, and another run begins, unless the machine has stopped.
    fn stop(&mut self, keeper: &mut Kept) -> Result<()>
        requires { IsResting (view_of keeper.old) }
        ensures { IsResting (view_of keeper.new) }
    {
        if self.has_ended {
            return Ok(());
        }
        self.recorder.begin()?;
        match open_again(self.alloc, &mut self.disk) {
            Some(opened) => *keeper = opened,
            None => self.has_ended = true,
        }
        Ok(())
    }

    /// Looks at what a crash may leave now, in each fill, where no stop is to come.
    fn check(&mut self) -> Result<()> {
        if self.disk.is_to_stop() || self.breach.is_some() {
            return Ok(());
        }
        for fill in FILLS {
            let mut image = self.disk.image(self.alloc, fill, Plan::Whole)?;
            let found = breach(self.alloc, &mut image, &self.recorder.history, 0)?;
            if found.is_some() {
                self.breach = found;
            }
        }
        Ok(())
    }

    /// Opens the store that a crash leaves in this fill, and looks at it; then a command is accepted, with a number of its own,
    /// and it is looked at once more.
    pub fn reopened(&self, disk: &mut Hostile, again: &str) -> Result<Option<String>> {
        let history = &self.recorder.history;
        let Ok(mut keeper) = open_keeper(self.alloc, disk) else {
            return Ok(Some(format!(in self.alloc; "the store isn't opened")?));
        };
        let found = breach(self.alloc, disk, history, self.cut)?;
        if found.is_some() {
            return Ok(found);
        }
        let mut jobs = Vec::new(self.alloc);
        jobs.push(job_of(self.alloc, again)?)?;
        let replies = keeper_turn(self.alloc, &mut keeper, disk, jobs)?;
        let answers = answers_of(self.alloc, &replies)?;
        self.breach_of_number(&answers)
    }

    /// What breaks the promise that an accept is answered by a number that wasn't told before.
    fn breach_of_number(&self, answers: &[Answer]) -> Result<Option<String>> {
        let [answer] = answers else {
            return Ok(Some(format!(in self.alloc; "an accept is refused")?));
        };
        let end = self.recorder.history.len().saturating_sub(self.cut);
        let ended = self.recorder.history.get(..end).unwrap_or(&[]);
        if ended.iter().any(|happened| happened.tells(answer.says)) {
            return Ok(Some(format!(in self.alloc; "a number is told twice")?));
        }
        Ok(None)
    }
}
