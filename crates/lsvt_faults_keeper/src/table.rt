//! The table: each script with each device call failing, and with a crash after each in each fill.

use crate::run::{Run, open_keeper, play};
use crate::script::Script;
use anyhow::Result;
use lsv_disk::Fill;
use lsvt_doubles::{FILLS, Hostile, Plan};

/// How many cases there were, in how many somebody was refused, and how many broke a promise.
#[derive(Clone, Copy)]
pub struct Counts {
    cases: u64,
    refused: u64,
    breaches: u64,
}

impl Counts {
    fn new() -> Self {
        Counts {
            cases: 0,
            refused: 0,
            breaches: 0,
        }
    }

    /// One case more, which had this many refusals.
    fn add(&mut self, refused: u64, breaches: u64) {
        self.cases = self.cases.saturating_add(1);
        self.refused = self.refused.saturating_add(u64::from(refused > 0));
        self.breaches = self.breaches.saturating_add(breaches);
    }

    fn print(&self, rt: &HostRuntime, what: &str) -> Result<()> {
        let cases = self.cases;
        let refused = self.refused;
        print!(rt; "{what}: {cases} cases, {refused} with a refusal, ")?;
        match self.breaches {
            0 => println!(rt; "all hold")?,
            breaches => println!(rt; "{breaches} breaches")?,
        }
        Ok(())
    }
}

/// Prints a breach, if there is one, and says how many there are.
fn told(rt: &HostRuntime, at: &str, breach: Option<&String>) -> Result<u64> {
    let Some(breach) = breach else {
        return Ok(0);
    };
    println!(rt; "BREACH {at}: {breach}")?;
    Ok(1)
}

fn fill_name(fill: Fill) -> &'static str {
    match fill {
        Fill::Old => "old",
        Fill::Read => "read",
        Fill::Byte(0) => "zeros",
        Fill::Byte(_) => "ones",
    }
}

/// A run that this befalls, looked at after each turn.
fn play_with(rt: &HostRuntime, script: &Script, plan: Plan, counts: &mut Counts) -> Result<Run> {
    let run = play(rt.alloc(), script, plan)?;
    let at = format!(in rt.alloc(); "{plan:?}")?;
    let breaches = told(rt, at.as_str(), run.breach.as_ref())?;
    counts.add(run.recorder.refused, breaches);
    Ok(run)
}

/// Each call fails in turn, and each asking for a length.
fn faults(rt: &HostRuntime, script: &Script, calls: u64, lengths: u64) -> Result<Counts> {
    let mut counts = Counts::new();
    for number in 1..=calls {
        play_with(rt, script, Plan::Call(number), &mut counts)?;
    }
    for number in 1..=lengths {
        play_with(rt, script, Plan::Length(number), &mut counts)?;
    }
    Ok(counts)
}

/// The store that a crash leaves of a run in each fill.
fn crash(rt: &HostRuntime, run: &Run, number: u64, again: &str, counts: &mut Counts) -> Result<()> {
    let alloc = rt.alloc();
    for fill in FILLS {
        let mut disk = run.disk.image(alloc, fill, Plan::Whole)?;
        let found = run.reopened(&mut disk, again)?;
        let name = fill_name(fill);
        let at = format!(in alloc; "stop {number}, {name}")?;
        let breaches = told(rt, at.as_str(), found.as_ref())?;
        counts.add(run.recorder.refused, breaches);
    }
    Ok(())
}

/// The machine stops before the first call, and after each.
fn stops(rt: &HostRuntime, script: &Script, calls: u64, again: &str) -> Result<Counts> {
    let mut counts = Counts::new();
    for number in 0..=calls {
        let run = play(rt.alloc(), script, Plan::Stop(number))?;
        crash(rt, &run, number, again, &mut counts)?;
    }
    Ok(counts)
}

/// The store that a crash leaves of a run in this fill is opened, and the machine stops after each call of that.
fn crash_twice(
    rt: &HostRuntime,
    run: &Run,
    fill: Fill,
    again: &str,
    counts: &mut Counts,
) -> Result<()> {
    let alloc = rt.alloc();
    let mut whole = run.disk.image(alloc, fill, Plan::Whole)?;
    let _ = open_keeper(alloc, &mut whole);
    for number in 0..whole.calls() {
        let mut disk = run.disk.image(alloc, fill, Plan::Stop(number))?;
        let _ = open_keeper(alloc, &mut disk);
        for later in FILLS {
            let mut left = disk.image(alloc, later, Plan::Whole)?;
            let found = run.reopened(&mut left, again)?;
            let first = fill_name(fill);
            let second = fill_name(later);
            let at = format!(in alloc; "stop, {first}, and {number}, {second}")?;
            let breaches = told(rt, at.as_str(), found.as_ref())?;
            counts.add(run.recorder.refused, breaches);
        }
    }
    Ok(())
}

/// The machine stops after each call, and again after each call of the opening that follows.
fn stops_twice(rt: &HostRuntime, script: &Script, calls: u64, again: &str) -> Result<Counts> {
    let mut counts = Counts::new();
    for number in 0..=calls {
        let run = play(rt.alloc(), script, Plan::Stop(number))?;
        for fill in FILLS {
            crash_twice(rt, &run, fill, again, &mut counts)?;
        }
    }
    Ok(counts)
}

/// The table of one script. again: the accept that each store is given that was opened again.
pub fn table(rt: &HostRuntime, script: &Script, again: &str) -> Result<()> {
    let name = script.name.as_str();
    let mut counts = Counts::new();
    let run = play_with(rt, script, Plan::Whole, &mut counts)?;
    let calls = run.disk.calls();
    let lengths = run.disk.lengths();
    println!(rt; "script {name}: {calls} calls, {lengths} lengths")?;
    counts.print(rt, "whole")?;
    faults(rt, script, calls, lengths)?.print(rt, "faults")?;
    stops(rt, script, calls, again)?.print(rt, "stops")?;
    if name.ends_with("twice") {
        stops_twice(rt, script, calls, again)?.print(rt, "stops in the opening too")?;
    }
    Ok(())
}
