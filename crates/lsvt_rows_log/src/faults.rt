//! The table: each script with each device call failing, and with a crash after each, in each fill.

use crate::script::{Play, Script};
use crate::shown::{is_absent, number, shown};
use anyhow::{Result, anyhow};
use lsv_disk::Fill;
use lsv_iolog::IoLog;
use lsvt_doubles::{FILLS, Plan};
use std::alloc::Global;

/// An opening is cut off after each of fewer calls than these, and the last of these openings makes all of its calls.
const REOPENING: u64 = 32;

/// What was looked at.
#[derive(Clone, Copy)]
struct Counts {
    plays: u64,
    images: u64,
    reopenings: u64,
    breaches: u64,
}

/// A script, and what is read of the log after this many of its steps, where nothing fails.
#[derive(Drop)]
struct Table<'s> {
    alloc: Global,
    script: &'s Script,
    texts: Vec<String>,
    counts: Counts,
}

/// What is read of the log after each number of steps, of the disk as it is; it is the same of what a crash leaves.
fn texts_of(alloc: Global, script: &Script) -> Result<Vec<String>> {
    let mut play = Play::new(alloc, script, Plan::Whole)?;
    let mut texts = Vec::new(alloc);
    texts.push(settled(alloc, &play)?)?;
    for line in &script.lines {
        if !play.step(line.as_str())? {
            return Err(anyhow!("a step that is done"));
        }
        texts.push(settled(alloc, &play)?)?;
    }
    Ok(texts)
}

/// What is read of the log, which no crash leaves otherwise.
fn settled(alloc: Global, play: &Play) -> Result<String> {
    let mut now = play.store.disk.image(alloc, Fill::Read, Plan::Whole)?;
    let text = shown(alloc, &mut now)?;
    for fill in FILLS {
        let mut image = play.store.disk.image(alloc, fill, Plan::Whole)?;
        if shown(alloc, &mut image)?.as_str() != text.as_str() {
            return Err(anyhow!("a log that a crash leaves as it is"));
        }
    }
    Ok(text)
}

/// The calls of a script where nothing fails.
#[derive(Clone, Copy)]
struct Calls {
    /// How many the files take that are there before.
    before: u64,
    /// How many there are with them.
    all: u64,
    /// How many lengths are asked for.
    lengths: u64,
}

/// Plays a script with no fault, and tells its calls.
fn calls_of(alloc: Global, script: &Script) -> Result<Calls> {
    let mut play = Play::new(alloc, script, Plan::Whole)?;
    let before = play.store.disk.calls();
    play.play(script)?;
    Ok(Calls {
        before,
        all: play.store.disk.calls(),
        lengths: play.store.disk.lengths(),
    })
}

impl<'s> Table<'s> {
    fn new(alloc: Global, script: &'s Script) -> Result<Self> {
        Ok(Table {
            alloc,
            script,
            texts: texts_of(alloc, script)?,
            counts: Counts {
                plays: 0,
                images: 0,
                reopenings: 0,
                breaches: 0,
            },
        })
    }

    /// Whether this is what stands before or after the step after this many.
    fn is_near(&self, done: usize, text: &str) -> bool {
        let near = self.texts.get(done..).unwrap_or(&[]);
        near.iter().take(2).any(|near| near.as_str() == text)
    }

    /// A play that this befalls. It gives what a crash leaves, in each fill, to be looked at.
    fn case(&mut self, rt: &HostRuntime, plan: Plan) -> Result<()> {
        let mut play = Play::new(self.alloc, self.script, plan)?;
        let done = play.play(self.script)?;
        self.counts.plays = self.counts.plays.saturating_add(1);
        for fill in FILLS {
            self.look(rt, plan, &play, done, fill)?;
        }
        Ok(())
    }

    /// Looks at what a crash leaves in this fill, and at what is left where opening it is cut off by another.
    fn look(
        &mut self,
        rt: &HostRuntime,
        plan: Plan,
        play: &Play,
        done: usize,
        fill: Fill,
    ) -> Result<()> {
        let mut image = play.store.disk.image(self.alloc, fill, Plan::Whole)?;
        let text = shown(self.alloc, &mut image)?;
        self.counts.images = self.counts.images.saturating_add(1);
        if !self.is_near(done, text.as_str()) {
            self.breach(rt, plan, text.as_str())?;
        }
        for last in 0..REOPENING {
            self.reopen(rt, play, fill, Plan::Stop(last), text.as_str())?;
        }
        Ok(())
    }

    /// Opens what a crash leaves; the opening is cut off, but for the last, and what a crash leaves then, in each fill, is
    /// as before.
    fn reopen(
        &mut self,
        rt: &HostRuntime,
        play: &Play,
        fill: Fill,
        stop: Plan,
        before: &str,
    ) -> Result<()> {
        let mut image = play.store.disk.image(self.alloc, fill, stop)?;
        let opened = IoLog::open(self.alloc, &mut image, number()?).is_ok();
        if image.was_cut() && stop == Plan::Stop(REOPENING - 1) {
            self.breach(rt, stop, "an opening has more calls")?;
        }
        if !image.was_cut() && !opened && !is_absent(self.alloc, before)? {
            self.breach(rt, stop, "it isn't opened")?;
        }
        self.counts.reopenings = self.counts.reopenings.saturating_add(1);
        for second in FILLS {
            let mut left = image.image(self.alloc, second, Plan::Whole)?;
            let text = shown(self.alloc, &mut left)?;
            if text.as_str() != before {
                self.breach(rt, stop, text.as_str())?;
            }
        }
        Ok(())
    }

    fn breach(&mut self, rt: &HostRuntime, plan: Plan, text: &str) -> Result<()> {
        self.counts.breaches = self.counts.breaches.saturating_add(1);
        println!(rt; "BREACH {plan:?}: {text}")?;
        Ok(())
    }

    /// There is a crash before the first call of the steps; and each call fails, or is the last one.
    fn all_calls(&mut self, rt: &HostRuntime, before: u64, all: u64) -> Result<()> {
        self.case(rt, Plan::Stop(before))?;
        for number in before.saturating_add(1)..=all {
            self.case(rt, Plan::Call(number))?;
            self.case(rt, Plan::Stop(number))?;
        }
        Ok(())
    }

    /// Each asking for a length fails.
    fn all_lengths(&mut self, rt: &HostRuntime, lengths: u64) -> Result<()> {
        for number in 1..=lengths {
            self.case(rt, Plan::Length(number))?;
        }
        Ok(())
    }

    /// Prints what is read where nothing fails: before the first step, and after each that changes it.
    fn print_texts(&self, rt: &HostRuntime) -> Result<()> {
        let mut last = "";
        for (done, text) in self.texts.iter().enumerate() {
            if text.as_str() != last {
                println!(rt; "{done}: {text}")?;
            }
            last = text.as_str();
        }
        Ok(())
    }

    fn print(&self, rt: &HostRuntime) -> Result<()> {
        let name = self.script.name.as_str();
        let Counts {
            plays,
            images,
            reopenings,
            breaches,
        } = self.counts;
        print!(rt;
            "{name}: {plays} plays, {images} images, {reopenings} openings that are cut off, "
        )?;
        match breaches {
            0 => println!(rt; "each before or after")?,
            breaches => println!(rt; "{breaches} breaches")?,
        }
        Ok(())
    }
}

/// Tries one script in each way.
pub fn try_script(rt: &HostRuntime, script: &Script) -> Result<()> {
    let alloc = rt.alloc();
    let calls = calls_of(alloc, script)?;
    let mut table = Table::new(alloc, script)?;
    table.all_calls(rt, calls.before, calls.all)?;
    table.all_lengths(rt, calls.lengths)?;
    table.print(rt)?;
    table.print_texts(rt)
}
