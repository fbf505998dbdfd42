//! The runs of a case again, with one call failing or one crash in each: which states a crash may leave then.

use crate::{case, runs, store};
use anyhow::{Result, anyhow};
use lsvt_doubles::{FILLS, Hostile, Plan};
use std::alloc::Global;

/// More calls than a run of a case makes of its link.
const LINK_CALLS: u64 = 40;

/// What befalls the runs of a case.
#[derive(Clone, Copy)]
struct Mishap {
    disk: Plan,
    /// The number of the call that fails on each run's link.
    link: Option<u64>,
}

impl Mishap {
    const NONE: Mishap = Mishap {
        disk: Plan::Whole,
        link: None,
    };

    fn disk(disk: Plan) -> Mishap {
        Mishap { disk, link: None }
    }
}

/// Adds what each crash image of a disk keeps after this run, if it isn't there yet.
fn add_images(
    alloc: Global,
    disk: &Hostile,
    host: &str,
    run: usize,
    states: &mut Vec<String>,
) -> Result<()> {
    for fill in FILLS {
        let mut image = disk
            .image(alloc, fill, Plan::Whole)
            .map_err(|_| anyhow!("out of memory"))?;
        let state = runs::kept(alloc, &mut image, host)?;
        let line = format!(in alloc; "run {run}: {state}")?;
        if !states.contains(&line) {
            states.push(line)?;
        }
    }
    Ok(())
}

/// Does each run, whatever it answers, and adds what a crash after it leaves. It answers the number of device calls.
fn play(alloc: Global, words: &str, mishap: Mishap, states: &mut Vec<String>) -> Result<u64> {
    let mut disk = store::disk(alloc, mishap.disk)?;
    for (before, word) in words.split(' ').enumerate() {
        let (host, word) = runs::host_in(word);
        let mut link = case::link(alloc, word, mishap.link)?;
        let _end = runs::once(alloc, &mut disk, &mut link, host)?;
        add_images(alloc, &disk, host, before.saturating_add(1), states)?;
    }
    Ok(disk.calls())
}

/// Prints the lines in order.
fn print(rt: &HostRuntime, what: &str, mut lines: Vec<String>) -> Result<()> {
    lines.sort()?;
    println!(rt; "{what}")?;
    for line in lines.as_slice() {
        println!(rt; "  {line}")?;
    }
    Ok(())
}

/// Prints what a crash leaves if each device call is the last, if each fails, and if each call of the links fails.
pub fn table(rt: &HostRuntime, words: &str) -> Result<()> {
    let alloc = rt.alloc();
    let first = store::disk(alloc, Plan::Whole)?.calls();
    let mut whole = Vec::new(alloc);
    let last = play(alloc, words, Mishap::NONE, &mut whole)?;
    print(rt, "the runs leave", whole)?;
    let mut stopped = Vec::new(alloc);
    let mut failed = Vec::new(alloc);
    for number in first..last {
        play(alloc, words, Mishap::disk(Plan::Stop(number)), &mut stopped)?;
        play(
            alloc,
            words,
            Mishap::disk(Plan::Call(number + 1)),
            &mut failed,
        )?;
    }
    print(rt, "a crash leaves", stopped)?;
    print(rt, "a device fault leaves", failed)?;
    let mut broken = Vec::new(alloc);
    for number in 1..LINK_CALLS {
        let fail = Mishap {
            disk: Plan::Whole,
            link: Some(number),
        };
        play(alloc, words, fail, &mut broken)?;
    }
    print(rt, "a fault of the link leaves", broken)
}
