//! Runs of the program, and what they put.

use crate::outside::{Acts, Gap};
use crate::store;
use anyhow::{Result, anyhow};
use lsv_base::{Bytes, List, NoMem};
use lsv_disk::{Disk, MemDisk};
use lsv_follow::{Nobody, Others};
use lsv_play::{Item, MemScreen};
use lsv_replay::{Gaps, NoGaps, ReplayStatus, sudoreplay};
use md5::{Digest, Md5};
use std::alloc::Global;
use std::str;

/// The words of a line, between single spaces: none of an empty one. The word `~` stands for the byte FF.
pub fn words_of(alloc: Global, line: &str) -> Result<List<Bytes>, NoMem> {
    let mut words = Vec::new(alloc);
    if line.is_empty() {
        return Ok(List::from_vec(words));
    }
    for word in line.split(' ') {
        let word = if word == "~" {
            Bytes::of(alloc, b"\xFF")?
        } else {
            Bytes::of(alloc, word.as_bytes())?
        };
        words.push(word)?;
    }
    Ok(List::from_vec(words))
}

/// Runs the program on a screen of which this call fails, beside others.
fn run_beside<D: Disk, O: Others<D>, G: Gaps<D>>(
    alloc: Global,
    disk: &mut D,
    fail: u64,
    line: &str,
    others: &mut O,
    gaps: &mut G,
) -> Result<(MemScreen, ReplayStatus), NoMem> {
    let words = words_of(alloc, line)?;
    let mut screen = MemScreen::new(alloc, vec![in alloc; fail]?);
    let status = sudoreplay(alloc, &words, disk, &mut screen, others, gaps);
    Ok((screen, status))
}

/// The same of a store that nobody else writes.
fn run(
    alloc: Global,
    disk: &mut MemDisk,
    fail: u64,
    line: &str,
) -> Result<(MemScreen, ReplayStatus), NoMem> {
    run_beside(alloc, disk, fail, line, &mut Nobody, &mut NoGaps)
}

/// Prints how a run ended.
fn show_status(rt: &HostRuntime, status: ReplayStatus) -> Result<()> {
    let text = status.text(rt.alloc())?;
    let text = str::from_utf8(text.as_slice()).map_err(|_| anyhow!("no text"))?;
    println!(rt; "status {} {text}", status.number())?;
    Ok(())
}

/// Prints what a run shows, and how it ended.
pub fn show(rt: &HostRuntime, disk: &mut MemDisk, fail: u64, line: &str) -> Result<()> {
    let (screen, status) = run(rt.alloc(), disk, fail, line)?;
    show_items(rt, screen.items())?;
    show_status(rt, status)
}

/// The same over a copy of the store, which others write act by act, and of which a gap is known.
pub fn show_outside(
    rt: &HostRuntime,
    disk: &MemDisk,
    fail: u64,
    line: &str,
    acts: &mut Acts,
    gap: Gap,
) -> Result<()> {
    let alloc = rt.alloc();
    let mut copy = store::copy_for(alloc, disk, gap.end())?;
    let mut gap = gap;
    acts.begin();
    let (screen, status) = run_beside(alloc, &mut copy, fail, line, acts, &mut gap)?;
    show_items(rt, screen.items())?;
    show_status(rt, status)
}

/// Prints what was waited and put.
fn show_items(rt: &HostRuntime, items: &[Item]) -> Result<()> {
    for item in items {
        match item {
            Item::Wait(nanos) => println!(rt; "wait {nanos}")?,
            Item::Put(bytes) => println!(rt; "put {}", hex::encode(rt.alloc(), bytes.as_slice())?)?,
        }
    }
    Ok(())
}

/// Prints how many items a run shows, the nanoseconds that it waits in all, the MD5 digest of the bytes that it puts, and
/// how it ended.
pub fn sum(rt: &HostRuntime, disk: &mut MemDisk, fail: u64, line: &str) -> Result<()> {
    let alloc = rt.alloc();
    let (screen, status) = run(alloc, disk, fail, line)?;
    let mut all = Bytes::new(alloc);
    let mut waits = 0u64;
    for item in screen.items() {
        match item {
            Item::Wait(nanos) => waits = waits.saturating_add(*nanos),
            Item::Put(bytes) => all.add(bytes.as_slice())?,
        }
    }
    let digest = Md5::digest(all.as_slice());
    println!(rt;
        "items {} waits {waits} digest {}",
        screen.items().len(),
        hex::encode(alloc, digest.as_slice())?
    )?;
    show_status(rt, status)
}
