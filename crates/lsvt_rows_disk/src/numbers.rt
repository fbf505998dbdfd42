//! The log numbers of a lane: what is drawn, whatever fails.

use anyhow::{Result, anyhow};
use lsv_seq::{Numbers, SeqFault, last_drawn};
use lsvt_doubles::{FILLS, Hostile, Plan};
use std::alloc::Global;

/// A lane of this many lanes.
fn lane_of(words: &str) -> Result<(u32, u32)> {
    let (lane, lanes) = words.split_once(' ').ok_or(anyhow!("a lane of lanes"))?;
    Ok((lane.parse::<u32>()?, lanes.parse::<u32>()?))
}

/// Opens the numbers of a lane.
pub fn open(disk: &mut Hostile, words: &str) -> Result<Numbers> {
    let (lane, lanes) = lane_of(words)?;
    if lane >= lanes || lanes > 8 {
        return Err(anyhow!("a lane"));
    }
    Ok(Numbers::open(disk, lane, lanes)?)
}

/// Draws a number.
pub fn draw(alloc: Global, disk: &mut Hostile, numbers: &mut Numbers) -> Result<String> {
    let number = numbers.draw(disk)?;
    Ok(format!(in alloc; "number {}", number.get())?)
}

/// The last number that a lane drew, as the files read.
pub fn last(alloc: Global, disk: &mut Hostile, lane: &str) -> Result<String> {
    match last_drawn(disk, lane.parse::<u32>()?)? {
        Some((last, lanes)) => Ok(format!(in alloc; "{last} of {lanes} lanes")?),
        None => Ok(format!(in alloc; "no entry")?),
    }
}

/// Draws four times. Returns the greatest number; None if one is not above those before it, or is another lane's.
fn draw_four(
    disk: &mut Hostile,
    lane: u32,
    lanes: u32,
    above: u32,
) -> Result<Option<u32>, SeqFault> {
    if lane >= lanes || lanes > 8 {
        return Err(SeqFault::Damaged);
    }
    let mut numbers = Numbers::open(disk, lane, lanes)?;
    let mut greatest = above;
    for _ in 0..4u8 {
        if let Ok(number) = numbers.draw(disk) {
            let number = number.get();
            if number <= greatest || number % lanes != (lane + 1) % lanes {
                return Ok(None);
            }
            greatest = number;
        }
    }
    Ok(Some(greatest))
}

/// Draws four times, then four times after a crash in each fill, and four times without a crash. No number comes twice.
pub fn once(alloc: Global, disk: &mut Hostile, words: &str) -> Result<String> {
    let (lane, lanes) = lane_of(words)?;
    let last = match draw_four(disk, lane, lanes, 0) {
        Err(SeqFault::Disk) => 0,
        drawn => drawn?.ok_or(anyhow!("BREACH at first"))?,
    };
    for fill in FILLS {
        let image = disk.image(alloc, fill, Plan::Whole);
        let mut image = image.map_err(|_| anyhow!("out of memory"))?;
        draw_four(&mut image, lane, lanes, last)?.ok_or(anyhow!("BREACH after a crash"))?;
    }
    match draw_four(disk, lane, lanes, last) {
        Ok(None) => Err(anyhow!("BREACH without a crash")),
        _ => Ok(format!(in alloc; "each once")?),
    }
}
