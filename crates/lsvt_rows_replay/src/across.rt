//! Runs of the check, while another program puts a store in the place of the one that is read.

use crate::check;
use crate::store::hostile_copy;
use anyhow::{Result, anyhow};
use lsv_check::CheckStatus;
use lsv_disk::MemDisk;
use lsvt_doubles::{Beside, Hostile, Writer};
use std::alloc::Global;

/// More calls than these no run makes.
const MOST: u64 = 10_000;

/// The store that comes.
#[derive(Drop)]
struct Swap {
    next: Option<Hostile>,
}

impl Writer for Swap {
    fn write(&mut self, disk: &mut Hostile) {
        if let Some(next) = self.next.take() {
            *disk = next;
        }
    }
}

/// What a run put, and how it ended.
#[derive(Drop)]
struct Outcome {
    text: Vec<u8>,
    status: CheckStatus,
}

impl Outcome {
    /// Whether another run put the same, and ended so.
    fn is(&self, other: &Outcome) -> bool {
        self.status == other.status && self.text.as_slice() == other.text.as_slice()
    }
}

/// The stores, and the greatest number of their logs.
#[derive(Clone, Copy)]
struct Stores<'s> {
    before: &'s MemDisk,
    after: &'s MemDisk,
    last: u32,
}

impl<'s> Stores<'s> {
    /// Runs the check with these words, of which the second store comes before the call of this number. How many calls there
    /// were.
    fn run(&self, alloc: Global, line: &str, at: u64) -> Result<(Outcome, u64)> {
        let (before, _) = hostile_copy(alloc, self.before, self.last, u64::MAX, true)?;
        let (after, _) = hostile_copy(alloc, self.after, self.last, u64::MAX, true)?;
        let mut disk = Beside::new(before, Swap { next: Some(after) }, at);
        let (sink, status) = check::run(alloc, &mut disk, 0, line)?;
        let text = sink.bytes().to_vec(alloc)?;
        Ok((Outcome { text, status }, disk.calls()))
    }
}

/// Prints in which ways the runs went beside a change: as of the store before it, as of that after it, and how many in
/// another way. Words: the greatest number of a log, and those of the command.
pub fn show(rt: &HostRuntime, before: &MemDisk, after: &MemDisk, rest: &str) -> Result<()> {
    let alloc = rt.alloc();
    let (last, line) = rest.split_once(' ').ok_or(anyhow!("a number and words"))?;
    let stores = Stores {
        before,
        after,
        last: last.parse::<u32>()?,
    };
    let (old, _) = stores.run(alloc, line, 0)?;
    let (new, _) = stores.run(alloc, line, 1)?;
    let mut as_before = false;
    let mut as_after = false;
    let mut breaches = 0u64;
    for at in 1..MOST {
        let (outcome, calls) = stores.run(alloc, line, at)?;
        if calls < at {
            break;
        }
        if outcome.is(&old) {
            as_before = true;
        } else if outcome.is(&new) {
            as_after = true;
        } else {
            breaches = breaches.saturating_add(1);
        }
    }
    println!(rt; "before {as_before} after {as_after} breaches {breaches}")?;
    Ok(())
}
