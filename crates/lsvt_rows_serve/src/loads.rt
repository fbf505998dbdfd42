//! Loads over a store in memory of their own, and how they end.

ghost use Rattle.std.specs.Prelude.{◌≤◌, IfOk};

use crate::disk;
use crate::outside::Still;
use anyhow::{Result, anyhow};
use lsv_base::List;
use lsv_hook::Formatter;
use lsv_keeper::Policy;
use lsv_lane::Bay;
use lsv_load::{LoadEnd, run_load};
use lsv_mask::{Prompt, TextSearch};
use lsv_seq::Numbers;
use lsv_turn::NoTape;
use lsvt_doubles::{Hostile, Plan as Fate};
use std::alloc::Global;
use std::mem;

/// A store of one lane.
#[derive(Drop)]
pub struct Loads {
    disk: Hostile,
}

/// The count of conversations.
fn count_of(word: &str) -> Result<u32>
    ensures first { IfOk result (λ count. 1 ≤ count) }
    ensures last { IfOk result (λ count. count ≤ 10000) }
{
    let count = word.parse::<u32>()?;
    if count < 1 || count > 10_000 {
        return Err(anyhow!("a number from 1 to 10,000"));
    }
    Ok(count)
}

impl Loads {
    /// An empty store.
    pub fn new(alloc: Global) -> Result<Self> {
        Loads::with(alloc, Fate::Whole)
    }

    fn with(alloc: Global, fate: Fate) -> Result<Self> {
        let disk = disk::empty(alloc, fate)?;
        Ok(Loads { disk })
    }

    /// Does a case. `store` begins an empty store, and `fail` one whose disk call of this number fails. `run` runs a load of
    /// this count of conversations, and prints its summary or the fault. `drawn` prints the last log number.
    pub fn answer(&mut self, rt: &HostRuntime, words: &str) -> Result<()> {
        let alloc = rt.alloc();
        let (word, rest) = words.split_once(' ').unwrap_or((words, ""));
        match word {
            "store" => *self = Loads::new(alloc)?,
            "fail" => *self = Loads::with(alloc, Fate::Call(rest.parse::<u64>()?))?,
            "run" => show(rt, &self.run(alloc, count_of(rest)?)?)?,
            "drawn" => self.show_drawn(rt)?,
            _ => return Err(anyhow!("a case of a load")),
        }
        Ok(())
    }

    /// Runs a load of `count` conversations.
    fn run(&mut self, alloc: Global, count: u32) -> Result<LoadEnd>
        requires first { 1 ≤ count }
        requires last { count ≤ 10000 }
    {
        let policy = Policy {
            formatter: Formatter::sudo(),
            log_exit: false,
            texts: List::new(alloc),
            prompt: Prompt::new(TextSearch),
        };
        let disk = mem::replace(&mut self.disk, disk::empty(alloc, Fate::Whole)?);
        let bay = Bay {
            disk,
            clock: Still,
            tape: NoTape,
        };
        let (bay, end) = run_load(alloc, count, bay, policy);
        self.disk = bay.disk;
        Ok(end)
    }

    /// Prints the last log number that was drawn.
    fn show_drawn(&mut self, rt: &HostRuntime) -> Result<()> {
        match Numbers::open(&mut self.disk, 0, 1) {
            Ok(numbers) => println!(rt; "drawn {}", numbers.last())?,
            Err(_) => return Err(anyhow!("numbers")),
        }
        Ok(())
    }
}

/// Prints how a load ended: the text of its summary, or the fault.
fn show(rt: &HostRuntime, end: &LoadEnd) -> Result<()> {
    match end {
        LoadEnd::Served(text) => {
            let text = str::from_utf8(text.as_slice()).map_err(|_| anyhow!("a text"))?;
            print!(rt; "{text}")?;
        }
        LoadEnd::Store(fault) => println!(rt; "{fault}")?,
        LoadEnd::NoMem => println!(rt; "out of memory")?,
    }
    Ok(())
}
