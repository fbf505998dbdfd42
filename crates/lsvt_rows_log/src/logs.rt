//! The calls of a log, and of a lane's numbers.

ghost use Rattle.std.specs.Prelude.{IsSome};
ghost use Rattle.lsv_base.specs.Time.{nanos_of};

use crate::records::{entry_of, point_of, record_of};
use crate::store::Store;
use anyhow::{Result, anyhow};
use lsv_base::{Bytes, List, LogNo, Point};
use lsv_info::{Entry, Exit, Head, Info};
use lsv_iolog::{IoLog, LogFault, LogView};
use lsv_seq::Numbers;
use std::alloc::Global;

/// What is open: a log, a lane's numbers, and the information for the next log that is made.
#[derive(Drop)]
pub struct Opened {
    entries: Vec<Entry>,
    log: Option<IoLog>,
    numbers: Option<Numbers>,
}

fn number_of(word: &str) -> Result<LogNo> {
    LogNo::new(word.parse::<u32>()?).ok_or(anyhow!("a number"))
}

/// The head of a log.
fn head(at: Point, entries: Vec<Entry>) -> Head
    ensures { IsSome (nanos_of result.submit) }
{
    Head {
        submit: at.spec(),
        info: Info {
            entries: List::from_vec(entries),
        },
    }
}

/// The exit of a log.
fn exit(alloc: Global, run: Point, value: i32) -> Exit
    ensures { IsSome (nanos_of result.run) }
{
    Exit {
        run: run.spec(),
        value,
        dumped: false,
        signal: Bytes::new(alloc),
        error: Bytes::new(alloc),
    }
}

/// The point up to which a log goes after a call, or why the call failed.
pub type Outcome = Result<Point, LogFault>;

/// Prints what a call answered.
pub fn show(rt: &HostRuntime, outcome: Outcome) -> Result<()> {
    match outcome {
        Ok(point) => println!(rt; "to {}", point.nanos())?,
        Err(fault) => println!(rt; "{fault}")?,
    }
    Ok(())
}

impl Opened {
    /// Nothing is open.
    pub fn new(alloc: Global) -> Self {
        Opened {
            entries: Vec::new(alloc),
            log: None,
            numbers: None,
        }
    }

    /// An entry more of the information for the next log.
    pub fn add_entry(&mut self, alloc: Global, words: &str) -> Result<()> {
        self.entries.push(entry_of(alloc, words)?)?;
        Ok(())
    }

    fn log(&mut self) -> Result<&mut IoLog> {
        self.log.as_mut().ok_or(anyhow!("an open log"))
    }

    /// Makes a call of a log, and returns its answer.
    pub fn call(
        &mut self,
        alloc: Global,
        store: &mut Store,
        word: &str,
        words: &str,
    ) -> Result<Outcome> {
        match word {
            "create" => self.create(alloc, store, words),
            "open" => self.open(alloc, store, words),
            "flush" => Ok(self.log()?.flush(store)),
            "cut" => self.cut(alloc, store, words),
            "finish" => self.finish(alloc, store, words),
            _ => Err(anyhow!("a call of a log")),
        }
    }

    /// Makes a log: its number, and when it was submitted.
    fn create(&mut self, alloc: Global, store: &mut Store, words: &str) -> Result<Outcome> {
        let (number, at) = words.split_once(' ').ok_or(anyhow!("a moment"))?;
        let number = number_of(number)?;
        let at = point_of(at)?;
        let entries = std::mem::replace(&mut self.entries, Vec::new(alloc));
        let made = IoLog::create(alloc, store, number, &head(at, entries));
        Ok(self.keep(made))
    }

    /// Opens a log.
    fn open(&mut self, alloc: Global, store: &mut Store, words: &str) -> Result<Outcome> {
        let number = number_of(words)?;
        let opened = IoLog::open(alloc, store, number);
        Ok(self.keep(opened))
    }

    /// Keeps a log that was made or opened.
    fn keep(&mut self, made: Result<IoLog, LogFault>) -> Outcome {
        let log = made?;
        let point = log.elapsed();
        self.log = Some(log);
        Ok(point)
    }

    /// Stages a record.
    pub fn append(&mut self, alloc: Global, words: &str) -> Result<()> {
        let r = record_of(alloc, words)?;
        let log = self.log()?;
        if log.is_complete() {
            return Err(anyhow!("a log that isn't complete"));
        }
        log.append(&r)?;
        Ok(())
    }

    /// Stages a record this many times.
    pub fn append_many(&mut self, alloc: Global, words: &str) -> Result<()> {
        let (times, rest) = words.split_once(' ').ok_or(anyhow!("a record"))?;
        for _ in 0..times.parse::<u64>()? {
            self.append(alloc, rest)?;
        }
        Ok(())
    }

    /// Opens the log anew, so that nothing is staged, and cuts it at a point. What the opening read isn't noted.
    fn cut(&mut self, alloc: Global, store: &mut Store, words: &str) -> Result<Outcome> {
        let (number, point) = words.split_once(' ').ok_or(anyhow!("a point"))?;
        let number = number_of(number)?;
        let point = point_of(point)?;
        let mut log = match IoLog::open(alloc, store, number) {
            Ok(log) => log,
            Err(fault) => return Ok(Err(fault)),
        };
        let _ = store.take_longest();
        let cut = log.cut_at(store, point);
        let elapsed = log.elapsed();
        self.log = Some(log);
        Ok(cut.map(|_| elapsed))
    }

    /// Commits what is staged with an exit: how long the command ran, and its exit value.
    fn finish(&mut self, alloc: Global, store: &mut Store, words: &str) -> Result<Outcome> {
        let (run, value) = words.split_once(' ').ok_or(anyhow!("an exit"))?;
        let exit = exit(alloc, point_of(run)?, value.parse::<i32>()?);
        let log = self.log()?;
        if log.is_complete() {
            return Ok(Err(LogFault::Complete));
        }
        Ok(log.finish(store, &exit))
    }

    /// Opens the numbers of a lane of this many lanes.
    pub fn open_numbers(&mut self, store: &mut Store, words: &str) -> Result<()> {
        let (lane, lanes) = words.split_once(' ').ok_or(anyhow!("a lane of lanes"))?;
        let lane = lane.parse::<u32>()?;
        let lanes = lanes.parse::<u32>()?;
        if lane >= lanes || lanes > 8 {
            return Err(anyhow!("a lane"));
        }
        self.numbers = Some(Numbers::open(store, lane, lanes)?);
        Ok(())
    }

    /// Draws a number, and prints it.
    pub fn draw(&mut self, rt: &HostRuntime, store: &mut Store) -> Result<()> {
        let numbers = self.numbers.as_mut().ok_or(anyhow!("open numbers"))?;
        let number = numbers.draw(store)?;
        println!(rt; "number {}", number.get())?;
        Ok(())
    }
}

/// Reads a log record by record, and prints how many there are, to which point they go, how often it was cut, and its
/// exit's value where it has one.
pub fn view(rt: &HostRuntime, store: &mut Store, words: &str) -> Result<()> {
    let mut view = match LogView::open(rt.alloc(), store, number_of(words)?) {
        Ok(view) => view,
        Err(fault) => return show(rt, Err(LogFault::from(fault))),
    };
    let body = view.body();
    let mut count = 0u64;
    let mut elapsed = 0u64;
    for _ in 0..=body.count {
        let Some(r) = view.next(store)? else {
            break;
        };
        count = count.saturating_add(1);
        elapsed = elapsed.saturating_add(r.delay());
    }
    let cuts = body.extra;
    match view.exit(store)? {
        Some(exit) => {
            println!(rt;
                "{count} records to {elapsed}, {cuts} cuts, exit {}",
                exit.value
            )?
        }
        None => println!(rt; "{count} records to {elapsed}, {cuts} cuts, no exit")?,
    }
    Ok(())
}
