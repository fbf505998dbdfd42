//! A log that is played or followed while a restart cuts it.

ghost use Rattle.std.specs.Prelude.{IfOk};
ghost use Rattle.lsv_iolog.specs.Value.{IsFlushed};
ghost use Rattle.lsv_record.specs.Records.{IsValid};

use crate::run::words_of;
use crate::store::copy_for;
use anyhow::{Result, anyhow};
use lsv_base::{Bytes, LogNo, NoMem, Point};
use lsv_disk::{Fill, MemDisk};
use lsv_follow::Nobody;
use lsv_iolog::{IoLog, LogFault};
use lsv_play::{Item, MemScreen};
use lsv_record::{Record, Stream};
use lsv_replay::{NoGaps, ReplayStatus, sudoreplay};
use lsvt_doubles::{Beside, Hostile, Plan, Writer};
use std::alloc::Global;

/// The log that is cut.
const NUMBER: u32 = 1;

/// The bytes of each record.
const SIZE: usize = 30_000;

/// The delay of each record, in nanoseconds.
const SECOND: u64 = 1_000_000_000;

/// What a follower waits after a look that found nothing, in nanoseconds.
const PAUSE: u64 = 100_000_000;

/// A restart: the log is cut at this point, and then this many records are added.
#[derive(Clone, Copy)]
struct Restart {
    alloc: Global,
    point: Point,
    count: u64,
}

/// A record of a second, whose bytes are all this one.
fn record_of(alloc: Global, byte: u8) -> Result<Record, NoMem>
    ensures { IfOk result IsValid }
{
    let bytes = vec![in alloc; byte; SIZE]?;
    Ok(Record::Io {
        delay: SECOND,
        stream: Stream::Ttyout,
        bytes: Bytes::from_vec(bytes),
    })
}

/// Adds records to a log, of which the first has this byte, and each further one the next.
fn add(alloc: Global, log: &mut IoLog, byte: u8, count: u64) -> Result<(), LogFault> {
    let mut byte = byte;
    for _ in 0..count {
        if log.is_complete() {
            return Err(LogFault::Complete);
        }
        log.append(&record_of(alloc, byte)?)?;
        byte = byte.wrapping_add(1);
    }
    Ok(())
}

/// Opens the log.
fn open(alloc: Global, disk: &mut Hostile) -> Result<IoLog, LogFault>
    ensures { IfOk result IsFlushed }
{
    let number = LogNo::new(NUMBER).ok_or(LogFault::Absent)?;
    IoLog::open(alloc, disk, number)
}

/// Adds the first records of the log.
fn grow(alloc: Global, disk: &mut Hostile, count: u64) -> Result<(), LogFault> {
    let mut log = open(alloc, disk)?;
    add(alloc, &mut log, b'A', count)?;
    log.flush(disk)?;
    Ok(())
}

impl Restart {
    /// Cuts the log, and adds records with other bytes.
    fn resume(&self, disk: &mut Hostile) -> Result<(), LogFault> {
        let mut log = open(self.alloc, disk)?;
        log.cut_at(disk, self.point)?;
        add(self.alloc, &mut log, b'a', self.count)?;
        log.flush(disk)?;
        Ok(())
    }
}

impl Writer for Restart {
    fn write(&mut self, disk: &mut Hostile) {
        let _ = self.resume(disk);
    }
}

/// What is done beside the restart. The call of the screen with this number fails, if it isn't 0.
#[derive(Clone, Copy)]
struct Reader {
    words: &'static str,
    fail: u64,
}

/// A play ends with the log.
const PLAY: Reader = Reader {
    words: "000001",
    fail: 0,
};

/// A follower of a log that isn't complete ends after an hour. So its screen fails, some pauses after the last record.
const FOLLOW: Reader = Reader {
    words: "-F 000001",
    fail: 14,
};

/// More calls than these no reader makes.
const MOST: u64 = 100_000;

/// How a reader went beside the restart.
#[derive(Clone, Copy, PartialEq, Eq)]
enum Outcome {
    /// All was shown as before the restart.
    Before,
    /// A first part of that was shown, and it ended as resumed.
    Resumed,
    /// All was shown as after it.
    After,
    /// Something else.
    Breach,
}

/// A disk with the files of the log, to which this many records are added.
fn copy(alloc: Global, disk: &MemDisk, first: u64) -> Result<Hostile> {
    let mut other = copy_for(alloc, disk, 0)?;
    grow(alloc, &mut other, first)?;
    Ok(other.image(alloc, Fill::Read, Plan::Whole)?)
}

/// Reads the log beside a restart before the call of this number. It gives the calls that were made.
fn read_at(
    alloc: Global,
    disk: Hostile,
    restart: Restart,
    reader: Reader,
    at: u64,
) -> Result<(MemScreen, ReplayStatus, u64)> {
    let words = words_of(alloc, reader.words)?;
    let mut beside = Beside::new(disk, restart, at);
    let mut screen = MemScreen::new(alloc, vec![in alloc; reader.fail]?);
    let status = sudoreplay(
        alloc,
        &words,
        &mut beside,
        &mut screen,
        &mut Nobody,
        &mut NoGaps,
    );
    Ok((screen, status, beside.calls()))
}

/// Whether two items are the same.
fn is_same(a: &Item, b: &Item) -> bool {
    match (a, b) {
        (Item::Wait(a), Item::Wait(b)) => a == b,
        (Item::Put(a), Item::Put(b)) => a.as_slice() == b.as_slice(),
        (Item::Wait(_), Item::Put(_)) => false,
        (Item::Put(_), Item::Wait(_)) => false,
    }
}

/// How many items there are before the pauses of a follower, which come at the end.
fn before_pauses(items: &[Item]) -> usize {
    let mut count = 0usize;
    for item in items {
        if let Item::Wait(PAUSE) = item {
            return count;
        }
        count = count.saturating_add(1);
    }
    count
}

/// Whether the first `count` items are those of the others.
fn is_first(part: &[Item], count: usize, whole: &[Item]) -> bool {
    count <= whole.len()
        && part
            .iter()
            .zip(whole.iter())
            .take(count)
            .all(|(a, b)| is_same(a, b))
}

/// How it went, by what is shown before the restart and after it.
fn outcome_of(shown: &[Item], status: ReplayStatus, old: &[Item], new: &[Item]) -> Outcome {
    let count = before_pauses(shown);
    match status {
        ReplayStatus::Shown | ReplayStatus::WriteFault => {
            if count == old.len() && is_first(shown, count, old) {
                Outcome::Before
            } else if count == new.len() && is_first(shown, count, new) {
                Outcome::After
            } else {
                Outcome::Breach
            }
        }
        ReplayStatus::Resumed if is_first(shown, count, old) => Outcome::Resumed,
        _ => Outcome::Breach,
    }
}

/// How often it went in each way.
#[derive(Clone, Copy)]
struct Counts {
    before: u64,
    resumed: u64,
    after: u64,
    breaches: u64,
}

impl Counts {
    fn add(&mut self, outcome: Outcome) {
        match outcome {
            Outcome::Before => self.before = self.before.saturating_add(1),
            Outcome::Resumed => self.resumed = self.resumed.saturating_add(1),
            Outcome::After => self.after = self.after.saturating_add(1),
            Outcome::Breach => self.breaches = self.breaches.saturating_add(1),
        }
    }
}

/// A copy of the disk.
fn again(alloc: Global, disk: &Hostile) -> Result<Hostile> {
    Ok(disk.image(alloc, Fill::Read, Plan::Whole)?)
}

/// Reads log 1 beside a restart before each of its calls, and says in which ways it went.
fn count(alloc: Global, disk: &Hostile, restart: Restart, reader: Reader) -> Result<Counts> {
    let (old, _, _) = read_at(alloc, again(alloc, disk)?, restart, PLAY, 0)?;
    let (new, _, _) = read_at(alloc, again(alloc, disk)?, restart, PLAY, 1)?;
    let mut counts = Counts {
        before: 0,
        resumed: 0,
        after: 0,
        breaches: 0,
    };
    for before in 0..MOST {
        let at = before.saturating_add(1);
        let (screen, status, calls) = read_at(alloc, again(alloc, disk)?, restart, reader, at)?;
        if calls < at {
            break;
        }
        counts.add(outcome_of(screen.items(), status, old.items(), new.items()));
    }
    Ok(counts)
}

/// Prints in which ways it went. The words are `play` or `follow`, the count of records that the log has first, the
/// point of the restart in nanoseconds, and the count of records that it adds.
pub fn show(rt: &HostRuntime, disk: &MemDisk, words: &str) -> Result<()> {
    let alloc = rt.alloc();
    let (word, rest) = words.split_once(' ').ok_or(anyhow!("a word"))?;
    let (first, rest) = rest.split_once(' ').ok_or(anyhow!("three numbers"))?;
    let (point, added) = rest.split_once(' ').ok_or(anyhow!("three numbers"))?;
    let restart = Restart {
        alloc,
        point: Point::new(point.parse::<u64>()?).ok_or(anyhow!("a point"))?,
        count: added.parse::<u64>()?,
    };
    let reader = if word == "follow" { FOLLOW } else { PLAY };
    let disk = copy(alloc, disk, first.parse::<u64>()?)?;
    let counts = count(alloc, &disk, restart, reader)?;
    println!(rt;
        "before {} resumed {} after {} breaches {}",
        counts.before > 0,
        counts.resumed > 0,
        counts.after > 0,
        counts.breaches
    )?;
    Ok(())
}
