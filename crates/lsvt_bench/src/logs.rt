//! Logs on the real disk: records appended and flushed, a log opened, and logs from their making to their exit.
ghost use Rattle.std.specs.Prelude.{◌≡◌, ◌≤◌, false, length, IfOk, IfSome, OnOk};
ghost use Rattle.lsv_iolog.specs.Value.{is_complete};
ghost use Rattle.lsv_record.specs.Records.{IsValid};

use lsv_base::{Bytes, List, LogNo, Point};
use lsv_disk::Disk;
use lsv_info::{Exit, Head, Info};
use lsv_iolog::{IoLog, LogFault};
use lsv_real_disk::FileDisk;
use lsv_record::{Record, Stream};
use std::alloc::Global;
use std::fs;
use std::sync::Wait;
use std::time::Instant;

/// The records that are appended before each flush.
const BATCH: u32 = 100;

/// The records of a short session.
const SHORT: u32 = 3;

/// The disk of a store in this folder. None if memory ends.
fn store<W: Wait + Copy>(rt: HostRuntime, waits: W) -> Option<FileDisk<W>> {
    let Ok(mut disk) = FileDisk::new(rt, waits, "lsvt_bench") else {
        return None;
    };
    disk.open_store("store", "store/events", 1);
    disk.root("store", "store/events");
    Some(disk)
}

/// Terminal output of these bytes, a millisecond after the record before.
fn output(alloc: Global, bytes: &[u8]) -> Option<Record>
    requires { length bytes.now ≤ 2097152 }
    ensures { IfSome result IsValid }
{
    Some(Record::Io {
        delay: 1_000_000,
        stream: Stream::Ttyout,
        bytes: Bytes::of(alloc, bytes).ok()?,
    })
}

/// Makes a log of this number, with no record.
fn make<W: Wait + Copy>(
    alloc: Global,
    disk: &mut FileDisk<W>,
    number: LogNo,
    start: Point,
) -> Result<IoLog, LogFault>
    ensures { IfOk result (λ log. is_complete log ≡ false) }
{
    let head = Head {
        submit: start.spec(),
        info: Info {
            entries: List::new(alloc),
        },
    };
    IoLog::create(alloc, disk, number, &head)
}

/// Appends the same record this many times.
fn append_all(log: &mut IoLog, r: &Record, count: u32) -> Result<(), LogFault>
    requires valid { IsValid r.now }
    requires going { is_complete log.old ≡ false }
    ensures { OnOk result (is_complete log.new ≡ false) }
{
    for _ in 0..count {
        log.append(r)?;
    }
    Ok(())
}

/// Appends the same record, and flushes after each hundred, this many times. Prints on standard error the nanoseconds that
/// the appending and the flushing took.
fn fill<W: Wait + Copy>(
    rt: &HostRuntime,
    disk: &mut FileDisk<W>,
    log: &mut IoLog,
    r: &Record,
    flushes: u32,
) -> Option<u64>
    requires valid { IsValid r.now }
    requires going { is_complete log.old ≡ false }
{
    let (mut appending, mut flushing) = (0, 0);
    for _ in 0..flushes {
        let start = Instant::now(rt).ok()?;
        append_all(log, r, BATCH).ok()?;
        appending = start.elapsed(rt).ok()?.as_nanos().saturating_add(appending);
        let start = Instant::now(rt).ok()?;
        log.flush(disk).ok()?;
        flushing = start.elapsed(rt).ok()?.as_nanos().saturating_add(flushing);
    }
    let _ = eprintln!(rt; "{appending} {flushing}");
    Some(u64::from(flushes))
}

/// Makes log 1 of a store in this folder, and fills it with records of these data.
pub fn filled<W: Wait + Copy>(rt: HostRuntime, waits: W, bytes: &[u8], flushes: u32) -> Option<u64>
    requires { length bytes.now ≤ 2097152 }
{
    let Some(mut disk) = store(rt, waits) else {
        return None;
    };
    let r = output(rt.alloc(), bytes)?;
    let mut log = make(rt.alloc(), &mut disk, LogNo::new(1)?, Point::new(0)?).ok()?;
    fill(&rt, &mut disk, &mut log, &r, flushes)
}

/// The most memory in KiB that this process has held, as the system reports it.
fn peak(rt: &HostRuntime) -> Option<u64> {
    let status = fs::read_to_string(rt, "/proc/self/status").ok()?;
    let line = status.lines().find(|line| line.starts_with("VmHWM:"))?;
    line.split_whitespace().nth(1)?.parse::<u64>().ok()
}

/// Opens log 1 of a store in this folder, and returns the number of its records. Prints on standard error the nanoseconds
/// that this took, and the most memory in KiB that the process held.
pub fn opened<W: Wait + Copy>(rt: HostRuntime, waits: W) -> Option<u64> {
    let Some(mut disk) = store(rt, waits) else {
        return None;
    };
    let start = Instant::now(&rt).ok()?;
    let log = IoLog::open(rt.alloc(), &mut disk, LogNo::new(1)?).ok()?;
    let opening = start.elapsed(&rt).ok()?.as_nanos();
    let _ = eprintln!(rt; "{opening} {}", peak(&rt)?);
    Some(log.count())
}

/// Makes a log, fills it with three records, and finishes it.
fn short_log<W: Wait + Copy>(
    alloc: Global,
    disk: &mut FileDisk<W>,
    number: LogNo,
    start: Point,
    r: &Record,
) -> Result<Point, LogFault>
    requires { IsValid r.now }
{
    let mut log = make(alloc, disk, number, start)?;
    append_all(&mut log, r, SHORT)?;
    log.flush(disk)?;
    let exit = Exit {
        run: start.spec(),
        value: 0,
        dumped: false,
        signal: Bytes::new(alloc),
        error: Bytes::new(alloc),
    };
    log.finish(disk, &exit)
}

/// Makes this many short logs, from the first number on.
fn short_logs_of<W: Wait + Copy>(
    alloc: Global,
    disk: &mut FileDisk<W>,
    r: &Record,
    count: u32,
) -> Option<u64>
    requires { IsValid r.now }
{
    for number in 0..count {
        let number = LogNo::new(number.saturating_add(1))?;
        short_log(alloc, disk, number, Point::new(0)?, r).ok()?;
    }
    Some(u64::from(count))
}

/// Makes this many short logs of a store in this folder.
pub fn short_logs<W: Wait + Copy>(rt: HostRuntime, waits: W, count: u32) -> Option<u64> {
    let Some(mut disk) = store(rt, waits) else {
        return None;
    };
    let r = output(rt.alloc(), b"0123456789")?;
    short_logs_of(rt.alloc(), &mut disk, &r, count)
}
