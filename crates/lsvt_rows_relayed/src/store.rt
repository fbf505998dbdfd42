//! The store of the cases: log 1, of four records and 3.5 s, and complete.

ghost use Rattle.std.specs.Prelude.{IfOk, IsSome};
ghost use Rattle.lsv_base.specs.Time.{nanos_of};
ghost use Rattle.lsv_record.specs.Records.{IsValid};

use anyhow::{Result, anyhow};
use lsv_base::{Bytes, List, LogNo, Point};
use lsv_info::{Entry, Exit, Head, Info, Value};
use lsv_iolog::IoLog;
use lsv_record::{Record, Stream};
use lsvt_doubles::{Hostile, Plan};
use std::alloc::Global;

/// The command's information: each key with its text.
const KEYS: [(&str, &str); 4] = [
    ("command", "/bin/ls"),
    ("runuser", "root"),
    ("submituser", "alice"),
    ("submithost", "h"),
];

/// The elapsed time of the log, in nanoseconds.
pub const TIME: u64 = 3_500_000_000;

/// The number of the log.
pub fn number() -> Result<LogNo> {
    LogNo::new(1).ok_or(anyhow!("a number"))
}

fn point(nanos: u64) -> Result<Point> {
    Point::new(nanos).ok_or(anyhow!("a point"))
}

fn head(alloc: Global, submit: Point) -> Result<Head>
    ensures { IfOk result (λ head. IsSome (nanos_of head.submit)) }
{
    let mut entries = Vec::new(alloc);
    for (key, text) in KEYS {
        entries.push(Entry {
            key: Bytes::of(alloc, key.as_bytes())?,
            value: Value::Text(Bytes::of(alloc, text.as_bytes())?),
        })?;
    }
    Ok(Head {
        submit: submit.spec(),
        info: Info {
            entries: List::from_vec(entries),
        },
    })
}

fn exit(alloc: Global, run: Point) -> Exit
    ensures { IsSome (nanos_of result.run) }
{
    Exit {
        run: run.spec(),
        value: 0,
        dumped: false,
        signal: Bytes::new(alloc),
        error: Bytes::new(alloc),
    }
}

/// A record of the terminal's output.
fn output(alloc: Global, delay: u64, text: &[u8]) -> Result<Record>
    ensures { IfOk result IsValid }
{
    if delay >= 1 << 63 || text.len() > 64 {
        return Err(anyhow!("a small record"));
    }
    Ok(Record::Io {
        delay,
        stream: Stream::Ttyout,
        bytes: Bytes::of(alloc, text)?,
    })
}

/// Adds a record to a log that has no exit.
fn append(log: &mut IoLog, record: &Record) -> Result<()>
    requires { IsValid record.now }
{
    if log.is_complete() {
        return Err(anyhow!("a log that isn't complete"));
    }
    log.append(record)?;
    Ok(())
}

/// Adds the records of the log.
fn add_records(alloc: Global, log: &mut IoLog) -> Result<()> {
    append(log, &output(alloc, 500_000_000, b"one")?)?;
    append(log, &output(alloc, 1_000_000_000, b"two")?)?;
    append(log, &output(alloc, 0, b"\r\n0\r\n")?)?;
    append(
        log,
        &Record::Winsize {
            delay: 2_000_000_000,
            rows: 30,
            cols: 100,
        },
    )
}

/// Adds the exit to a log that has none.
fn complete(log: &mut IoLog, disk: &mut Hostile, exit: &Exit) -> Result<()>
    requires { IsSome (nanos_of exit.now.run) }
{
    if log.is_complete() {
        return Err(anyhow!("a log that isn't complete"));
    }
    log.finish(disk, exit)?;
    Ok(())
}

/// A disk with the log, that this befalls.
pub fn disk(alloc: Global, plan: Plan) -> Result<Hostile> {
    let mut disk = Hostile::new(alloc, plan).map_err(|_| anyhow!("out of memory"))?;
    let head = head(alloc, point(1_000_000_000)?)?;
    let mut log = IoLog::create(alloc, &mut disk, number()?, &head)?;
    add_records(alloc, &mut log)?;
    complete(&mut log, &mut disk, &exit(alloc, point(3_600_000_000)?))?;
    Ok(disk)
}
