//! Runs of the check of a store.

use crate::run::words_of;
use crate::store::hostile_copy;
use anyhow::{Result, anyhow};
use lsv_base::{LogNo, MemSink, NoMem};
use lsv_check::{CheckNotices, CheckStatus, sudo_logcheck};
use lsv_disk::{Disk, MemDisk};
use md5::{Digest, Md5};
use std::alloc::Global;
use std::str;

/// Calls are let fail up to this number.
const MOST_CALLS: u64 = 10_000;

/// Nobody learns how far a run is.
#[derive(Drop)]
struct Nobody;

impl CheckNotices for Nobody {
    fn checking(&mut self, _: LogNo, _: u32) {}
}

/// Runs the program on a sink of which this write fails.
pub fn run<D: Disk>(
    alloc: Global,
    disk: &mut D,
    fail: u64,
    line: &str,
) -> Result<(MemSink, CheckStatus), NoMem> {
    let words = words_of(alloc, line)?;
    let mut sink = MemSink::new(alloc, vec![in alloc; fail]?);
    let status = sudo_logcheck(alloc, &words, disk, &mut sink, &mut Nobody);
    Ok((sink, status))
}

/// Prints how a run ended.
fn show_status(rt: &HostRuntime, status: CheckStatus) -> Result<()> {
    let text = status.text(rt.alloc())?;
    let text = str::from_utf8(text.as_slice()).map_err(|_| anyhow!("no text"))?;
    println!(rt; "status {} {text}", status.number())?;
    Ok(())
}

/// Prints the lines of a run, and how it ended.
pub fn show(rt: &HostRuntime, disk: &mut MemDisk, fail: u64, line: &str) -> Result<()> {
    let (sink, status) = run(rt.alloc(), disk, fail, line)?;
    let text = str::from_utf8(sink.bytes()).map_err(|_| anyhow!("no text"))?;
    print!(rt; "{text}")?;
    show_status(rt, status)
}

/// Prints how many bytes a run puts, their MD5 digest, and how it ended.
pub fn sum(rt: &HostRuntime, disk: &mut MemDisk, line: &str) -> Result<()> {
    let alloc = rt.alloc();
    let (sink, status) = run(alloc, disk, 0, line)?;
    let digest = Md5::digest(sink.bytes());
    println!(rt;
        "bytes {} digest {}",
        sink.bytes().len(),
        hex::encode(alloc, digest.as_slice())?
    )?;
    show_status(rt, status)
}

/// Lets each device call of a run fail in turn, up to the first that doesn't come. Prints each run that isn't what it is to be.
/// Words: the greatest number of a log, and those of the command.
pub fn fail_each(rt: &HostRuntime, disk: &mut MemDisk, rest: &str) -> Result<()> {
    let (last, line) = rest.split_once(' ').unwrap_or((rest, ""));
    let last = last.parse::<u32>()?;
    let (whole, _) = run(rt.alloc(), disk, 0, line)?;
    let calls = fail_calls(rt, disk, whole.bytes(), last, line, false)?;
    let lengths = fail_calls(rt, disk, whole.bytes(), last, line, true)?;
    let many = if calls < 10 || lengths < 10 {
        "few"
    } else {
        "many"
    };
    println!(rt; "{many} calls")?;
    Ok(())
}

/// The same for the calls that read, or for those that ask for a length. How many came.
fn fail_calls(
    rt: &HostRuntime,
    disk: &MemDisk,
    whole: &[u8],
    last: u32,
    line: &str,
    is_length: bool,
) -> Result<u64> {
    for number in 1..MOST_CALLS {
        let (mut copy, made) = hostile_copy(rt.alloc(), disk, last, number, is_length)?;
        let (sink, status) = run(rt.alloc(), &mut copy, 0, line)?;
        let came = if is_length {
            copy.lengths() >= number
        } else {
            copy.calls().saturating_sub(made) >= number
        };
        if !came {
            return Ok(number - 1);
        }
        if let Some(why) = unlike(whole, sink.bytes(), status) {
            println!(rt; "call {number}: {why}, status {}", status.number())?;
        }
    }
    Err(anyhow!("too many calls"))
}

/// What a run says of number files of which one can't be read.
const UNREAD_NUMBERS: &[u8] = b"unread      number files";

/// Why a run with a failed call isn't as it is to be: it ends with a read fault, and one line says what is unread. The number files'
/// line is the only one if no log is named, or comes after those of all logs and before the sums. Or it is the line of a log.
fn unlike(whole: &[u8], put: &[u8], status: CheckStatus) -> Option<&'static str> {
    if status != CheckStatus::ReadFault {
        return Some("no read fault");
    }
    if put.strip_suffix(b"\n") == Some(UNREAD_NUMBERS) {
        return None;
    }
    let mut unread = 0u32;
    let mut lines = whole.split(|byte| *byte == b'\n');
    for line in put.split(|byte| *byte == b'\n') {
        if line == UNREAD_NUMBERS && unread == 0 && put.ends_with(b" absent\n") {
            // No event log is read if the count of lanes isn't known.
            return None;
        }
        let Some(other) = lines.next() else {
            return Some("too many lines");
        };
        if line == other || is_of_sums(line) {
            continue;
        }
        if !is_unread(line, other) {
            return Some("another line");
        }
        unread = unread.saturating_add(1);
    }
    if lines.next().is_some() {
        return Some("too few lines");
    }
    if unread == 1 {
        None
    } else {
        Some("not one unread line")
    }
}

/// Whether a line has the sums.
fn is_of_sums(line: &[u8]) -> bool {
    line.ends_with(b" absent")
}

/// Whether a line says that the log of another line is unread.
fn is_unread(line: &[u8], other: &[u8]) -> bool {
    line.starts_with(b"unread ") && line.get(12..18) == other.get(12..18)
}
