//! Looks at a log that is followed while it is written.

use crate::store::Store;
use anyhow::{Result, anyhow};
use lsv_base::LogNo;
use lsv_follow::{Follow, FollowFault, Seen};
use lsv_record::{Record, Stream};

/// The most device calls of a look. One that gives a record reads its line and its data besides.
const MOST_CALLS: u64 = 12;

/// The device calls that were made, with the lengths that were asked for.
fn calls(store: &Store) -> u64 {
    store.disk.calls().saturating_add(store.disk.lengths())
}

/// Opens a log to follow it, or prints why that can't be.
pub fn open(rt: &HostRuntime, store: &mut Store, words: &str) -> Result<Option<Follow>> {
    let number = LogNo::new(words.parse::<u32>()?).ok_or(anyhow!("a number"))?;
    match Follow::open(rt.alloc(), store, number) {
        Ok(log) => Ok(Some(log)),
        Err(fault) => {
            println!(rt; "{fault}")?;
            Ok(None)
        }
    }
}

/// Looks at a log, and prints what is found, and whether the look took more device calls than it may.
pub fn look(rt: &HostRuntime, store: &mut Store, log: &mut Follow) -> Result<()> {
    let before = calls(store);
    let seen = log.next(store);
    let made = calls(store).saturating_sub(before);
    let mut most = MOST_CALLS;
    match seen {
        Ok(Seen::Record(record)) => {
            most = MOST_CALLS + 2;
            show(rt, &record)?;
        }
        Ok(Seen::Nothing) => println!(rt; "nothing")?,
        Ok(Seen::End) => println!(rt; "end")?,
        Err(FollowFault::Resumed { seen, now }) => println!(rt; "resumed: {seen} cuts, now {now}")?,
        Err(FollowFault::Log(fault)) => println!(rt; "{fault}")?,
        Err(FollowFault::NoMem) => println!(rt; "out of memory")?,
    }
    if made > most {
        println!(rt; "{made} calls")?;
    }
    Ok(())
}

/// Prints a record.
fn show(rt: &HostRuntime, record: &Record) -> Result<()> {
    let delay = record.delay();
    match record {
        Record::Io { stream, bytes, .. } => {
            let name = name_of(*stream);
            let digits = hex::encode(rt.alloc(), bytes.as_slice())?;
            println!(rt; "record {delay} {name} {digits}")?;
        }
        Record::Winsize { rows, cols, .. } => println!(rt; "record {delay} winsize {rows} {cols}")?,
        Record::Suspend { .. } => println!(rt; "record {delay} suspend")?,
    }
    Ok(())
}

fn name_of(stream: Stream) -> &'static str {
    match stream {
        Stream::Stdin => "stdin",
        Stream::Stdout => "stdout",
        Stream::Stderr => "stderr",
        Stream::Ttyin => "ttyin",
        Stream::Ttyout => "ttyout",
    }
}
