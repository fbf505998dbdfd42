//! Whether what is recovered of a log holds what was promised of it.

use crate::found::Found;
use crate::ledger::Ledger;
use anyhow::Result;
use lsv_info::{Exit, Head, write_exit, write_head};
use lsv_record::Record;
use std::alloc::Global;

/// Whether what is recovered is good for what a history says of the log: it holds what was promised; where its number
/// wasn't answered it is absent, or has no records and no exit.
pub fn is_good(alloc: Global, ledger: &Ledger, found: Option<&Found>) -> Result<bool> {
    match (ledger.promised, found) {
        (None, None) => Ok(true),
        (None, Some(found)) => Ok(found.records.is_empty() && found.exit.is_none()),
        (Some(_), None) => Ok(false),
        (Some(promised), Some(found)) => keeps(alloc, ledger, promised, found),
    }
}

/// Whether a log holds what was promised of it: its head is that of its accept, its records are a prefix of those that were
/// sent, and the promised ones at least, and its exit is the last one of a writer.
fn keeps(alloc: Global, ledger: &Ledger, promised: usize, found: &Found) -> Result<bool> {
    let has_head = is_head(alloc, ledger.head, &found.head)?;
    let has_exit = is_exit(alloc, ledger, found)?;
    let has_records = is_prefix(&found.records, &ledger.sent);
    let has_enough = promised <= found.records.len();
    Ok(has_head && has_records && has_enough && has_exit && ledger.told == 1)
}

/// Whether the records begin these others.
fn is_prefix(records: &[Record], whole: &[&Record]) -> bool {
    if records.len() > whole.len() {
        return false;
    }
    for (r, other) in records.iter().zip(whole.iter()) {
        if !is_same(r, other) {
            return false;
        }
    }
    true
}

/// Whether two records are one.
fn is_same(r: &Record, other: &Record) -> bool {
    match (r, other) {
        (
            Record::Io {
                delay,
                stream,
                bytes,
            },
            Record::Io {
                delay: d,
                stream: s,
                bytes: b,
            },
        ) => delay == d && stream == s && bytes.as_slice() == b.as_slice(),
        (
            Record::Winsize { delay, rows, cols },
            Record::Winsize {
                delay: d,
                rows: r,
                cols: c,
            },
        ) => delay == d && rows == r && cols == c,
        (
            Record::Suspend { delay, signal },
            Record::Suspend {
                delay: d,
                signal: s,
            },
        ) => delay == d && signal.as_slice() == s.as_slice(),
        _ => false,
    }
}

/// Whether the head is that of the accept.
fn is_head(alloc: Global, wanted: Option<&Head>, head: &Head) -> Result<bool> {
    let Some(wanted) = wanted else {
        return Ok(false);
    };
    let text = write_head(alloc, head)?;
    Ok(write_head(alloc, wanted)?.as_slice() == text.as_slice())
}

/// Whether an exit that the log holds is the last one of a writer, and then all that was sent is there; without one no commit
/// point has answered an exit.
fn is_exit(alloc: Global, ledger: &Ledger, found: &Found) -> Result<bool> {
    match (ledger.exit, &found.exit) {
        (_, None) => Ok(!ledger.finished),
        (None, Some(_)) => Ok(false),
        (Some(wanted), Some(exit)) => {
            let is_whole = found.records.len() == ledger.sent.len();
            Ok(is_whole && is_same_exit(alloc, wanted, exit)?)
        }
    }
}

fn is_same_exit(alloc: Global, wanted: &Exit, exit: &Exit) -> Result<bool> {
    let text = write_exit(alloc, exit)?;
    Ok(write_exit(alloc, wanted)?.as_slice() == text.as_slice())
}
