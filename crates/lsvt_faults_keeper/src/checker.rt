//! The checker: whether what a disk holds is what a history promises. It looks at jobs and replies that were given and at
//! what is recovered, and at nothing that a server keeps, so it serves each server whose turns are known.

use crate::found::{Found, found_lines, found_log};
use crate::good::is_good;
use crate::history::Happened;
use crate::ledger::ledger_of;
use crate::lines::may_hold;
use anyhow::{Result, anyhow};
use lsv_base::LogNo;
use lsv_disk::Disk;
use std::alloc::Global;

/// Up to which number logs are looked for.
const MOST_LOGS: u32 = 6;

/// The lane whose event log is looked at.
const LANE: u32 = 0;

/// What breaks a promise: none where all hold. The last `cut` of what happened are the jobs of a turn that was cut: of each
/// log some first of them may have been done.
pub fn breach<D: Disk>(
    alloc: Global,
    disk: &mut D,
    history: &[Happened],
    cut: usize,
) -> Result<Option<String>> {
    for n in 1..=MOST_LOGS {
        let number = LogNo::new(n).ok_or(anyhow!("a number"))?;
        match found_log(alloc, disk, number) {
            Err(fault) => return Ok(Some(format!(in alloc; "log {n}: {fault}")?)),
            Ok(found) => {
                if !is_within(alloc, number, found.as_ref(), history, cut)? {
                    return Ok(Some(told(alloc, n, found.as_ref())?));
                }
            }
        }
    }
    breach_of_lines(alloc, disk, history)
}

/// What breaks a promise of the event log.
fn breach_of_lines<D: Disk>(
    alloc: Global,
    disk: &mut D,
    history: &[Happened],
) -> Result<Option<String>> {
    match found_lines(alloc, disk, LANE) {
        Err(fault) => Ok(Some(format!(in alloc; "event lines: {fault}")?)),
        Ok(text) if may_hold(alloc, history, text.as_slice())? => Ok(None),
        Ok(text) => {
            let count = text.as_slice().len();
            Ok(Some(format!(in alloc; "event lines: {count} bytes")?))
        }
    }
}

/// Whether what is recovered of a log is good for the history, without the last jobs of those that were cut, from none of
/// these on to all.
fn is_within(
    alloc: Global,
    number: LogNo,
    found: Option<&Found>,
    history: &[Happened],
    cut: usize,
) -> Result<bool> {
    for left in 0..=cut {
        let end = history.len().saturating_sub(left);
        let done = history.get(..end).unwrap_or(&[]);
        if is_good(alloc, &ledger_of(alloc, number, done)?, found)? {
            return Ok(true);
        }
    }
    Ok(false)
}

/// What is recovered of a log, in words.
fn told(alloc: Global, n: u32, found: Option<&Found>) -> Result<String> {
    let Some(found) = found else {
        return Ok(format!(in alloc; "log {n}: absent")?);
    };
    let count = found.records.len();
    let end = if found.exit.is_some() { "exit" } else { "open" };
    Ok(format!(in alloc; "log {n}: {count} records, {end}")?)
}
