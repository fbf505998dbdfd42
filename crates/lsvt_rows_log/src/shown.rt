//! What is read of the log, as a text.

use anyhow::{Result, anyhow};
use lsv_base::{Bytes, LogNo};
use lsv_iolog::{LogView, ViewFault};
use lsv_record::{Record, lay};
use lsvt_doubles::Hostile;
use std::alloc::Global;

/// The number of the one log.
pub fn number() -> Result<LogNo> {
    LogNo::new(1296).ok_or(anyhow!("a number"))
}

/// Adds the bytes of a file, where it has some.
fn add_text(alloc: Global, text: &mut String, name: &str, bytes: &Bytes) -> Result<()> {
    if bytes.as_slice().is_empty() {
        return Ok(());
    }
    let digits = hex::encode(alloc, bytes.as_slice())?;
    text.push_str(format!(in alloc; " {name} {digits}")?.as_str())?;
    Ok(())
}

/// All that is told of a log: its records, how often it was cut, and whether it has its exit.
fn log_text(alloc: Global, records: &[Record], cuts: u64, has_exit: bool) -> Result<String> {
    let count = records.len();
    let mut text = format!(in alloc; "{count} records, {cuts} cuts, exit {has_exit},")?;
    let laid = lay(alloc, records)?;
    add_text(alloc, &mut text, "timing", &laid.timing)?;
    add_text(alloc, &mut text, "stdin", &laid.stdin)?;
    add_text(alloc, &mut text, "stdout", &laid.stdout)?;
    add_text(alloc, &mut text, "stderr", &laid.stderr)?;
    add_text(alloc, &mut text, "ttyin", &laid.ttyin)?;
    add_text(alloc, &mut text, "ttyout", &laid.ttyout)?;
    Ok(text)
}

/// What is read of the log: whether it is absent or damaged, or all that is told of it.
pub fn shown(alloc: Global, disk: &mut Hostile) -> Result<String> {
    let mut view = match LogView::open(alloc, disk, number()?) {
        Ok(view) => view,
        Err(fault) => return Ok(format!(in alloc; "{fault}")?),
    };
    let body = view.body();
    let mut records = Vec::new(alloc);
    for _ in 0..body.count {
        if let Some(r) = view.next(disk)? {
            records.push(r)?;
        }
    }
    let has_exit = view.exit(disk)?.is_some();
    log_text(alloc, &records, body.extra, has_exit)
}

/// Whether this is what is told of an absent log.
pub fn is_absent(alloc: Global, text: &str) -> Result<bool> {
    let absent = ViewFault::Absent;
    Ok(text == format!(in alloc; "{absent}")?.as_str())
}
