//! How replies and logs are printed.

use anyhow::{Result, anyhow};
use lsv_base::{Bytes, LogNo};
use lsv_msg::put_server;
use lsv_record::{Record, lay};
use lsv_session::{Reply, ReplyBody};
use std::alloc::Global;

/// The line of a reply: the frame of its message in hexadecimal digits, or that the connection is shut.
pub fn reply_line(alloc: Global, reply: &Reply) -> Result<String> {
    let worker = reply.conn.worker;
    let seq = reply.conn.seq;
    match &reply.body {
        ReplyBody::Say(message) => {
            let mut framed = Bytes::new(alloc);
            put_server(alloc, &mut framed, message)?;
            let digits = hex::encode(alloc, framed.as_slice())?;
            Ok(format!(in alloc; "> {worker}.{seq} {digits}\n")?)
        }
        ReplyBody::Shut if reply.last => Ok(format!(in alloc; "> {worker}.{seq} shut last\n")?),
        ReplyBody::Shut => Ok(format!(in alloc; "> {worker}.{seq} shut\n")?),
    }
}

/// The lines of replies.
pub fn reply_lines(alloc: Global, replies: &[Reply]) -> Result<String> {
    let mut lines = String::new(alloc);
    for reply in replies {
        lines.push_str(reply_line(alloc, reply)?.as_str())?;
    }
    Ok(lines)
}

/// Adds the line of a text of a log, where it isn't empty.
fn add_text(alloc: Global, lines: &mut String, name: &str, text: &Bytes) -> Result<()> {
    if !text.as_slice().is_empty() {
        let digits = hex::encode(alloc, text.as_slice())?;
        lines.push_str(format!(in alloc; "  {name} {digits}\n")?.as_str())?;
    }
    Ok(())
}

/// The lines of a log: its number, records, nanoseconds and cuts, whether it has its exit, and its texts.
pub fn log_lines(
    alloc: Global,
    number: LogNo,
    records: &[Record],
    elapsed: u64,
    cuts: u64,
    has_exit: bool,
) -> Result<String> {
    let digits = number.digits();
    let digits = str::from_utf8(&digits).map_err(|_| anyhow!("digits"))?;
    let count = records.len();
    let end = if has_exit { "exit" } else { "open" };
    let mut lines = format!(in alloc; "log {digits} {count} {elapsed} {cuts} {end}\n")?;
    let laid = lay(alloc, records)?;
    add_text(alloc, &mut lines, "timing", &laid.timing)?;
    add_text(alloc, &mut lines, "stdin", &laid.stdin)?;
    add_text(alloc, &mut lines, "stdout", &laid.stdout)?;
    add_text(alloc, &mut lines, "stderr", &laid.stderr)?;
    add_text(alloc, &mut lines, "ttyin", &laid.ttyin)?;
    add_text(alloc, &mut lines, "ttyout", &laid.ttyout)?;
    Ok(lines)
}

/// The lines of a log's head and exit.
pub fn ends_lines(alloc: Global, head: &[u8], exit: &[u8]) -> Result<String> {
    let mut lines = String::new(alloc);
    add_text(alloc, &mut lines, "head", &Bytes::of(alloc, head)?)?;
    add_text(alloc, &mut lines, "ending", &Bytes::of(alloc, exit)?)?;
    Ok(lines)
}

/// The lines of an event log.
pub fn line_lines(alloc: Global, text: &[u8]) -> Result<String> {
    let text = str::from_utf8(text).map_err(|_| anyhow!("an event line"))?;
    let mut lines = String::new(alloc);
    for line in text.lines() {
        lines.push_str(format!(in alloc; "line {line}\n")?.as_str())?;
    }
    Ok(lines)
}
