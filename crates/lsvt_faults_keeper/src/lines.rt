//! Event lines: the line of a job, and what an event log may hold.

use crate::history::Happened;
use anyhow::{Result, anyhow};
use lsv_base::{Bytes, LogNo, TimeSpec};
use lsv_event::{Event, Peer, sudo_line};
use lsv_info::{Exit, Head};
use lsv_request::{Report, Request};
use lsv_session::ConnId;
use std::alloc::Global;

/// The moment of each turn.
pub const NOW: TimeSpec = TimeSpec { sec: 0, nsec: 0 };

/// The line of a request that was done, with the log that it names; none where it is no event.
pub fn line_of(
    alloc: Global,
    conn: ConnId,
    request: &Request,
    log: Option<LogNo>,
) -> Result<Bytes> {
    let peer = Peer {
        worker: conn.worker,
        seq: conn.seq,
    };
    match request {
        Request::Accept(accept) => accept_line(alloc, peer, log, &accept.head),
        Request::Reject(report) => reject_line(alloc, peer, report),
        Request::Exit(exit) => exit_line(alloc, peer, log, exit),
        _ => Ok(Bytes::new(alloc)),
    }
}

fn accept_line(alloc: Global, peer: Peer, log: Option<LogNo>, head: &Head) -> Result<Bytes> {
    let head = head.copy(alloc)?;
    if head.submit.point().is_none() {
        return Err(anyhow!("a time"));
    }
    let event = Event::Accept {
        at: NOW,
        peer,
        log,
        head,
    };
    Ok(sudo_line(alloc, &event)?)
}

fn reject_line(alloc: Global, peer: Peer, report: &Report) -> Result<Bytes> {
    let reason = report.reason.copy(alloc)?;
    let submit = report.time;
    if submit.point().is_none() {
        return Err(anyhow!("a time"));
    }
    let info = report.info.copy(alloc)?;
    let event = Event::Reject {
        at: NOW,
        peer,
        reason,
        head: Head { submit, info },
    };
    Ok(sudo_line(alloc, &event)?)
}

fn exit_line(alloc: Global, peer: Peer, log: Option<LogNo>, exit: &Exit) -> Result<Bytes> {
    let exit = exit.copy(alloc)?;
    if exit.run.point().is_none() {
        return Err(anyhow!("a time"));
    }
    let event = Event::Exit {
        at: NOW,
        peer,
        log,
        exit,
    };
    Ok(sudo_line(alloc, &event)?)
}

/// Whether an event log may hold this text after a history: the lines of each turn that ended, but wholly lost where a call
/// on the event log failed in it; and those of a turn that was cut, or none of them.
pub fn may_hold(alloc: Global, history: &[Happened], text: &[u8]) -> Result<bool> {
    let mut ends = Vec::new(alloc);
    ends.push(0)?;
    let mut fresh = Bytes::new(alloc);
    for happened in history {
        let may_lose = match happened {
            Happened::Did(act) => {
                fresh.add(act.line.as_slice())?;
                continue;
            }
            Happened::Tailed(tail) => tail.lines_failed,
            Happened::Begins => true,
        };
        ends = ends_behind(alloc, &ends, fresh.as_slice(), text, may_lose)?;
        fresh = Bytes::new(alloc);
    }
    let ends = ends_behind(alloc, &ends, fresh.as_slice(), text, true)?;
    Ok(ends.contains(&text.len()))
}

/// Where the lines of a turn may end in the text, which begin at one of these places.
fn ends_behind(
    alloc: Global,
    starts: &[usize],
    lines: &[u8],
    text: &[u8],
    may_lose: bool,
) -> Result<Vec<usize>> {
    let mut ends = Vec::new(alloc);
    for start in starts {
        let rest = text.get(*start..).unwrap_or(&[]);
        if rest.starts_with(lines) {
            ends.push(start.saturating_add(lines.len()))?;
        }
        if may_lose && !lines.is_empty() {
            ends.push(*start)?;
        }
    }
    Ok(ends)
}
